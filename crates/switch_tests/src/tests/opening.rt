//! How a circuit is opened.

ghost use Rattle.std.specs.Prelude.{◌≡◌, IfOk, IfSome, IsTrue, false};
ghost use Rattle.cell_codec.specs.Cells.{is_var};
ghost use Rattle.tor_spec.specs.CellCommands.{opens_circuit};

use cell_codec::{Body, Cell, command};
use hop_handshake::{FastHandshake, Opening, opening_of};
use std::alloc::{AllocError, Global};

/// The CircID of the circuit that has this number in its switch.
pub fn circ_id(number: u32) -> u32 {
    0x8000_0001 + number % 512
}

/// The opening that CREATE_FAST asks for at this CircID, with a payload of zeros, where Y is zero.
pub fn opening_at(alloc: Global, id: u32) -> Result<Opening, AllocError>
    ensures fixed { IfOk result (λ o. is_var o.reply.body ≡ false) }
    ensures command { IfOk result (λ o. IfSome o.keys (λ _. IsTrue (opens_circuit o.reply.command))) }
{
    let cell = Cell {
        circ: id,
        command: command::CREATE_FAST,
        body: Body::Fixed([0; 509]),
    };
    opening_of(alloc, &cell, &FastHandshake, &[0; 20], None)
}
