//! The records of a tape.
ghost use Rattle.std.specs.Prelude.{◌≡◌, IsTrue};
ghost use Rattle.hop_handshake.specs.Opening.{cell_with};
ghost use Rattle.tor_spec.specs.CellCommands.{asks_for_circuit};
ghost use Rattle.tape.specs.Kinds.OpenCircuit.{command_byte};

use cell_codec::command::{CREATE, CREATE_FAST, CREATE2};
use cell_codec::{Body, Cell};
use tr_io::names::{ChanNo, CircNo, Side};

/// The commands that ask for a circuit (tor-spec, "Cell format").
#[derive(Clone, Copy)]
pub enum CreateCommand {
    Create,
    CreateFast,
    Create2,
}

impl CreateCommand {
    /// 1, 5 or 10.
    pub fn byte(self) -> u8
        ensures byte { result ≡ command_byte self }
        ensures asks { IsTrue (asks_for_circuit result) }
    {
        match self {
            CreateCommand::Create => CREATE,
            CreateCommand::CreateFast => CREATE_FAST,
            CreateCommand::Create2 => CREATE2,
        }
    }
}

/// A fixed cell that asks for a circuit.
#[derive(Drop)]
pub struct CircuitRequest {
    /// The CircID.
    pub id: u32,
    /// The command.
    pub command: CreateCommand,
    /// The payload.
    pub payload: [u8; 509],
}

impl CircuitRequest {
    /// The cell.
    pub fn cell(self) -> Cell
        ensures cell { result ≡ cell_with self.id (command_byte self.command) self.payload }
        ensures asks { IsTrue (asks_for_circuit result.command) }
    {
        Cell {
            circ: self.id,
            command: self.command.byte(),
            body: Body::Fixed(self.payload),
        }
    }
}

/// A record: a call of the switch, with its arguments.
#[derive(Drop)]
pub enum Record {
    /// `channel_up`: the slot, and the side that opened the connection.
    ChannelUp(u32, Side),
    /// `open_circuit`: the channel, the relay's Y, the key of the padding, if there is one, and the
    /// cell that asks for the circuit.
    OpenCircuit(ChanNo, [u8; 20], Option<[u8; 16]>, CircuitRequest),
    /// `take`: the channel, the cell that it brings.
    Take(ChanNo, Cell),
    /// `claim`: the worker, below 64.
    Claim(u32),
    /// `give_back` of the job of the claim with this number, once it is worked.
    GiveBack(u64),
    /// `abandon` of the job of the claim with this number.
    Abandon(u64),
    /// `next_cell`: the channel, the tick.
    NextCell(ChanNo, u64),
    /// `dial_order`.
    DialOrder,
    /// `tear_down`: the circuit, the reason.
    TearDown(CircNo, u8),
}

/// What the bytes of a tape begin with.
#[derive(Drop)]
pub enum Front<'a> {
    /// A whole record, and the bytes behind it.
    Whole(Record, &'a [u8]),
    /// Less than a record, as far as the bytes go.
    Cut,
    /// Bytes that begin no record.
    Bad,
    /// A record of this kind, which isn't built.
    NotBuilt(u8),
}
