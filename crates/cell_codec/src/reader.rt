ghost use Rattle.std.specs.Prelude.{◌≡◌, length, IfOk, Some, None};
ghost use Rattle.tor_spec.specs.CellReading.{cell_size, cell_of, first_size, first_of, wrong_start};
ghost use Rattle.cell_codec.specs.Cells.{wire_cell, IsWellFormed};

use crate::byte_list::Bytes;
use crate::cell::{Body, Cell};
use crate::layout::{CIRC, COMMAND, FIRST_CIRC, LENGTH, PAYLOAD};
use crate::sizes::has_variable_length;
use std::alloc::{AllocError, Global};

/// The cell that has exactly these bytes.
#[tactic(auto, unfolding(tor_spec::specs::CellReading::cell_size, tor_spec::specs::CellReading::cell_of))]
pub fn read_cell(alloc: Global, bytes: &[u8]) -> Result<Cell, AllocError>
    requires { cell_size bytes.now ≡ Some (length bytes.now) }
    ensures cell { IfOk result (λ c. wire_cell c ≡ cell_of bytes.now) }
    ensures well_formed { IfOk result IsWellFormed }
{
    let circ = u32::from_be_bytes([bytes[0], bytes[1], bytes[2], bytes[3]]);
    let command = bytes[CIRC];
    let body = if has_variable_length(command) {
        Body::Var(Bytes::of(alloc, &bytes[CIRC + COMMAND + LENGTH..])?)
    } else {
        let mut payload = [0; PAYLOAD];
        payload.copy_from_slice(&bytes[CIRC + COMMAND..]);
        Body::Fixed(payload)
    };
    Ok(Cell {
        circ,
        command,
        body,
    })
}

/// The cell that opens a link with exactly these bytes.
#[tactic(auto, using(tor_spec::proofs::WrongStarts::right_start), unfolding(tor_spec::specs::CellReading::first_size, tor_spec::specs::CellReading::first_of))]
pub fn read_first(alloc: Global, bytes: &[u8]) -> Result<Cell, AllocError>
    requires size { first_size bytes.now ≡ Some (length bytes.now) }
    requires start { wrong_start bytes.now ≡ None }
    ensures cell { IfOk result (λ c. wire_cell c ≡ first_of bytes.now) }
    ensures well_formed { IfOk result IsWellFormed }
{
    let circ = u16::from_be_bytes([bytes[0], bytes[1]]);
    let command = bytes[FIRST_CIRC];
    let payload = Bytes::of(alloc, &bytes[FIRST_CIRC + COMMAND + LENGTH..])?;
    Ok(Cell {
        circ: circ as u32,
        command,
        body: Body::Var(payload),
    })
}
