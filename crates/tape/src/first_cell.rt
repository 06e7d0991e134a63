//! Reads the cell at the front of bytes (tor-spec, "Cell format").
ghost use Rattle.std.specs.Prelude.{◌≡◌, ◌<◌, length, slice_index, IfOk, IfSome, MatchOption, Some, None};
ghost use Rattle.cell_codec.specs.Cells.{wire_cell, IsWellFormed};
ghost use Rattle.tor_spec.specs.CellEncoding.{is_variable};
ghost use Rattle.tor_spec.specs.CellReading.{cell_size, cell_of, cell_at};

use cell_codec::command::{VERSIONS, VPADDING};
use cell_codec::{Body, Bytes, Cell};
use std::alloc::{AllocError, Global};

/// How many bytes a cell has in front of its payload: the CircID and the command.
const HEAD: usize = 5;

/// The same for a cell of variable length, whose length is in front of its payload too.
const VARIABLE_HEAD: usize = 7;

/// How many bytes the payload of a cell of fixed length has.
const PAYLOAD: usize = 509;

/// The cell that the bytes begin with, if all of it is there, and what is behind it. Only a cell of variable length
/// takes memory.
pub fn first_cell(alloc: Global, bytes: &[u8]) -> Result<Option<(Cell, &[u8])>, AllocError>
    ensures cell { IfOk result
        (λ found. MatchOption found (cell_at bytes.now ≡ None) (λ x. cell_at bytes.now ≡ Some (wire_cell x.0, x.1.now))) }
    ensures well_formed { IfOk result (λ found. IfSome found (λ x. IsWellFormed x.0)) }
    ensures shorter { IfOk result (λ found. IfSome found (λ x. length x.1.now < length bytes.now)) }
{
    let Some((cell, rest_bytes)) = split_cell(bytes) else {
        return Ok(None);
    };
    Ok(Some((read_cell(alloc, cell)?, rest_bytes)))
}

/// The bytes of the cell that these begin with, if they have all of it, and those behind it.
#[tactic(auto, using(tor_spec::proofs::CellCuts::cell_ended, tor_spec::proofs::CellCuts::cell_untold, tor_spec::proofs::CellCuts::cell_unfinished))]
fn split_cell(bytes: &[u8]) -> Option<(&[u8], &[u8])>
    ensures at { MatchOption result (cell_at bytes.now ≡ None) (λ x. cell_at bytes.now ≡ Some (cell_of x.0.now, x.1.now)) }
    ensures size { IfSome result (λ x. cell_size x.0.now ≡ Some (length x.0.now)) }
    ensures shorter { IfSome result (λ x. length x.1.now < length bytes.now) }
{
    let size = size_of_cell(bytes)?;
    if size <= bytes.len() {
        Some(bytes.split_at(size))
    } else {
        None
    }
}

/// How many bytes the cell has that these begin with, once they tell.
#[tactic(auto, unfolding(tor_spec::specs::CellReading::cell_size))]
fn size_of_cell(bytes: &[u8]) -> Option<usize>
    ensures { result ≡ cell_size bytes.now }
{
    if bytes.len() < HEAD {
        return None;
    }
    if !has_variable_length(bytes[4]) {
        return Some(HEAD + PAYLOAD);
    }
    if bytes.len() < VARIABLE_HEAD {
        return None;
    }
    let length = u16::from_be_bytes([bytes[5], bytes[6]]);
    Some(VARIABLE_HEAD + length as usize)
}

/// Whether cells with this command have a payload of variable length.
fn has_variable_length(command: u8) -> bool
    ensures { result ≡ is_variable command }
{
    command == VERSIONS || command >= VPADDING
}

/// The cell that has exactly these bytes.
#[tactic(auto, unfolding(tor_spec::specs::CellReading::cell_size, tor_spec::specs::CellReading::cell_of))]
fn read_cell(alloc: Global, bytes: &[u8]) -> Result<Cell, AllocError>
    requires { cell_size bytes.now ≡ Some (length bytes.now) }
    ensures cell { IfOk result (λ c. wire_cell c ≡ cell_of bytes.now) }
    ensures well_formed { IfOk result IsWellFormed }
{
    let circ = u32::from_be_bytes([bytes[0], bytes[1], bytes[2], bytes[3]]);
    let command = bytes[4];
    let body = if has_variable_length(command) {
        Body::Var(Bytes::of(alloc, &bytes[VARIABLE_HEAD..])?)
    } else {
        let mut payload = [0; PAYLOAD];
        payload.copy_from_slice(&bytes[HEAD..]);
        Body::Fixed(payload)
    };
    Ok(Cell {
        circ,
        command,
        body,
    })
}
