ghost use Rattle.std.specs.Prelude.{◌≡◌, ◌+◌, ◌<◌, ◌∷◌, [], ◌++◌, length, take, slice_index, IfSome, IsTrue, ◌↔◌, true};
ghost use Rattle.std.specs.Int.{w16, to_be_bytes};
ghost use Rattle.tor_spec.specs.CellEncoding.{is_variable};
ghost use Rattle.tor_spec.specs.CellReading.{cell_size, first_size, wrong_start};

use crate::command::VERSIONS;
use crate::layout::{CIRC, COMMAND, FIRST_CIRC, LEAST_VARIABLE, LENGTH, PAYLOAD};

/// The byte at `i` of `rest` and then `piece`.
fn byte_at(rest: &[u8], piece: &[u8], i: usize) -> u8
    requires { i < length rest.now + length piece.now }
    ensures { result ≡ slice_index (rest.now ++ piece.now) i }
{
    if i < rest.len() {
        rest[i]
    } else {
        piece[i - rest.len()]
    }
}

/// Whether cells with this command have a payload of variable length.
pub fn has_variable_length(command: u8) -> bool
    ensures { result ≡ is_variable command }
{
    command == VERSIONS || command >= LEAST_VARIABLE
}

/// How many bytes the cell has that `rest` and then `piece` begin with, once they tell.
#[tactic(auto, unfolding(tor_spec::specs::CellReading::cell_size))]
pub fn size_of_cell(rest: &[u8], piece: &[u8]) -> Option<usize>
    ensures { result ≡ cell_size (rest.now ++ piece.now) }
{
    let have = rest.len() + piece.len();
    if have < CIRC + COMMAND {
        return None;
    }
    if !has_variable_length(byte_at(rest, piece, CIRC)) {
        return Some(CIRC + COMMAND + PAYLOAD);
    }
    if have < CIRC + COMMAND + LENGTH {
        return None;
    }
    let length = u16::from_be_bytes([byte_at(rest, piece, 5), byte_at(rest, piece, 6)]);
    Some(CIRC + COMMAND + LENGTH + length as usize)
}

/// The same for the cell that opens a link.
#[tactic(auto, unfolding(tor_spec::specs::CellReading::first_size))]
pub fn size_of_first(rest: &[u8], piece: &[u8]) -> Option<usize>
    ensures { result ≡ first_size (rest.now ++ piece.now) }
{
    if rest.len() + piece.len() < FIRST_CIRC + COMMAND + LENGTH {
        return None;
    }
    let length = u16::from_be_bytes([byte_at(rest, piece, 3), byte_at(rest, piece, 4)]);
    Some(FIRST_CIRC + COMMAND + LENGTH + length as usize)
}

/// The CircID and the command with which a link begins, once three bytes show that these aren't
/// 0 and VERSIONS.
#[tactic(auto, unfolding(tor_spec::specs::CellReading::wrong_start))]
pub fn start_of_other_link(rest: &[u8], piece: &[u8]) -> Option<(u16, u8)>
    ensures start { result ≡ wrong_start (rest.now ++ piece.now) }
    ensures bytes { IfSome result (λ x. to_be_bytes w16 x.0 ++ x.1 ∷ [] ≡ take 3 (rest.now ++ piece.now)) }
{
    if rest.len() + piece.len() < FIRST_CIRC + COMMAND {
        return None;
    }
    let circ = u16::from_be_bytes([byte_at(rest, piece, 0), byte_at(rest, piece, 1)]);
    let command = byte_at(rest, piece, 2);
    if circ == 0 && command == VERSIONS {
        return None;
    }
    Some((circ, command))
}
