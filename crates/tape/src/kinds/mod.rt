//! The kinds of records, a file a kind: how the fields are read, and how the answer is spelled.
mod back;
pub mod channel_up;
pub mod claim;
pub mod dial_order;
pub mod next_cell;
pub mod open_circuit;
pub mod returns;
pub mod take;
pub mod tear_down;

ghost use Rattle.std.specs.Prelude.{◌≡◌, ◌++◌, OnOk, OnErr};

use std::alloc::AllocError;

/// Appends a kind and a tag, and the number that the tag brings.
fn write_numbered(head: [u8; 2], number: &[u8], out: &mut Vec<u8>) -> Result<(), AllocError>
    ensures ok { OnOk result (out.new.items ≡ out.old.items ++ (head ++ number.now)) }
    ensures err { OnErr result (out.new.items ≡ out.old.items) }
{
    out.reserve(head.len() + number.len())?;
    out.extend_from_slice(&head)?;
    out.extend_from_slice(number)
}
