//! Kind 08, `next_cell`.
ghost use Rattle.std.specs.Prelude.{◌≡◌, ◌+◌, ◌++◌, length, Some, IfSome, OnOk, OnErr};
ghost use Rattle.cell_codec.specs.Cells.{IsWellFormed};
ghost use Rattle.tape.specs.Fronts.{FrontIs, FrontMeetsCall, RestIsShorter};
ghost use Rattle.tape.specs.Kinds.NextCell.{next_cell_front, next_bytes};

use crate::field::field;
use crate::record::{Front, Record};
use cell_codec::{Cell, write_cell};
use std::alloc::AllocError;
use tr_io::names::ChanNo;

/// Reads the record's fields.
#[tactic(auto, unfolding(crate::specs::Kinds::NextCell::next_cell_front))]
pub fn read(fields: &[u8]) -> Front<'_>
    ensures front { FrontIs result (next_cell_front fields.now) }
    ensures meets { FrontMeetsCall result }
    ensures shorter { RestIsShorter result (length fields.now + 1) }
{
    if fields.len() < 16 {
        return Front::Cut;
    }
    let chan = ChanNo(u64::from_be_bytes(field(fields, 0)));
    let tick = u64::from_be_bytes(field(fields, 8));
    Front::Whole(Record::NextCell(chan, tick), &fields[16..])
}

/// Appends the answer.
pub fn write_next(answer: &Option<Cell>, out: &mut Vec<u8>) -> Result<(), AllocError>
    requires { IfSome answer.now IsWellFormed }
    ensures ok { OnOk result (out.new.items ≡ out.old.items ++ next_bytes answer.now) }
    ensures err { OnErr result (out.new.items ≡ out.old.items) }
{
    match answer {
        Some(cell) => write_sent(cell, out),
        None => out.extend_from_slice(&[8, 0]),
    }
}

/// Appends the answer that is a cell. Where memory is wanting for the cell, its tag goes as well.
fn write_sent(cell: &Cell, out: &mut Vec<u8>) -> Result<(), AllocError>
    requires { IsWellFormed cell.now }
    ensures ok { OnOk result (out.new.items ≡ out.old.items ++ next_bytes (Some cell.now)) }
    ensures err { OnErr result (out.new.items ≡ out.old.items) }
{
    let before = out.len();
    out.extend_from_slice(&[8, 1])?;
    let written = write_cell(cell, out);
    if written.is_err() {
        out.truncate(before);
    }
    written
}
