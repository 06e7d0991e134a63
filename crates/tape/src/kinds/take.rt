//! Kind 04, `take`.
ghost use Rattle.std.specs.Prelude.{◌≡◌, ◌+◌, ◌++◌, length, IfOk, OnOk, OnErr};
ghost use Rattle.tr_io.specs.declared.answers.TakeAnswer.{TakeAnswer};
ghost use Rattle.tape.specs.Fronts.{FrontIs, FrontMeetsCall, RestIsShorter};
ghost use Rattle.tape.specs.Kinds.Take.{take_front, why_byte, take_bytes};

use crate::field::field;
use crate::first_cell::first_cell;
use crate::kinds::write_numbered;
use crate::record::{Front, Record};
use std::alloc::{AllocError, Global};
use tr_io::answers::{TakeAnswer, Why};
use tr_io::names::{ChanNo, CircNo};

/// Reads the record's fields. Only a cell of variable length takes memory.
#[tactic(auto, using(crate::proofs::Takes::taken, crate::proofs::Takes::cut_cell, crate::proofs::Takes::cut_channel))]
pub fn read(alloc: Global, fields: &[u8]) -> Result<Front<'_>, AllocError>
    ensures front { IfOk result (λ front. FrontIs front (take_front fields.now)) }
    ensures meets { IfOk result FrontMeetsCall }
    ensures shorter { IfOk result (λ front. RestIsShorter front (length fields.now + 1)) }
{
    if fields.len() < 8 {
        return Ok(Front::Cut);
    }
    let chan = ChanNo(u64::from_be_bytes(field(fields, 0)));
    match first_cell(alloc, &fields[8..])? {
        Some((cell, rest_bytes)) => Ok(Front::Whole(Record::Take(chan, cell), rest_bytes)),
        None => Ok(Front::Cut),
    }
}

/// Appends the answer.
pub fn write_take(answer: TakeAnswer, out: &mut Vec<u8>) -> Result<(), AllocError>
    ensures ok { OnOk result (out.new.items ≡ out.old.items ++ take_bytes answer) }
    ensures err { OnErr result (out.new.items ≡ out.old.items) }
{
    match answer {
        TakeAnswer::Queued => out.extend_from_slice(&[4, 0]),
        TakeAnswer::PassedOver(why) => out.extend_from_slice(&[4, 1, why_byte(why)]),
        TakeAnswer::Down(circ, reason) => write_down(circ, reason, out),
        TakeAnswer::Memory => Ok(()),
    }
}

/// Appends the answer that the circuit was torn down. Where memory is wanting for the reason, the rest goes as well.
fn write_down(circ: CircNo, reason: u8, out: &mut Vec<u8>) -> Result<(), AllocError>
    ensures ok { OnOk result (out.new.items ≡ out.old.items ++ take_bytes (TakeAnswer.Down circ reason)) }
    ensures err { OnErr result (out.new.items ≡ out.old.items) }
{
    let before = out.len();
    write_numbered([4, 2], &circ.0.to_be_bytes(), out)?;
    let written = out.extend_from_slice(&[reason]);
    if written.is_err() {
        out.truncate(before);
    }
    written
}

/// Why a cell is passed over, as a byte.
fn why_byte(why: Why) -> u8
    ensures { result ≡ why_byte why }
{
    match why {
        Why::NoChannel => 0,
        Why::Padding => 1,
        Why::Opening => 2,
        Why::Link => 3,
        Why::Unknown => 4,
        Why::NoCircuit => 5,
    }
}
