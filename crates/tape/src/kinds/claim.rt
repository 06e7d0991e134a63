//! Kind 05, `claim`.
ghost use Rattle.std.specs.Prelude.{◌≡◌, ◌+◌, ◌≤◌, ◌++◌, length, Some, OnOk, OnErr};
ghost use Rattle.tape.specs.Kinds.Claim.{claim_front, dir_byte, claim_bytes};
ghost use Rattle.tape.specs.Fronts.{FrontIs, FrontMeetsCall, RestIsShorter};

use crate::field::field;
use crate::record::{Front, Record};
use std::alloc::AllocError;
use tr_io::names::{ClaimNote, Dir};

/// Workers have the numbers below this one.
const WORKERS: u32 = 64;

/// Reads the record's fields.
#[tactic(auto, unfolding(crate::specs::Kinds::Claim::claim_front))]
pub fn read(fields: &[u8]) -> Front<'_>
    ensures front { FrontIs result (claim_front fields.now) }
    ensures meets { FrontMeetsCall result }
    ensures shorter { RestIsShorter result (length fields.now + 1) }
{
    if fields.len() < 4 {
        return Front::Cut;
    }
    let worker = u32::from_be_bytes(field(fields, 0));
    if worker >= WORKERS {
        return Front::Bad;
    }
    Front::Whole(Record::Claim(worker), &fields[4..])
}

/// Appends the answer: the note of the job that the worker was given, if it was given one.
pub fn write_claim(answer_note: Option<ClaimNote>, out: &mut Vec<u8>) -> Result<(), AllocError>
    ensures ok { OnOk result (out.new.items ≡ out.old.items ++ claim_bytes answer_note) }
    ensures err { OnErr result (out.new.items ≡ out.old.items) }
{
    match answer_note {
        Some(note) => write_note(&note, out),
        None => out.extend_from_slice(&[5, 1]),
    }
}

/// Appends the answer that is a job's note. Where memory is wanting for its second half, the first goes as well.
fn write_note(note: &ClaimNote, out: &mut Vec<u8>) -> Result<(), AllocError>
    ensures ok { OnOk result (out.new.items ≡ out.old.items ++ claim_bytes (Some note.now)) }
    ensures err { OnErr result (out.new.items ≡ out.old.items) }
{
    let before = out.len();
    let claim = note.claim.to_be_bytes();
    write_two(&[5, 0], &claim, &note.circ.0.to_be_bytes(), out)?;
    let first = note.first.to_be_bytes();
    let written = write_two(
        &[dir_byte(note.dir)],
        &first,
        &note.count.to_be_bytes(),
        out,
    );
    if written.is_err() {
        out.truncate(before);
    }
    written
}

/// Appends a few bytes and two numbers.
pub(super) fn write_two(
    head: &[u8],
    first: &[u8],
    second: &[u8],
    out: &mut Vec<u8>,
) -> Result<(), AllocError>
    requires { length head.now + length first.now + length second.now ≤ 31 }
    ensures ok { OnOk result (out.new.items ≡ out.old.items ++ (head.now ++ (first.now ++ second.now))) }
    ensures err { OnErr result (out.new.items ≡ out.old.items) }
{
    out.reserve(head.len() + first.len() + second.len())?;
    out.extend_from_slice(head)?;
    out.extend_from_slice(first)?;
    out.extend_from_slice(second)
}

/// A direction as a byte.
fn dir_byte(dir: Dir) -> u8
    ensures { result ≡ dir_byte dir }
{
    match dir {
        Dir::Forth => 0,
        Dir::Back => 1,
    }
}
