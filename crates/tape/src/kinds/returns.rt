//! Kinds 06, `give_back`, and 07, `abandon`, which name a job by its claim number.
ghost use Rattle.std.specs.Prelude.{◌≡◌, ◌+◌, ◌++◌, length, OnOk, OnErr};
ghost use Rattle.tape.specs.declared.record.Record.TheVariants.{GiveBack, Abandon};
ghost use Rattle.tape.specs.Fronts.{FrontIs, FrontMeetsCall, RestIsShorter};
ghost use Rattle.tape.specs.Kinds.Return.{return_front, return_bytes};

use crate::field::field;
use crate::kinds::back::write_back_answer;
use crate::record::{Front, Record};
use std::alloc::AllocError;
use tr_io::answers::BackAnswer;

/// Reads the fields of a record that gives a job back.
#[tactic(auto, unfolding(crate::specs::Kinds::Return::return_front))]
pub fn read_give_back(fields: &[u8]) -> Front<'_>
    ensures front { FrontIs result (return_front GiveBack fields.now) }
    ensures meets { FrontMeetsCall result }
    ensures shorter { RestIsShorter result (length fields.now + 1) }
{
    if fields.len() < 8 {
        return Front::Cut;
    }
    let claim = u64::from_be_bytes(field(fields, 0));
    Front::Whole(Record::GiveBack(claim), &fields[8..])
}

/// Reads the fields of a record that abandons a job.
#[tactic(auto, unfolding(crate::specs::Kinds::Return::return_front))]
pub fn read_abandon(fields: &[u8]) -> Front<'_>
    ensures front { FrontIs result (return_front Abandon fields.now) }
    ensures meets { FrontMeetsCall result }
    ensures shorter { RestIsShorter result (length fields.now + 1) }
{
    if fields.len() < 8 {
        return Front::Cut;
    }
    let claim = u64::from_be_bytes(field(fields, 0));
    Front::Whole(Record::Abandon(claim), &fields[8..])
}

/// Appends the answer to a record of this kind: that of the switch, if the tape keeps the job.
pub fn write_return(
    kind: u8,
    answer: Option<BackAnswer>,
    out: &mut Vec<u8>,
) -> Result<(), AllocError>
    ensures ok { OnOk result (out.new.items ≡ out.old.items ++ return_bytes kind answer) }
    ensures err { OnErr result (out.new.items ≡ out.old.items) }
{
    match answer {
        Some(answer) => write_back_answer(kind, answer, out),
        None => out.extend_from_slice(&[kind, 4]),
    }
}
