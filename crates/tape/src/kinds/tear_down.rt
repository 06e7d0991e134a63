//! Kind 0e, `tear_down`.
ghost use Rattle.std.specs.Prelude.{◌≡◌, ◌+◌, ◌++◌, length, OnOk, OnErr};
ghost use Rattle.tape.specs.Fronts.{FrontIs, FrontMeetsCall, RestIsShorter};
ghost use Rattle.tape.specs.Kinds.TearDown.{tear_down_front, tear_down_bytes};

use crate::field::field;
use crate::kinds::back::write_back_answer;
use crate::record::{Front, Record};
use std::alloc::AllocError;
use tr_io::answers::BackAnswer;
use tr_io::names::CircNo;

/// Reads the record's fields.
#[tactic(auto, unfolding(crate::specs::Kinds::TearDown::tear_down_front))]
pub fn read(fields: &[u8]) -> Front<'_>
    ensures front { FrontIs result (tear_down_front fields.now) }
    ensures meets { FrontMeetsCall result }
    ensures shorter { RestIsShorter result (length fields.now + 1) }
{
    if fields.len() < 9 {
        return Front::Cut;
    }
    let circ = CircNo(u64::from_be_bytes(field(fields, 0)));
    Front::Whole(Record::TearDown(circ, fields[8]), &fields[9..])
}

/// Appends the answer.
pub fn write_tear_down(answer: BackAnswer, out: &mut Vec<u8>) -> Result<(), AllocError>
    ensures ok { OnOk result (out.new.items ≡ out.old.items ++ tear_down_bytes answer) }
    ensures err { OnErr result (out.new.items ≡ out.old.items) }
{
    write_back_answer(0x0e, answer, out)
}
