//! The answer of the kinds whose call gives a `BackAnswer`.
ghost use Rattle.std.specs.Prelude.{◌≡◌, ◌++◌, OnOk, OnErr};
ghost use Rattle.tape.specs.Kinds.Back.{back_bytes};

use std::alloc::AllocError;
use tr_io::answers::BackAnswer;

/// Appends the answer to a record of this kind.
pub fn write_back_answer(kind: u8, answer: BackAnswer, out: &mut Vec<u8>) -> Result<(), AllocError>
    ensures ok { OnOk result (out.new.items ≡ out.old.items ++ back_bytes kind answer) }
    ensures err { OnErr result (out.new.items ≡ out.old.items) }
{
    match answer {
        BackAnswer::Settled => out.extend_from_slice(&[kind, 0]),
        BackAnswer::Down(reason) => out.extend_from_slice(&[kind, 1, reason]),
        BackAnswer::Gone => out.extend_from_slice(&[kind, 2]),
        BackAnswer::Stranger(_) => out.extend_from_slice(&[kind, 3]),
    }
}
