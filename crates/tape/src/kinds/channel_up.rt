//! Kind 01, `channel_up`.
ghost use Rattle.std.specs.Prelude.{◌≡◌, ◌+◌, ◌++◌, length, OnOk, OnErr};
ghost use Rattle.tape.specs.Fronts.{FrontIs, FrontMeetsCall, RestIsShorter};
ghost use Rattle.tape.specs.Kinds.ChannelUp.{channel_up_front, up_bytes};

use crate::field::field;
use crate::kinds::write_numbered;
use crate::record::{Front, Record};
use std::alloc::AllocError;
use tr_io::answers::UpAnswer;
use tr_io::names::Side;

/// Reads the record's fields.
#[tactic(auto, unfolding(crate::specs::Kinds::ChannelUp::channel_up_front))]
pub fn read(fields: &[u8]) -> Front<'_>
    ensures front { FrontIs result (channel_up_front fields.now) }
    ensures meets { FrontMeetsCall result }
    ensures shorter { RestIsShorter result (length fields.now + 1) }
{
    if fields.len() < 5 {
        return Front::Cut;
    }
    let side = match fields[4] {
        0x00 => Side::PeerOpened,
        0x01 => Side::WeOpened,
        _ => return Front::Bad,
    };
    let slot = u32::from_be_bytes(field(fields, 0));
    Front::Whole(Record::ChannelUp(slot, side), &fields[5..])
}

/// Appends the answer.
pub fn write_up(answer: UpAnswer, out: &mut Vec<u8>) -> Result<(), AllocError>
    ensures ok { OnOk result (out.new.items ≡ out.old.items ++ up_bytes answer) }
    ensures err { OnErr result (out.new.items ≡ out.old.items) }
{
    match answer {
        UpAnswer::Up(chan) => write_numbered([1, 0], &chan.0.to_be_bytes(), out),
        UpAnswer::Full(count) => write_numbered([1, 1], &count.to_be_bytes(), out),
        UpAnswer::Memory => Ok(()),
    }
}
