//! How a session in memory begins, is read and is spoken to.
ghost use Rattle.std.specs.Prelude.{◌≡◌, ◌≢◌, ◌<◌, ◌≤◌, length, is_ok, if◌then◌else◌};
ghost use Rattle.tr_io.specs.declared.sink.WriteAnswer.TheVariants.{Took, Failed};
ghost use Rattle.tr_io.specs.Sources.{GotWithin};
ghost use Rattle.tr_io.specs.Sessions.{IsFresh, ReadsOn, SaysOn};
ghost use Rattle.tr_io.specs.MemorySlots.{session_of};

use crate::memory_session::{MemorySession, Script};
use crate::names::Dest;
use crate::source::ReadAnswer;
use std::alloc::AllocError;

impl MemorySession {
    pub(crate) fn begin(number: u64, to: Option<Dest>, script: Script) -> MemorySession
        ensures { IsFresh number to (session_of result) }
    {
        MemorySession {
            number,
            to,
            bytes: script.bytes,
            read_count: 0,
            greeting: script.greeting,
        }
    }

    pub(crate) fn read(&mut self, into: &mut [u8], most: usize) -> ReadAnswer
        requires some { 1 ≤ most }
        requires room { 0 < length into.old }
        ensures within { GotWithin result into.new }
        ensures session { ReadsOn result into.new (session_of self.old) (session_of self.new) }
        ensures never { result ≢ ReadAnswer.Failed }
    {
        let rest_bytes = &self.bytes[self.read_count..];
        let count = rest_bytes.len().min(into.len()).min(most);
        if count == 0 {
            return ReadAnswer::End;
        }
        into[..count].copy_from_slice(&rest_bytes[..count]);
        self.read_count += count;
        ReadAnswer::Got(count)
    }

    pub(crate) fn say(&mut self, piece: &[u8]) -> Result<(), AllocError>
        ensures session { SaysOn (if is_ok result then Took (length piece.now) else Failed) piece.now (session_of self.old)
            (session_of self.new) }
    {
        self.greeting.extend_from_slice(piece)
    }
}
