//! The inward half of a slot in memory, which tells its sessions and fails at listed calls.
ghost use Rattle.std.specs.Prelude.{◌≡◌, ◌≢◌, ◌≤◌, Some, length};
ghost use Rattle.tr_io.specs.MemorySlots.{sessions_of};
ghost use Rattle.tr_io.specs.Faults.{Rose};
ghost use Rattle.tr_io.specs.Sessions.{Comes, Numbers, no_session};

use crate::door_answer::DoorAnswer;
use crate::failing_calls::FailingCalls;
use crate::memory_session::{MemorySession, Script};
use crate::names::Dest;
use crate::sink::WriteAnswer;
use crate::slot_in::SlotIn;
use crate::source::ReadAnswer;
use std::alloc::Global;

/// The inward half of a slot, over scripts of its sessions.
#[derive(Drop)]
pub struct MemorySlotIn {
    slot: u32,
    next: u64,
    most: usize,
    scripts: Vec<Script>,
    past_sessions: Vec<MemorySession>,
    present_session: Option<MemorySession>,
    calls: FailingCalls,
    refusals: u64,
    ghost some: { 1 ≤ most },
}

impl MemorySlotIn {
    /// A half of this slot, to which the scripted sessions come, the last of the list first, whether it
    /// accepts or dials. A read gives, and a word said takes, at most `most` bytes. The calls with the
    /// listed numbers fail, counted together from 0; `end` isn't counted. Where no script is left, an
    /// accept answers `NoMore` and a dial is refused.
    pub fn new(
        alloc: Global,
        slot: u32,
        scripts: Vec<Script>,
        most: usize,
        failing_numbers: Vec<u64>,
    ) -> MemorySlotIn
        requires { 1 ≤ most }
        ensures slot { result.slot ≡ slot }
        ensures next { result.next ≡ 0 }
        ensures sessions { sessions_of result.past_sessions.items result.present_session ≡ no_session }
        ensures waiting { result.scripts.items ≡ scripts.items }
        ensures faults { result.calls.faults ≡ 0 }
        ensures refusals { result.refusals ≡ 0 }
    {
        MemorySlotIn {
            slot,
            next: 0,
            most,
            scripts,
            past_sessions: Vec::new(alloc),
            present_session: None,
            calls: FailingCalls::new(failing_numbers),
            refusals: 0,
        }
    }

    // The next scripted session, dialled to there or accepted.
    fn come(&mut self, to: Option<Dest>) -> DoorAnswer
        ensures slot { self.new.slot ≡ self.old.slot }
        ensures numbers { Numbers result self.old.next self.new.next }
        ensures sessions { Comes result to (sessions_of self.old.past_sessions.items self.old.present_session)
            (sessions_of self.new.past_sessions.items self.new.present_session) }
        ensures none { result ≡ DoorAnswer.NoMore → length self.old.scripts.items ≡ 0 }
        ensures counted { self.old.calls.faults ≤ self.new.calls.faults }
        ensures cause { result ≡ DoorAnswer.Failed → Rose self.old.calls.faults self.new.calls.faults }
        ensures steady { result ≢ DoorAnswer.Failed → self.new.calls.faults ≡ self.old.calls.faults }
        ensures refusals { self.new.refusals ≡ self.old.refusals }
        ensures never { result ≢ DoorAnswer.Refused }
    {
        if self.calls.fails() {
            return DoorAnswer::Failed;
        }
        let Some(next_number) = self.next.checked_add(1) else {
            self.calls.count_fault();
            return DoorAnswer::Failed;
        };
        if self.past_sessions.reserve(1).is_err() {
            self.calls.count_fault();
            return DoorAnswer::Failed;
        }
        let Some(script) = self.scripts.pop() else {
            return DoorAnswer::NoMore;
        };
        let number = self.next;
        let session = MemorySession::begin(number, to, script);
        if let Some(past_session) = self.present_session.replace(session) {
            self.past_sessions.push_reserved(past_session);
        }
        self.next = next_number;
        DoorAnswer::Came(number)
    }

    /// What was said in the present session; nothing where there is none.
    pub fn greeting(&self) -> &[u8] {
        match &self.present_session {
            Some(session) => session.greeting.as_slice(),
            None => &[],
        }
    }
}

impl SlotIn for MemorySlotIn {
    ghost slot = { λ s. s.slot };

    ghost next = { λ s. s.next };

    ghost sessions = { λ s. Some (sessions_of s.past_sessions.items s.present_session) };

    ghost sessions_left = { λ s. Some (length s.scripts.items) };

    ghost faults = { λ s. s.calls.faults };

    ghost refusals = { λ s. s.refusals };

    fn accept(&mut self) -> DoorAnswer {
        self.come(None)
    }

    fn dial(&mut self, to: Dest) -> DoorAnswer {
        let answer = self.come(Some(to));
        if answer == DoorAnswer::NoMore {
            self.refusals = self.refusals.saturating_add(1);
            return DoorAnswer::Refused;
        }
        answer
    }

    fn read(&mut self, into: &mut [u8]) -> ReadAnswer {
        if self.calls.fails() {
            return ReadAnswer::Failed;
        }
        match &mut self.present_session {
            Some(session) => session.read(into, self.most),
            None => {
                self.calls.count_fault();
                ReadAnswer::Failed
            }
        }
    }

    fn say(&mut self, piece: &[u8]) -> WriteAnswer {
        if self.calls.fails() {
            return WriteAnswer::Failed;
        }
        let Some(session) = &mut self.present_session else {
            self.calls.count_fault();
            return WriteAnswer::Failed;
        };
        let count = piece.len().min(self.most);
        if session.say(&piece[..count]).is_err() {
            self.calls.count_fault();
            return WriteAnswer::Failed;
        }
        WriteAnswer::Took(count)
    }

    fn end(&mut self) {}
}
