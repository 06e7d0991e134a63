//! The outward half of an outlet in memory, which tells its sessions and pieces and fails at listed calls.
ghost use Rattle.std.specs.Prelude.{◌≡◌, ◌≤◌, [], Some};
ghost use Rattle.tr_io.specs.MemoryOutlets.{outlet_sessions};
ghost use Rattle.tr_io.specs.MemorySlots.{pieces_of};

use crate::door_answer::DoorAnswer;
use crate::failing_calls::FailingCalls;
use crate::memory_slot_out::MemoryPiece;
use crate::names::Dest;
use crate::outlet_out::OutletOut;
use crate::sink::WriteAnswer;
use std::alloc::Global;

/// The outward half of an outlet, into memory.
#[derive(Drop)]
pub struct MemoryOutletOut {
    alloc: Global,
    slot: u32,
    most: usize,
    sessions: Vec<Dest>,
    pieces: Vec<MemoryPiece>,
    refuses: Vec<Dest>,
    refusals: u64,
    calls: FailingCalls,
    ghost some: { 1 ≤ most },
}

impl MemoryOutletOut {
    /// A half of this slot, which takes at most `most` bytes a write, and is refused by the listed
    /// destinations. Its sessions have the numbers 0, 1, 2 and so on. The calls with the listed numbers
    /// fail, counted together from 0, and those for which memory is wanting; `end` isn't counted.
    pub fn new(
        alloc: Global,
        slot: u32,
        most: usize,
        refuses: Vec<Dest>,
        failing_numbers: Vec<u64>,
    ) -> MemoryOutletOut
        requires { 1 ≤ most }
        ensures slot { result.slot ≡ slot }
        ensures sessions { result.sessions.items ≡ [] }
        ensures written { result.pieces.items ≡ [] }
        ensures faults { result.calls.faults ≡ 0 }
        ensures refusals { result.refusals ≡ 0 }
    {
        MemoryOutletOut {
            alloc,
            slot,
            most,
            sessions: Vec::new(alloc),
            pieces: Vec::new(alloc),
            refuses,
            refusals: 0,
            calls: FailingCalls::new(failing_numbers),
        }
    }

    /// The pieces that were written, in order.
    pub fn pieces(&self) -> &[MemoryPiece]
        ensures { ⟦<MemoryOutletOut as OutletOut>⟧.written self.now ≡ Some (pieces_of result.now) }
    {
        self.pieces.as_slice()
    }
}

impl OutletOut for MemoryOutletOut {
    ghost use Rattle.std.specs.Prelude.{vec_len};

    ghost slot = { λ s. s.slot };

    ghost next = { λ s. vec_len s.sessions };

    ghost sessions = { λ s. Some (outlet_sessions s.sessions.items) };

    ghost written = { λ s. Some (pieces_of s.pieces.items) };

    ghost faults = { λ s. s.calls.faults };

    ghost refusals = { λ s. s.refusals };

    fn reach(&mut self, to: Dest) -> DoorAnswer {
        if self.calls.fails() {
            return DoorAnswer::Failed;
        }
        if self.refuses.contains(&to) {
            self.refusals = self.refusals.saturating_add(1);
            return DoorAnswer::Refused;
        }
        let number = self.sessions.len();
        if self.sessions.push(to).is_err() {
            self.calls.count_fault();
            return DoorAnswer::Failed;
        }
        DoorAnswer::Came(number as u64)
    }

    fn write(&mut self, session: u64, piece: &[u8]) -> WriteAnswer {
        if self.calls.fails() {
            return WriteAnswer::Failed;
        }
        let count = piece.len().min(self.most);
        let Ok(bytes) = Vec::from_slice(self.alloc, &piece[..count]) else {
            self.calls.count_fault();
            return WriteAnswer::Failed;
        };
        if self.pieces.push(MemoryPiece { session, bytes }).is_err() {
            self.calls.count_fault();
            return WriteAnswer::Failed;
        }
        WriteAnswer::Took(count)
    }

    fn end(&mut self, _session: u64) {}
}
