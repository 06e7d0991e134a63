//! The outward half of a slot in memory, which tells its pieces and fails at listed calls.
ghost use Rattle.std.specs.Prelude.{◌≡◌, ◌≤◌, [], Some};
ghost use Rattle.tr_io.specs.MemorySlots.{pieces_of};

use crate::failing_calls::FailingCalls;
use crate::sink::WriteAnswer;
use crate::slot_out::SlotOut;
use std::alloc::Global;

/// A piece that was written.
#[derive(Drop)]
pub struct MemoryPiece {
    /// The session.
    pub session: u64,
    /// The bytes.
    pub bytes: Vec<u8>,
}

/// The outward half of a slot, into memory.
#[derive(Drop)]
pub struct MemorySlotOut {
    alloc: Global,
    slot: u32,
    most: usize,
    pieces: Vec<MemoryPiece>,
    calls: FailingCalls,
    ghost some: { 1 ≤ most },
}

impl MemorySlotOut {
    /// A half of this slot, which takes at most `most` bytes a write. The writes with the listed numbers,
    /// counted from 0, fail, and those for whose bytes memory is wanting.
    pub fn new(alloc: Global, slot: u32, most: usize, failing_numbers: Vec<u64>) -> MemorySlotOut
        requires { 1 ≤ most }
        ensures slot { result.slot ≡ slot }
        ensures written { result.pieces.items ≡ [] }
        ensures faults { result.calls.faults ≡ 0 }
    {
        MemorySlotOut {
            alloc,
            slot,
            most,
            pieces: Vec::new(alloc),
            calls: FailingCalls::new(failing_numbers),
        }
    }

    /// The pieces that were written, in order.
    pub fn pieces(&self) -> &[MemoryPiece]
        ensures { ⟦<MemorySlotOut as SlotOut>⟧.written self.now ≡ Some (pieces_of result.now) }
    {
        self.pieces.as_slice()
    }
}

impl SlotOut for MemorySlotOut {
    ghost slot = { λ s. s.slot };

    ghost written = { λ s. Some (pieces_of s.pieces.items) };

    ghost faults = { λ s. s.calls.faults };

    fn write(&mut self, session: u64, piece: &[u8]) -> WriteAnswer {
        if self.calls.fails() {
            return WriteAnswer::Failed;
        }
        let count = piece.len().min(self.most);
        let Ok(bytes) = Vec::from_slice(self.alloc, &piece[..count]) else {
            self.calls.count_fault();
            return WriteAnswer::Failed;
        };
        if self.pieces.push(MemoryPiece { session, bytes }).is_err() {
            self.calls.count_fault();
            return WriteAnswer::Failed;
        }
        WriteAnswer::Took(count)
    }

    fn end(&mut self, _session: u64) {}
}
