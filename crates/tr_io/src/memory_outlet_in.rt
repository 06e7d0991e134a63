//! The inward half of an outlet in memory, which tells what was read and fails at listed calls.
ghost use Rattle.std.specs.Prelude.{◌≡◌, ◌≢◌, ◌<◌, ◌≤◌, [], ◌∷◌, ◌++◌, Some, false, true, length, take};
ghost use Rattle.tr_io.specs.MemoryOutlets.{input_ends, is_read};
ghost use Rattle.tr_io.specs.MemorySlots.{pieces_of};
ghost use Rattle.tr_io.specs.Sources.{GotWithin};

use crate::failing_calls::FailingCalls;
use crate::memory_input::MemoryInput;
use crate::memory_slot_out::MemoryPiece;
use crate::outlet_in::OutletIn;
use crate::source::ReadAnswer;
use std::alloc::{AllocError, Global};

impl MemoryInput {
    // The next bytes, at most `most` and as many as fit, and how many they are.
    fn next(&mut self, into: &mut [u8], most: usize) -> usize
        requires some { 1 ≤ most }
        requires room { 0 < length into.old }
        ensures within { result ≤ length into.old }
        ensures size { length into.new ≡ length into.old }
        ensures none { result ≡ 0 → is_read self.old ≡ true }
        ensures more { result ≢ 0 → is_read self.old ≡ false }
    {
        let rest_bytes = &self.bytes[self.read_count..];
        let count = rest_bytes.len().min(into.len()).min(most);
        into[..count].copy_from_slice(&rest_bytes[..count]);
        self.read_count += count;
        count
    }
}

/// The inward half of an outlet, over the inputs of its sessions.
#[derive(Drop)]
pub struct MemoryOutletIn {
    alloc: Global,
    slot: u32,
    most: usize,
    inputs: Vec<MemoryInput>,
    pieces: Vec<MemoryPiece>,
    calls: FailingCalls,
    ghost some: { 1 ≤ most },
}

impl MemoryOutletIn {
    /// A half of this slot without sessions. A read gives at most `most` bytes. The reads with the listed
    /// numbers, counted from 0, fail, those in a session that isn't there, and those for which memory is
    /// wanting.
    pub fn new(alloc: Global, slot: u32, most: usize, failing_numbers: Vec<u64>) -> MemoryOutletIn
        requires { 1 ≤ most }
        ensures slot { result.slot ≡ slot }
        ensures pieces { result.pieces.items ≡ [] }
        ensures faults { result.calls.faults ≡ 0 }
    {
        MemoryOutletIn {
            alloc,
            slot,
            most,
            inputs: Vec::new(alloc),
            pieces: Vec::new(alloc),
            calls: FailingCalls::new(failing_numbers),
        }
    }

    /// The peer of the next session sends these bytes. The sessions have the numbers 0, 1, 2 and so on.
    pub fn add(&mut self, bytes: Vec<u8>) -> Result<(), AllocError> {
        self.inputs.push(MemoryInput {
            bytes,
            read_count: 0,
        })?;
        Ok(())
    }
}

impl OutletIn for MemoryOutletIn {
    ghost slot = { λ s. s.slot };

    ghost pieces = { λ s. Some (pieces_of s.pieces.items) };

    ghost is_at_end = { λ s session. Some (input_ends s.inputs.items session) };

    ghost faults = { λ s. s.calls.faults };

    fn read(&mut self, session: u64, into: &mut [u8]) -> ReadAnswer {
        if self.calls.fails() {
            return ReadAnswer::Failed;
        }
        let room = into.len().min(self.most);
        let Ok(mut bytes) = Vec::with_capacity(self.alloc, room) else {
            self.calls.count_fault();
            return ReadAnswer::Failed;
        };
        if self.pieces.reserve(1).is_err() {
            self.calls.count_fault();
            return ReadAnswer::Failed;
        }
        let Some(input) = self.inputs.get_mut(session as usize) else {
            self.calls.count_fault();
            return ReadAnswer::Failed;
        };
        let count = input.next(into, self.most);
        if count == 0 {
            return ReadAnswer::End;
        }
        if bytes.extend_from_slice(&into[..count]).is_err() {
            self.calls.count_fault();
            return ReadAnswer::Failed;
        }
        self.pieces.push_reserved(MemoryPiece { session, bytes });
        ReadAnswer::Got(count)
    }
}
