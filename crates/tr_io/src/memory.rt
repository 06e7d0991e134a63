//! A source and a sink in memory, which tell their bytes and fail at listed calls.
ghost use Rattle.std.specs.Prelude.{◌≡◌, ◌≢◌, ◌<◌, ◌≤◌, [], Some, length, take, IsTrue, min};
ghost use Rattle.tr_io.specs.Faults.{Rose};
ghost use Rattle.tr_io.specs.Memory.{is_listed, next_call, read_answer, flush_answer, calls_after_write};
ghost use Rattle.tr_io.specs.Sinks.{TookWithin, WritesTo, KeepsFlushed, FlushesAll};
ghost use Rattle.tr_io.specs.Sources.{GotWithin, ReadsFrom};

use crate::failing_calls::FailingCalls;
use crate::sink::{Sink, WriteAnswer};
use crate::source::{ReadAnswer, Source};
use std::alloc::Global;
use std::marker::Model;

/// A source over bytes in memory.
#[derive(Drop)]
pub struct MemorySource {
    bytes: Vec<u8>,
    read_count: usize,
    most: usize,
    calls: FailingCalls,
}

impl Model for MemorySource {
    ghost use Rattle.std.specs.Prelude.{◌≤◌, drop, length};
    ghost use Rattle.tr_io.specs.Memory.{SourceState};

    ghost Value = { SourceState };

    ghost view = { λ s. record { rest = drop s.read_count s.bytes.items; most = s.most; failing_numbers = s.calls.failing_numbers.items; calls = s.calls.next; faults = s.calls.faults } };

    ghost invariant = { λ s. (s.read_count ≤ length s.bytes.items) × (1 ≤ s.most) };
}

impl MemorySource {
    /// A source of these bytes, which gives at most `most` of them a read, and fails at the reads
    /// with the listed numbers, counted from 0.
    pub fn new(bytes: Vec<u8>, most: usize, failing_numbers: Vec<u64>) -> MemorySource
        requires { 1 ≤ most }
        ensures { result ≡ record {
          rest = bytes.items;
          most = most;
          failing_numbers = failing_numbers.items;
          calls = 0;
          faults = 0;
        } }
    {
        MemorySource {
            bytes,
            read_count: 0,
            most,
            calls: FailingCalls::new(failing_numbers),
        }
    }
}

impl Source for MemorySource {
    ghost rest = { λ s. Some s.rest };

    ghost faults = { λ s. s.faults };

    fn read(&mut self, into: &mut [u8]) -> ReadAnswer
        requires { 0 < length into.old }
        ensures within { GotWithin result into.new }
        ensures bytes { ReadsFrom (Some self.old.rest) result into.new (Some self.new.rest) }
        ensures counted { self.old.faults ≤ self.new.faults }
        ensures cause { result ≡ ReadAnswer.Failed → Rose self.old.faults self.new.faults }
        ensures steady { result ≢ ReadAnswer.Failed → self.new.faults ≡ self.old.faults }
        ensures answer { result ≡ read_answer self.old (length into.old) }
        ensures calls { self.new.calls ≡ next_call self.old.calls }
        ensures failing { self.new.failing_numbers ≡ self.old.failing_numbers }
        ensures most { self.new.most ≡ self.old.most }
    {
        if self.calls.fails() {
            return ReadAnswer::Failed;
        }
        let rest_bytes = &self.bytes[self.read_count..];
        let count = rest_bytes.len().min(into.len()).min(self.most);
        if count == 0 {
            return ReadAnswer::End;
        }
        into[..count].copy_from_slice(&rest_bytes[..count]);
        self.read_count += count;
        ReadAnswer::Got(count)
    }
}

/// A sink into memory.
#[derive(Drop)]
pub struct MemorySink {
    bytes: Vec<u8>,
    flushed_count: usize,
    most: usize,
    calls: FailingCalls,
}

impl Model for MemorySink {
    ghost use Rattle.std.specs.Prelude.{◌≤◌, length};
    ghost use Rattle.tr_io.specs.Memory.{SinkState};

    ghost Value = { SinkState };

    ghost view = { λ s. record { written = s.bytes.items; flushed_count = s.flushed_count; most = s.most; failing_numbers = s.calls.failing_numbers.items; calls = s.calls.next; faults = s.calls.faults } };

    ghost invariant = { λ s. (s.flushed_count ≤ length s.bytes.items) × (1 ≤ s.most) };
}

impl MemorySink {
    /// An empty sink, which takes at most `most` bytes a write, and fails at the calls of `write`
    /// and `flush` with the listed numbers, counted together from 0; a write of no bytes isn't
    /// counted. It fails, too, where memory for the bytes is wanting.
    pub fn new(alloc: Global, most: usize, failing_numbers: Vec<u64>) -> MemorySink
        requires { 1 ≤ most }
        ensures { result ≡ record {
          written = [];
          flushed_count = 0;
          most = most;
          failing_numbers = failing_numbers.items;
          calls = 0;
          faults = 0;
        } }
    {
        MemorySink {
            bytes: Vec::new(alloc),
            flushed_count: 0,
            most,
            calls: FailingCalls::new(failing_numbers),
        }
    }

    /// The bytes written so far.
    pub fn as_slice(&self) -> &[u8]
        ensures { result.now ≡ self.now.written }
    {
        self.bytes.as_slice()
    }

    /// The bytes flushed so far.
    pub fn flushed(&self) -> &[u8]
        ensures { result.now ≡ take self.now.flushed_count self.now.written }
    {
        &self.bytes[..self.flushed_count]
    }
}

impl Sink for MemorySink {
    ghost written = { λ s. Some s.written };

    ghost flushed = { λ s. Some (take s.flushed_count s.written) };

    ghost faults = { λ s. s.faults };

    fn write(&mut self, piece: &[u8]) -> WriteAnswer
        ensures within { TookWithin result piece.now }
        ensures empty { piece.now ≡ [] → result ≡ WriteAnswer.Took 0 }
        ensures bytes { WritesTo (Some self.old.written) result piece.now (Some self.new.written) }
        ensures flushed { KeepsFlushed (Some (take self.old.flushed_count self.old.written))
            (Some (take self.new.flushed_count self.new.written)) }
        ensures counted { self.old.faults ≤ self.new.faults }
        ensures cause { result ≡ WriteAnswer.Failed → Rose self.old.faults self.new.faults }
        ensures steady { result ≢ WriteAnswer.Failed → self.new.faults ≡ self.old.faults }
        ensures listed { piece.now ≢ [] → IsTrue (is_listed self.old.failing_numbers self.old.calls)
            → result ≡ WriteAnswer.Failed }
        ensures took { result ≢ WriteAnswer.Failed → result ≡ WriteAnswer.Took (min (length piece.now) self.old.most) }
        ensures kept { self.new.flushed_count ≡ self.old.flushed_count }
        ensures calls { self.new.calls ≡ calls_after_write self.old.calls piece.now }
        ensures failing { self.new.failing_numbers ≡ self.old.failing_numbers }
        ensures most { self.new.most ≡ self.old.most }
    {
        if piece.is_empty() {
            return WriteAnswer::Took(0);
        }
        if self.calls.fails() {
            return WriteAnswer::Failed;
        }
        let count = piece.len().min(self.most);
        if self.bytes.extend_from_slice(&piece[..count]).is_err() {
            self.calls.count_fault();
            return WriteAnswer::Failed;
        }
        WriteAnswer::Took(count)
    }

    fn flush(&mut self) -> WriteAnswer
        ensures within { TookWithin result [] }
        ensures bytes { WritesTo (Some self.old.written) result [] (Some self.new.written) }
        ensures flushed { KeepsFlushed (Some (take self.old.flushed_count self.old.written))
            (Some (take self.new.flushed_count self.new.written)) }
        ensures all { FlushesAll result (Some self.new.written) (Some (take self.new.flushed_count self.new.written)) }
        ensures counted { self.old.faults ≤ self.new.faults }
        ensures cause { result ≡ WriteAnswer.Failed → Rose self.old.faults self.new.faults }
        ensures steady { result ≢ WriteAnswer.Failed → self.new.faults ≡ self.old.faults }
        ensures answer { result ≡ flush_answer self.old }
        ensures written { self.new.written ≡ self.old.written }
        ensures calls { self.new.calls ≡ next_call self.old.calls }
        ensures failing { self.new.failing_numbers ≡ self.old.failing_numbers }
        ensures most { self.new.most ≡ self.old.most }
    {
        if self.calls.fails() {
            return WriteAnswer::Failed;
        }
        self.flushed_count = self.bytes.as_slice().len();
        WriteAnswer::Took(0)
    }
}
