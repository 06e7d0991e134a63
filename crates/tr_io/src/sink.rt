//! Where bytes go.
ghost use Rattle.std.specs.Prelude.{◌≡◌, ◌≢◌, ℕ, ◌≤◌, List, Option, []};
ghost use Rattle.tr_io.specs.Faults.{Rose};
ghost use Rattle.tr_io.specs.Sinks.{TookWithin, WritesTo, KeepsFlushed, FlushesAll};

/// What a write did.
#[derive(Clone, Copy, Debug, PartialEq, Eq)]
pub enum WriteAnswer {
    /// So many bytes from the front of the piece were taken: at least one, unless the piece is empty.
    Took(usize),
    /// The write failed, and the sink's count of faults rose.
    Failed,
}

/// A sink of bytes, with a count of its faults.
///
/// A sink in memory tells the bytes that were written, and those that are flushed: sent on for good. One
/// over a file or a terminal tells none.
pub trait Sink {
    /// The bytes written so far, where the sink tells them.
    ghost written: { Self → Option (List ℕ) };

    /// The bytes flushed so far, where the sink tells them.
    ghost flushed: { Self → Option (List ℕ) };

    /// How often the sink failed. The count rises at failures alone, and stands still at 2^64 - 1.
    ghost faults: { Self → ℕ };

    /// Takes bytes from the front of the piece, and of an empty piece none: `Took(0)`. A sink that takes
    /// nothing of a piece that has some answers `Failed`.
    fn write(&mut self, piece: &[u8]) -> WriteAnswer
        ensures within { TookWithin result piece.now }
        ensures empty { piece.now ≡ [] → result ≡ WriteAnswer.Took 0 }
        ensures bytes { WritesTo (written self.old) result piece.now (written self.new) }
        ensures flushed { KeepsFlushed (flushed self.old) (flushed self.new) }
        ensures counted { faults self.old ≤ faults self.new }
        ensures cause { result ≡ WriteAnswer.Failed → Rose (faults self.old) (faults self.new) }
        ensures steady { result ≢ WriteAnswer.Failed → faults self.new ≡ faults self.old };

    /// Sends on all that was taken: `Took(0)`, or `Failed`.
    fn flush(&mut self) -> WriteAnswer
        ensures within { TookWithin result [] }
        ensures bytes { WritesTo (written self.old) result [] (written self.new) }
        ensures flushed { KeepsFlushed (flushed self.old) (flushed self.new) }
        ensures all { FlushesAll result (written self.new) (flushed self.new) }
        ensures counted { faults self.old ≤ faults self.new }
        ensures cause { result ≡ WriteAnswer.Failed → Rose (faults self.old) (faults self.new) }
        ensures steady { result ≢ WriteAnswer.Failed → faults self.new ≡ faults self.old };
}
