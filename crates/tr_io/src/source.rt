//! Where bytes come from.
ghost use Rattle.std.specs.Prelude.{◌≡◌, ◌≢◌, ℕ, ◌<◌, ◌≤◌, List, Option, length};
ghost use Rattle.tr_io.specs.Faults.{Rose};
ghost use Rattle.tr_io.specs.Sources.{GotWithin, ReadsFrom};

/// What a read gave.
#[derive(Clone, Copy, Debug, PartialEq, Eq)]
pub enum ReadAnswer {
    /// So many bytes stand at the front of the buffer: at least one.
    Got(usize),
    /// Nothing is left to read.
    End,
    /// The read failed, and the source's count of faults rose.
    Failed,
}

/// A source of bytes, with a count of its faults.
///
/// A source in memory tells the bytes that it has left; one over a file or a terminal tells none.
pub trait Source {
    /// The bytes that are left, where the source tells them.
    ghost rest: { Self → Option (List ℕ) };

    /// How often the source failed. The count rises at failures alone, and stands still at 2^64 - 1.
    ghost faults: { Self → ℕ };

    /// Reads the next bytes into the front of the buffer, which isn't empty.
    fn read(&mut self, into: &mut [u8]) -> ReadAnswer
        requires { 0 < length into.old }
        ensures within { GotWithin result into.new }
        ensures bytes { ReadsFrom (rest self.old) result into.new (rest self.new) }
        ensures counted { faults self.old ≤ faults self.new }
        ensures cause { result ≡ ReadAnswer.Failed → Rose (faults self.old) (faults self.new) }
        ensures steady { result ≢ ReadAnswer.Failed → faults self.new ≡ faults self.old };
}
