//! The inward half of an outlet.
ghost use Rattle.std.specs.Prelude.{◌≡◌, ◌≢◌, ℕ, ◌<◌, ◌≤◌, List, Option, Bool, length};
ghost use Rattle.tr_io.specs.Faults.{Rose};
ghost use Rattle.tr_io.specs.Sources.{GotWithin};
ghost use Rattle.tr_io.specs.Outlets.{ReadsFor, EndsRight};
ghost use Rattle.tr_io.specs.Pieces.{Piece};

use crate::source::ReadAnswer;

/// The inward half of an outlet, with a count of its faults.
///
/// One in memory tells the pieces that were read, and of each session whether its input is at its end; one
/// over a socket tells none.
pub trait OutletIn {
    /// The outlet's slot. Every implementation tells it.
    ghost slot: { Self → ℕ };

    /// The pieces that were read, in order, where the half tells them.
    ghost pieces: { Self → Option (List Piece) };

    /// Whether a session's input is at its end, where the half tells that.
    ghost is_at_end: { Self → ℕ → Option Bool };

    /// How often the half failed. The count rises at failures alone, and stands still at 2^64 - 1.
    ghost faults: { Self → ℕ };

    /// Reads the session's next bytes into the front of the buffer, which isn't empty.
    fn read(&mut self, session: u64, into: &mut [u8]) -> ReadAnswer
        requires { 0 < length into.old }
        ensures slot { slot self.new ≡ slot self.old }
        ensures within { GotWithin result into.new }
        ensures pieces { ReadsFor session result into.new (pieces self.old) (pieces self.new) }
        ensures ends { EndsRight result (is_at_end self.old session) }
        ensures others { (other : ℕ) → other ≢ session → is_at_end self.new other ≡ is_at_end self.old other }
        ensures counted { faults self.old ≤ faults self.new }
        ensures cause { result ≡ ReadAnswer.Failed → Rose (faults self.old) (faults self.new) }
        ensures steady { result ≢ ReadAnswer.Failed → faults self.new ≡ faults self.old };
}
