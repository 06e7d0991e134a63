//! The outward half of a slot.
ghost use Rattle.std.specs.Prelude.{◌≡◌, ◌≢◌, ℕ, ◌≤◌, List, Option};
ghost use Rattle.tr_io.specs.Faults.{Rose};
ghost use Rattle.tr_io.specs.Sinks.{TookWithin};
ghost use Rattle.tr_io.specs.Pieces.{Piece, WritesFor};

use crate::sink::WriteAnswer;

/// The outward half of a slot, with a count of its faults.
///
/// One in memory tells the pieces that it wrote; one over a socket tells none.
pub trait SlotOut {
    /// The slot's number. Every implementation tells it.
    ghost slot: { Self → ℕ };

    /// The pieces that were written, in order, where the half tells them.
    ghost written: { Self → Option (List Piece) };

    /// How often the half failed. The count rises at failures alone, and stands still at 2^64 - 1.
    ghost faults: { Self → ℕ };

    /// Writes bytes from the front of the piece in that session.
    fn write(&mut self, session: u64, piece: &[u8]) -> WriteAnswer
        ensures slot { slot self.new ≡ slot self.old }
        ensures within { TookWithin result piece.now }
        ensures written { WritesFor session result piece.now (written self.old) (written self.new) }
        ensures counted { faults self.old ≤ faults self.new }
        ensures cause { result ≡ WriteAnswer.Failed → Rose (faults self.old) (faults self.new) }
        ensures steady { result ≢ WriteAnswer.Failed → faults self.new ≡ faults self.old };

    /// Ends that session, in both directions, so that a read that waits there comes to its end.
    fn end(&mut self, session: u64)
        ensures slot { slot self.new ≡ slot self.old }
        ensures written { written self.new ≡ written self.old }
        ensures faults { faults self.new ≡ faults self.old };
}
