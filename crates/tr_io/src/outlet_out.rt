//! The outward half of an outlet.
ghost use Rattle.std.specs.Prelude.{◌≡◌, ◌≢◌, ℕ, ◌≤◌, List, Option};
ghost use Rattle.tr_io.specs.Faults.{Rose};
ghost use Rattle.tr_io.specs.Sinks.{TookWithin};
ghost use Rattle.tr_io.specs.Sessions.{Numbers};
ghost use Rattle.tr_io.specs.Outlets.{OutletSession, Reaches};
ghost use Rattle.tr_io.specs.Pieces.{Piece, WritesFor};

use crate::door_answer::DoorAnswer;
use crate::names::Dest;
use crate::sink::WriteAnswer;

/// The outward half of an outlet, which reaches one destination after another, with counts of its faults
/// and of the destinations that refused.
///
/// One in memory tells its sessions and the pieces that it wrote; one over a socket tells none.
pub trait OutletOut {
    /// The outlet's slot. Every implementation tells it.
    ghost slot: { Self → ℕ };

    /// The number that the next session has at least. Every implementation tells it.
    ghost next: { Self → ℕ };

    /// The sessions, in order, where the half tells them.
    ghost sessions: { Self → Option (List OutletSession) };

    /// The pieces that were written, in order, where the half tells them.
    ghost written: { Self → Option (List Piece) };

    /// How often the half failed. The count rises at failures alone, and stands still at 2^64 - 1.
    ghost faults: { Self → ℕ };

    /// How often a destination refused. The count rises at this alone, and stands still at 2^64 - 1.
    ghost refusals: { Self → ℕ };

    /// Opens a session to a destination.
    fn reach(&mut self, to: Dest) -> DoorAnswer
        ensures slot { slot self.new ≡ slot self.old }
        ensures numbers { Numbers result (next self.old) (next self.new) }
        ensures sessions { Reaches result to (sessions self.old) (sessions self.new) }
        ensures written { written self.new ≡ written self.old }
        ensures counted { faults self.old ≤ faults self.new }
        ensures cause { result ≡ DoorAnswer.Failed → Rose (faults self.old) (faults self.new) }
        ensures steady { result ≢ DoorAnswer.Failed → faults self.new ≡ faults self.old }
        ensures refused { result ≡ DoorAnswer.Refused → Rose (refusals self.old) (refusals self.new) }
        ensures accepted { result ≢ DoorAnswer.Refused → refusals self.new ≡ refusals self.old }
        ensures refusals { refusals self.old ≤ refusals self.new }
        ensures never { result ≢ DoorAnswer.NoMore };

    /// Writes bytes from the front of the piece in that session.
    fn write(&mut self, session: u64, piece: &[u8]) -> WriteAnswer
        ensures slot { slot self.new ≡ slot self.old }
        ensures next { next self.new ≡ next self.old }
        ensures sessions { sessions self.new ≡ sessions self.old }
        ensures within { TookWithin result piece.now }
        ensures written { WritesFor session result piece.now (written self.old) (written self.new) }
        ensures counted { faults self.old ≤ faults self.new }
        ensures cause { result ≡ WriteAnswer.Failed → Rose (faults self.old) (faults self.new) }
        ensures steady { result ≢ WriteAnswer.Failed → faults self.new ≡ faults self.old }
        ensures refusals { refusals self.new ≡ refusals self.old };

    /// Ends that session, in both directions, so that a read that waits there comes to its end.
    fn end(&mut self, session: u64)
        ensures slot { slot self.new ≡ slot self.old }
        ensures next { next self.new ≡ next self.old }
        ensures sessions { sessions self.new ≡ sessions self.old }
        ensures written { written self.new ≡ written self.old }
        ensures faults { faults self.new ≡ faults self.old }
        ensures refusals { refusals self.new ≡ refusals self.old };
}
