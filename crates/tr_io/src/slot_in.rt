//! The inward half of a slot.
ghost use Rattle.std.specs.Prelude.{◌≡◌, ◌≢◌, ℕ, ◌<◌, ◌≤◌, Option, Some, None, length};
ghost use Rattle.tr_io.specs.Faults.{Rose};
ghost use Rattle.tr_io.specs.Sources.{GotWithin};
ghost use Rattle.tr_io.specs.Sinks.{TookWithin};
ghost use Rattle.tr_io.specs.Sessions.{SlotSessions, ComesTo, Numbers, HasNone, ReadsSession, SaysSession};

use crate::door_answer::DoorAnswer;
use crate::names::Dest;
use crate::sink::WriteAnswer;
use crate::source::ReadAnswer;

/// The inward half of a slot, which runs one session after another, with counts of its faults and of the
/// dials that were refused.
///
/// One in memory tells its sessions; one over a socket tells none.
pub trait SlotIn {
    /// The slot's number. Every implementation tells it.
    ghost slot: { Self → ℕ };

    /// The number that the next session has at least. Every implementation tells it.
    ghost next: { Self → ℕ };

    /// The sessions, where the half tells them.
    ghost sessions: { Self → Option SlotSessions };

    /// How many sessions the listener has left, where it tells that.
    ghost sessions_left: { Self → Option ℕ };

    /// How often the half failed. The count rises at failures alone, and stands still at 2^64 - 1.
    ghost faults: { Self → ℕ };

    /// How many dials were refused. The count rises at these alone, and stands still at 2^64 - 1.
    ghost refusals: { Self → ℕ };

    /// Waits for the next session that a peer opens.
    fn accept(&mut self) -> DoorAnswer
        ensures slot { slot self.new ≡ slot self.old }
        ensures numbers { Numbers result (next self.old) (next self.new) }
        ensures sessions { ComesTo result None (sessions self.old) (sessions self.new) }
        ensures none { result ≡ DoorAnswer.NoMore → HasNone (sessions_left self.old) }
        ensures counted { faults self.old ≤ faults self.new }
        ensures cause { result ≡ DoorAnswer.Failed → Rose (faults self.old) (faults self.new) }
        ensures steady { result ≢ DoorAnswer.Failed → faults self.new ≡ faults self.old }
        ensures refusals { refusals self.new ≡ refusals self.old }
        ensures never { result ≢ DoorAnswer.Refused };

    /// Opens a session to a peer.
    fn dial(&mut self, to: Dest) -> DoorAnswer
        ensures slot { slot self.new ≡ slot self.old }
        ensures numbers { Numbers result (next self.old) (next self.new) }
        ensures sessions { ComesTo result (Some to) (sessions self.old) (sessions self.new) }
        ensures counted { faults self.old ≤ faults self.new }
        ensures cause { result ≡ DoorAnswer.Failed → Rose (faults self.old) (faults self.new) }
        ensures steady { result ≢ DoorAnswer.Failed → faults self.new ≡ faults self.old }
        ensures refused { result ≡ DoorAnswer.Refused → Rose (refusals self.old) (refusals self.new) }
        ensures accepted { result ≢ DoorAnswer.Refused → refusals self.new ≡ refusals self.old }
        ensures refusals { refusals self.old ≤ refusals self.new }
        ensures never { result ≢ DoorAnswer.NoMore };

    /// Reads the present session's next bytes into the front of the buffer, which isn't empty.
    fn read(&mut self, into: &mut [u8]) -> ReadAnswer
        requires { 0 < length into.old }
        ensures slot { slot self.new ≡ slot self.old }
        ensures next { next self.new ≡ next self.old }
        ensures within { GotWithin result into.new }
        ensures sessions { ReadsSession result into.new (sessions self.old) (sessions self.new) }
        ensures counted { faults self.old ≤ faults self.new }
        ensures cause { result ≡ ReadAnswer.Failed → Rose (faults self.old) (faults self.new) }
        ensures steady { result ≢ ReadAnswer.Failed → faults self.new ≡ faults self.old }
        ensures refusals { refusals self.new ≡ refusals self.old };

    /// Says bytes from the front of the piece in the present session. The link is opened by it; cells go
    /// by the outward half.
    fn say(&mut self, piece: &[u8]) -> WriteAnswer
        ensures slot { slot self.new ≡ slot self.old }
        ensures next { next self.new ≡ next self.old }
        ensures within { TookWithin result piece.now }
        ensures sessions { SaysSession result piece.now (sessions self.old) (sessions self.new) }
        ensures counted { faults self.old ≤ faults self.new }
        ensures cause { result ≡ WriteAnswer.Failed → Rose (faults self.old) (faults self.new) }
        ensures steady { result ≢ WriteAnswer.Failed → faults self.new ≡ faults self.old }
        ensures refusals { refusals self.new ≡ refusals self.old };

    /// Ends the present session, in both directions, so that a read that waits there comes to its end.
    fn end(&mut self)
        ensures slot { slot self.new ≡ slot self.old }
        ensures next { next self.new ≡ next self.old }
        ensures sessions { sessions self.new ≡ sessions self.old }
        ensures faults { faults self.new ≡ faults self.old }
        ensures refusals { refusals self.new ≡ refusals self.old };
}
