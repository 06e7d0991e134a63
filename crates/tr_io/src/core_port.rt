//! The switch as the relay's loops see it.
ghost use Rattle.std.specs.Prelude.{◌≡◌, ℕ, ◌<◌, List, [], ◌∷◌, Option, None, IfSome, IsTrue, false, option_map};
ghost use Rattle.cell_codec.specs.Cells.{is_var, IsWellFormed};
ghost use Rattle.tor_spec.specs.CellCommands.{opens_circuit};
ghost use Rattle.tr_io.specs.declared.step.Step.{Step};
ghost use Rattle.tr_io.specs.declared.step.Step.TheVariants as Made;
ghost use Rattle.tr_io.specs.PortSteps.{CallAdds, IfDid, IfSpent, IfJob, EdgeInAdds, EdgeOutAdds, FitsCell, up_steps, open_steps, take_steps, claim_steps, drained_steps, dial_done_steps, dial_step_of};

use crate::answers::{
    BackAnswer, ClaimAnswer, DialAnswer, EdgeAnswer, OpenAnswer, TakeAnswer, UpAnswer,
};
use crate::dials::{DialOrder, DialOutcome};
use crate::edges::{EdgeEvent, EdgeOrder};
use crate::names::{ChanNo, CircNo, Side, StreamKey};
use crate::port_parts::{PortDone, PortJob, PortOpening};
use crate::stepping::Turn;
use cell_codec::Cell;

/// A switch that many threads share, each with a pass of its own.
///
/// A pass tells the steps that were made with it, oldest first. Each call but `wait` is the step of the
/// switch that has its name: it stands, with its answer, behind the pass's steps. A call that wanted
/// memory, or for which no step was left (`Spent`), has changed nothing and is no step.
pub trait CorePort {
    /// The right to make steps.
    type Pass;

    /// What a claim gives.
    type Job: PortJob;

    /// What a worker gives back.
    type Done: PortDone<Self::Job>;

    /// What a circuit is opened with.
    type Opening: PortOpening;

    /// The pass is one of this port's.
    ghost is_own: { Self → Self.Pass → Type 0 };

    /// The steps that were made with a pass, oldest first.
    ghost mine: { Self.Pass → List Step };

    /// A claim with this pass gave the job.
    ghost gave: { Self.Pass → Self.Job → Type 0 };

    /// The pass has seen that no step is left: the switch's history has 2^62 of them.
    ghost is_spent: { Self.Pass → Type 0 };

    /// Brings a channel up at a slot.
    fn channel_up(&self, pass: &mut Self::Pass, slot: u32, side: Side) -> Turn<UpAnswer>
        requires { is_own self.now pass.old }
        ensures own { is_own self.now pass.new }
        ensures spent { IfSpent result (is_spent pass.new) }
        ensures step { CallAdds (up_steps slot side) (mine pass.old) result (mine pass.new) };

    /// Brings a channel down.
    fn channel_down(&self, pass: &mut Self::Pass, chan: ChanNo) -> Turn<BackAnswer>
        requires { is_own self.now pass.old }
        ensures own { is_own self.now pass.new }
        ensures spent { IfSpent result (is_spent pass.new) }
        ensures step { CallAdds (λ a. Made.ChannelDown chan a ∷ []) (mine pass.old) result (mine pass.new) };

    /// Opens a circuit at a CircID of a channel. The opening's reply is of fixed length and, where it has
    /// keys, a CREATED_FAST or CREATED2.
    fn open_circuit(
        &self,
        pass: &mut Self::Pass,
        chan: ChanNo,
        id: u32,
        opening: &Self::Opening,
    ) -> Turn<OpenAnswer>
        requires own { is_own self.now pass.old }
        requires fixed { is_var (Self.Opening.reply opening.now).body ≡ false }
        requires command { IfSome (Self.Opening.keys opening.now) (λ _. IsTrue (opens_circuit (Self.Opening.reply opening.now).command)) }
        ensures own { is_own self.now pass.new }
        ensures spent { IfSpent result (is_spent pass.new) }
        ensures step { CallAdds (open_steps chan id (Self.Opening.reply opening.now) (Self.Opening.keys opening.now)
            (Self.Opening.pad opening.now)) (mine pass.old) result (mine pass.new) };

    /// Takes in a cell, which is well formed.
    fn take(&self, pass: &mut Self::Pass, chan: ChanNo, cell: &Cell) -> Turn<TakeAnswer>
        requires own { is_own self.now pass.old }
        requires cell { IsWellFormed cell.now }
        ensures own { is_own self.now pass.new }
        ensures spent { IfSpent result (is_spent pass.new) }
        ensures step { CallAdds (take_steps chan cell.now) (mine pass.old) result (mine pass.new) };

    /// Claims a job for a worker, whose number is below 64.
    fn claim(&self, pass: &mut Self::Pass, worker: u32) -> Turn<ClaimAnswer<Self::Job>>
        requires own { is_own self.now pass.old }
        requires worker { worker < 64 }
        ensures own { is_own self.now pass.new }
        ensures spent { IfSpent result (is_spent pass.new) }
        ensures step { CallAdds (claim_steps Self.Job.note worker) (mine pass.old) result (mine pass.new) }
        ensures gave { IfDid result (IfJob (gave pass.new)) };

    /// Gives a job back that is done. Where it is one that a claim with this pass gave, worked, neither its
    /// start state nor a body of it differs from what the switch gave out.
    fn give_back(&self, pass: &mut Self::Pass, done: Self::Done) -> Turn<BackAnswer>
        requires { is_own self.now pass.old }
        ensures own { is_own self.now pass.new }
        ensures spent { IfSpent result (is_spent pass.new) }
        ensures step { (place : Option ℕ) × CallAdds (λ a. Made.GiveBack (Self.Done.note done) place a ∷ []) (mine pass.old) result
            (mine pass.new) }
        ensures same { (job : Self.Job) → gave pass.old job → Self.Done.is_of done job →
            CallAdds (λ a. Made.GiveBack (Self.Done.note done) None a ∷ []) (mine pass.old) result (mine pass.new) };

    /// Gives a job up, and its circuit. What `give_back` says of its content holds here too.
    fn abandon(&self, pass: &mut Self::Pass, job: Self::Job) -> Turn<BackAnswer>
        requires { is_own self.now pass.old }
        ensures own { is_own self.now pass.new }
        ensures spent { IfSpent result (is_spent pass.new) }
        ensures step { (place : Option ℕ) × CallAdds (λ a. Made.Abandon (Self.Job.note job) place a ∷ []) (mine pass.old) result
            (mine pass.new) }
        ensures same { gave pass.old job →
            CallAdds (λ a. Made.Abandon (Self.Job.note job) None a ∷ []) (mine pass.old) result (mine pass.new) };

    /// The next cell that leaves on a channel at a tick, which is well formed.
    fn next_cell(&self, pass: &mut Self::Pass, chan: ChanNo, tick: u64) -> Turn<Option<Cell>>
        requires { is_own self.now pass.old }
        ensures own { is_own self.now pass.new }
        ensures spent { IfSpent result (is_spent pass.new) }
        ensures step { CallAdds (λ a. Made.NextCell chan tick a ∷ []) (mine pass.old) result (mine pass.new) }
        ensures well_formed { IfDid result (λ a. IfSome a IsWellFormed) };

    /// Reports what an edge connection did. `Data` has 1 to 498 bytes.
    fn edge_in(&self, pass: &mut Self::Pass, key: StreamKey, event: &EdgeEvent) -> Turn<EdgeAnswer>
        requires own { is_own self.now pass.old }
        requires event { FitsCell event.now }
        ensures own { is_own self.now pass.new }
        ensures spent { IfSpent result (is_spent pass.new) }
        ensures step { EdgeInAdds key event.now (mine pass.old) result (mine pass.new) };

    /// The next order to the edge connection at a slot.
    fn edge_out(&self, pass: &mut Self::Pass, slot: u32) -> Turn<Option<EdgeOrder>>
        requires { is_own self.now pass.old }
        ensures own { is_own self.now pass.new }
        ensures spent { IfSpent result (is_spent pass.new) }
        ensures step { EdgeOutAdds slot (mine pass.old) result (mine pass.new) };

    /// Reports that the bytes of one order were written.
    fn drained(&self, pass: &mut Self::Pass, key: StreamKey) -> Turn<EdgeAnswer>
        requires { is_own self.now pass.old }
        ensures own { is_own self.now pass.new }
        ensures spent { IfSpent result (is_spent pass.new) }
        ensures step { CallAdds (drained_steps key) (mine pass.old) result (mine pass.new) };

    /// The next order to connect to a next hop.
    fn dial_order(&self, pass: &mut Self::Pass) -> Turn<Option<DialOrder>>
        requires { is_own self.now pass.old }
        ensures own { is_own self.now pass.new }
        ensures spent { IfSpent result (is_spent pass.new) }
        ensures step { CallAdds (λ a. Made.DialOrder (option_map dial_step_of a) ∷ []) (mine pass.old) result (mine pass.new) };

    /// Reports what came of an order to connect.
    fn dial_done(
        &self,
        pass: &mut Self::Pass,
        order: DialOrder,
        outcome: DialOutcome,
    ) -> Turn<DialAnswer>
        requires { is_own self.now pass.old }
        ensures own { is_own self.now pass.new }
        ensures spent { IfSpent result (is_spent pass.new) }
        ensures step { CallAdds (dial_done_steps (dial_step_of order) outcome) (mine pass.old) result (mine pass.new) };

    /// Tears a circuit down for this reason.
    fn tear_down(&self, pass: &mut Self::Pass, circ: CircNo, reason: u8) -> Turn<BackAnswer>
        requires { is_own self.now pass.old }
        ensures own { is_own self.now pass.new }
        ensures spent { IfSpent result (is_spent pass.new) }
        ensures step { CallAdds (λ a. Made.TearDown circ reason a ∷ []) (mine pass.old) result (mine pass.new) };

    /// Whether a channel is live.
    fn live(&self, pass: &mut Self::Pass, chan: ChanNo) -> Turn<bool>
        requires { is_own self.now pass.old }
        ensures own { is_own self.now pass.new }
        ensures spent { IfSpent result (is_spent pass.new) }
        ensures step { CallAdds (λ a. Made.Live chan a ∷ []) (mine pass.old) result (mine pass.new) };

    /// Records that one of so many accepting slots has ended.
    fn halt(&self, pass: &mut Self::Pass, of: u32) -> Turn<()>
        requires { is_own self.now pass.old }
        ensures own { is_own self.now pass.new }
        ensures spent { IfSpent result (is_spent pass.new) }
        ensures step { CallAdds (λ _. Made.Halt of ∷ []) (mine pass.old) result (mine pass.new) };

    /// Whether all accepting slots have ended.
    fn halted(&self, pass: &mut Self::Pass) -> Turn<bool>
        requires { is_own self.now pass.old }
        ensures own { is_own self.now pass.new }
        ensures spent { IfSpent result (is_spent pass.new) }
        ensures step { CallAdds (λ a. Made.Halted a ∷ []) (mine pass.old) result (mine pass.new) };

    /// Waits until others have made steps that may give this pass work; it may come back before. It is no
    /// step.
    fn wait(&self, pass: &Self::Pass)
        requires { is_own self.now pass.now };
}
