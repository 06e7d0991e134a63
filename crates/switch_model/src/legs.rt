//! Laws on what leaves on the legs of circuits, in every legal history.
ghost use Rattle.std.specs.Prelude.{◌≡◌, ℕ, ◌++◌, List, [], ◌∷◌, length, Some, true, false, slice_get, Contains};
ghost use Rattle.cell_codec.specs.declared.cell.Cell.{Cell};
ghost use Rattle.circuit_model.specs.Events.{CircuitCell};
ghost use Rattle.circuit_model.specs.Sent.{leg_cells};
ghost use Rattle.tr_io.specs.declared.names.ChanNo.{ChanNo};
ghost use Rattle.tr_io.specs.declared.step.Step.{Step};
ghost use Rattle.tr_io.specs.declared.step.Step.TheVariants.{NextCell};
ghost use Rattle.switch_model.specs.Start.{SwitchStart};
ghost use Rattle.switch_model.specs.Names.{is_leg, circuit_cell};
ghost use Rattle.switch_model.specs.History.LegEnds.{is_ended_outside};
ghost use Rattle.switch_model.specs.History.Legs.{at, holds_id};
ghost use Rattle.switch_model.specs.History.Circuit.{is_live_circuit, sent, events};
ghost use Rattle.switch_model.specs.History.Relayed.{AreComparable};
ghost use Rattle.switch_model.specs.Waiting.Queues.{circuit_log, sealed_count, sendable, queue};
ghost use Rattle.switch_model.specs.Waiting.Lanes.{Destroy, lane};
ghost use Rattle.switch_model.specs.Waiting.Rest.{IsAtRest};
ghost use Rattle.switch_model.specs.Legal.{IsLegal};

/// What left on a leg before its circuit was torn down is the beginning of what the one-thread relay sends there
/// for the circuit's events.
#[tactic(auto, using(crate::proofs::SentBegins::sent_is_prefix))]
pub fn each_leg_sends_a_prefix()
    ensures { (start : SwitchStart) (h : List Step) → IsLegal start h → (c k : ℕ) →
        (rest : List CircuitCell) × (sent start.rules h c k ++ rest ≡ leg_cells (circuit_log start.rules h c) k) }
{}

/// A cell that leaves on leg k of a live circuit is the next one that the one-thread relay sends there.
#[tactic(auto, using(crate::proofs::SentBegins::next_leaves))]
pub fn each_leg_sends_the_next_cell()
    ensures { (start : SwitchStart) (h : List Step) (chan : ChanNo) (tick : ℕ) (cell : Cell) (c k : ℕ) →
        IsLegal start (NextCell chan tick (Some cell) ∷ h) →
        is_leg c k (at h chan.0 cell.circ) ≡ true → is_live_circuit start.rules h c ≡ true →
        slice_get (leg_cells (circuit_log start.rules h c) k) (length (sent start.rules h c k)) ≡ Some (circuit_cell cell) }
{}

/// A DESTROY that waits in a channel's lane is for no leg of a live circuit, so none passes cells of its leg.
#[tactic(auto, using(crate::proofs::LaneIds::waiting_destroy_apart))]
pub fn no_waiting_destroy_is_for_a_live_leg()
    ensures { (start : SwitchStart) (h : List Step) (chan c k : ℕ) (d : Destroy) → IsLegal start h
        → Contains (lane start.rules h chan) d →
        is_leg c k (at h chan d.id) ≡ true → is_live_circuit start.rules h c ≡ false }
{}

/// Two circuits with the same events, of one legal history or of two, are sent cells on each leg of which one
/// list begins the other, whatever other circuits did.
#[tactic(auto, using(crate::proofs::SameEvents::comparable_cells))]
pub fn the_same_events_send_comparable_cells()
    ensures { (start : SwitchStart) (h g : List Step) (c d k : ℕ) → IsLegal start h → IsLegal start g →
        events start.rules h c ≡ events start.rules g d → AreComparable (sent start.rules h c k) (sent start.rules g d k) }
{}

/// Where nothing waits on a leg of a live circuit that has its CircID, all that may leave there was sent.
#[tactic(auto, using(crate::proofs::LegsAtRest::all_sent))]
pub fn at_rest_a_leg_has_sent_all()
    ensures { (start : SwitchStart) (h : List Step) (c k : ℕ) → IsLegal start h → is_live_circuit start.rules h c ≡ true
        → holds_id h c k ≡ true →
        queue start.rules h c k ≡ [] → sent start.rules h c k ≡ sendable (circuit_log start.rules h c) (sealed_count h c) k }
{}

/// At rest a circuit was sent all that the one-thread relay sends, on each leg that neither the peer nor its
/// channel ended.
#[tactic(auto, using(crate::proofs::AllSent::at_rest_all_sent))]
pub fn at_rest_all_is_sent()
    ensures { (start : SwitchStart) (h : List Step) (c k : ℕ) → IsLegal start h → IsAtRest start.rules h c
        → is_ended_outside h c k ≡ false →
        sent start.rules h c k ≡ leg_cells (circuit_log start.rules h c) k }
{}
