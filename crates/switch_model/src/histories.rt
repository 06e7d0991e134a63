//! Laws on histories: circuits that a step doesn't concern, the order of bodies and cells, and small
//! histories that are legal.
ghost use Rattle.std.specs.Prelude.{◌≡◌, ◌≤◌, ◌==◌, ℕ, ◌++◌, List, [], ◌∷◌, Some, true, false, length};
ghost use Rattle.cell_codec.specs.declared.cell.Cell.{Cell};
ghost use Rattle.cell_codec.specs.Cells.{IsWellFormed};
ghost use Rattle.kdf_tor.specs.declared.LayerKeys.{LayerKeys};
ghost use Rattle.circuit_model.specs.Events.{CircuitCell};
ghost use Rattle.circuit_model.specs.declared.event.Event.TheVariants.{Backward};
ghost use Rattle.circuit_model.specs.Extending.{truncate_effects};
ghost use Rattle.circuit_model.specs.Log.{is_closed, closing};
ghost use Rattle.circuit_model.specs.NextHop.{next_hop, is_absent};
ghost use Rattle.circuit_model.specs.Packaged.{back_bodies};
ghost use Rattle.circuit_model.specs.Rules.{Rules};
ghost use Rattle.circuit_model.specs.Words.{effects};
ghost use Rattle.tor_spec.specs.CellCommands.{relay_command};
ghost use Rattle.tor_spec.specs.Reasons.{destroy_requested};
ghost use Rattle.tr_io.specs.declared.answers.TakeAnswer.TheVariants.{Queued};
ghost use Rattle.tr_io.specs.declared.names.ChanNo.{ChanNo};
ghost use Rattle.tr_io.specs.declared.names.ClaimNote.{ClaimNote};
ghost use Rattle.tr_io.specs.declared.names.Dir.TheVariants.{Forth};
ghost use Rattle.tr_io.specs.declared.step.Step.{Step};
ghost use Rattle.tr_io.specs.declared.step.Step.TheVariants.{Take};
ghost use Rattle.switch_model.specs.Conditions.{IsReply};
ghost use Rattle.switch_model.specs.Names.{circuit_cell};
ghost use Rattle.switch_model.specs.Waiting.Lanes.{lane};
ghost use Rattle.switch_model.specs.History.Legs.{Port, port, hops, at, holds_id};
ghost use Rattle.switch_model.specs.History.Taken.{is_hop_leg, claimed_cells};
ghost use Rattle.switch_model.specs.History.Circuit.{is_live_circuit, sent, events};
ghost use Rattle.switch_model.specs.Waiting.Queues.{circuit_log, sealed_count, sendable, queue};
ghost use Rattle.circuit_model.specs.Batches.{forward_of};
ghost use Rattle.switch_model.specs.History.Returns.{Goes, closing_at};
ghost use Rattle.switch_model.specs.Start.{SwitchStart};
ghost use Rattle.switch_model.specs.History.Past.{past, concerns};
ghost use Rattle.switch_model.specs.Legal.{IsLegal};
ghost use Rattle.switch_model.specs.Examples.{closing_return, ended_channel, quiet_switch, one_circuit, bad_id, torn_while_claimed, two_claimed, crossing_destroys, hop_cell_then_return};

/// A step leaves all that the history says of a circuit that it doesn't concern.
#[tactic(auto, using(crate::proofs::Others::other_pasts))]
pub fn other_circuits_keep_their_past()
    ensures { (rules : Rules) (h : List Step) (s : Step) (c : ℕ) →
        concerns rules h s c ≡ false → past rules (s ∷ h) c ≡ past rules h c }
{}

/// What was sent on a leg and what waits there are together what the one-thread relay sends on it, as
/// far as that may leave, wherever what was sent is its beginning.
#[tactic(auto, using(crate::proofs::Waits::sent_and_queued))]
pub fn sent_and_queued_are_sendable()
    ensures { (rules : Rules) (h : List Step) (c k : ℕ) (rest : List CircuitCell) →
        is_live_circuit rules h c ≡ true → holds_id h c k ≡ true →
        sent rules h c k ++ rest ≡ sendable (circuit_log rules h c) (sealed_count h c) k →
        sent rules h c k ++ queue rules h c k ≡ sendable (circuit_log rules h c) (sealed_count h c) k }
{}

/// A forward cell has its place in its circuit's history at its return, not when it was taken: a body
/// of the next hop that was taken meanwhile goes back first, and then what the forward cell had
/// packaged, as the END that answers a refused BEGIN.
#[tactic(auto, using(crate::proofs::Waits::next_hops_body_first))]
pub fn next_hops_body_goes_first()
    ensures { (rules : Rules) (h : List Step) (note : ClaimNote) (chan : ChanNo) (from_hop : Cell)
        (cell : CircuitCell) (answer : List ℕ) →
        is_closed (circuit_log rules h note.circ.0) ≡ false →
        is_hop_leg note.circ.0 (at h chan.0 from_hop.circ) ≡ true → from_hop.command ≡ relay_command →
        note.dir ≡ Forth → claimed_cells (Take chan from_hop Queued ∷ h) note ≡ cell ∷ [] →
        closing_at rules (length (sent rules h note.circ.0 0))
        (Backward (circuit_cell from_hop).body ∷ events rules h note.circ.0) cell ≡ Goes →
        (effects rules (Backward (circuit_cell from_hop).body ∷ events rules h note.circ.0) (forward_of cell)).back
        ≡ Some answer →
        back_bodies (circuit_log rules (hop_cell_then_return note chan from_hop h) note.circ.0)
        ≡ back_bodies (circuit_log rules h note.circ.0) ++ (circuit_cell from_hop).body ∷ answer ∷ [] }
{}

/// A TRUNCATE and then a body that closes come home in one claim, of a circuit with one next hop, on another
/// channel than the client's. TRUNCATE has ended that leg by then, so a DESTROY with REQUESTED is put for it,
/// whatever the reason is.
#[tactic(auto, using(crate::proofs::Batches::truncated_then_closed))]
pub fn a_truncated_leg_keeps_its_reason()
    ensures { (rules : Rules) (h : List Step) (note : ClaimNote) (reason : ℕ) (truncate closer : CircuitCell) (client hop : Port)
        →
        is_live_circuit rules h note.circ.0 ≡ true → hops h note.circ.0 ≡ 1 →
        port h note.circ.0 0 ≡ Some client → port h note.circ.0 1 ≡ Some hop → (client.chan == hop.chan) ≡ false →
        at h hop.chan hop.id ≡ Some (record { circ = note.circ.0; number = 1 }) →
        is_absent (next_hop (circuit_log rules h note.circ.0)) ≡ false →
        note.dir ≡ Forth → claimed_cells h note ≡ truncate ∷ closer ∷ [] →
        closing_at rules (length (sent rules h note.circ.0 0)) (events rules h note.circ.0) truncate ≡ Goes →
        effects rules (events rules h note.circ.0) (forward_of truncate) ≡ truncate_effects (circuit_log rules h note.circ.0) →
        effects rules (forward_of truncate ∷ events rules h note.circ.0) (forward_of closer) ≡ closing reason →
        lane rules (closing_return note reason h) hop.chan
        ≡ lane rules h hop.chan ++ record { id = hop.id; reason = destroy_requested; refusal = false } ∷ [] }
{}

/// The first steps of a legal history are a legal history.
#[tactic(auto, using(crate::proofs::FirstSteps::first_steps_legal))]
pub fn first_steps_are_legal()
    ensures { (start : SwitchStart) (newer older : List Step) → IsLegal start (newer ++ older) → IsLegal start older }
{}

/// A circuit is opened, and the answer to its opening is the first cell that leaves.
pub fn answer_to_an_opening_leaves()
    ensures { (start : SwitchStart) (keys : LayerKeys) (reply : List ℕ) → 1 ≤ start.circuits
        → IsLegal start (one_circuit keys reply) }
{}

/// An opening at a CircID of the wrong side is refused, and DESTROY 1 leaves.
pub fn bad_id_is_answered_by_destroy()
    ensures { (start : SwitchStart) (keys : LayerKeys) (reply : Cell) → IsReply reply (Some keys)
        → IsLegal start (bad_id keys reply) }
{}

/// A circuit is torn down while its cipher is at a worker: the return finds it gone, one DESTROY 3
/// leaves, and nothing else of the circuit.
pub fn torn_circuit_sends_one_destroy()
    ensures { (start : SwitchStart) (keys : LayerKeys) (reply body : List ℕ) → length body ≤ 65535 → 1 ≤ start.circuits →
        IsLegal start (torn_while_claimed start keys reply body) }
{}

/// A claim takes what waits in its direction, up to 32 bodies: here two.
pub fn a_claim_takes_what_waits()
    ensures { (start : SwitchStart) (keys : LayerKeys) (reply first second : List ℕ) → length first ≤ 65535
        → length second ≤ 65535 →
        1 ≤ start.circuits → IsLegal start (two_claimed start keys reply first second) }
{}

/// While our DESTROY waits its CircID is in use. The peer's DESTROY takes it away, and the CircID is free.
pub fn crossing_destroy_frees_the_id()
    ensures { (start : SwitchStart) (keys : LayerKeys) (refused : Cell) (reply reason : List ℕ) → IsReply refused (Some keys) →
        length reason ≤ 65535 → 1 ≤ start.circuits → IsLegal start (crossing_destroys keys refused reply reason) }
{}

/// A channel that ends tears its circuits down, and nothing leaves on it any more.
pub fn an_ended_channel_sends_nothing()
    ensures { (start : SwitchStart) (keys : LayerKeys) (reply : List ℕ) (late : Cell) → IsWellFormed late →
        1 ≤ start.circuits → IsLegal start (ended_channel keys reply late) }
{}

/// A new switch has nothing to hand out. It halts once as many accepting slots have ended as there are.
pub fn a_new_switch_is_quiet()
    ensures { (start : SwitchStart) → IsLegal start quiet_switch }
{}
