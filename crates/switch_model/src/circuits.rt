//! Laws on what each circuit relays, packages and sends, live or torn down, in every legal history.
ghost use Rattle.std.specs.Prelude.{◌≡◌, ◌<◌, ℕ, ◌++◌, List, [], ◌∷◌, length, is_some, Option, None, Some, true, false};
ghost use Rattle.cell_codec.specs.declared.cell.Cell.{Cell};
ghost use Rattle.circuit_model.specs.Events.{CircuitCell};
ghost use Rattle.circuit_model.specs.Log.{closing};
ghost use Rattle.circuit_model.specs.Rules.{Rules};
ghost use Rattle.circuit_model.specs.Sent.{leg_cells};
ghost use Rattle.circuit_model.specs.Words.{effects};
ghost use Rattle.tr_io.specs.declared.answers.BackAnswer.{BackAnswer};
ghost use Rattle.tr_io.specs.declared.answers.BackAnswer.TheVariants.{Down};
ghost use Rattle.tr_io.specs.declared.names.ClaimNote.{ClaimNote};
ghost use Rattle.tr_io.specs.declared.names.Dir.TheVariants.{Forth};
ghost use Rattle.tr_io.specs.declared.step.Step.{Step};
ghost use Rattle.tr_io.specs.declared.step.Step.TheVariants.{GiveBack};
ghost use Rattle.switch_model.specs.History.Channels.{is_live_channel};
ghost use Rattle.switch_model.specs.Answers.Claim.{claim_answer};
ghost use Rattle.switch_model.specs.Waiting.Claims.{is_ready};
ghost use Rattle.switch_model.specs.History.Circuit.{is_live_circuit, is_accepted_return, sent, events};
ghost use Rattle.switch_model.specs.History.LegEnds.{is_ended_by_us, sent_torn, IsOneDestroy};
ghost use Rattle.switch_model.specs.Legal.{IsLegal};
ghost use Rattle.switch_model.specs.History.Legs.{circuits, at};
ghost use Rattle.switch_model.specs.Names.{Way, is_leg};
ghost use Rattle.switch_model.specs.Waiting.Queues.{circuit_log};
ghost use Rattle.switch_model.specs.History.Relayed.{bodies_from_hops, AlwaysKeepsWindows, IsRelayed};
ghost use Rattle.switch_model.specs.Waiting.Rest.{owed_cells};
ghost use Rattle.circuit_model.specs.Batches.{forward_of, events_behind};
ghost use Rattle.switch_model.specs.History.Returns.{AllGo};
ghost use Rattle.switch_model.specs.Answers.NextCell.{next_cell_answer, IsOldestDestroy};
ghost use Rattle.switch_model.specs.Start.{SwitchStart};
ghost use Rattle.switch_model.specs.History.Taken.{claimed_cells, taken_forth, taken_back};

/// Behind each event of a circuit of a legal history no more DATA was packaged than was granted, for the
/// circuit and for each of its streams.
#[tactic(auto, using(crate::proofs::WindowsKept::windows_kept))]
pub fn no_window_is_passed()
    ensures { (start : SwitchStart) (h : List Step) (c : ℕ) → IsLegal start h
        → AlwaysKeepsWindows start.rules (events start.rules h c) }
{}

/// The bodies from next hops stand in a circuit's history as they were taken, live or torn down.
#[tactic(auto, using(crate::proofs::BackInOrder::back_in_order))]
pub fn bodies_from_next_hops_keep_their_order()
    ensures { (rules : Rules) (h : List Step) (c : ℕ) → bodies_from_hops (circuit_log rules h c) ≡ taken_back h c }
{}

/// Of each circuit of a legal history, live or torn down: the forward cells in its history are the beginning of
/// those taken, the bodies from next hops are those taken, and no window is passed.
pub fn each_circuit_relays_in_order()
    ensures { (start : SwitchStart) (h : List Step) (c : ℕ) → IsLegal start h →
        IsRelayed start.rules (events start.rules h c) (taken_forth h c) (taken_back h c) }
{}

/// A claim comes home with a body that closes, as a circuit SENDME with a wrong proof does with PROTOCOL
/// (1), and no body before it closes: the answer is Down with that reason, and the circuit is torn down.
#[tactic(auto, using(crate::proofs::WrongSendmes::closing_return_is_down, crate::proofs::WrongSendmes::down_ends_circuit))]
pub fn a_closing_body_ends_its_circuit()
    ensures answer { (start : SwitchStart) (h : List Step) (note : ClaimNote) (place : Option ℕ) (a : BackAnswer) (reason : ℕ)
        (before : List CircuitCell) (closer : CircuitCell) (rest : List CircuitCell) →
        IsLegal start (GiveBack note place a ∷ h) → is_accepted_return a ≡ true → note.dir ≡ Forth →
        claimed_cells h note ≡ before ++ closer ∷ rest →
        AllGo start.rules (length (sent start.rules h note.circ.0 0)) (events start.rules h note.circ.0) before →
        effects start.rules (events_behind (events start.rules h note.circ.0) before) (forward_of closer) ≡ closing reason →
        a ≡ Down reason }
    ensures torn { (rules : Rules) (h : List Step) (note : ClaimNote) (place : Option ℕ) (reason : ℕ) →
        is_live_circuit rules (GiveBack note place (Down reason) ∷ h) note.circ.0 ≡ false }
{}

/// On a channel that isn't live nothing leaves. On a live one nothing leaves exactly where it owes no cell.
#[tactic(auto, using(crate::proofs::Leaving::no_channel_sends, crate::proofs::Leaving::none_leaves, crate::proofs::Leaving::none_is_owed))]
pub fn nothing_leaves_where_nothing_is_owed()
    ensures gone { (rules : Rules) (h : List Step) (chan tick : ℕ) → is_live_channel h chan ≡ false
        → next_cell_answer rules h chan tick ≡ None }
    ensures none { (rules : Rules) (h : List Step) (chan tick : ℕ) → is_live_channel h chan ≡ true → owed_cells rules h chan ≡ []
        →
        next_cell_answer rules h chan tick ≡ None }
    ensures owed { (rules : Rules) (h : List Step) (chan tick : ℕ) → is_live_channel h chan ≡ true
        → next_cell_answer rules h chan tick ≡ None →
        owed_cells rules h chan ≡ [] }
{}

/// A claim finds nothing exactly where no direction is ready.
#[tactic(auto, using(crate::proofs::Leaving::claim_finds_nothing, crate::proofs::ClaimFinds::claim_finds_one))]
pub fn a_claim_finds_nothing_where_none_is_ready()
    ensures none { (start : SwitchStart) (h : List Step) (worker : ℕ) → ((way : Way) → is_ready start.rules h way ≡ false) →
        claim_answer start h worker ≡ None }
    ensures one { (start : SwitchStart) (h : List Step) (worker : ℕ) (way : Way) → is_ready start.rules h way ≡ true →
        is_some (claim_answer start h worker) ≡ true }
{}

/// A cell that leaves on a leg of a circuit that isn't live is the DESTROY at the head of the lane.
#[tactic(auto, using(crate::proofs::Leaving::torn_sends_destroy))]
pub fn a_torn_circuit_sends_destroys_alone()
    ensures { (rules : Rules) (h : List Step) (chan tick c k : ℕ) (cell : Cell) → next_cell_answer rules h chan tick ≡ Some cell →
        is_leg c k (at h chan cell.circ) ≡ true → is_live_circuit rules h c ≡ false → IsOldestDestroy rules h chan cell }
{}

/// A circuit that was torn down is never live again.
#[tactic(auto, using(crate::proofs::StaysTorn::torn_stays_torn))]
pub fn a_torn_circuit_stays_torn()
    ensures { (start : SwitchStart) (newer older : List Step) (c : ℕ) → IsLegal start (newer ++ older) → c < circuits older →
        is_live_circuit start.rules older c ≡ false → is_live_circuit start.rules (newer ++ older) c ≡ false }
{}

/// Of a circuit of a legal history one cell at most leaves on each leg once the circuit is torn down: a DESTROY.
/// And once this side's DESTROY has left on a leg, no CircID is that leg's any more.
#[tactic(auto, using(crate::proofs::OneDestroy::torn_sends_one, crate::proofs::OneDestroy::ended_leg_is_gone))]
pub fn a_torn_circuit_sends_one_destroy_a_leg()
    ensures one { (start : SwitchStart) (h : List Step) (c k : ℕ) → IsLegal start h → IsOneDestroy (sent_torn start.rules h c k) }
    ensures ended { (start : SwitchStart) (h : List Step) (c k chan id : ℕ) → IsLegal start h → is_ended_by_us h c k ≡ true →
        is_leg c k (at h chan id) ≡ false }
{}
