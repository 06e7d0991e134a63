//! Laws on the machine: whatever history a state stands for, each call's answer is the one that the history
//! gives, and its state stands for the history with the step added.
ghost use Rattle.std.specs.Prelude.{◌≡◌, ℕ, List, [], Option, true, ◌<◌};
ghost use Rattle.cell_codec.specs.declared.cell.Cell.{Cell};
ghost use Rattle.kdf_tor.specs.declared.LayerKeys.{LayerKeys};
ghost use Rattle.tr_io.specs.declared.names.ChanNo.{ChanNo};
ghost use Rattle.tr_io.specs.declared.names.CircNo.{CircNo};
ghost use Rattle.tr_io.specs.declared.names.ClaimNote.{ClaimNote};
ghost use Rattle.tr_io.specs.declared.names.Side.{Side};
ghost use Rattle.tr_io.specs.declared.step.Step.{Step};
ghost use Rattle.tr_io.specs.declared.step.Step.TheVariants.{ChannelUp, OpenCircuit, NextCell, TearDown, GiveBack, Abandon, Claim, Take, DialOrder, DialDone};
ghost use Rattle.switch_model.specs.History.Circuit.{events};
ghost use Rattle.switch_model.specs.Answers.ChannelUp.{channel_up_answer};
ghost use Rattle.switch_model.specs.Answers.OpenCircuit.{open_answer};
ghost use Rattle.switch_model.specs.Answers.NextCell.{next_cell_answer};
ghost use Rattle.switch_model.specs.Answers.TearDown.{tear_down_answer};
ghost use Rattle.switch_model.specs.Answers.GiveBack.{give_back_answer};
ghost use Rattle.switch_model.specs.Answers.Abandon.{abandon_answer};
ghost use Rattle.switch_model.specs.Start.{SwitchStart};
ghost use Rattle.switch_model.specs.Conditions.{IsReply};
ghost use Rattle.switch_machine.specs.State.{State};
ghost use Rattle.switch_machine.specs.Machine.{new_state};
ghost use Rattle.switch_machine.specs.Calls.ChannelUp.{channel_up_result, channel_up_state};
ghost use Rattle.switch_machine.specs.Calls.OpenCircuit.{open_result, open_state};
ghost use Rattle.switch_machine.specs.Calls.NextCell.{next_cell_result, next_cell_state};
ghost use Rattle.switch_machine.specs.Calls.TearDown.{tear_down_result, tear_down_state};
ghost use Rattle.switch_machine.specs.Calls.GiveBack.{give_back_result, give_back_state};
ghost use Rattle.switch_machine.specs.Calls.Abandon.{abandon_result, abandon_state};
ghost use Rattle.switch_machine.specs.Stands.{Stands};
ghost use Rattle.switch_machine.specs.Adds.{Adds, AddsTo, HasMachine, StandsForSomeState};
ghost use Rattle.switch_model.specs.Answers.DialDone.{dial_done_answer, is_out};
ghost use Rattle.switch_machine.specs.Calls.DialDone.{dial_done_result, dial_done_state};
ghost use Rattle.switch_machine.specs.Calls.DialMemory.{dial_memory_state, dial_order_by};
ghost use Rattle.switch_model.specs.Legal.{IsDialOrder, IsLegal};
ghost use Rattle.tr_io.specs.declared.dials.DialOutcome.{DialOutcome};
ghost use Rattle.tr_io.specs.declared.dials.DialStep.{DialStep};
ghost use Rattle.switch_model.specs.Limits.{worker_limit};
ghost use Rattle.switch_model.specs.Answers.Claim.{claim_answer};
ghost use Rattle.switch_machine.specs.Calls.Claim.{claim_result, claim_state};
ghost use Rattle.cell_codec.specs.Cells.{IsWellFormed};
ghost use Rattle.switch_model.specs.Answers.Take.{take_answer};
ghost use Rattle.switch_machine.specs.Calls.Take.{take_result, take_state};
ghost use Rattle.switch_machine.specs.Calls.DialOrder.{dial_order_result, dial_order_state};

/// A new switch stands for the history without steps.
pub fn a_new_switch_has_no_history()
    ensures { (start : SwitchStart) → Stands start new_state [] }
{}

/// A channel that comes up, or finds the switch full, is one step.
#[tactic(auto, using(crate::proofs::Laws::channel_up_adds, crate::proofs::Up::channel_up_said))]
pub fn channel_up_is_one_step()
    ensures adds { (start : SwitchStart) (s t : State) (slot : ℕ) (side : Side) →
        t ≡ channel_up_state s side → Adds start s t (ChannelUp slot side (channel_up_result s)) }
    ensures answer { (start : SwitchStart) (s : State) (h : List Step) → Stands start s h
        → channel_up_result s ≡ channel_up_answer h }
{}

/// An opening, accepted or refused, is one step.
#[tactic(auto, using(crate::proofs::Laws::open_adds, crate::proofs::OpenCircuit::Kept::open_said))]
pub fn open_circuit_is_one_step()
    ensures adds { (start : SwitchStart) (s t : State) (chan : ChanNo) (id : ℕ) (reply : Cell) (keys : Option LayerKeys)
        (pad : Option (List ℕ)) →
        IsReply reply keys → t ≡ open_state start.circuits s chan.0 id reply keys →
        Adds start s t (OpenCircuit chan id reply keys pad (open_result start.circuits s chan.0 id keys)) }
    ensures answer { (start : SwitchStart) (s : State) (h : List Step) (chan id : ℕ) (keys : Option LayerKeys) → Stands start s h
        →
        open_result start.circuits s chan id keys ≡ open_answer start h chan id keys }
{}

/// A cell that leaves, or none, is one step.
#[tactic(auto, using(crate::proofs::Laws::next_cell_adds, crate::proofs::NextCell::Said::next_cell_said))]
pub fn next_cell_is_one_step()
    ensures adds { (start : SwitchStart) (s t : State) (chan : ChanNo) (tick : ℕ) →
        t ≡ next_cell_state s chan.0 tick → Adds start s t (NextCell chan tick (next_cell_result s chan.0 tick)) }
    ensures answer { (start : SwitchStart) (s : State) (h : List Step) (chan tick : ℕ) → Stands start s h →
        next_cell_result s chan tick ≡ next_cell_answer start.rules h chan tick }
{}

/// A teardown that the caller asks for, or one of a circuit that is gone, is one step of the history whose
/// events it was given.
#[tactic(auto, using(crate::proofs::TearDown::Law::tear_down_adds, crate::proofs::TearDown::Law::tear_down_said))]
pub fn tear_down_is_one_step()
    ensures adds { (start : SwitchStart) (h : List Step) (s t : State) (circ : CircNo) (reason : ℕ) →
        t ≡ tear_down_state start.rules (events start.rules h) s circ.0 reason →
        AddsTo start h s t (TearDown circ reason (tear_down_result s circ.0 reason)) }
    ensures answer { (start : SwitchStart) (s : State) (h : List Step) (c reason : ℕ) → Stands start s h →
        tear_down_result s c reason ≡ tear_down_answer start.rules h c reason }
{}

/// A job that comes back done, settled, closing its circuit or refused, is one step of the history whose events
/// it was given.
#[tactic(auto, using(crate::proofs::GiveBack::Law::give_back_adds, crate::proofs::GiveBack::Said::give_back_said))]
pub fn give_back_is_one_step()
    ensures adds { (start : SwitchStart) (h : List Step) (s t : State) (note : ClaimNote) (place : Option ℕ) →
        t ≡ give_back_state start.name start.rules (events start.rules h) s note place →
        AddsTo start h s t (GiveBack note place (give_back_result start.name start.rules (events start.rules h) s note place)) }
    ensures answer { (start : SwitchStart) (s : State) (h : List Step) (note : ClaimNote) (place : Option ℕ) → Stands start s h →
        give_back_result start.name start.rules (events start.rules h) s note place ≡ give_back_answer start h note place }
{}

/// A job that comes back undone, which tears its circuit down or is refused, is one step of the history whose
/// events it was given.
#[tactic(auto, using(crate::proofs::Abandon::Law::abandon_adds, crate::proofs::Abandon::Said::abandon_said))]
pub fn abandon_is_one_step()
    ensures adds { (start : SwitchStart) (h : List Step) (s t : State) (note : ClaimNote) (place : Option ℕ) →
        t ≡ abandon_state start.name start.rules (events start.rules h) s note place →
        AddsTo start h s t (Abandon note place (abandon_result start.name s note place)) }
    ensures answer { (start : SwitchStart) (s : State) (h : List Step) (note : ClaimNote) (place : Option ℕ) → Stands start s h →
        abandon_result start.name s note place ≡ abandon_answer start h note place }
{}

/// A claim, with a job or without one, is one step.
#[tactic(auto, using(crate::proofs::Claim::Law::claim_adds, crate::proofs::Claim::Said::claim_said))]
pub fn claim_is_one_step()
    ensures adds { (start : SwitchStart) (s t : State) (worker : ℕ) → worker < worker_limit → t ≡ claim_state start.name s worker
        →
        Adds start s t (Claim worker (claim_result start.name s worker)) }
    ensures answer { (start : SwitchStart) (s : State) (h : List Step) (worker : ℕ) → Stands start s h →
        claim_result start.name s worker ≡ claim_answer start h worker }
{}

/// A cell that a channel brings, queued, passed over or closing its circuit, is one step of the history whose
/// events it was given.
#[tactic(auto, using(crate::proofs::Take::Law::take_adds, crate::proofs::Take::Said::take_said))]
pub fn take_is_one_step()
    ensures adds { (start : SwitchStart) (h : List Step) (s t : State) (chan : ChanNo) (cell : Cell) → IsWellFormed cell →
        t ≡ take_state start.rules (events start.rules h) s chan.0 cell →
        AddsTo start h s t (Take chan cell (take_result start.rules (events start.rules h) s chan.0 cell)) }
    ensures answer { (start : SwitchStart) (s : State) (h : List Step) (chan : ℕ) (cell : Cell) → Stands start s h →
        take_result start.rules (events start.rules h) s chan cell ≡ take_answer start.rules h chan cell }
{}

/// A dial order that is handed out, or none, is one step. The order is a right one: the oldest that waits, or one
/// that is out. Which of them it is depends on those that want of memory hands out again.
#[tactic(auto, using(crate::proofs::DialOrder::Law::dial_order_adds, crate::proofs::DialOrder::Right::dial_order_right, crate::proofs::DialOrder::Said::dial_order_said))]
pub fn dial_order_is_one_step()
    ensures adds { (start : SwitchStart) (s t : State) → t ≡ dial_order_state s
        → Adds start s t (DialOrder (dial_order_result s)) }
    ensures right { (start : SwitchStart) (s : State) (h : List Step) → Stands start s h
        → IsDialOrder start.rules h (dial_order_result s) }
    ensures answer { (start : SwitchStart) (s : State) (h : List Step) → Stands start s h →
        dial_order_result s ≡ dial_order_by start.rules h s.again }
{}

/// The outcome of a dial order is one step of the history whose events it was given: the circuit's next hop is
/// linked, over a new channel or one that was live, or the circuit is torn down; an order that isn't out is gone.
#[tactic(auto, using(crate::proofs::DialDone::Law::dial_done_adds, crate::proofs::DialDone::Said::dial_done_said))]
pub fn dial_done_is_one_step()
    ensures adds { (start : SwitchStart) (h : List Step) (s t : State) (given_order : DialStep) (outcome : DialOutcome) →
        t ≡ dial_done_state start.rules (events start.rules h) s given_order outcome →
        AddsTo start h s t (DialDone given_order outcome (dial_done_result s given_order outcome)) }
    ensures answer { (start : SwitchStart) (s : State) (h : List Step) (given_order : DialStep) (outcome : DialOutcome)
        → Stands start s h →
        dial_done_result s given_order outcome ≡ dial_done_answer start.rules h given_order outcome }
{}

/// dial_done of an order that is out, where memory is wanting, is no step: the switch stands for the same
/// history, with the order's circuit among those whose order is handed out again.
pub fn want_of_memory_hands_an_order_out_again()
    ensures { (start : SwitchStart) (s : State) (h : List Step) (given_order : DialStep) →
        is_out start.rules h given_order ≡ true → Stands start s h → Stands start (dial_memory_state s given_order.circ.0) h }
{}

/// Each legal history of the calls that have a machine here is stood for by some state.
#[tactic(auto, using(crate::proofs::Built::built_stands))]
pub fn a_legal_history_is_stood_for()
    ensures { (start : SwitchStart) (h : List Step) → HasMachine h → IsLegal start h → StandsForSomeState start h }
{}
