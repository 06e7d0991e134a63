//! Laws on answers: the steps before a call leave one right answer, but for want of memory that an order
//! met.
ghost use Rattle.std.specs.Prelude.{◌≡◌, ℕ, Bool, List, [], ◌∷◌, Option, option_map};
ghost use Rattle.cell_codec.specs.declared.cell.Cell.{Cell};
ghost use Rattle.kdf_tor.specs.declared.LayerKeys.{LayerKeys};
ghost use Rattle.tr_io.specs.declared.answers.BackAnswer.{BackAnswer};
ghost use Rattle.tr_io.specs.declared.answers.DialAnswer.{DialAnswer};
ghost use Rattle.tr_io.specs.declared.answers.EdgeAnswer.{EdgeAnswer};
ghost use Rattle.tr_io.specs.declared.answers.OpenAnswer.{OpenAnswer};
ghost use Rattle.tr_io.specs.declared.answers.TakeAnswer.{TakeAnswer};
ghost use Rattle.tr_io.specs.declared.answers.UpAnswer.{UpAnswer};
ghost use Rattle.tr_io.specs.declared.dials.DialOutcome.{DialOutcome};
ghost use Rattle.tr_io.specs.declared.dials.DialStep.{DialStep};
ghost use Rattle.tr_io.specs.declared.names.ChanNo.{ChanNo};
ghost use Rattle.tr_io.specs.declared.names.CircNo.{CircNo};
ghost use Rattle.tr_io.specs.declared.names.ClaimNote.{ClaimNote};
ghost use Rattle.tr_io.specs.declared.names.Side.{Side};
ghost use Rattle.tr_io.specs.declared.names.StreamKey.{StreamKey};
ghost use Rattle.tr_io.specs.declared.step.EventStep.{EventStep};
ghost use Rattle.tr_io.specs.declared.step.OrderStep.{OrderStep};
ghost use Rattle.tr_io.specs.declared.step.Step.{Step};
ghost use Rattle.tr_io.specs.declared.step.Step.TheVariants.{ChannelUp, ChannelDown, OpenCircuit, Take, Claim, GiveBack};
ghost use Rattle.tr_io.specs.declared.step.Step.TheVariants.{Abandon, NextCell, EdgeIn, EdgeOut, Drained, DialOrder};
ghost use Rattle.tr_io.specs.declared.step.Step.TheVariants.{DialDone, TearDown, Live, Halted};
ghost use Rattle.switch_model.specs.Start.{SwitchStart};
ghost use Rattle.switch_model.specs.Waiting.Dials.{dials_out};
ghost use Rattle.switch_model.specs.Answers.EdgeOut.{order_given};
ghost use Rattle.switch_model.specs.Legal.{IsLegal};

/// After the same steps two calls with the same arguments have the same answer.
#[tactic(auto, using(crate::proofs::OneAnswer::each_call))]
pub fn each_call_has_one_answer()
    ensures channel_up { (start : SwitchStart) (h : List Step) (slot : ℕ) (side : Side) (a b : UpAnswer) →
        IsLegal start (ChannelUp slot side a ∷ h) → IsLegal start (ChannelUp slot side b ∷ h) → a ≡ b }
    ensures channel_down { (start : SwitchStart) (h : List Step) (chan : ChanNo) (a b : BackAnswer) →
        IsLegal start (ChannelDown chan a ∷ h) → IsLegal start (ChannelDown chan b ∷ h) → a ≡ b }
    ensures open_circuit { (start : SwitchStart) (h : List Step) (chan : ChanNo) (id : ℕ) (reply : Cell)
        (keys : Option LayerKeys) (pad : Option (List ℕ)) (a b : OpenAnswer) →
        IsLegal start (OpenCircuit chan id reply keys pad a ∷ h) → IsLegal start (OpenCircuit chan id reply keys pad b ∷ h) → a ≡ b }
    ensures take { (start : SwitchStart) (h : List Step) (chan : ChanNo) (cell : Cell) (a b : TakeAnswer) →
        IsLegal start (Take chan cell a ∷ h) → IsLegal start (Take chan cell b ∷ h) → a ≡ b }
    ensures claim { (start : SwitchStart) (h : List Step) (worker : ℕ) (a b : Option ClaimNote) →
        IsLegal start (Claim worker a ∷ h) → IsLegal start (Claim worker b ∷ h) → a ≡ b }
    ensures give_back { (start : SwitchStart) (h : List Step) (note : ClaimNote) (place : Option ℕ) (a b : BackAnswer) →
        IsLegal start (GiveBack note place a ∷ h) → IsLegal start (GiveBack note place b ∷ h) → a ≡ b }
    ensures abandon { (start : SwitchStart) (h : List Step) (note : ClaimNote) (place : Option ℕ) (a b : BackAnswer) →
        IsLegal start (Abandon note place a ∷ h) → IsLegal start (Abandon note place b ∷ h) → a ≡ b }
    ensures next_cell { (start : SwitchStart) (h : List Step) (chan : ChanNo) (tick : ℕ) (a b : Option Cell) →
        IsLegal start (NextCell chan tick a ∷ h) → IsLegal start (NextCell chan tick b ∷ h) → a ≡ b }
    ensures edge_in { (start : SwitchStart) (h : List Step) (key : StreamKey) (event : EventStep) (a b : EdgeAnswer) →
        IsLegal start (EdgeIn key event a ∷ h) → IsLegal start (EdgeIn key event b ∷ h) → a ≡ b }
    ensures drained { (start : SwitchStart) (h : List Step) (key : StreamKey) (a b : EdgeAnswer) →
        IsLegal start (Drained key a ∷ h) → IsLegal start (Drained key b ∷ h) → a ≡ b }
    ensures dial_done { (start : SwitchStart) (h : List Step) (order : DialStep) (outcome : DialOutcome) (a b : DialAnswer) →
        IsLegal start (DialDone order outcome a ∷ h) → IsLegal start (DialDone order outcome b ∷ h) → a ≡ b }
    ensures tear_down { (start : SwitchStart) (h : List Step) (circ : CircNo) (reason : ℕ) (a b : BackAnswer) →
        IsLegal start (TearDown circ reason a ∷ h) → IsLegal start (TearDown circ reason b ∷ h) → a ≡ b }
    ensures live { (start : SwitchStart) (h : List Step) (chan : ChanNo) (a b : Bool) →
        IsLegal start (Live chan a ∷ h) → IsLegal start (Live chan b ∷ h) → a ≡ b }
    ensures halted { (start : SwitchStart) (h : List Step) (a b : Bool) →
        IsLegal start (Halted a ∷ h) → IsLegal start (Halted b ∷ h) → a ≡ b }
    ensures edge_out { (start : SwitchStart) (h : List Step) (slot : ℕ) (a b : Option OrderStep) →
        IsLegal start (EdgeOut slot a ∷ h) → IsLegal start (EdgeOut slot b ∷ h) →
        option_map order_given a ≡ option_map order_given b }
{}

/// So it is with a dial order where none is out: an order that is out may be handed out again, since memory
/// may have been wanting when it was done.
#[tactic(auto, using(crate::proofs::OneAnswer::one_dial_order))]
pub fn dial_orders_have_one_answer_where_none_is_out()
    ensures { (start : SwitchStart) (h : List Step) (a b : Option DialStep) → dials_out start.rules h ≡ [] →
        IsLegal start (DialOrder a ∷ h) → IsLegal start (DialOrder b ∷ h) → a ≡ b }
{}
