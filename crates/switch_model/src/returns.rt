//! Laws on claims and their returns: what a claim has, and what an accepted return adds to its circuit.
ghost use Rattle.std.specs.Prelude.{◌≡◌, ℕ, ◌++◌, List, ◌∷◌, Option, Some, true};
ghost use Rattle.tr_io.specs.declared.answers.BackAnswer.{BackAnswer};
ghost use Rattle.tr_io.specs.declared.answers.BackAnswer.TheVariants.{Settled};
ghost use Rattle.tr_io.specs.declared.names.ClaimNote.{ClaimNote};
ghost use Rattle.tr_io.specs.declared.names.Dir.TheVariants.{Forth, Back};
ghost use Rattle.tr_io.specs.declared.step.Step.{Step};
ghost use Rattle.tr_io.specs.declared.step.Step.TheVariants.{Claim, GiveBack};
ghost use Rattle.switch_model.specs.Start.{SwitchStart};
ghost use Rattle.switch_model.specs.Waiting.Contents.{claimed_bodies};
ghost use Rattle.switch_model.specs.History.Circuit.{is_accepted_return};
ghost use Rattle.switch_model.specs.History.Homecoming.{AddsNext, SealsNext};
ghost use Rattle.switch_model.specs.Legal.{IsLegal};

/// The bodies of a claim stay what they were when it was made, whatever comes behind it.
#[tactic(auto, using(crate::proofs::BodiesStay::claimed_bodies_stay))]
pub fn the_bodies_of_a_claim_stay()
    ensures { (start : SwitchStart) (newer older : List Step) (worker : ℕ) (note : ClaimNote) →
        IsLegal start (newer ++ Claim worker (Some note) ∷ older) →
        claimed_bodies start.rules (newer ++ Claim worker (Some note) ∷ older) note
        ≡ claimed_bodies start.rules (Claim worker (Some note) ∷ older) note }
{}

/// A claim that comes home and is accepted adds exactly its bodies, which are the next of their direction: forth
/// the cells become events one after another, up to one that closes the circuit; back the bodies are sealed.
#[tactic(auto, using(crate::proofs::ForthInOrder::return_adds_next, crate::proofs::ForthInOrder::return_seals_next))]
pub fn an_accepted_return_adds_the_next_bodies()
    ensures forth { (start : SwitchStart) (h : List Step) (note : ClaimNote) (place : Option ℕ) (answer : BackAnswer) →
        IsLegal start (GiveBack note place answer ∷ h) → is_accepted_return answer ≡ true → note.dir ≡ Forth →
        AddsNext start.rules h note place answer }
    ensures back { (start : SwitchStart) (h : List Step) (note : ClaimNote) (place : Option ℕ) →
        IsLegal start (GiveBack note place Settled ∷ h) → note.dir ≡ Back → SealsNext start.rules h note place }
{}
