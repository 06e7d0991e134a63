//! Laws on decaying cell counts: which leg of a channel is served next.
ghost use Rattle.std.specs.Prelude.{◌≡◌, ℕ, List, [], ◌∷◌, Some, map};
ghost use Rattle.kdf_tor.specs.declared.LayerKeys.{LayerKeys};
ghost use Rattle.circuit_model.specs.Rules.{Rules};
ghost use Rattle.switch_model.specs.Waiting.Counts.{count_at, least_of};
ghost use Rattle.switch_model.specs.Examples.{three_circuits, three_legs, leg_0, more_cells};

/// Circuit 0 sent the answer to its opening at tick 0, circuits 1 and 2 theirs at tick 17: then the
/// counts are 0, 65,536 and 65,536.
#[tactic(auto, using(crate::proofs::Examples::counts_at_17))]
pub fn old_cells_stop_counting()
    ensures { (rules : Rules) (keys : LayerKeys) (reply : List ℕ) →
        map (count_at rules (three_circuits keys reply) 17) three_legs ≡ 0 ∷ 65536 ∷ 65536 ∷ [] }
{}

/// Where each of them has cells enough, the four cells that leave at tick 18 are those of the circuits
/// 0, 1, 2 and 0.
#[tactic(auto, using(crate::proofs::Examples::first_at_18, crate::proofs::Examples::second_at_18, crate::proofs::Examples::third_at_18, crate::proofs::Examples::fourth_at_18))]
pub fn least_count_is_served()
    ensures first { (rules : Rules) (keys : LayerKeys) (reply body : List ℕ) →
        least_of (count_at rules (more_cells keys reply body []) 18) three_legs ≡ Some (leg_0 0) }
    ensures second { (rules : Rules) (keys : LayerKeys) (reply body : List ℕ) →
        least_of (count_at rules (more_cells keys reply body (0 ∷ [])) 18) three_legs ≡ Some (leg_0 1) }
    ensures third { (rules : Rules) (keys : LayerKeys) (reply body : List ℕ) →
        least_of (count_at rules (more_cells keys reply body (1 ∷ 0 ∷ [])) 18) three_legs ≡ Some (leg_0 2) }
    ensures fourth { (rules : Rules) (keys : LayerKeys) (reply body : List ℕ) →
        least_of (count_at rules (more_cells keys reply body (2 ∷ 1 ∷ 0 ∷ [])) 18) three_legs ≡ Some (leg_0 0) }
{}

/// At tick 19 their counts are 65,536, 49,152 and 49,152, and of the two least the lower circuit is
/// served.
#[tactic(auto, using(crate::proofs::Examples::counts_at_19, crate::proofs::Examples::first_at_19))]
pub fn a_tick_halves_the_counts()
    ensures counts { (rules : Rules) (keys : LayerKeys) (reply body : List ℕ) →
        map (count_at rules (more_cells keys reply body (0 ∷ 2 ∷ 1 ∷ 0 ∷ [])) 19) three_legs
        ≡ 65536 ∷ 49152 ∷ 49152 ∷ [] }
    ensures served { (rules : Rules) (keys : LayerKeys) (reply body : List ℕ) →
        least_of (count_at rules (more_cells keys reply body (0 ∷ 2 ∷ 1 ∷ 0 ∷ [])) 19) three_legs ≡ Some (leg_0 1) }
{}
