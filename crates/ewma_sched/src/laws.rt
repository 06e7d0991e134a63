//! Laws on the counts and on the leg that is served next.
ghost use Rattle.std.specs.Prelude.{◌≡◌, ℕ, ◌+◌, ◌-◌, ◌/◌, ◌^◌, ◌<◌, ◌≤◌, option_map};
ghost use Rattle.ewma_sched.specs.Counts.{charged, halved};
ghost use Rattle.ewma_sched.specs.Legs.{LegName, SchedState, halved_leg, leg_at, at_tick, IsNext};

/// A tick halves a count, rounded down, and halving late is halving at each tick.
#[tactic(auto, using(crate::proofs::NextLeg::one_tick, crate::proofs::Halving::halved_on))]
pub fn halving_late_is_halving_each_tick()
    ensures tick { (count : ℕ) → halved count 1 ≡ count / 2 }
    ensures ticks { (count first later : ℕ) → halved (halved count first) later ≡ halved count (first + later) }
{}

/// In 64 ticks every count vanishes.
#[tactic(auto, using(crate::proofs::Halving::vanished))]
pub fn counts_vanish_in_64_ticks()
    ensures { (count ticks : ℕ) → count < 2 ^ 64 → 64 ≤ ticks → halved count ticks ≡ 0 }
{}

/// A cell adds 65,536 to a count, which stops at 2^64 - 1.
pub fn counts_stop_at_their_end()
    ensures below { (count : ℕ) → count + 65536 < 2 ^ 64 → charged count ≡ count + 65536 }
    ensures at_the_end { (count : ℕ) → 2 ^ 64 ≤ count + 65536 → charged count ≡ 2 ^ 64 - 1 }
{}

/// The ticks since the last halve the count of every leg, and change nothing else of it.
#[tactic(auto, using(crate::proofs::States::ticked_at))]
pub fn a_tick_halves_every_count()
    ensures { (s : SchedState) (tick : ℕ) (leg : LegName) →
        leg_at (at_tick s tick) leg ≡ option_map (halved_leg (tick - s.tick)) (leg_at s leg) }
{}

/// No two legs of a channel are both served next.
#[tactic(auto, using(crate::proofs::NextLeg::next_once))]
pub fn one_leg_is_next()
    ensures { (s : SchedState) (chan : ℕ) (leg other : LegName) → IsNext s chan leg → IsNext s chan other → leg ≡ other }
{}
