//! What a counter stands for.
ghost use Rattle.std.specs.Prelude.{true};
ghost use Rattle.counter_lock.specs.Counting.{AnswersArePlaces, StandsForCounts};

use crate::counter::{Counter, Up};
use tr_io::stepping::{Kept, Stepping};

impl Kept for Counter {
    type Step = Up;

    type Start = ();

    ghost stands = { StandsForCounts };

    ghost is_legal = { AnswersArePlaces };

    fn start_laws(&self) {}

    ghost only_legal = { λ s b h p. p.1 };
}

/// Counts up by one.
#[derive(Drop)]
pub struct CountUp;

impl Stepping<Counter> for CountUp {
    type Answer = u64;

    ghost step_of = { λ _ a. record { answer = a } };

    ghost counts = { λ _. true };

    fn apply(&mut self, state: &mut Counter) -> (bool, u64) {
        let answer = state.value;
        state.value += 1;
        (true, answer)
    }
}
