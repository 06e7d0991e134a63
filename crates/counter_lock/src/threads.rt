//! Threads that count up one counter.
ghost use Rattle.std.specs.Prelude.{◌≡◌, ℕ, ◌+◌, ◌*◌, [], length, IfOk};
ghost use Rattle.turn_lock.specs.Passes.{lock_of, lock_id, known, IsSamePass};
ghost use Rattle.turn_lock.specs.Views.{own_steps, HasAllSteps};
ghost use Rattle.counter_lock.specs.Counting.{CountsFrom};
ghost use Rattle.counter_lock.specs.Threads.{HasItsAnswers, HasAllAnswers, MadeTurns, AreAllBelow};

use crate::counter::Counter;
use crate::steps::CountUp;
use std::alloc::{AllocError, Global};
use std::sync::Wait;
use std::thread::{Threads, join};
use tr_io::stepping::Turn;
use turn_lock::{Pass, TurnLock};

/// A pass after some turns, and their answers.
#[derive(Drop)]
pub struct Turns {
    /// The pass.
    pub pass: Pass<Counter>,
    /// The answers.
    pub answers: Vec<u64>,
}

/// Counts up so many times, or until the history is full.
///
/// # Errors
///
/// [`AllocError`] where memory is wanting. The pass is dropped.
pub fn count<R: Wait>(
    rt: &R,
    lock: &TurnLock<Counter>,
    pass: Pass<Counter>,
    times: u32,
    alloc: Global,
) -> Result<Turns, AllocError>
    requires own { lock_of pass ≡ lock_id lock.now }
    requires fresh { own_steps (known pass) ≡ [] }
    ensures { IfOk result (λ t. IsSamePass pass t.pass × HasItsAnswers t × MadeTurns times t) }
{
    let mut pass = pass;
    let mut answers = Vec::new(alloc);
    for _turn_number in 0..times {
        match lock.turn(rt, &mut pass, &mut CountUp) {
            Turn::Did(answer) => answers.push(answer)?,
            Turn::Spent => break,
        }
    }
    Ok(Turns { pass, answers })
}

// Two threads count up, each so many times.
fn count_two<R: Threads + Wait + Sync>(
    rt: &R,
    lock: &TurnLock<Counter>,
    a: Pass<Counter>,
    b: Pass<Counter>,
    times: u32,
    alloc: Global,
) -> (Result<Turns, AllocError>, Result<Turns, AllocError>)
    requires own { (lock_of a ≡ lock_id lock.now) × (lock_of b ≡ lock_id lock.now) }
    requires fresh { (own_steps (known a) ≡ []) × (own_steps (known b) ≡ []) }
    ensures first { IfOk result.0 (λ t. IsSamePass a t.pass × HasItsAnswers t × MadeTurns times t) }
    ensures second { IfOk result.1 (λ t. IsSamePass b t.pass × HasItsAnswers t × MadeTurns times t) }
{
    join(
        rt,
        || -> Result<Turns, AllocError>
            requires { (lock_of a ≡ lock_id lock.now) × (own_steps (known a) ≡ []) }
            ensures { IfOk result (λ t. IsSamePass a t.pass × HasItsAnswers t × MadeTurns times t) }
        { count(rt, lock, a, times, alloc) },
        || -> Result<Turns, AllocError>
            requires { (lock_of b ≡ lock_id lock.now) × (own_steps (known b) ≡ []) }
            ensures { IfOk result (λ t. IsSamePass b t.pass × HasItsAnswers t × MadeTurns times t) }
        { count(rt, lock, b, times, alloc) },
    )
}

// The turns of another pass become the pass's own.
fn take_in(lock: &TurnLock<Counter>, all: &mut Turns, other: Turns) -> Result<(), AllocError>
    requires own { (lock_of all.old.pass ≡ lock_id lock.now) × (lock_of other.pass ≡ lock_id lock.now) }
    requires answers { HasAllAnswers all.old × HasAllAnswers other }
    ensures own { IfOk result (λ _. lock_of all.new.pass ≡ lock_of all.old.pass) }
    ensures parts { IfOk result (λ _. (known all.new.pass).parts ≡ (known all.old.pass).parts + (known other.pass).parts) }
    ensures opening { IfOk result (λ _. ((known all.new.pass).opening ≡ (known all.old.pass).opening)
        × ((known all.new.pass).seats ≡ (known all.old.pass).seats)) }
    ensures answers { IfOk result (λ _. HasAllAnswers all.new) }
    ensures turns { IfOk result (λ _. (m n : ℕ) → MadeTurns m all.old → MadeTurns n other → MadeTurns (m + n) all.new) }
{
    let Turns { pass, answers } = other;
    lock.join(&mut all.pass, pass);
    all.answers.extend_from_slice(&answers)?;
    Ok(())
}

/// What four threads counted.
#[derive(Drop)]
pub struct FinalCount {
    /// The counter's value at the end.
    pub value: u64,
    /// The pass of all four, whose own steps are all steps.
    pub pass: Pass<Counter>,
    /// The answers of all turns.
    pub answers: Vec<u64>,
}

/// Four threads count up a new counter, each so many times. All steps are own steps of the pass that
/// is left, and each number below their count is the answer of one turn.
///
/// # Errors
///
/// [`AllocError`] where memory is wanting.
pub fn count_in_four_threads<R: Threads + Wait + Sync>(
    rt: &R,
    alloc: Global,
    times: u32,
) -> Result<FinalCount, AllocError>
    ensures all { IfOk result (λ r. HasAllSteps (known r.pass)) }
    ensures places { IfOk result (λ r. CountsFrom 0 (known r.pass).seen) }
    ensures value { IfOk result (λ r. r.value ≡ 4 * times) }
    ensures steps { IfOk result (λ r. length (own_steps (known r.pass)) ≡ 4 * times) }
    ensures answers { IfOk result (λ r. AreAllBelow (4 * times) r.answers.items) }
{
    let (lock, mut first) = TurnLock::new(alloc, Counter { value: 0 }, 4)?;
    let second = lock.split(&mut first);
    let third = lock.split(&mut first);
    let fourth = lock.split(&mut first);
    let shared = &lock;
    let ((first, second), (third, fourth)) = join(
        rt,
        || -> (Result<Turns, AllocError>, Result<Turns, AllocError>)
            requires { (lock_of first ≡ lock_id shared.now) × (lock_of second ≡ lock_id shared.now)
                × (own_steps (known first) ≡ []) × (own_steps (known second) ≡ []) }
            ensures { IfOk result.0 (λ t. IsSamePass first t.pass × HasItsAnswers t × MadeTurns times t)
                × IfOk result.1 (λ t. IsSamePass second t.pass × HasItsAnswers t × MadeTurns times t) }
        { count_two(rt, shared, first, second, times, alloc) },
        || -> (Result<Turns, AllocError>, Result<Turns, AllocError>)
            requires { (lock_of third ≡ lock_id shared.now) × (lock_of fourth ≡ lock_id shared.now)
                × (own_steps (known third) ≡ []) × (own_steps (known fourth) ≡ []) }
            ensures { IfOk result.0 (λ t. IsSamePass third t.pass × HasItsAnswers t × MadeTurns times t)
                × IfOk result.1 (λ t. IsSamePass fourth t.pass × HasItsAnswers t × MadeTurns times t) }
        { count_two(rt, shared, third, fourth, times, alloc) },
    );
    let mut all = first?;
    take_in(&lock, &mut all, second?)?;
    take_in(&lock, &mut all, third?)?;
    take_in(&lock, &mut all, fourth?)?;
    let Turns { pass, answers } = all;
    let (counter, pass) = lock.close(pass);
    Ok(FinalCount {
        value: counter.value,
        pass,
        answers,
    })
}
