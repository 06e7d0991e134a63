//! Threads that pass a turn round: each counts up when it is its turn, and parks until then.
ghost use Rattle.std.specs.Prelude.{◌<◌, is_some, unwrap_or};

use crate::worker::Worker;
use counter_lock::counter::Counter;
use counter_lock::steps::CountUp;
use std::alloc::{AllocError, Global};
use std::sync::Wait;
use std::thread::{Threads, map_vec};
use tr_io::stepping::{Stepping, Turn};

/// Counts up by one where the count, divided by the number of threads, leaves the thread's number.
#[derive(Drop)]
pub struct CountInTurn {
    number: u64,
    threads: u64,
    ghost some: { 0 < threads },
}

impl Stepping<Counter> for CountInTurn {
    type Answer = Option<u64>;

    ghost use Rattle.std.specs.Prelude.{is_some, unwrap_or};

    ghost step_of = { λ _ a. record { answer = unwrap_or a 0 } };

    ghost counts = { λ a. is_some a };

    fn apply(&mut self, state: &mut Counter) -> (bool, Option<u64>) {
        if state.value % self.threads != self.number {
            return (false, None);
        }
        let (_, answer) = CountUp.apply(state);
        (true, Some(answer))
    }
}

/// What one thread does.
#[derive(Drop)]
struct ThreadTask {
    worker: Worker,
    step: CountInTurn,
}

impl ThreadTask {
    // Counts up so many times, each when it is the thread's turn.
    fn run<R: Wait>(self, rt: &R, rounds: u32) -> u64 {
        let ThreadTask {
            mut worker,
            mut step,
        } = self;
        let mut step_count = 0u64;
        for _ in rt.forever() {
            if step_count >= u64::from(rounds) {
                break;
            }
            match worker.turn(rt, &mut step) {
                Turn::Did(Some(_)) => step_count += 1,
                Turn::Did(None) => worker.park(rt),
                Turn::Spent => break,
            }
        }
        step_count
    }
}

/// So many workers of one new lock.
pub fn workers(alloc: Global, count: u32) -> Result<Vec<Worker>, AllocError>
    requires { 0 < count }
{
    let mut first = Worker::new(alloc, count)?;
    let mut all = Vec::new(alloc);
    for _part in 1..count {
        all.push(first.split()?)?;
    }
    all.push(first)?;
    Ok(all)
}

/// Passes a turn round among so many threads: how many steps were made.
pub fn pass_round<R: Threads + Wait + Sync>(
    rt: &R,
    alloc: Global,
    threads: u32,
    rounds: u32,
) -> Result<u64, AllocError> {
    if threads == 0 {
        return Ok(0);
    }
    let mut tasks = Vec::new(alloc);
    for (number, worker) in workers(alloc, threads)?.into_iter().enumerate() {
        tasks.push(ThreadTask {
            worker,
            step: CountInTurn {
                number: number as u64,
                threads: u64::from(threads),
            },
        })?;
    }
    let step_counts = map_vec(rt, tasks, &|task: ThreadTask| task.run(rt, rounds))?;
    let mut steps = 0u64;
    for count in step_counts {
        steps = steps.saturating_add(count);
    }
    Ok(steps)
}
