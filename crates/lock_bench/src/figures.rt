//! What a turn costs.
use crate::round::workers;
use crate::worker::Worker;
use counter_lock::counter::Counter;
use counter_lock::steps::CountUp;
use std::alloc::Global;
use std::io;
use std::sync::atomic::AtomicBool;
use std::sync::atomic::Ordering::SeqCst;
use std::sync::{Mutex, Wait};
use std::thread::{Threads, join, map_indices, map_vec, sleep};
use std::time::{Clock, Duration, Instant};
use tr_io::stepping::Stepping;

// How many turns are timed, in all threads together.
const TURNS: u32 = 1_000_000;

// How many are timed beside parked threads.
const PARKED_TURNS: u32 = 20_000;

/// Counts up, and says that nobody has work by it.
#[derive(Drop)]
struct CountQuietly;

impl Stepping<Counter> for CountQuietly {
    type Answer = u64;

    ghost use Rattle.std.specs.Prelude.{true};

    ghost step_of = { λ _ a. record { answer = a } };

    ghost counts = { λ _. true };

    fn apply(&mut self, state: &mut Counter) -> (bool, u64) {
        CountUp.apply(state)
    }

    fn gives_work(&self, _answer: &u64) -> bool {
        false
    }
}

impl Worker {
    // Makes so many turns.
    fn count<R: Wait, S: Stepping<Counter, Answer = u64>>(
        &mut self,
        rt: &R,
        step: &mut S,
        times: u32,
    ) {
        for _ in 0..times {
            let _ = self.turn(rt, step);
        }
    }

    // Looks at the history, and parks in between, until it is told to stop.
    fn watch<R: Wait>(&mut self, rt: &R, stop: &AtomicBool) {
        for _ in rt.forever() {
            if stop.load(SeqCst) {
                break;
            }
            self.park(rt);
            self.meet();
        }
    }
}

fn count_in_mutex<R: Wait>(rt: &R, lock: &Mutex<Counter>, times: u32) {
    for _ in 0..times {
        let mut counter = lock.lock(rt);
        counter.value = counter.value.wrapping_add(1);
    }
}

// Tenths of a nanosecond a turn.
fn tenths(span: Duration, turns: u32) -> u128 {
    if turns == 0 {
        return 0;
    }
    span.as_nanos() * 10 / u128::from(turns)
}

// Times turns in so many threads.
fn time_turns<R: Threads + Wait + Clock + Sync>(
    rt: &R,
    alloc: Global,
    threads: u32,
) -> io::Result<Duration> {
    if threads == 0 {
        return Ok(Duration::ZERO);
    }
    let all = workers(alloc, threads)?;
    let start = Instant::now(rt)?;
    map_vec(
        rt,
        all,
        &|mut worker: Worker| worker.count(rt, &mut CountUp, TURNS / threads),
    )?;
    start.elapsed(rt)
}

// Times the same in std's `Mutex`.
fn time_mutex<R: Threads + Wait + Clock + Sync>(
    rt: &R,
    alloc: Global,
    threads: u32,
) -> io::Result<Duration> {
    if threads == 0 {
        return Ok(Duration::ZERO);
    }
    let lock = Mutex::new(Counter { value: 0 });
    let shared = &lock;
    let start = Instant::now(rt)?;
    map_indices(
        rt,
        alloc,
        threads as usize,
        &|_| count_in_mutex(rt, shared, TURNS / threads),
    )?;
    start.elapsed(rt)
}

// Times the turns of one thread, once the others had time to park, and tells them to stop.
fn drive<R: Wait + Clock, S: Stepping<Counter, Answer = u64>>(
    rt: &R,
    mut driver: Worker,
    step: &mut S,
    stop: &AtomicBool,
) -> io::Result<Duration> {
    sleep(rt, Duration::from_millis(100));
    let span = time_count(rt, &mut driver, step);
    stop.store(true, SeqCst);
    driver.count(rt, &mut CountUp, 1);
    span
}

fn time_count<R: Wait + Clock, S: Stepping<Counter, Answer = u64>>(
    rt: &R,
    driver: &mut Worker,
    step: &mut S,
) -> io::Result<Duration> {
    let start = Instant::now(rt)?;
    driver.count(rt, step, PARKED_TURNS);
    start.elapsed(rt)
}

// Times turns of one thread beside so many that are parked.
fn time_beside<R: Threads + Wait + Clock + Sync, S: Stepping<Counter, Answer = u64> + Send + Drop>(
    rt: &R,
    alloc: Global,
    sleepers: u32,
    mut step: S,
) -> io::Result<Duration> {
    let mut all = workers(alloc, sleepers.saturating_add(1))?;
    let Some(driver) = all.pop() else {
        return Ok(Duration::ZERO);
    };
    let stop = AtomicBool::new(false);
    let flag = &stop;
    let (watch_result, span) = join(
        rt,
        || map_vec(rt, all, &|mut worker: Worker| worker.watch(rt, flag)),
        || drive(rt, driver, &mut step, flag),
    );
    watch_result?;
    span
}

fn print_figure<R: Print>(rt: &R, name: &str, count: u32, tenths: u128) -> io::Result<()> {
    println!(rt; "{name}_{count} {}.{} ns", tenths / 10, tenths % 10)
}

/// Prints the figures.
pub fn print<R: Threads + Wait + Clock + Print + Sync>(rt: &R, alloc: Global) -> io::Result<()> {
    for threads in [1, 2, 4] {
        let turn = tenths(time_turns(rt, alloc, threads)?, TURNS);
        print_figure(rt, "turn_of", threads, turn)?;
        let mutex = tenths(time_mutex(rt, alloc, threads)?, TURNS);
        print_figure(rt, "mutex_of", threads, mutex)?;
    }
    for sleepers in [0, 1, 3, 16, 64] {
        let turn = tenths(time_beside(rt, alloc, sleepers, CountUp)?, PARKED_TURNS);
        print_figure(rt, "turn_beside_parked", sleepers, turn)?;
        let quiet = tenths(
            time_beside(rt, alloc, sleepers, CountQuietly)?,
            PARKED_TURNS,
        );
        print_figure(rt, "quiet_turn_beside_parked", sleepers, quiet)?;
    }
    Ok(())
}
