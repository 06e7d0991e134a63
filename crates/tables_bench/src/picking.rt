//! Times `pick`: which leg of a channel is served next.

ghost use Rattle.std.specs.Prelude.{◌≡◌, IfOk};

use crate::clock::now;
use crate::legs::BenchLeg;
use ewma_sched::Sched;
use std::alloc::{AllocError, Global};
use std::io;
use std::time::CpuClock;

/// The legs, each with something queued.
fn busy_legs(alloc: Global, legs: &[BenchLeg]) -> Result<Sched, AllocError>
    ensures { IfOk result (λ s. s.tick ≡ 0) }
{
    let mut sched = Sched::new(alloc);
    for leg in legs {
        if !sched.has_leg(leg.circ, 0) {
            sched.join(leg.chan, leg.circ, 0, 0)?;
            sched.queued(leg.circ, 0, true);
        }
    }
    Ok(sched)
}

/// The nanoseconds that so many rounds of `pick` take. The tick rises with each round.
fn time_picks(
    rt: &impl CpuClock,
    sched: &mut Sched,
    legs: &[BenchLeg],
    rounds: u32,
) -> io::Result<u64>
    requires { sched.old.tick ≡ 0 }
{
    let start = now(rt)?;
    let mut picked_circuits = 0u64;
    for round in 0..rounds {
        for leg in legs {
            if let Some((circ, _)) = sched.pick(leg.chan, u64::from(round)) {
                picked_circuits ^= circ.0;
            }
        }
    }
    let end = now(rt)?;
    // What was picked is used, so that it has to be looked for.
    Ok(end.saturating_sub(start).max(picked_circuits & 1))
}

/// The nanoseconds of rounds of `pick` among these legs.
pub(crate) fn pick_time(
    rt: &impl CpuClock,
    alloc: Global,
    legs: &[BenchLeg],
    rounds: u32,
) -> io::Result<u64> {
    let mut sched = busy_legs(alloc, legs)?;
    time_picks(rt, &mut sched, legs, rounds)
}
