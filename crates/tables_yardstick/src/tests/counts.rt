//! `Sched` beside a plain walk.

ghost use Rattle.std.specs.Prelude.{◌≤◌, OnOk};

use crate::tests::drawing::below;
use crate::tests::plain_counts::PlainCounts;
use ewma_sched::Sched;
use rand_core::SeedableRng;
use rand_xoshiro::SplitMix64;
use std::alloc::AllocError;
use std::test::Fail;
use tr_io::names::{ChanNo, CircNo};

/// The count of a leg that is there.
fn counted(sched: &Sched, circ: CircNo, leg: u32, tick: u64) -> Option<u64>
    requires { sched.now.tick ≤ tick }
{
    if sched.has_leg(circ, leg) {
        Some(sched.count(circ, leg, tick))
    } else {
        None
    }
}

/// Makes one call, and says whether the plain walk answers alike. It counts the legs that are served.
fn agree(
    sched: &mut Sched,
    plain: &mut PlainCounts,
    words: &mut SplitMix64,
    tick: u64,
    served_count: &mut u32,
) -> Result<bool, AllocError>
    requires { sched.old.tick ≤ tick }
    ensures { OnOk result (sched.new.tick ≤ tick) }
{
    let chan = ChanNo(below(words, 3));
    let circ = CircNo(below(words, 16));
    let leg = below(words, 2) as u32;
    match below(words, 16) {
        0 | 1 => {
            sched.join(chan, circ, leg, tick)?;
            plain.join(chan.0, circ.0, leg, tick)?;
        }
        2 => {
            sched.leave(circ, leg);
            plain.leave(circ.0, leg);
        }
        3..=7 => {
            let some = below(words, 3) > 0;
            sched.queued(circ, leg, some);
            plain.queued(circ.0, leg, some);
        }
        _ => {
            let next = sched.pick(chan, tick);
            if next.map(|(circ, leg)| (circ.0, leg)) != plain.pick(chan.0, tick) {
                return Ok(false);
            }
            if next.is_some() {
                *served_count = served_count.saturating_add(1);
            }
        }
    }
    Ok(counted(sched, circ, leg, tick) == plain.count(circ.0, leg, tick))
}

/// The tick of the next call: it rises now and then, and sometimes so far that all counts vanish.
fn next_tick(words: &mut SplitMix64, tick: u64) -> u64
    ensures { tick ≤ result }
{
    match below(words, 64) {
        0 => tick.saturating_add(70),
        1..=6 => tick.saturating_add(below(words, 4)),
        _ => tick,
    }
}

/// Calls on 3 channels, 16 circuits and 2 legs of each, through rising ticks.
#[test]
fn ten_thousand_calls_agree_with_a_walk(rt: HostRuntime) -> Result<(), Fail> {
    let mut sched = Sched::new(rt.alloc());
    let mut plain = PlainCounts::new(rt.alloc());
    let mut words = SplitMix64::seed_from_u64(15);
    let mut tick = 0u64;
    let mut served_count = 0u32;
    for call in 0..10_000u32 {
        tick = next_tick(&mut words, tick);
        assert!(rt;
            agree(&mut sched, &mut plain, &mut words, tick, &mut served_count)?,
            "at call {call}"
        );
    }
    assert!(rt; served_count > 1_000, "{served_count} legs were served");
    Ok(())
}
