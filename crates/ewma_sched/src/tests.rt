//! The worked example, and counts at their ends.

ghost use Rattle.std.specs.Prelude.{◌≤◌};

use super::*;
use crate::count::{charged, halved};
use std::test::Fail;
use tr_io::names::{ChanNo, CircNo};

/// The count of a leg that is there.
fn counted(sched: &Sched, circ: CircNo, leg: u32, tick: u64) -> Option<u64>
    requires { sched.now.tick ≤ tick }
{
    if sched.has_leg(circ, leg) {
        Some(sched.count(circ, leg, tick))
    } else {
        None
    }
}

/// Circuit 0 sent at tick 0, circuits 1 and 2 at tick 17; from then on each has something queued.
#[test]
fn the_least_count_is_served(rt: HostRuntime) -> Result<(), Fail> {
    let chan = ChanNo(0);
    let mut sched = Sched::new(rt.alloc());
    sched.join(chan, CircNo(0), 0, 0)?;
    assert_eq!(rt; sched.pick(chan, 0), None);
    sched.queued(CircNo(0), 0, true);
    assert_eq!(rt; sched.pick(chan, 0), Some((CircNo(0), 0)));
    sched.queued(CircNo(0), 0, false);
    sched.join(chan, CircNo(1), 0, 17)?;
    sched.join(chan, CircNo(2), 0, 17)?;
    sched.queued(CircNo(1), 0, true);
    assert_eq!(rt; sched.pick(chan, 17), Some((CircNo(1), 0)));
    sched.queued(CircNo(1), 0, false);
    sched.queued(CircNo(2), 0, true);
    assert_eq!(rt; sched.pick(chan, 17), Some((CircNo(2), 0)));
    assert_eq!(rt; counted(&sched, CircNo(0), 0, 17), Some(0));
    assert_eq!(rt; counted(&sched, CircNo(1), 0, 17), Some(65536));
    assert_eq!(rt; counted(&sched, CircNo(2), 0, 17), Some(65536));
    sched.queued(CircNo(0), 0, true);
    sched.queued(CircNo(1), 0, true);
    assert_eq!(rt; sched.pick(chan, 18), Some((CircNo(0), 0)));
    assert_eq!(rt; sched.pick(chan, 18), Some((CircNo(1), 0)));
    assert_eq!(rt; sched.pick(chan, 18), Some((CircNo(2), 0)));
    assert_eq!(rt; sched.pick(chan, 18), Some((CircNo(0), 0)));
    assert_eq!(rt; counted(&sched, CircNo(0), 0, 19), Some(65536));
    assert_eq!(rt; counted(&sched, CircNo(1), 0, 19), Some(49152));
    assert_eq!(rt; counted(&sched, CircNo(2), 0, 19), Some(49152));
    assert_eq!(rt; sched.pick(chan, 19), Some((CircNo(1), 0)));
    sched.leave(CircNo(1), 0);
    assert_eq!(rt; counted(&sched, CircNo(1), 0, 19), None);
    assert_eq!(rt; sched.pick(chan, 19), Some((CircNo(2), 0)));
    Ok(())
}

#[test]
fn counts_stop_and_vanish(rt: HostRuntime) {
    assert_eq!(rt; charged(0), 65536);
    assert_eq!(rt; charged(u64::MAX - 65536), u64::MAX);
    assert_eq!(rt; charged(u64::MAX - 65535), u64::MAX);
    assert_eq!(rt; charged(u64::MAX), u64::MAX);
    assert_eq!(rt; halved(u64::MAX, 63), 1);
    assert_eq!(rt; halved(u64::MAX, 64), 0);
    assert_eq!(rt; halved(u64::MAX, u64::MAX), 0);
}
