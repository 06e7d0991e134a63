//! The legs of one channel.

ghost use Rattle.std.specs.Prelude.{◌≡◌, ◌+◌, ◌-◌, ◌<◌, ◌≤◌, [], ◌∷◌, ◌++◌, map, length, OnOk, OnErr, IfSome, IfNone, OnSome, slice_index_or, ℕ, false};
ghost use Rattle.std.specs.List.{Contains};
ghost use Rattle.std.specs.List.Sorted.{IsPermutation};
ghost use Rattle.std.specs.VecDeque.{deque_len, deque_capacity};
ghost use Rattle.ewma_sched.specs.Order.{IsInOrder, Serves, halved_ready_leg, is_before};

use crate::count::{charged, halved};
use std::alloc::{AllocError, Global};
use std::collections::VecDeque;

/// A leg that has something queued, in the order in which legs are served: by count, then by circuit
/// number, then by leg number.
#[derive(Clone, Copy, PartialEq, Eq, PartialOrd, Ord)]
pub(crate) struct ReadyLeg {
    pub count: u64,
    pub circ: u64,
    pub number: u32,
}

/// The legs of a channel: those that have something queued, in the order in which they are served, with
/// their counts at a tick, and how many have nothing queued. Each of these has a spare place.
#[derive(Drop)]
pub(crate) struct Roster {
    pub ready_queue: VecDeque<ReadyLeg>,
    pub idle: usize,
    pub tick: u64,
}

impl Roster {
    /// A channel without legs.
    pub(crate) fn new(alloc: Global, tick: u64) -> Roster
        ensures queue { result.ready_queue.items ≡ [] }
        ensures idle { result.idle ≡ 0 }
        ensures tick { result.tick ≡ tick }
    {
        Roster {
            ready_queue: VecDeque::new(alloc),
            idle: 0,
            tick,
        }
    }

    /// Takes room for one more leg.
    pub(crate) fn reserve(&mut self) -> Result<(), AllocError>
        ensures queue { self.new.ready_queue.items ≡ self.old.ready_queue.items }
        ensures idle { self.new.idle ≡ self.old.idle }
        ensures tick { self.new.tick ≡ self.old.tick }
        ensures len { deque_len self.new.ready_queue ≡ deque_len self.old.ready_queue }
        ensures capacity { deque_capacity self.old.ready_queue ≤ deque_capacity self.new.ready_queue }
        ensures ok { OnOk result (deque_len self.new.ready_queue + self.new.idle + 1 ≤ deque_capacity self.new.ready_queue) }
    {
        let legs = self.idle.checked_add(1).ok_or(AllocError)?;
        self.ready_queue.reserve(legs)
    }

    /// Goes on to a later tick. Halving can make ties, so the legs are put in order anew.
    pub(crate) fn go_on(&mut self, tick: u64)
        requires order { IsInOrder self.old.ready_queue.items }
        requires tick { self.old.tick ≤ tick }
        ensures legs { IsPermutation (map (halved_ready_leg (tick - self.old.tick)) self.old.ready_queue.items) self.new.ready_queue.items }
        ensures order { IsInOrder self.new.ready_queue.items }
        ensures idle { self.new.idle ≡ self.old.idle }
        ensures tick { self.new.tick ≡ tick }
        ensures len { deque_len self.new.ready_queue ≡ deque_len self.old.ready_queue }
        ensures capacity { deque_capacity self.new.ready_queue ≡ deque_capacity self.old.ready_queue }
    {
        if self.tick < tick {
            halve(self.ready_queue.make_contiguous(), tick - self.tick);
            self.ready_queue.make_contiguous().sort_unstable();
            self.tick = tick;
        }
    }

    /// The leg that is served next, with its count after one more cell.
    pub(crate) fn serve(&mut self) -> Option<ReadyLeg>
        requires { IsInOrder self.old.ready_queue.items }
        ensures some { IfSome result (Serves self.old.ready_queue.items self.new.ready_queue.items) }
        ensures none { IfNone result (self.old.ready_queue.items ≡ []) }
        ensures same { IfNone result (self.new.ready_queue.items ≡ []) }
        ensures order { IsInOrder self.new.ready_queue.items }
        ensures idle { self.new.idle ≡ self.old.idle }
        ensures tick { self.new.tick ≡ self.old.tick }
        ensures len { deque_len self.new.ready_queue ≡ deque_len self.old.ready_queue }
        ensures capacity { deque_capacity self.old.ready_queue ≤ deque_capacity self.new.ready_queue }
    {
        let first = self.ready_queue.pop_front()?;
        let leg = ReadyLeg {
            count: charged(first.count),
            ..first
        };
        self.enter(leg);
        Some(leg)
    }

    /// A leg has something queued from now on.
    pub(crate) fn begin(&mut self, leg: ReadyLeg)
        requires order { IsInOrder self.old.ready_queue.items }
        requires idle { 1 ≤ self.old.idle }
        requires room { deque_len self.old.ready_queue + self.old.idle ≤ deque_capacity self.old.ready_queue }
        ensures legs { IsPermutation (leg ∷ self.old.ready_queue.items) self.new.ready_queue.items }
        ensures order { IsInOrder self.new.ready_queue.items }
        ensures idle { self.new.idle + 1 ≡ self.old.idle }
        ensures tick { self.new.tick ≡ self.old.tick }
        ensures len { deque_len self.new.ready_queue + self.new.idle ≡ deque_len self.old.ready_queue + self.old.idle }
        ensures capacity { deque_capacity self.old.ready_queue ≤ deque_capacity self.new.ready_queue }
        ensures room { deque_len self.new.ready_queue + self.new.idle ≤ deque_capacity self.new.ready_queue }
    {
        self.idle -= 1;
        self.enter(leg);
    }

    /// A leg has nothing queued from now on.
    pub(crate) fn end(&mut self, leg: &ReadyLeg)
        requires order { IsInOrder self.old.ready_queue.items }
        requires waits { Contains self.old.ready_queue.items leg.now }
        requires room { deque_len self.old.ready_queue + self.old.idle ≤ deque_capacity self.old.ready_queue }
        ensures legs { IsPermutation self.old.ready_queue.items (leg.now ∷ self.new.ready_queue.items) }
        ensures order { IsInOrder self.new.ready_queue.items }
        ensures idle { self.new.idle ≡ self.old.idle + 1 }
        ensures tick { self.new.tick ≡ self.old.tick }
        ensures len { deque_len self.new.ready_queue + self.new.idle ≡ deque_len self.old.ready_queue + self.old.idle }
        ensures capacity { deque_capacity self.old.ready_queue ≤ deque_capacity self.new.ready_queue }
        ensures room { deque_len self.new.ready_queue + self.new.idle ≤ deque_capacity self.new.ready_queue }
    {
        self.withdraw(leg);
        self.idle += 1;
    }

    /// Puts a leg at its place.
    fn enter(&mut self, leg: ReadyLeg)
        requires order { IsInOrder self.old.ready_queue.items }
        requires room { deque_len self.old.ready_queue < deque_capacity self.old.ready_queue }
        ensures legs { IsPermutation (leg ∷ self.old.ready_queue.items) self.new.ready_queue.items }
        ensures order { IsInOrder self.new.ready_queue.items }
        ensures idle { self.new.idle ≡ self.old.idle }
        ensures tick { self.new.tick ≡ self.old.tick }
        ensures len { deque_len self.new.ready_queue ≡ deque_len self.old.ready_queue + 1 }
        ensures capacity { deque_capacity self.old.ready_queue ≤ deque_capacity self.new.ready_queue }
    {
        let place = self.place_of(&leg);
        let _ = self.ready_queue.insert(place, leg);
    }

    /// Takes a leg out.
    fn withdraw(&mut self, leg: &ReadyLeg)
        requires order { IsInOrder self.old.ready_queue.items }
        requires waits { Contains self.old.ready_queue.items leg.now }
        ensures legs { IsPermutation self.old.ready_queue.items (leg.now ∷ self.new.ready_queue.items) }
        ensures order { IsInOrder self.new.ready_queue.items }
        ensures idle { self.new.idle ≡ self.old.idle }
        ensures tick { self.new.tick ≡ self.old.tick }
        ensures len { deque_len self.new.ready_queue + 1 ≡ deque_len self.old.ready_queue }
        ensures capacity { deque_capacity self.old.ready_queue ≤ deque_capacity self.new.ready_queue }
    {
        match self.ready_queue.binary_search(leg) {
            Ok(place) => {
                let _ = self.ready_queue.remove(place);
            }
            Err(_) => unreachable!(),
        }
    }

    /// Where a leg belongs.
    fn place_of(&self, leg: &ReadyLeg) -> usize
        requires { IsInOrder self.now.ready_queue.items }
        ensures within { result ≤ deque_len self.now.ready_queue }
        ensures behind { (k : ℕ) (d : ReadyLeg) → k < result →
            is_before leg.now (slice_index_or self.now.ready_queue.items k d) ≡ false }
        ensures ahead { (k : ℕ) (d : ReadyLeg) → result ≤ k → k < length self.now.ready_queue.items →
            is_before (slice_index_or self.now.ready_queue.items k d) leg.now ≡ false }
    {
        // A leg of many cells goes to the end, and one of few stays in front.
        if let Some(last) = self.ready_queue.back()
            && last.cmp(leg).is_lt()
        {
            return self.ready_queue.len();
        }
        if let Some(first) = self.ready_queue.front()
            && leg.cmp(first).is_lt()
        {
            return 0;
        }
        match self.ready_queue.binary_search(leg) {
            Ok(place) => place,
            Err(place) => place,
        }
    }
}

fn halve(legs: &mut [ReadyLeg], ticks: u64)
    ensures { legs.new ≡ map (halved_ready_leg ticks) legs.old }
{
    for leg in legs.iter_mut() {
        leg.count = halved(leg.count, ticks);
    }
}
