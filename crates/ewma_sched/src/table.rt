//! The legs of all circuits, and the rosters of their channels.

ghost use Rattle.std.specs.Prelude.{[], ◌≡◌, ◌+◌, ◌-◌, ◌≤◌, ℕ, true, false, Some, None, OnOk, OnErr, IfSome, IfNone, option_map};
ghost use Rattle.std.specs.VecDeque.{deque_len, deque_capacity};
ghost use Rattle.std.specs.HashMap.{spare};
ghost use Rattle.ewma_sched.specs.Counts.{charged, halved};
ghost use Rattle.ewma_sched.specs.Tables.{Becomes, Changes, KeepsRoom, SameLegs, Charges, RosterHasRoom, IsTable, IsFirst, NoneWaitsOn, roster_in, leg_in, queued_as};

use crate::count::Count;
use crate::legs::{CountedLeg, LegName, Legs, remove, set_count, set_queued};
use crate::roster::{ReadyLeg, Roster};
use std::alloc::{AllocError, Global};
use std::collections::HashMap;

/// All legs, and of each channel that has legs those that have something queued.
#[derive(Drop)]
pub(crate) struct LegTable {
    pub legs: Legs,
    pub rosters: HashMap<u64, Roster>,
    pub tick: u64,
    alloc: Global,
}

impl LegTable {
    pub(crate) fn new(alloc: Global) -> LegTable
        ensures legs { result.legs.entries ≡ [] }
        ensures tick { result.tick ≡ 0 }
        ensures table { IsTable result.legs.entries result.rosters.entries result.tick }
    {
        LegTable {
            legs: HashMap::new(alloc),
            rosters: HashMap::new(alloc),
            tick: 0,
            alloc,
        }
    }

    /// Takes room for one more leg of a channel.
    pub(crate) fn reserve(&mut self, chan: u64) -> Result<(), AllocError>
        requires { IsTable self.old.legs.entries self.old.rosters.entries self.old.tick }
        ensures table { IsTable self.new.legs.entries self.new.rosters.entries self.new.tick }
        ensures legs { SameLegs self.old.legs.entries self.new.legs.entries }
        ensures tick { self.new.tick ≡ self.old.tick }
        ensures room { OnOk result (RosterHasRoom (roster_in self.new.rosters.entries chan)) }
        ensures spare { OnOk result (1 ≤ spare self.new.legs) }
    {
        self.legs.reserve(1)?;
        if let Some(roster) = self.rosters.get_mut(&chan) {
            return roster.reserve();
        }
        let mut roster = Roster::new(self.alloc, self.tick);
        roster.reserve()?;
        self.rosters.insert(chan, roster)?;
        Ok(())
    }

    /// Adds a leg that is not there, with count 0.
    pub(crate) fn put_in(&mut self, name: LegName, chan: u64, tick: u64)
        requires table { IsTable self.old.legs.entries self.old.rosters.entries self.old.tick }
        requires tick { self.old.tick ≤ tick }
        requires new { leg_in self.old.legs.entries name ≡ None }
        requires room { RosterHasRoom (roster_in self.old.rosters.entries chan) }
        requires spare { 1 ≤ spare self.old.legs }
        ensures table { IsTable self.new.legs.entries self.new.rosters.entries self.new.tick }
        ensures leg { Changes self.old.legs.entries self.new.legs.entries name None
            (Some (record { chan = chan; count = record { value = 0; tick = tick }; has_cells = false })) }
        ensures tick { self.new.tick ≡ tick }
    {
        self.tick = tick;
        let leg = CountedLeg {
            chan,
            count: Count { value: 0, tick },
            has_cells: false,
        };
        let _ = self.legs.insert(name, leg);
        let Some(roster) = self.rosters.get_mut(&chan) else {
            unreachable!()
        };
        roster.idle += 1;
    }

    /// Takes a leg away. The answer is its channel.
    pub(crate) fn take_out(&mut self, name: LegName) -> Option<u64>
        requires { IsTable self.old.legs.entries self.old.rosters.entries self.old.tick }
        ensures table { IsTable self.new.legs.entries self.new.rosters.entries self.new.tick }
        ensures tick { self.new.tick ≡ self.old.tick }
        ensures leg { Becomes self.old.legs.entries self.new.legs.entries name None }
        ensures room { KeepsRoom self.old.rosters.entries self.new.rosters.entries }
        ensures spare { spare self.old.legs ≤ spare self.new.legs }
    {
        self.queued(name, false);
        let leg = remove(&mut self.legs, name)?;
        let Some(roster) = self.rosters.get_mut(&leg.chan) else {
            unreachable!()
        };
        roster.idle -= 1;
        Some(leg.chan)
    }

    /// Drops the roster of a channel that has no legs.
    pub(crate) fn drop_if_empty(&mut self, chan: u64)
        requires { IsTable self.old.legs.entries self.old.rosters.entries self.old.tick }
        ensures table { IsTable self.new.legs.entries self.new.rosters.entries self.new.tick }
        ensures legs { self.new.legs ≡ self.old.legs }
        ensures tick { self.new.tick ≡ self.old.tick }
        ensures used { IfSome (roster_in self.new.rosters.entries chan) (λ roster. 1 ≤ deque_len roster.ready_queue + roster.idle) }
    {
        let Some(roster) = self.rosters.get(&chan) else {
            return;
        };
        if roster.ready_queue.is_empty() && roster.idle == 0 {
            let _ = self.rosters.remove(&chan);
        }
    }

    /// Says whether a leg has something queued.
    pub(crate) fn queued(&mut self, name: LegName, some: bool)
        requires { IsTable self.old.legs.entries self.old.rosters.entries self.old.tick }
        ensures table { IsTable self.new.legs.entries self.new.rosters.entries self.new.tick }
        ensures tick { self.new.tick ≡ self.old.tick }
        ensures room { KeepsRoom self.old.rosters.entries self.new.rosters.entries }
        ensures spare { spare self.old.legs ≤ spare self.new.legs }
        ensures leg { Becomes self.old.legs.entries self.new.legs.entries name
            (option_map (queued_as some) (leg_in self.old.legs.entries name)) }
    {
        let Some(leg) = set_queued(&mut self.legs, name, some) else {
            return;
        };
        let Some(roster) = self.rosters.get_mut(&leg.chan) else {
            unreachable!()
        };
        if some {
            roster.go_on(self.tick);
            roster.begin(ready_leg(name, leg.count.at(self.tick)));
        } else {
            roster.end(&ready_leg(name, leg.count.at(roster.tick)));
        }
    }

    /// The leg of a channel that is served next, with its count after one more cell.
    pub(crate) fn pick(&mut self, chan: u64, tick: u64) -> Option<ReadyLeg>
        requires table { IsTable self.old.legs.entries self.old.rosters.entries self.old.tick }
        requires tick { self.old.tick ≤ tick }
        ensures table { IsTable self.new.legs.entries self.new.rosters.entries self.new.tick }
        ensures tick { self.new.tick ≡ tick }
        ensures first { IfSome result (λ w. IsFirst self.old.legs.entries tick chan (w.circ, w.number)) }
        ensures charged { IfSome result (λ w. Charges self.old.legs.entries self.new.legs.entries tick (w.circ, w.number)) }
        ensures none { IfNone result (NoneWaitsOn self.old.legs.entries chan) }
        ensures same { IfNone result (SameLegs self.old.legs.entries self.new.legs.entries) }
    {
        self.tick = tick;
        let roster = self.rosters.get_mut(&chan)?;
        roster.go_on(tick);
        let next = roster.serve()?;
        set_count(
            &mut self.legs,
            (next.circ, next.number),
            Count {
                value: next.count,
                tick,
            },
        );
        Some(next)
    }
}

fn ready_leg(name: LegName, count: u64) -> ReadyLeg
    ensures { result ≡ record { count = count; circ = name.0; number = name.1 } }
{
    ReadyLeg {
        count,
        circ: name.0,
        number: name.1,
    }
}
