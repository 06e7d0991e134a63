//! The counts of all legs, and the next leg of a channel.

ghost use Rattle.std.specs.Prelude.{◌≡◌, ◌≤◌, Some, OnOk, OnErr, IfSome, IfNone, IsSome, is_some, option_map};
ghost use Rattle.std.specs.FinMap as finite;
ghost use Rattle.ewma_sched.specs.Legs.{at_tick, with_leg_by, charged_leg, new_leg, leg_at, queued_leg, with_leg, without_leg, IsNext, NoneWaits};

use crate::table::LegTable;
use std::alloc::{AllocError, Global};
use std::marker::Model;
use tr_io::names::{ChanNo, CircNo};

/// The legs of all circuits, with their counts.
///
/// Contracts see a finite map from a leg, named by its circuit's number and its own, to its channel,
/// its count at the tick in force, and whether it has something queued. The tick in force is the
/// greatest that `join` or `pick` was given, and 0 at first; a count is in 65,536ths of a cell.
#[derive(Drop)]
pub struct Sched {
    table: LegTable,
}

impl Model for Sched {
    ghost use Rattle.ewma_sched.specs.Legs.{SchedState, sched_code};

    ghost Value = { SchedState };

    ghost coded = { sched_code };

    ghost use Rattle.ewma_sched.specs.Tables.{states, IsTable};

    ghost view = { λ s. states s.table.legs.entries s.table.tick };

    ghost invariant = { λ s. IsTable s.table.legs.entries s.table.rosters.entries s.table.tick };
}

impl Sched {
    /// No legs, and no memory yet.
    pub fn new(alloc: Global) -> Sched
        ensures { result ≡ record { legs = finite.empty; tick = 0 } }
    {
        Sched {
            table: LegTable::new(alloc),
        }
    }

    /// Adds a leg to a channel, with count 0 and nothing queued. A leg that is there begins anew.
    ///
    /// # Errors
    ///
    /// [`AllocError`] where memory is wanting, and then nothing changes.
    pub fn join(
        &mut self,
        chan: ChanNo,
        circ: CircNo,
        leg: u32,
        tick: u64,
    ) -> Result<(), AllocError>
        requires { self.old.tick ≤ tick }
        ensures ok { OnOk result (self.new ≡ with_leg (at_tick self.old tick) (circ.0, leg) (new_leg chan.0)) }
        ensures err { OnErr result (self.new ≡ self.old) }
        ensures tick { OnOk result (self.new.tick ≡ tick) }
    {
        let name = (circ.0, leg);
        self.table.reserve(chan.0)?;
        let old_chan = self.table.take_out(name);
        self.table.put_in(name, chan.0, tick);
        if let Some(chan) = old_chan {
            self.table.drop_if_empty(chan);
        }
        Ok(())
    }

    /// Takes a leg away, where it is there. It takes no memory.
    pub fn leave(&mut self, circ: CircNo, leg: u32)
        ensures legs { self.new ≡ without_leg self.old (circ.0, leg) }
        ensures tick { self.new.tick ≡ self.old.tick }
    {
        if let Some(chan) = self.table.take_out((circ.0, leg)) {
            self.table.drop_if_empty(chan);
        }
    }

    /// Says whether a leg has something queued, where it is there. It takes no memory.
    pub fn queued(&mut self, circ: CircNo, leg: u32, some: bool)
        ensures legs { self.new ≡ with_leg_by (queued_leg some) self.old (circ.0, leg) }
        ensures tick { self.new.tick ≡ self.old.tick }
    {
        self.table.queued((circ.0, leg), some);
    }

    /// The leg of a channel that is served next, which is charged one cell. `None` exactly where no leg
    /// of the channel has something queued. It takes no memory.
    pub fn pick(&mut self, chan: ChanNo, tick: u64) -> Option<(CircNo, u32)>
        requires { self.old.tick ≤ tick }
        ensures some { IfSome result (λ leg. IsNext (at_tick self.old tick) chan.0 (leg.0.0, leg.1)) }
        ensures charged { IfSome result (λ leg. self.new ≡ with_leg_by charged_leg (at_tick self.old tick) (leg.0.0, leg.1)) }
        ensures none { IfNone result (NoneWaits self.old chan.0) }
        ensures ticked { IfNone result (self.new ≡ at_tick self.old tick) }
        ensures tick { self.new.tick ≡ tick }
    {
        let next = self.table.pick(chan.0, tick)?;
        Some((CircNo(next.circ), next.number))
    }

    /// Whether a leg is there.
    pub fn has_leg(&self, circ: CircNo, leg: u32) -> bool
        ensures { result ≡ is_some (leg_at self.now (circ.0, leg)) }
    {
        self.table.legs.contains_key(&(circ.0, leg))
    }

    /// A leg's count at a tick.
    pub fn count(&self, circ: CircNo, leg: u32, tick: u64) -> u64
        requires tick { self.now.tick ≤ tick }
        requires there { IsSome (leg_at self.now (circ.0, leg)) }
        ensures { option_map (λ x. x.count) (leg_at (at_tick self.now tick) (circ.0, leg)) ≡ Some result }
    {
        match self.table.legs.get(&(circ.0, leg)) {
            Some(leg) => leg.count.at(tick),
            None => unreachable!(),
        }
    }
}
