//! What is known of each leg.

ghost use Rattle.std.specs.HashMap.{spare};
ghost use Rattle.std.specs.Prelude.{not, ◌≡◌, ◌≤◌, true, Some, None, IfSome, IfNone, MatchOption};
ghost use Rattle.ewma_sched.specs.Tables.{Changes, SameLegs, leg_in};

use crate::count::Count;
use std::alloc::AllocError;
use std::collections::HashMap;

/// A leg: its channel, its count, and whether it has something queued.
#[derive(Clone, Copy)]
pub(crate) struct CountedLeg {
    pub chan: u64,
    pub count: Count,
    pub has_cells: bool,
}

/// A leg's circuit number and its own.
pub(crate) type LegName = (u64, u32);

pub(crate) type Legs = HashMap<LegName, CountedLeg>;

/// Gives a leg another count.
pub(crate) fn set_count(legs: &mut Legs, name: LegName, count: Count)
    ensures { MatchOption (leg_in legs.old.entries name) (SameLegs legs.old.entries legs.new.entries)
        (λ x. Changes legs.old.entries legs.new.entries name (Some x) (Some (record x { count = count }))) }
{
    if let Some(leg) = legs.get_mut(&name) {
        leg.count = count;
    }
}

/// Notes whether a leg has something queued. The answer is the leg as it was, where that is news.
pub(crate) fn set_queued(legs: &mut Legs, name: LegName, some: bool) -> Option<CountedLeg>
    ensures some { IfSome result (λ x. Changes legs.old.entries legs.new.entries name (Some x) (Some (record x { has_cells = some }))) }
    ensures news { IfSome result (λ x. x.has_cells ≡ not some) }
    ensures none { IfNone result (SameLegs legs.old.entries legs.new.entries) }
    ensures spare { spare legs.new ≡ spare legs.old }
    ensures known { IfNone result (MatchOption (leg_in legs.old.entries name) (true ≡ true) (λ x. x.has_cells ≡ some)) }
{
    let leg = legs.get_mut(&name)?;
    if leg.has_cells == some {
        return None;
    }
    let old_leg = *leg;
    leg.has_cells = some;
    Some(old_leg)
}

/// Takes a leg away.
pub(crate) fn remove(legs: &mut Legs, name: LegName) -> Option<CountedLeg>
    ensures some { IfSome result (λ x. Changes legs.old.entries legs.new.entries name (Some x) None) }
    ensures none { IfNone result (SameLegs legs.old.entries legs.new.entries) }
    ensures spare { spare legs.old ≤ spare legs.new }
    ensures gone { IfNone result (leg_in legs.old.entries name ≡ None) }
{
    legs.remove(&name)
}
