//! The queues of legs and the DESTROY lanes of channels together.
ghost use Rattle.std.specs.Prelude.{◌≡◌, ◌+◌, ◌<◌, ◌≤◌, ◌==◌, [], ◌∷◌, ◌++◌, drop, slice_get, not, option_map, IfSome, IsOk, OnOk, OnErr};
ghost use Rattle.std.specs.FinMap.{empty};
ghost use Rattle.std.specs.List.{filter};
ghost use Rattle.cell_codec.specs.Cells.{IsWellFormed};
ghost use Rattle.cell_codec.specs.Roomy.{capacity};
ghost use Rattle.out_lanes.specs.Destroys.{destroy_cell};
ghost use Rattle.out_lanes.specs.Lines.{nothing};
ghost use Rattle.out_lanes.specs.Waiting.{queue_on, lane_on, QueueChanges, LaneChanges};

use crate::destroy::Destroy;
use crate::destroy_lanes::DestroyLanes;
use crate::queues::Queues;
use cell_codec::Cell;
use std::alloc::{AllocError, Global};
use std::marker::Model;
use tr_io::names::{ChanNo, CircNo};

/// The cells that wait on each leg, and the DESTROYs that wait on each channel.
///
/// Contracts see lists, oldest first. Beside each stands how many more it takes without memory, its
/// spare places: what [`Lanes::reserve`] and [`Lanes::reserve_destroy`] took, and the places of what
/// has left. A leg or a channel of which nothing was said yet has an empty list and no room.
#[derive(Drop)]
pub struct Lanes {
    queues: Queues,
    lanes: DestroyLanes,
}

impl Model for Lanes {
    ghost use Rattle.out_lanes.specs.Waiting.{LanesState, lanes_state_code};

    ghost Value = { LanesState };

    ghost coded = { lanes_state_code };

    ghost view = { λ l. record { queues = l.queues; lanes = l.lanes } };
}

impl Lanes {
    /// Nothing waits, and no memory is taken yet.
    pub fn new(alloc: Global) -> Lanes
        ensures { result ≡ record { queues = empty; lanes = empty } }
    {
        Lanes {
            queues: Queues::new(alloc),
            lanes: DestroyLanes::new(alloc),
        }
    }

    /// Takes room on a leg, so that it takes `n` further cells without memory.
    ///
    /// # Errors
    ///
    /// [`AllocError`] where memory is wanting, and then nothing changes. It isn't where the leg has the
    /// room already.
    pub fn reserve(&mut self, circ: CircNo, leg: u32, n: u32) -> Result<(), AllocError>
        ensures items { (queue_on self.new circ.0 leg).items ≡ (queue_on self.old circ.0 leg).items }
        ensures ok { OnOk result (n ≤ (queue_on self.new circ.0 leg).spare) }
        ensures kept { (queue_on self.old circ.0 leg).spare ≤ (queue_on self.new circ.0 leg).spare }
        ensures others { QueueChanges self.old self.new circ.0 leg }
        ensures err { OnErr result (self.new ≡ self.old) }
        ensures room { n ≤ (queue_on self.old circ.0 leg).spare → IsOk result }
    {
        self.queues.reserve((circ.0, leg), n as usize)
    }

    /// A cell waits on a leg, behind those that wait already.
    ///
    /// # Errors
    ///
    /// [`AllocError`] where memory is wanting, and then nothing changes. It isn't where the leg has a
    /// spare place.
    pub fn push(&mut self, circ: CircNo, leg: u32, cell: Cell) -> Result<(), AllocError>
        requires { IsWellFormed cell }
        ensures ok { OnOk result ((queue_on self.new circ.0 leg).items ≡ (queue_on self.old circ.0 leg).items ++ cell ∷ []) }
        ensures spare { OnOk result ((queue_on self.old circ.0 leg).spare ≤ (queue_on self.new circ.0 leg).spare + 1) }
        ensures others { QueueChanges self.old self.new circ.0 leg }
        ensures err { OnErr result (self.new ≡ self.old) }
        ensures room { 0 < (queue_on self.old circ.0 leg).spare → IsOk result }
    {
        self.queues.push((circ.0, leg), cell)
    }

    /// The same in a spare place, without memory.
    pub fn push_reserved(&mut self, circ: CircNo, leg: u32, cell: Cell)
        requires well_formed { IsWellFormed cell }
        requires room { 0 < (queue_on self.old circ.0 leg).spare }
        ensures items { (queue_on self.new circ.0 leg).items ≡ (queue_on self.old circ.0 leg).items ++ cell ∷ [] }
        ensures spare { (queue_on self.new circ.0 leg).spare + 1 ≡ (queue_on self.old circ.0 leg).spare }
        ensures others { QueueChanges self.old self.new circ.0 leg }
    {
        self.queues.push_reserved((circ.0, leg), cell);
    }

    /// The oldest cell leaves a leg. Its place is spare then.
    pub fn pop(&mut self, circ: CircNo, leg: u32) -> Option<Cell>
        ensures cell { result ≡ slice_get (queue_on self.old circ.0 leg).items 0 }
        ensures items { (queue_on self.new circ.0 leg).items ≡ drop 1 (queue_on self.old circ.0 leg).items }
        ensures capacity { capacity (queue_on self.new circ.0 leg) ≡ capacity (queue_on self.old circ.0 leg) }
        ensures others { QueueChanges self.old self.new circ.0 leg }
        ensures well_formed { IfSome result IsWellFormed }
    {
        self.queues.pop((circ.0, leg))
    }

    /// A leg ends: its cells go, and its room.
    pub fn drop_leg(&mut self, circ: CircNo, leg: u32)
        ensures nothing { queue_on self.new circ.0 leg ≡ nothing }
        ensures others { QueueChanges self.old self.new circ.0 leg }
    {
        self.queues.remove((circ.0, leg));
    }

    /// Takes room on a channel, so that its lane takes `n` further DESTROYs without memory.
    ///
    /// # Errors
    ///
    /// [`AllocError`] where memory is wanting, and then nothing changes. It isn't where the lane has the
    /// room already.
    pub fn reserve_destroy(&mut self, chan: ChanNo, n: u32) -> Result<(), AllocError>
        ensures items { (lane_on self.new chan.0).items ≡ (lane_on self.old chan.0).items }
        ensures ok { OnOk result (n ≤ (lane_on self.new chan.0).spare) }
        ensures kept { (lane_on self.old chan.0).spare ≤ (lane_on self.new chan.0).spare }
        ensures others { LaneChanges self.old self.new chan.0 }
        ensures err { OnErr result (self.new ≡ self.old) }
        ensures room { n ≤ (lane_on self.old chan.0).spare → IsOk result }
    {
        self.lanes.reserve(chan.0, n as usize)
    }

    /// A DESTROY for a CircID waits on a channel, behind those that wait already, in a spare place.
    pub fn destroy(&mut self, chan: ChanNo, id: u32, reason: u8)
        requires { 0 < (lane_on self.old chan.0).spare }
        ensures items { (lane_on self.new chan.0).items ≡ (lane_on self.old chan.0).items ++ record { id = id; reason = reason }
            ∷ [] }
        ensures spare { (lane_on self.new chan.0).spare + 1 ≡ (lane_on self.old chan.0).spare }
        ensures others { LaneChanges self.old self.new chan.0 }
    {
        self.lanes.push_reserved(chan.0, Destroy { id, reason });
    }

    /// The DESTROY of a CircID that waits on a channel goes, if one does. Its place is spare then.
    pub fn undestroy(&mut self, chan: ChanNo, id: u32)
        ensures items { (lane_on self.new chan.0).items ≡ filter (λ d. not (d.id == id)) (lane_on self.old chan.0).items }
        ensures capacity { capacity (lane_on self.new chan.0) ≡ capacity (lane_on self.old chan.0) }
        ensures others { LaneChanges self.old self.new chan.0 }
    {
        self.lanes.take_out(chan.0, id);
    }

    /// The oldest DESTROY leaves a channel, as a cell. Its place is spare then.
    pub fn pop_destroy(&mut self, chan: ChanNo) -> Option<Cell>
        ensures cell { result ≡ option_map destroy_cell (slice_get (lane_on self.old chan.0).items 0) }
        ensures items { (lane_on self.new chan.0).items ≡ drop 1 (lane_on self.old chan.0).items }
        ensures capacity { capacity (lane_on self.new chan.0) ≡ capacity (lane_on self.old chan.0) }
        ensures others { LaneChanges self.old self.new chan.0 }
        ensures well_formed { IfSome result IsWellFormed }
    {
        let destroy = self.lanes.pop(chan.0)?;
        Some(destroy.cell())
    }

    /// A channel ends: the DESTROYs of its lane go, and its room.
    pub fn drop_lane(&mut self, chan: ChanNo)
        ensures nothing { lane_on self.new chan.0 ≡ nothing }
        ensures others { LaneChanges self.old self.new chan.0 }
    {
        self.lanes.remove(chan.0);
    }
}
