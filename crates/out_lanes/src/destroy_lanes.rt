//! The DESTROY lanes of all channels.
ghost use Rattle.std.specs.Prelude.{◌≡◌, ◌<◌, ◌==◌, not};
ghost use Rattle.std.specs.FinMap.{empty};
ghost use Rattle.std.specs.List.{filter};
ghost use Rattle.cell_codec.specs.Roomy.{capacity};
ghost use Rattle.out_lanes.specs.Lines.{line_at, OthersStay, Reserves, AddsLast, TakesFirst, Empties};

use crate::destroy::Destroy;
use cell_codec::Queue;
use std::alloc::{AllocError, Global};
use std::collections::HashMap;
use std::marker::Model;

/// A lane of DESTROYs for each channel, named by its number.
#[derive(Drop)]
pub struct DestroyLanes {
    lanes: HashMap<u64, Queue<Destroy>>,
    alloc: Global,
}

impl Model for DestroyLanes {
    ghost use Rattle.std.specs.FinMap.{from_entries};
    ghost use Rattle.out_lanes.specs.Waiting.{ChannelLanes, channel_lanes_code};

    ghost Value = { ChannelLanes };

    ghost coded = { channel_lanes_code };

    ghost view = { λ l. from_entries l.lanes.entries };
}

impl DestroyLanes {
    /// No lane, and no memory yet.
    pub fn new(alloc: Global) -> DestroyLanes
        ensures { result ≡ empty }
    {
        DestroyLanes {
            lanes: HashMap::new(alloc),
            alloc,
        }
    }

    /// Takes room for `more` further DESTROYs.
    pub fn reserve(&mut self, chan: u64, more: usize) -> Result<(), AllocError>
        ensures { Reserves self.old self.new chan more result }
    {
        if let Some(lane) = self.lanes.get_mut(&chan) {
            return lane.reserve(more);
        }
        if more == 0 {
            return Ok(());
        }
        let mut lane = Queue::new(self.alloc);
        lane.reserve(more)?;
        self.lanes.insert(chan, lane)?;
        Ok(())
    }

    /// Adds a DESTROY at the end, in a spare place.
    pub fn push_reserved(&mut self, chan: u64, destroy: Destroy)
        requires { 0 < (line_at self.old chan).spare }
        ensures { AddsLast self.old self.new chan destroy }
    {
        let Some(lane) = self.lanes.get_mut(&chan) else {
            unreachable!()
        };
        lane.push_reserved(destroy);
    }

    /// Takes the oldest DESTROY off.
    pub fn pop(&mut self, chan: u64) -> Option<Destroy>
        ensures { TakesFirst self.old self.new chan result }
    {
        let Some(lane) = self.lanes.get_mut(&chan) else {
            return None;
        };
        lane.take_first()
    }

    /// Takes the DESTROY of a CircID out, if one waits.
    pub fn take_out(&mut self, chan: u64, id: u32)
        ensures items { (line_at self.new chan).items ≡ filter (λ d. not (d.id == id)) (line_at self.old chan).items }
        ensures capacity { capacity (line_at self.new chan) ≡ capacity (line_at self.old chan) }
        ensures others { OthersStay self.old self.new chan }
    {
        let Some(lane) = self.lanes.get_mut(&chan) else {
            return;
        };
        lane.retain(|destroy| destroy.id != id);
    }

    /// Drops a lane with its DESTROYs and its room.
    pub fn remove(&mut self, chan: u64)
        ensures { Empties self.old self.new chan }
    {
        self.lanes.remove(&chan);
    }
}
