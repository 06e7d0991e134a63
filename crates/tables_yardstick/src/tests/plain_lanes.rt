//! What waits to leave, as two lists.

use out_lanes::Destroy;
use std::alloc::{AllocError, Global};

/// A cell of the list, by the number that it carries.
#[derive(Clone, Copy)]
struct LegCell {
    circ: u64,
    leg: u32,
    number: u32,
}

/// A DESTROY of the list.
#[derive(Clone, Copy)]
struct ChannelDestroy {
    chan: u64,
    destroy: Destroy,
}

/// All that waits in two lists, which each call goes through.
#[derive(Drop)]
pub struct PlainLanes {
    cells: Vec<LegCell>,
    destroys: Vec<ChannelDestroy>,
}

impl PlainLanes {
    pub fn new(alloc: Global) -> PlainLanes {
        PlainLanes {
            cells: Vec::new(alloc),
            destroys: Vec::new(alloc),
        }
    }

    pub fn push(&mut self, circ: u64, leg: u32, number: u32) -> Result<(), AllocError> {
        self.cells.push(LegCell { circ, leg, number })?;
        Ok(())
    }

    pub fn pop(&mut self, circ: u64, leg: u32) -> Option<u32> {
        for place in 0..self.cells.len() {
            if place < self.cells.len() {
                let cell = self.cells[place];
                if cell.circ == circ && cell.leg == leg {
                    self.cells.remove(place);
                    return Some(cell.number);
                }
            }
        }
        None
    }

    pub fn drop_leg(&mut self, circ: u64, leg: u32) {
        self.cells
            .retain(|cell| cell.circ != circ || cell.leg != leg);
    }

    pub fn destroy(&mut self, chan: u64, destroy: Destroy) -> Result<(), AllocError> {
        self.destroys.push(ChannelDestroy { chan, destroy })?;
        Ok(())
    }

    pub fn undestroy(&mut self, chan: u64, id: u32) {
        self.destroys
            .retain(|entry| entry.chan != chan || entry.destroy.id != id);
    }

    pub fn pop_destroy(&mut self, chan: u64) -> Option<Destroy> {
        for place in 0..self.destroys.len() {
            if place < self.destroys.len() {
                let entry = self.destroys[place];
                if entry.chan == chan {
                    self.destroys.remove(place);
                    return Some(entry.destroy);
                }
            }
        }
        None
    }

    pub fn drop_lane(&mut self, chan: u64) {
        self.destroys.retain(|entry| entry.chan != chan);
    }
}
