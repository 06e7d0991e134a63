//! Decaying counts by a plain walk over all legs, in which each tick halves every count.

use std::alloc::{AllocError, Global};

#[derive(Clone, Copy)]
struct PlainLeg {
    chan: u64,
    circ: u64,
    number: u32,
    count: u64,
    has_cells: bool,
}

#[derive(Drop)]
pub struct PlainCounts {
    legs: Vec<PlainLeg>,
    tick: u64,
}

impl PlainCounts {
    pub fn new(alloc: Global) -> PlainCounts {
        PlainCounts {
            legs: Vec::new(alloc),
            tick: 0,
        }
    }

    pub fn join(&mut self, chan: u64, circ: u64, number: u32, tick: u64) -> Result<(), AllocError> {
        self.go_on(tick);
        self.leave(circ, number);
        self.legs.push(PlainLeg {
            chan,
            circ,
            number,
            count: 0,
            has_cells: false,
        })?;
        Ok(())
    }

    pub fn leave(&mut self, circ: u64, number: u32) {
        self.legs
            .retain(|leg| leg.circ != circ || leg.number != number);
    }

    pub fn queued(&mut self, circ: u64, number: u32, some: bool) {
        for leg in self.legs.iter_mut() {
            if leg.circ == circ && leg.number == number {
                leg.has_cells = some;
            }
        }
    }

    pub fn pick(&mut self, chan: u64, tick: u64) -> Option<(u64, u32)> {
        self.go_on(tick);
        let mut first: Option<(u64, u64, u32)> = None;
        for leg in &self.legs {
            if leg.chan != chan || !leg.has_cells {
                continue;
            }
            let rank = (leg.count, leg.circ, leg.number);
            if first.is_none_or(|least_rank| rank < least_rank) {
                first = Some(rank);
            }
        }
        let (_, circ, number) = first?;
        for leg in self.legs.iter_mut() {
            if leg.circ == circ && leg.number == number {
                leg.count = leg.count.saturating_add(65536);
            }
        }
        Some((circ, number))
    }

    pub fn count(&self, circ: u64, number: u32, tick: u64) -> Option<u64> {
        for leg in &self.legs {
            if leg.circ == circ && leg.number == number {
                let mut count = leg.count;
                for _tick in self.tick..tick {
                    count /= 2;
                }
                return Some(count);
            }
        }
        None
    }

    fn go_on(&mut self, tick: u64) {
        for _tick in self.tick..tick {
            for leg in self.legs.iter_mut() {
                leg.count /= 2;
            }
        }
        self.tick = self.tick.max(tick);
    }
}
