//! Times `push` and `pop` of a cell.

ghost use Rattle.cell_codec.specs.Cells.{IsWellFormed};

use crate::clock::now;
use crate::legs::BenchLeg;
use cell_codec::command::RELAY;
use cell_codec::{Body, Cell};
use out_lanes::Lanes;
use std::alloc::Global;
use std::io;
use std::time::CpuClock;

/// Nanoseconds of `push` and of `pop`.
#[derive(Clone, Copy)]
pub(crate) struct QueueTimes {
    pub push: u64,
    pub pop: u64,
}

fn relay_cell(circ: u32) -> Cell
    ensures { IsWellFormed result }
{
    Cell {
        circ,
        command: RELAY,
        body: Body::Fixed([7; 509]),
    }
}

/// The nanoseconds that so many rounds of pushes and pops take.
fn time_queues(
    rt: &impl CpuClock,
    lanes: &mut Lanes,
    legs: &[BenchLeg],
    rounds: u32,
) -> io::Result<QueueTimes> {
    let mut times = QueueTimes { push: 0, pop: 0 };
    // What leaves is moved out, as to a link.
    let mut last_cell = relay_cell(0);
    for _round in 0..rounds {
        let start = now(rt)?;
        for leg in legs {
            lanes.push(leg.circ, 0, relay_cell(leg.id))?;
        }
        let middle = now(rt)?;
        for leg in legs {
            if let Some(cell) = lanes.pop(leg.circ, 0) {
                last_cell = cell;
            }
        }
        let end = now(rt)?;
        times.push = times.push.saturating_add(middle.saturating_sub(start));
        times.pop = times.pop.saturating_add(end.saturating_sub(middle));
    }
    times.pop = times.pop.max(u64::from(last_cell.circ & 1));
    Ok(times)
}

/// The nanoseconds of rounds of pushes and pops on queues of these legs.
pub(crate) fn queue_time(
    rt: &impl CpuClock,
    alloc: Global,
    legs: &[BenchLeg],
    rounds: u32,
) -> io::Result<QueueTimes> {
    let mut lanes = Lanes::new(alloc);
    time_queues(rt, &mut lanes, legs, rounds)
}
