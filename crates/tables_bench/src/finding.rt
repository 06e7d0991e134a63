//! Times `find` of a CircID.

use crate::clock::now;
use crate::legs::BenchLeg;
use circuit_table::CircuitTable;
use std::alloc::{AllocError, Global};
use std::io;
use std::time::CpuClock;

/// A table in which each leg has its CircID.
fn table_of(alloc: Global, legs: &[BenchLeg]) -> Result<CircuitTable, AllocError> {
    let mut table = CircuitTable::new(alloc);
    for leg in legs {
        if table.find(leg.chan, leg.id).is_none() {
            table.insert(leg.chan, leg.id, leg.circ, 0)?;
        }
    }
    Ok(table)
}

/// The nanoseconds that so many rounds of `find` take.
fn time_finds(
    rt: &impl CpuClock,
    table: &CircuitTable,
    legs: &[BenchLeg],
    rounds: u32,
) -> io::Result<u64> {
    let start = now(rt)?;
    let mut found_circuits = 0u64;
    for _round in 0..rounds {
        for leg in legs {
            if let Some((circ, _)) = table.find(leg.chan, leg.id) {
                found_circuits ^= circ.0;
            }
        }
    }
    let end = now(rt)?;
    // What was found is used, so that it has to be looked for.
    Ok(end.saturating_sub(start).max(found_circuits & 1))
}

/// The nanoseconds of rounds of `find` in a table of these legs.
pub(crate) fn find_time(
    rt: &impl CpuClock,
    alloc: Global,
    legs: &[BenchLeg],
    rounds: u32,
) -> io::Result<u64> {
    let table = table_of(alloc, legs)?;
    time_finds(rt, &table, legs, rounds)
}
