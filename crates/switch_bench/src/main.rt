//! Times a switch with one circuit by the command line, for `bench/run switch`: relay cells that are taken,
//! claimed by batches of one size, worked and given back, and cells that the circuit packages and that leave.
//! Beside them, in the same rounds, one layer alone, with it the running digest, and the clock.
//!
//! It prints the nanoseconds of processor time for a cell.
#![tactic(auto)]

mod bare;
mod cells;
mod clock;
mod request;
mod section;
mod sections;
mod switches;

use crate::bare::{clock_alone, layer, layer_and_digest};
use crate::cells::CELLS;
use crate::request::{Request, asked};
use crate::section::{NOTHING, Section};
use crate::sections::{answered, dropped, taken};
use std::alloc::Global;
use std::process::ExitCode;
use std::time::CpuClock;
use std::{env, io};

const USAGE: &str = "usage: switch_bench BATCH ROUNDS (a batch has 1 to 32 cells)";

/// What all rounds took.
#[derive(Clone, Copy)]
struct Times {
    layer: Section,
    layer_and_digest: Section,
    clock: Section,
    taken_section: Section,
    dropped: Section,
    answered: Section,
}

/// One more round.
fn add_round(
    rt: &impl CpuClock,
    alloc: Global,
    request: Request,
    times: &mut Times,
) -> io::Result<()> {
    times.layer = times.layer.with(layer(rt)?);
    times.layer_and_digest = times.layer_and_digest.with(layer_and_digest(rt)?);
    times.clock = times.clock.with(clock_alone(rt, request)?);
    times.taken_section = times.taken_section.with(taken(rt, alloc)?);
    times.dropped = times.dropped.with(dropped(rt, alloc, request)?);
    times.answered = times.answered.with(answered(rt, alloc, request)?);
    Ok(())
}

/// Prints what a cell took, in tenths of a nanosecond, where all went through.
fn print_time(rt: &impl Print, name: &str, section: Section, rounds: u32) -> io::Result<()> {
    let cells = u64::from(CELLS) * u64::from(rounds.max(1));
    if section.cells != cells {
        return println!(rt;
            "wrong: {name} went through with {} cells of {cells}",
            section.cells
        );
    }
    let tenths = section.nanoseconds.saturating_mul(10) / cells;
    println!(rt; "{name} {}.{}", tenths / 10, tenths % 10)
}

fn run(rt: &(impl CpuClock + Print), alloc: Global, request: Request) -> io::Result<()> {
    let mut times = Times {
        layer: NOTHING,
        layer_and_digest: NOTHING,
        clock: NOTHING,
        taken_section: NOTHING,
        dropped: NOTHING,
        answered: NOTHING,
    };
    for _round in 0..request.rounds {
        add_round(rt, alloc, request, &mut times)?;
    }
    let rounds = request.rounds;
    print_time(rt, "layer", times.layer, rounds)?;
    print_time(rt, "layer_and_digest", times.layer_and_digest, rounds)?;
    print_time(rt, "clock", times.clock, rounds)?;
    print_time(rt, "taken", times.taken_section, rounds)?;
    print_time(rt, "dropped", times.dropped, rounds)?;
    print_time(rt, "answered", times.answered, rounds)
}

fn main(rt: HostRuntime) -> io::Result<ExitCode> {
    let mut words = Vec::new(rt.alloc());
    for word in env::args(&rt)? {
        words.push(word)?;
    }
    let Some(request) = asked(&words) else {
        rt.println(USAGE)?;
        return Ok(ExitCode::from(1));
    };
    run(&rt, rt.alloc(), request)?;
    Ok(ExitCode::SUCCESS)
}
