//! Times the switch's tables by the command line, for `bench/run tables`: so many circuits on so many
//! channels, and 512 calls of each kind a round, spread over them. At most 512 cells wait at a time,
//! however many circuits there are.
//!
//! It prints the nanoseconds of processor time that a call of each kind took.
#![tactic(auto)]

mod clock;
mod finding;
mod legs;
mod picking;
mod queueing;
mod request;

use crate::finding::find_time;
use crate::legs::{CALLS, legs_of};
use crate::picking::pick_time;
use crate::queueing::queue_time;
use crate::request::{Request, asked};
use std::alloc::Global;
use std::process::ExitCode;
use std::time::CpuClock;
use std::{env, io};

const USAGE: &str = "usage: tables_bench CHANNELS CIRCUITS ROUNDS";

/// Prints what a call took, in tenths of a nanosecond.
fn print_time(rt: &impl Print, name: &str, nanoseconds: u64, rounds: u32) -> io::Result<()> {
    let calls = u64::from(CALLS) * u64::from(rounds.max(1));
    let tenths = nanoseconds.saturating_mul(10) / calls;
    println!(rt; "{name} {}.{}", tenths / 10, tenths % 10)
}

fn run(rt: &(impl CpuClock + Print), alloc: Global, request: Request) -> io::Result<()> {
    let legs = legs_of(alloc, request)?;
    let rounds = request.rounds;
    let find = find_time(rt, alloc, legs.as_slice(), rounds)?;
    let pick = pick_time(rt, alloc, legs.as_slice(), rounds)?;
    let queue_times = queue_time(rt, alloc, legs.as_slice(), rounds)?;
    print_time(rt, "find", find, rounds)?;
    print_time(rt, "pick", pick, rounds)?;
    print_time(rt, "push", queue_times.push, rounds)?;
    print_time(rt, "pop", queue_times.pop, rounds)
}

fn main(rt: HostRuntime) -> io::Result<ExitCode> {
    let mut words = Vec::new(rt.alloc());
    for word in env::args(&rt)? {
        words.push(word)?;
    }
    let Some(request) = asked(&words) else {
        rt.println(USAGE)?;
        return Ok(ExitCode::from(1));
    };
    run(&rt, rt.alloc(), request)?;
    Ok(ExitCode::SUCCESS)
}
