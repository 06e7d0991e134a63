//! Times turns of a lock by the command line, for `bench/run lock`, beside std's `Mutex` in the same
//! run, and passes a turn round among threads that park.
#![tactic(auto)]

mod figures;
mod round;
mod worker;

use std::process::ExitCode;
use std::{env, io};

const USAGE: &str = "usage: lock_bench turns | lock_bench rounds THREADS ROUNDS";

/// What to do.
#[derive(Clone, Copy)]
enum Request {
    /// Time turns.
    Turns,
    /// Pass a turn round among so many threads, so many times.
    Rounds { threads: u32, rounds: u32 },
}

fn asked(words: &[String]) -> Option<Request> {
    match words.get(1)?.as_str() {
        "turns" => Some(Request::Turns),
        "rounds" => Some(Request::Rounds {
            threads: words.get(2)?.as_str().parse::<u32>().ok()?,
            rounds: words.get(3)?.as_str().parse::<u32>().ok()?,
        }),
        _ => None,
    }
}

fn main(rt: HostRuntime) -> io::Result<ExitCode> {
    let mut words = Vec::new(rt.alloc());
    for word in env::args(&rt)? {
        words.push(word)?;
    }
    match asked(&words) {
        Some(Request::Turns) => figures::print(&rt, rt.alloc())?,
        Some(Request::Rounds { threads, rounds }) => {
            let steps = round::pass_round(&rt, rt.alloc(), threads, rounds)?;
            println!(rt; "{steps} steps")?;
        }
        None => {
            rt.println(USAGE)?;
            return Ok(ExitCode::from(1));
        }
    }
    Ok(ExitCode::SUCCESS)
}
