//! The onion relay's program.
//!
//! `tor_relay tape` reads a tape, a list of records of calls of the switch, from standard input,
//! makes the calls, and writes their answers to standard output (docs/FORMATS.md).
#![tactic(auto)]

mod program;
#[cfg(test)]
mod tests;

use program::{end_program, end_without_words, run_program};
use std::env;
use std::process::ExitCode;
use tr_io::standard::{ReaderSource, WriterSink};

/// Hands the real words, standard input, output and error to `run_program`, and its number on. No
/// contract covers this function and `command_line`.
fn main(rt: HostRuntime) -> ExitCode {
    let mut source = ReaderSource::new(rt.stdin());
    let mut sink = WriterSink::new(rt.stdout());
    let mut errors = WriterSink::new(rt.stderr());
    let number = match command_line(&rt) {
        Ok(words) => run_program(rt.alloc(), &words, &mut source, &mut sink, &mut errors),
        Err(error) => end_program(end_without_words(&error), &mut errors),
    };
    ExitCode::from(number)
}

/// The words after the program's name.
fn command_line(rt: &HostRuntime) -> std::io::Result<Vec<String>> {
    let mut words = Vec::new(rt.alloc());
    for word in env::args(rt)?.skip(1) {
        words.push(word)?;
    }
    Ok(words)
}
