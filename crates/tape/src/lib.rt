//! The tape: records of calls of a switch, read from a source, and their answers, written to a sink
//! (docs/FORMATS.md).
//!
//! `input` reads the tape's bytes, `rules_reader` reads the rules in front of them, `reader` the records;
//! `player` makes their calls, `job_calls` those that give jobs out and take them home, `jobs` keeps the jobs
//! that are out, and `run` writes the answers and goes from the first to the last. What one kind of record
//! has for itself, its fields and its answer, stands in a file of `kinds`.
#![tactic(auto)]

mod field;
mod first_cell;
pub mod input;
mod job_calls;
mod jobs;
pub mod kinds;
mod player;
mod reader;
pub mod record;
pub mod rules;
mod rules_reader;
mod run;
#[cfg(test)]
mod tests;

pub use run::tape_main;
