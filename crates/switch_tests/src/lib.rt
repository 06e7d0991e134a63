//! Tests of the switch, whose answers were worked out by hand: bodies of one claim, jobs that are out at once,
//! as many circuits and refusals as there may be, and want of memory.
//!
//! The crate has nothing but these tests.
#![tactic(auto)]

#[cfg(test)]
mod tests;
