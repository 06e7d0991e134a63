//! A yardstick for the switch's tables: ten thousand calls on each, made of a seed, that must answer as
//! a plain list or a plain walk does, which each call goes through.
//!
//! The crate has nothing but these tests.
#![tactic(auto)]

#[cfg(test)]
mod tests;
