//! The switch as a machine with a small state: what each call answers by the state and its arguments, and
//! the state behind it.
//!
//! Nothing here is to be trusted: `switch_model` defines what a history means and which answers are right,
//! and the laws of this crate say that whatever history a state stands for, each call's answer is the
//! right one, and the state behind the call stands for the history with that step added.
#![tactic(auto)]

pub mod machine;
