//! A counter, and its one step.

/// A number that is counted up from 0.
#[derive(Drop)]
pub struct Counter {
    /// How often it was counted up.
    pub value: u64,
}

/// A step of a counter's history.
#[derive(Drop)]
pub struct Up {
    /// The number before the step.
    pub answer: u64,
}
