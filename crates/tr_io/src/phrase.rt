//! The words that are said of a program's end.
ghost use Rattle.std.specs.Prelude.{◌≤◌, length};

/// What is said of a program's end.
#[derive(Clone, Copy)]
pub struct Phrase {
    /// The words in front.
    pub front: &'static str,
    /// The number behind them, where there is one.
    pub number: Option<u64>,
    /// The words behind the number.
    pub tail: &'static str,
    ghost short: { (length front.now ≤ 20) × (length tail.now ≤ 20) },
}
