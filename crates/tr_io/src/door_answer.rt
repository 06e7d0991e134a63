//! Whether a session came.

/// What an `accept`, a `dial` or a `reach` gave.
#[derive(Clone, Copy, Debug, PartialEq, Eq)]
pub enum DoorAnswer {
    /// The session with this number, which rises within a slot.
    Came(u64),
    /// The listener has none left.
    NoMore,
    /// The peer refused, and the count of refusals rose.
    Refused,
    /// It failed, and the count of faults rose.
    Failed,
}
