//! What passes know of a lock.
use std::collections::LinkedList;
use std::snapshot::Snapshot;

/// What a lock is told when it is made.
#[derive(Drop)]
pub struct LockOpening<T> {
    /// The state that it began with.
    pub state: Snapshot<T>,
    /// How many parts its passes have together.
    pub seats: u32,
}

/// What a pass knows. No value of it is made.
///
/// A place is the number of a step in the history, from 0.
pub struct View<T, E> {
    /// The state that the lock began with. A pass that was joined to another has none.
    pub opening: Option<T>,
    /// How many parts the passes of the lock have together.
    pub seats: u64,
    /// A beginning of the history.
    pub seen: LinkedList<E>,
    /// Of two passes that were just joined, what the one saw that had seen less.
    pub shorter: LinkedList<E>,
    /// The places of its own steps, in shares: its own turns add to the first, and `join` adds
    /// those of the other pass behind.
    pub shares: LinkedList<LinkedList<u64>>,
    /// How many parts it has. One that was joined to another has none.
    pub parts: u64,
    /// It has the turn.
    pub has_turn: bool,
    /// It closed the lock.
    pub is_closed: bool,
}
