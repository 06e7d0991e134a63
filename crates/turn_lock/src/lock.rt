//! The lock.
ghost use Rattle.std.specs.Prelude.{◌≡◌};

use crate::rule::OneHistory;
use crate::view::{LockOpening, View};
use atomic_table::Table;
use std::alloc::Global;
use tr_io::stepping::Kept;

/// The word that is twice the number of steps, and one more while a pass has the turn.
pub(crate) const COUNT: usize = 0;
/// The word that counts the threads that may sleep until the turn is free and weren't woken yet.
pub(crate) const WAITING: usize = 1;
/// The word on which they sleep. It changes when one of them is woken.
pub(crate) const WAITING_BELL: usize = 2;
/// The word that counts the threads that may be parked and weren't woken yet.
pub(crate) const PARKED: usize = 3;
/// The word on which they sleep. It changes when they are woken, since a step gave work.
pub(crate) const PARKED_BELL: usize = 4;

/// A lock round a state.
#[derive(Drop)]
pub struct TurnLock<T: Kept> {
    pub(crate) table: Table<T, View<T, T::Step>, LockOpening<T>, OneHistory, Global>,
    ghost sized: { (table.shared.table_id.words ≡ 5) × (table.shared.table_id.slots ≡ 1) },
}
