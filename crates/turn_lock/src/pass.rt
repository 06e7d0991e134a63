//! The right to make steps on a lock.
ghost use Rattle.std.specs.Prelude.{◌≡◌, ◌<◌, ◌≤◌, ◌^◌, false, [], length};
ghost use Rattle.turn_lock.specs.Views.{IsPlaced, IsRising};

use crate::view::View;
use atomic_table::Seat;
use tr_io::stepping::Kept;

/// The right to make steps on one lock. Its seat hasn't the turn, and no slot of the lock's.
#[derive(Drop)]
pub struct Pass<T: Kept> {
    pub(crate) seat: Seat<T, View<T, T::Step>>,
    // How many steps it saw.
    pub(crate) count: u64,
    ghost rests: { (seat.me.1 ≡ []) × (seat.me.0.has_turn ≡ false) × (0 < seat.me.0.parts) },
    ghost counted: { count ≡ length seat.me.0.seen },
    ghost low: { count ≤ 2 ^ 62 },
    ghost placed: { IsPlaced seat.me.0 },
    ghost rising: { IsRising seat.me.0 },
}
