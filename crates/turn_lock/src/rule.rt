//! The lock's rule, and what each kind of atomic step tells who makes it.
//!
//! | Kind | Step of the table | Play |
//! |---|---|---|
//! | load, which sees the history so far (meet) | load of the count | [`Meets`] |
//! | take the turn, and the state out of its slot | compare and exchange of the count | [`Takes`] |
//! | put the state back and release: held bit off, count up where the step counts | store of the count | [`Gives`] |
//! | split | split of a seat | [`OnePart`] |
//! | join, and a load that tells what the pass now knows | join of seats, load of the count | [`Together`], [`SettlesJoin`] |
//! | close: the held bit stays on | store of the count, split of a seat | [`Closes`], [`Witness`] |
//! | asleep or awake | a new seat, a change of another word | [`Enters`], [`Stays`] |
use crate::view::{LockOpening, View};
use atomic_table::{Join, Play, Split, TableRule};
use std::marker::{Brand, PhantomData};
use tr_io::stepping::Kept;

/// All passes stand in one history.
pub struct OneHistory;

impl<T: Kept> TableRule<T, View<T, T::Step>, LockOpening<T>> for OneHistory {
    ghost use Rattle.std.specs.Prelude.{Some};
    ghost use Rattle.turn_lock.specs.Rule.{IsOneHistory};
    ghost use Rattle.turn_lock.specs.Views.{opening_view};

    ghost holds = { λ key. IsOneHistory T.stands T.is_legal (Some key.state.value) key.seats };

    ghost first = { λ key. opening_view key.state.value key.seats };
}

/// The history so far is seen.
pub struct Meets;

impl<T: Kept> Play<T, View<T, T::Step>> for Meets {
    ghost use Rattle.turn_lock.specs.Plays.{Met};

    ghost then = { λ _. Met T.stands T.is_legal };
}

/// The turn is taken, with the state, where the word was the expected one.
pub struct Takes;

impl<T: Kept> Play<T, View<T, T::Step>> for Takes {
    ghost use Rattle.turn_lock.specs.Plays.{TookIf};

    ghost then = { TookIf T.stands T.is_legal };
}

/// The step that a release adds to the history, if one. Each call picks it.
pub trait Adding<E> {
    ghost use Rattle.std.specs.Prelude.{Option};

    ghost step: { Option E };
}

impl<E> Adding<E> for Brand {
    ghost use Rattle.std.specs.Prelude.{None};

    ghost step = { None };
}

/// The turn is given back, with the state.
pub struct Gives<J> {
    of: PhantomData<J>,
}

impl<T, E, J: Adding<E>> Play<T, View<T, E>> for Gives<J> {
    ghost use Rattle.turn_lock.specs.Plays.{Gave};

    ghost then = { λ _ m _ m'. Gave J.step m m' };
}

/// One part goes to a new pass.
pub struct OnePart;

impl<T, E> Split<View<T, E>> for OnePart {
    ghost use Rattle.turn_lock.specs.Views.{one_part_less, new_part};

    ghost left = { one_part_less };

    ghost right = { new_part };
}

/// Two passes become one.
pub struct Together;

impl<T, E> Join<View<T, E>> for Together {
    ghost use Rattle.turn_lock.specs.Views.{joined, spent_view};

    ghost both = { joined };

    ghost spent = { spent_view };
}

/// A joined pass is told that what one of the two saw begins what the other saw.
pub struct SettlesJoin;

impl<T, E> Play<T, View<T, E>> for SettlesJoin {
    ghost use Rattle.turn_lock.specs.Plays.{Settled};

    ghost then = { λ _ m _ m'. Settled m m' };
}

/// The lock is closed.
pub struct Closes;

impl<T, E> Play<T, View<T, E>> for Closes {
    ghost use Rattle.turn_lock.specs.Plays.{Closed};

    ghost then = { λ _ m _ m'. Closed m m' };
}

/// A seat that only shows that the lock is closed.
pub struct Witness;

impl<T, E> Split<View<T, E>> for Witness {
    ghost use Rattle.turn_lock.specs.Views.{witness};

    ghost left = { λ v. v };

    ghost right = { witness };
}

/// A step on a word that counts sleepers or rings them.
pub struct Stays;

impl<T, E> Play<T, View<T, E>> for Stays {
    ghost then = { λ _ m _ m'. m' ≡ m };

    ghost use Rattle.std.specs.Prelude.{◌≡◌};
}

/// A new seat, which no pass has.
pub struct Enters;

impl<T, E> Play<T, View<T, E>> for Enters {
    ghost then = { λ _ _ _ _. Unit {0} };
}
