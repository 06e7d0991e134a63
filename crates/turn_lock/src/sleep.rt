//! How threads sleep and are woken. No proof sees it: no clause says that a thread is woken.
//!
//! A thread that is to sleep looks at a bell, counts itself among the sleepers, looks a last time at
//! what it waits for, and sleeps for as long as the bell stays as it was. Who changes what it waits
//! for looks at the count afterwards. Each step is sequentially consistent, so one of the two sees the
//! other: a thread that is passed by finds the change, and doesn't sleep.
//!
//! Who wakes takes those that it wakes off the count, before it rings: a thread that it took off and
//! that doesn't sleep yet finds the bell changed. So nobody is woken twice for one sleep, and a turn
//! costs two looks where nobody sleeps. A thread that counted itself and didn't sleep is left in the
//! count, which costs one wake of nobody.
ghost use Rattle.std.specs.Prelude.{◌≡◌};
ghost use Rattle.turn_lock.specs.Passes.{lock_of, lock_id};

use crate::lock::{COUNT, PARKED, PARKED_BELL, TurnLock, WAITING, WAITING_BELL};
use crate::pass::Pass;
use crate::rule::{Enters, Stays};
use crate::view::View;
use atomic_table::Seat;
use std::hint::spin_loop;
use std::sync::Wait;
use tr_io::stepping::{Kept, Stepping};

// Looks at a turn that another has, before it sleeps. Each look takes the word from who has the turn,
// so twice as much time passes before the next.
const LOOKS: u32 = 7;

impl<T: Kept> TurnLock<T> {
    /// May sleep while no step was made behind what the pass saw, until a step gives work. It is no
    /// step, changes nothing, may return at any time and may not return at all.
    pub fn park<R: Wait>(&self, rt: &R, pass: &Pass<T>)
        requires own { lock_of pass.now ≡ lock_id self.now }
    {
        let shared = &self.table.shared;
        let bell = shared.peek(PARKED_BELL);
        let mut seat = shared.load_new_seat::<Enters>(PARKED).1;
        shared.fetch_add::<Stays>(&mut seat, PARKED, 1);
        if shared.peek(COUNT) / 2 == pass.count {
            shared.park(rt, PARKED_BELL, low_half(bell));
        }
    }

    // Lets time pass after so many looks, and tells how many there were since it slept: it sleeps where
    // the turn lasts.
    pub(crate) fn pause<R: Wait>(&self, rt: &R, looks: u32) -> u32 {
        if looks < LOOKS {
            for _ in 0..1u32 << looks {
                spin_loop();
            }
            return looks + 1;
        }
        self.sleep(rt);
        0
    }

    // Sleeps while another has the turn.
    fn sleep<R: Wait>(&self, rt: &R) {
        let shared = &self.table.shared;
        let bell = shared.peek(WAITING_BELL);
        let mut seat = shared.load_new_seat::<Enters>(WAITING).1;
        shared.fetch_add::<Stays>(&mut seat, WAITING, 1);
        if shared.peek(COUNT) % 2 == 1 {
            shared.park(rt, WAITING_BELL, low_half(bell));
        }
    }

    // Wakes one thread that waits for the turn, if some do. It takes the turn, or waits again.
    pub(crate) fn wake_next(&self, seat: &mut Seat<T, View<T, T::Step>>)
        requires own { seat.old.table_id ≡ self.now.table.shared.table_id }
        ensures same { (seat.new.table_id ≡ seat.old.table_id) × (seat.new.id ≡ seat.old.id) × (seat.new.me ≡ seat.old.me) }
    {
        let shared = &self.table.shared;
        let sleepers = shared.peek(WAITING);
        // Where another changed the count, it counted itself and then finds the turn free, or it wakes one.
        if sleepers != 0
            && shared.compare_exchange::<Stays>(seat, WAITING, sleepers, sleepers - 1) == sleepers
        {
            shared.fetch_add::<Stays>(seat, WAITING_BELL, 1);
            shared.wake_one(WAITING_BELL);
        }
    }

    // Wakes all that wait for the turn, as nobody is to have it any more.
    pub(crate) fn wake_waiting(&self) {
        let shared = &self.table.shared;
        let mut seat = shared.load_new_seat::<Enters>(WAITING).1;
        shared.fetch_add::<Stays>(&mut seat, WAITING_BELL, 1);
        shared.wake_all(WAITING_BELL);
    }

    // Wakes all that are parked, if a step counted that may give them work.
    pub(crate) fn wake_parked<S: Stepping<T>>(
        &self,
        seat: &mut Seat<T, View<T, T::Step>>,
        is_counted: bool,
        step: &S,
        answer: &S::Answer,
    )
        requires own { seat.old.table_id ≡ self.now.table.shared.table_id }
        ensures same { (seat.new.table_id ≡ seat.old.table_id) × (seat.new.id ≡ seat.old.id) × (seat.new.me ≡ seat.old.me) }
    {
        let shared = &self.table.shared;
        if is_counted && shared.peek(PARKED) != 0 && step.gives_work(answer) {
            shared.store::<Stays>(seat, PARKED, 0);
            shared.fetch_add::<Stays>(seat, PARKED_BELL, 1);
            shared.wake_all(PARKED_BELL);
        }
    }
}

// A thread sleeps by the low half of a word.
fn low_half(word: u64) -> u32 {
    (word % (1 << 32)) as u32
}
