//! The turn: take the lock, make one step, give the lock back.
ghost use Rattle.std.specs.Prelude.{◌≡◌, ℕ, ◌*◌, ◌%◌, ◌^◌, ◌<◌, ◌≤◌, false, [], length, MatchOption, MatchBool};
ghost use mathlib.Core.List.{IsPrefix};
ghost use Rattle.turn_lock.specs.Views.{step_if, released, Turned, CaughtUp};
ghost use Rattle.turn_lock.specs.Plays.{Took, CaughtUpFull, Holds, Holding, Ran};
ghost use Rattle.turn_lock.specs.Passes.{lock_of, lock_id, known, IsSamePass, TurnCase};

use crate::lock::{COUNT, TurnLock};
use crate::pass::Pass;
use crate::rule::{Adding, Gives, Meets, Takes};
use crate::view::View;
use atomic_table::Seat;
use std::marker::Brand;
use std::snapshot::Snapshot;
use std::sync::Wait;
use tr_io::stepping::{Kept, Stepping, Turn};

/// The last count, at 2^62 steps.
const FULL: u64 = 1 << 63;

type PassSeat<T> = Seat<T, View<T, <T as Kept>::Step>>;

impl<T: Kept> TurnLock<T> {
    /// Makes a step as soon as the pass has the turn, for which it waits: the history so far is
    /// seen, and the step, where it counts, stands at its end.
    ///
    /// It answers `Spent` exactly where the history has 2^62 steps, and has seen it then.
    pub fn turn<S: Stepping<T>, R: Wait>(
        &self,
        rt: &R,
        pass: &mut Pass<T>,
        step: &mut S,
    ) -> Turn<S::Answer>
        requires own { lock_of pass.old ≡ lock_id self.now }
        ensures own { IsSamePass pass.old pass.new }
        ensures turn { TurnCase result
            (CaughtUp T.stands T.is_legal (known pass.old) (known pass.new) × (length (known pass.new).seen ≡ 2 ^ 62))
            (λ a. Turned T.stands T.is_legal (known pass.old) (step_if (S.counts a) (S.step_of step.old a)) (known pass.new)) }
    {
        let step_snapshot = Snapshot::of(step);
        let Some(word) = self.take(rt, &mut pass.seat, pass.count) else {
            pass.count = FULL / 2;
            return Turn::Spent;
        };
        let (is_counted, answer) = self.run(&mut pass.seat, step);
        let next = if is_counted { word + 2 } else { word };
        self.release::<Brand, S>(&mut pass.seat, next, &step_snapshot, &answer);
        self.wake_next(&mut pass.seat);
        self.wake_parked(&mut pass.seat, is_counted, step, &answer);
        pass.count = next / 2;
        Turn::Did(answer)
    }

    // Takes the turn, and waits for it where it must. None: the history has 2^62 steps. Mostly nobody
    // made a step since the pass saw `count` of them, so it tries that word before it looks.
    #[inline]
    fn take<R: Wait>(&self, rt: &R, seat: &mut PassSeat<T>, count: u64) -> Option<u64>
        requires own { seat.old.table_id ≡ self.now.table.shared.table_id }
        requires rests { (seat.old.me.1 ≡ []) × (seat.old.me.0.has_turn ≡ false) × (0 < seat.old.me.0.parts) }
        requires low { count ≤ 2 ^ 62 }
        ensures own { (seat.new.table_id ≡ seat.old.table_id) × (seat.new.id ≡ seat.old.id) }
        ensures taken { MatchOption result (CaughtUpFull T.stands T.is_legal seat.old.me seat.new.me)
            (λ n. (n < 2 ^ 63) × Took T.stands T.is_legal seat.old.me n seat.new.me) }
    {
        let word = count * 2;
        if word < FULL && self.seize(seat, word) {
            return Some(word);
        }
        self.wait(rt, seat)
    }

    // Waits for the turn. None: the history has 2^62 steps.
    #[inline(never)]
    fn wait<R: Wait>(&self, rt: &R, seat: &mut PassSeat<T>) -> Option<u64>
        requires own { seat.old.table_id ≡ self.now.table.shared.table_id }
        requires rests { (seat.old.me.1 ≡ []) × (seat.old.me.0.has_turn ≡ false) × (0 < seat.old.me.0.parts) }
        ensures own { (seat.new.table_id ≡ seat.old.table_id) × (seat.new.id ≡ seat.old.id) }
        ensures taken { MatchOption result (CaughtUpFull T.stands T.is_legal seat.old.me seat.new.me)
            (λ n. (n < 2 ^ 63) × Took T.stands T.is_legal seat.old.me n seat.new.me) }
    {
        let mut looks = 0;
        for _ in rt.forever() {
            let word = self.table.shared.load::<Meets>(seat, COUNT);
            if word >= FULL {
                self.wake_waiting();
                return None;
            }
            if self.seize(seat, word) {
                return Some(word);
            }
            looks = self.pause(rt, looks);
        }
        unreachable!()
    }

    // Takes the turn, if the word is still this one, and nobody has the turn there.
    fn seize(&self, seat: &mut PassSeat<T>, word: u64) -> bool
        requires own { seat.old.table_id ≡ self.now.table.shared.table_id }
        requires rests { (seat.old.me.1 ≡ []) × (seat.old.me.0.has_turn ≡ false) × (0 < seat.old.me.0.parts) }
        requires low { word < 2 ^ 63 }
        ensures own { (seat.new.table_id ≡ seat.old.table_id) × (seat.new.id ≡ seat.old.id) }
        ensures taken { MatchBool result (Took T.stands T.is_legal seat.old.me word seat.new.me) (seat.new.me ≡ seat.old.me) }
    {
        if word % 2 == 1 {
            return false;
        }
        let found_word = self
            .table
            .shared
            .compare_exchange::<Takes>(seat, COUNT, word, word + 1);
        found_word == word
    }

    // Makes the step on the state, in place.
    fn run<S: Stepping<T>>(&self, seat: &mut PassSeat<T>, step: &mut S) -> (bool, S::Answer)
        requires own { seat.old.table_id ≡ self.now.table.shared.table_id }
        requires holds { Holds T.stands T.is_legal seat.old.me }
        requires room { length seat.old.me.0.seen < 2 ^ 62 }
        ensures own { (seat.new.table_id ≡ seat.old.table_id) × (seat.new.id ≡ seat.old.id) }
        ensures counted { result.0 ≡ S.counts result.1 }
        ensures ran { Ran T.stands T.is_legal seat.old.me (step_if (S.counts result.1) (S.step_of step.old result.1)) seat.new.me }
    {
        let state = seat.slot_mut(&self.table.shared, 0);
        step.apply(state)
    }

    // Puts the state back and gives the turn away. The proof of a call picks the step of the history
    // by the last two arguments.
    fn release<J: Adding<T::Step>, S: Stepping<T>>(
        &self,
        seat: &mut PassSeat<T>,
        word: u64,
        _step_snapshot: &Snapshot<S>,
        _answer: &S::Answer,
    )
        requires own { seat.old.table_id ≡ self.now.table.shared.table_id }
        requires holding { Holding T.stands T.is_legal J.step seat.old.me }
        requires word { (word ≡ 2 * length (released seat.old.me.0 J.step).seen) × (word ≤ 2 ^ 63) }
        ensures own { (seat.new.table_id ≡ seat.old.table_id) × (seat.new.id ≡ seat.old.id) }
        ensures gave { seat.new.me ≡ (released seat.old.me.0 J.step, []) }
        ensures word { (word ≡ 2 * length seat.new.me.0.seen) × (word ≤ 2 ^ 63) }
    {
        self.table.shared.store::<Gives<J>>(seat, COUNT, word);
    }
}
