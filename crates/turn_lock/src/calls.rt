//! The calls that don't wait: a new lock, passes split and joined, a look at the history, the close.
ghost use Rattle.std.specs.Prelude.{◌≡◌, ℕ, ◌<◌, ◌≤◌, [], ◌∷◌, ◌++◌, IfOk};
ghost use mathlib.Core.List.{IsPrefix};
ghost use Rattle.turn_lock.specs.Shares.{Interleaves, times_in};
ghost use Rattle.turn_lock.specs.Views.{StandsForHistory, IsLegal, CaughtUp, HasAllParts, HasAllSteps, opening_view, one_part_less, new_part, joined, settled, closed, own_steps, steps_by_share};
ghost use Rattle.turn_lock.specs.Passes.{lock_of, lock_id, known, IsSamePass};

use crate::lock::{COUNT, TurnLock};
use crate::pass::Pass;
use crate::rule::{Closes, Meets, OnePart, SettlesJoin, Together, Witness};
use crate::view::LockOpening;
use atomic_table::Table;
use std::alloc::{AllocError, Global};
use std::snapshot::Snapshot;
use tr_io::stepping::Kept;

impl<T: Kept> TurnLock<T> {
    /// A lock round a state that stands for no step yet, and a pass that has all parts.
    ///
    /// # Errors
    ///
    /// [`AllocError`] where memory is wanting. The state is dropped.
    pub fn new(alloc: Global, state: T, seats: u32) -> Result<(TurnLock<T>, Pass<T>), AllocError>
    where
        T: Drop,
        requires seats { 0 < seats }
        requires stands { (b : T.Start) × T.stands state b [] }
        ensures own { IfOk result (λ r. lock_of r.1 ≡ lock_id r.0) }
        ensures pass { IfOk result (λ r. known r.1 ≡ opening_view state seats) }
    {
        let opening = LockOpening {
            state: Snapshot::of(&state),
            seats,
        };
        let mut slots = Vec::new(alloc);
        slots.push(state)?;
        match Table::new(alloc, &[0, 0, 0, 0, 0], slots, &opening) {
            Ok((table, seat)) => Ok((TurnLock { table }, Pass { seat, count: 0 })),
            Err(refused_slots) => {
                drop(refused_slots);
                Err(AllocError)
            }
        }
    }

    /// A new pass with one part of the pass. It has seen as much, and has made no step.
    pub fn split(&self, pass: &mut Pass<T>) -> Pass<T>
        requires own { lock_of pass.old ≡ lock_id self.now }
        requires parts { 2 ≤ (known pass.old).parts }
        ensures own { (lock_of pass.new ≡ lock_of pass.old) × (lock_of result ≡ lock_of pass.old) }
        ensures left { known pass.new ≡ one_part_less (known pass.old) }
        ensures right { known result ≡ new_part (known pass.old) }
        ensures fresh { (own_steps (known result) ≡ []) × (steps_by_share (known result) ≡ [] ∷ []) }
    {
        let seat = self.table.shared.split_seat::<OnePart>(&mut pass.seat);
        Pass {
            seat,
            count: pass.count,
        }
    }

    /// The pass takes in another: what the one saw that saw more, the shares of both, and the parts
    /// of both. Its own steps are those of both.
    pub fn join(&self, pass: &mut Pass<T>, other: Pass<T>)
        requires own { (lock_of pass.old ≡ lock_id self.now) × (lock_of other ≡ lock_id self.now) }
        ensures own { lock_of pass.new ≡ lock_of pass.old }
        ensures joined { known pass.new ≡ settled (joined (known pass.old) (known other)) }
        ensures older { IsPrefix (known pass.old).seen (known pass.new).seen × IsPrefix (known other).seen (known pass.new).seen }
        ensures once { (p : ℕ) → times_in p (known pass.new).shares ≤ 1 }
        ensures mine { Interleaves (own_steps (known pass.old)) (own_steps (known other)) (own_steps (known pass.new)) }
        ensures by_share { steps_by_share (known pass.new) ≡ steps_by_share (known pass.old) ++ steps_by_share (known other) }
    {
        let Pass { seat, count } = other;
        self.table
            .shared
            .join_seat::<Together>(&mut pass.seat, seat);
        self.table.shared.load::<SettlesJoin>(&mut pass.seat, COUNT);
        pass.count = pass.count.max(count);
    }

    /// Sees the history so far. Of a pass with all parts, all steps are its own.
    pub fn meet(&self, pass: &mut Pass<T>)
        requires own { lock_of pass.old ≡ lock_id self.now }
        ensures own { IsSamePass pass.old pass.new }
        ensures met { CaughtUp T.stands T.is_legal (known pass.old) (known pass.new) }
        ensures all { HasAllParts (known pass.old) → HasAllSteps (known pass.new) }
    {
        pass.count = self.table.shared.load::<Meets>(&mut pass.seat, COUNT) / 2;
    }

    /// Closes the lock, by the pass that has all parts, and gives the state. The pass has seen the
    /// whole history, for which the state stands, and all its steps are the pass's own.
    pub fn close(self, pass: Pass<T>) -> (T, Pass<T>)
        requires own { lock_of pass ≡ lock_id self }
        requires parts { HasAllParts (known pass) }
        ensures own { lock_of result.1 ≡ lock_of pass }
        ensures pass { known result.1 ≡ closed (known pass) }
        ensures state { StandsForHistory T.stands T.is_legal (known result.1).opening result.0 (known result.1).seen }
        ensures legal { IsLegal T.stands T.is_legal (known result.1).opening (known result.1).seen }
        ensures all { HasAllSteps (known result.1) }
    {
        let mut pass = pass;
        self.shut(&mut pass);
        let witness = self.table.shared.split_seat::<Witness>(&mut pass.seat);
        let TurnLock { table } = self;
        let mut closed_table = table.close_with(witness);
        let state = closed_table.take(0);
        closed_table.free();
        (state, pass)
    }

    // The count stays odd from now on, so nobody takes the turn any more.
    fn shut(&self, pass: &mut Pass<T>)
        requires own { lock_of pass.old ≡ lock_id self.now }
        requires parts { HasAllParts (known pass.old) }
        ensures own { lock_of pass.new ≡ lock_of pass.old }
        ensures pass { known pass.new ≡ closed (known pass.old) }
        ensures all { HasAllSteps (known pass.new) }
    {
        let word = pass.count * 2 + 1;
        self.table
            .shared
            .store::<Closes>(&mut pass.seat, COUNT, word);
    }
}
