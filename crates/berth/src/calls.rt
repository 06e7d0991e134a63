//! The calls of a berth.
ghost use Rattle.std.specs.Prelude.{◌≡◌, ◌++◌, [], true, false, IfOk};
ghost use mathlib.Core.List.{IsPrefix};
ghost use Rattle.berth.specs.declared.note.BoxStep.TheVariants.{Put, Take};
ghost use Rattle.turn_lock.specs.Passes.{TurnCase};
ghost use Rattle.berth.specs.Notes.{put_by, taken_by};
ghost use Rattle.berth.specs.Berths.{put_notes, taken_notes, HasLastStep, IsFull, IsPair, IsSameEnd};

use crate::berth::Berth;
use crate::note::{BerthNote, NoteBox};
use crate::steps::{PutNote, TakeNote};
use std::alloc::{AllocError, Global};
use std::sync::{Arc, Wait};
use tr_io::stepping::Turn;
use turn_lock::TurnLock;

impl<Q: Wait> Berth<Q> {
    /// Puts a note into the box. False: a note lies there, and nothing is put.
    pub fn put(&mut self, note: BerthNote) -> Turn<bool>
        requires first { self.old.is_first ≡ true }
        ensures end { IsSameEnd self.old self.new }
        ensures notes { TurnCase result (put_notes self.new ≡ put_notes self.old)
            (λ a. put_notes self.new ≡ put_notes self.old ++ put_by (Put note a)) }
        ensures answer { TurnCase result (IsFull self.new) (λ a. HasLastStep self.old (Put note a) self.new) }
    {
        self.lock
            .turn(&self.permit, &mut self.pass, &mut PutNote { note })
    }

    /// Takes the note out of the box. None: no note lies there.
    pub fn take(&mut self) -> Turn<Option<BerthNote>>
        requires second { self.old.is_first ≡ false }
        ensures end { IsSameEnd self.old self.new }
        ensures notes { TurnCase result (taken_notes self.new ≡ taken_notes self.old)
            (λ a. taken_notes self.new ≡ taken_notes self.old ++ taken_by (Take a)) }
        ensures answer { TurnCase result (IsFull self.new) (λ a. HasLastStep self.old (Take a) self.new) }
    {
        self.lock.turn(&self.permit, &mut self.pass, &mut TakeNote)
    }
}

impl<Q> Berth<Q> {
    /// The two ends of a new berth, the first and then the second.
    ///
    /// # Errors
    ///
    /// [`AllocError`] where memory is wanting.
    pub fn pair(permit: Q, alloc: Global) -> Result<(Berth<Q>, Berth<Q>), AllocError>
    where
        Q: Copy,
        ensures pair { IfOk result (λ r. IsPair r.0 r.1) }
        ensures notes { IfOk result (λ r. (put_notes r.0 ≡ []) × (taken_notes r.1 ≡ [])) }
    {
        let (lock, mut pass) = TurnLock::new(alloc, NoteBox { note: None }, 2)?;
        let second = lock.split(&mut pass);
        let lock = Arc::new(alloc, lock)?;
        let second_lock = Arc::try_clone(&lock)?;
        let first = Berth {
            permit,
            lock,
            pass,
            is_first: true,
        };
        let second = Berth {
            permit,
            lock: second_lock,
            pass: second,
            is_first: false,
        };
        Ok((first, second))
    }

    /// Ends a berth: the notes that the second end took begin those that the first put.
    pub fn join(self, other: Berth<Q>)
    where
        Q: Drop,
        requires pair { IsPair self other }
        ensures { IsPrefix (taken_notes other) (put_notes self) }
    {
        let Berth {
            permit: _first_permit,
            lock,
            mut pass,
            is_first: _,
        } = self;
        let Berth {
            permit: _second_permit,
            lock: _second_lock,
            pass: second,
            is_first: _,
        } = other;
        lock.join(&mut pass, second);
        lock.meet(&mut pass);
    }
}
