//! An end of a berth.
ghost use Rattle.std.specs.Prelude.{◌≡◌};
ghost use Rattle.std.specs.Arc.{arc_value};
ghost use Rattle.turn_lock.specs.Passes.{lock_of, lock_id, known};
ghost use Rattle.berth.specs.Ends.{IsEnd};

use crate::note::NoteBox;
use std::alloc::Global;
use std::sync::Arc;
use turn_lock::{Pass, TurnLock};

/// An end of a berth: the first puts notes, the second takes them. It keeps a permit to wait.
#[derive(Drop)]
pub struct Berth<Q> {
    pub(crate) permit: Q,
    pub(crate) lock: Arc<TurnLock<NoteBox>, Global>,
    pub(crate) pass: Pass<NoteBox>,
    pub(crate) is_first: bool,
    ghost own: { lock_of pass ≡ lock_id (arc_value lock) },
    ghost end: { IsEnd is_first (known pass) },
}
