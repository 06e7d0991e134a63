//! A thread's pass, with the lock that it is of.
ghost use Rattle.std.specs.Prelude.{◌≡◌, ◌+◌, ◌≤◌, ◌<◌, IfOk};
ghost use Rattle.std.specs.Arc.{arc_value};
ghost use Rattle.turn_lock.specs.Passes.{lock_of, lock_id, known};

use counter_lock::counter::Counter;
use std::alloc::{AllocError, Global};
use std::sync::{Arc, Wait};
use tr_io::stepping::{Stepping, Turn};
use turn_lock::{Pass, TurnLock};

/// A pass and its lock.
#[derive(Drop)]
pub struct Worker {
    lock: Arc<TurnLock<Counter>, Global>,
    pass: Pass<Counter>,
    ghost own: { lock_of pass ≡ lock_id (arc_value lock) },
}

impl Worker {
    /// The first worker of a new lock, with all its parts.
    pub fn new(alloc: Global, parts: u32) -> Result<Worker, AllocError>
        requires { 0 < parts }
        ensures { IfOk result (λ w. (known w.pass).parts ≡ parts) }
    {
        let (lock, pass) = TurnLock::new(alloc, Counter { value: 0 }, parts)?;
        let lock = Arc::new(alloc, lock)?;
        Ok(Worker { lock, pass })
    }

    /// A worker with one of the parts.
    pub fn split(&mut self) -> Result<Worker, AllocError>
        requires { 2 ≤ (known self.old.pass).parts }
        ensures { IfOk result (λ _. (known self.new.pass).parts + 1 ≡ (known self.old.pass).parts) }
    {
        let lock = Arc::try_clone(&self.lock)?;
        let pass = self.lock.split(&mut self.pass);
        Ok(Worker { lock, pass })
    }

    /// Makes a step.
    pub fn turn<S: Stepping<Counter>, R: Wait>(&mut self, rt: &R, step: &mut S) -> Turn<S::Answer> {
        self.lock.turn(rt, &mut self.pass, step)
    }

    /// Sees the history so far.
    pub fn meet(&mut self) {
        self.lock.meet(&mut self.pass);
    }

    /// May sleep until a step gives work.
    pub fn park<R: Wait>(&self, rt: &R) {
        self.lock.park(rt, &self.pass);
    }
}
