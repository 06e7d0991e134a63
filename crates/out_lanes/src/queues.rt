//! The queues of all legs.
ghost use Rattle.std.specs.Prelude.{◌≡◌, ◌+◌, ◌<◌, ◌≤◌, [], ◌∷◌, ◌++◌, IfSome, IsOk, OnOk, OnErr};
ghost use Rattle.std.specs.FinMap.{empty};
ghost use Rattle.cell_codec.specs.Cells.{IsWellFormed};
ghost use Rattle.out_lanes.specs.Lines.{line_at, OthersStay, Reserves, AddsLast, TakesFirst, Empties};

use cell_codec::{Cell, Queue};
use std::alloc::{AllocError, Global};
use std::collections::HashMap;
use std::marker::Model;

/// A queue of cells for each leg, named by its circuit's number and its own.
#[derive(Drop)]
pub struct Queues {
    queues: HashMap<(u64, u32), Queue<Cell>>,
    alloc: Global,
}

impl Model for Queues {
    ghost use Rattle.std.specs.FinMap.{from_entries};
    ghost use Rattle.out_lanes.specs.Waiting.{CellQueues, cell_queues_code};

    ghost Value = { CellQueues };

    ghost coded = { cell_queues_code };

    ghost use Rattle.out_lanes.specs.Forms.{AreWellFormed};

    ghost view = { λ q. from_entries q.queues.entries };

    ghost invariant = { λ q. AreWellFormed q.queues.entries };
}

impl Queues {
    /// No queue, and no memory yet.
    pub fn new(alloc: Global) -> Queues
        ensures { result ≡ empty }
    {
        Queues {
            queues: HashMap::new(alloc),
            alloc,
        }
    }

    /// Takes room for `more` further cells.
    pub fn reserve(&mut self, leg: (u64, u32), more: usize) -> Result<(), AllocError>
        ensures { Reserves self.old self.new leg more result }
    {
        if let Some(queue) = self.queues.get_mut(&leg) {
            return queue.reserve(more);
        }
        if more == 0 {
            return Ok(());
        }
        let mut queue = Queue::new(self.alloc);
        queue.reserve(more)?;
        self.queues.insert(leg, queue)?;
        Ok(())
    }

    /// Adds a cell at the end.
    pub fn push(&mut self, leg: (u64, u32), cell: Cell) -> Result<(), AllocError>
        requires { IsWellFormed cell }
        ensures ok { OnOk result ((line_at self.new leg).items ≡ (line_at self.old leg).items ++ cell ∷ []) }
        ensures spare { OnOk result ((line_at self.old leg).spare ≤ (line_at self.new leg).spare + 1) }
        ensures others { OthersStay self.old self.new leg }
        ensures err { OnErr result (self.new ≡ self.old) }
        ensures room { 0 < (line_at self.old leg).spare → IsOk result }
    {
        if let Some(queue) = self.queues.get_mut(&leg) {
            return queue.push(cell);
        }
        let mut queue = Queue::new(self.alloc);
        queue.push(cell)?;
        self.queues.insert(leg, queue)?;
        Ok(())
    }

    /// Adds a cell at the end, in a spare place.
    pub fn push_reserved(&mut self, leg: (u64, u32), cell: Cell)
        requires well_formed { IsWellFormed cell }
        requires room { 0 < (line_at self.old leg).spare }
        ensures { AddsLast self.old self.new leg cell }
    {
        let Some(queue) = self.queues.get_mut(&leg) else {
            unreachable!()
        };
        queue.push_reserved(cell);
    }

    /// Takes the oldest cell off.
    pub fn pop(&mut self, leg: (u64, u32)) -> Option<Cell>
        ensures first { TakesFirst self.old self.new leg result }
        ensures well_formed { IfSome result IsWellFormed }
    {
        let Some(queue) = self.queues.get_mut(&leg) else {
            return None;
        };
        queue.take_first()
    }

    /// Drops a queue with its cells and its room.
    pub fn remove(&mut self, leg: (u64, u32))
        ensures { Empties self.old self.new leg }
    {
        self.queues.remove(&leg);
    }
}
