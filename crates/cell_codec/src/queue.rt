ghost use Rattle.std.specs.Prelude.{◌≡◌, ℕ, ◌+◌, ◌-◌, ◌<◌, ◌≤◌, [], ◌∷◌, ◌++◌, length, OnOk, OnErr, IfOk, IsOk, IfSome, IfNone, IsTrue, ◌↔◌, vec_len, vec_capacity};
ghost use Rattle.std.specs.Fn.{CalledAt};
ghost use Rattle.std.specs.List.Retain.{IsFiltered};
ghost use Rattle.std.specs.Slice.{IsItemAt};
ghost use Rattle.cell_codec.specs.Roomy.{capacity};

use std::alloc::{AllocError, Global};
use std::collections::VecDeque;
use std::marker::Model;

/// A queue: items come in at the end and leave at the front, each in a fixed number of steps.
/// Contracts see the items in order and how many places are spare.
#[derive(Drop)]
pub struct Queue<T> {
    items: VecDeque<T>,
}

impl<T> Model for Queue<T> {
    ghost use Rattle.std.specs.Prelude.{ℕ, ◌-◌};
    ghost use Rattle.std.specs.VecDeque.{deque_len, deque_capacity};
    ghost use Rattle.cell_codec.specs.Roomy.{Roomy};

    ghost Value = { Roomy T };

    ghost view = { λ q. record { items = q.items.items; spare = deque_capacity q.items - deque_len q.items } };
}

impl<T> Queue<T> {
    /// An empty queue, which holds no memory yet.
    pub fn new(alloc: Global) -> Queue<T>
        ensures { result.items ≡ [] }
    {
        Queue {
            items: VecDeque::new(alloc),
        }
    }

    pub(crate) fn of(items: Vec<T>) -> Queue<T>
        ensures items { result.items ≡ items.items }
        ensures spare { result.spare ≡ vec_capacity items - vec_len items }
    {
        Queue {
            items: VecDeque::from_vec(items),
        }
    }

    /// Takes room for `more` further items.
    pub fn reserve(&mut self, more: usize) -> Result<(), AllocError>
        ensures items { self.new.items ≡ self.old.items }
        ensures ok { OnOk result (more ≤ self.new.spare) }
        ensures kept { self.old.spare ≤ self.new.spare }
        ensures err { OnErr result (self.new ≡ self.old) }
        ensures room { more ≤ self.old.spare → IsOk result }
    {
        if more <= self.items.capacity() - self.items.len() {
            return Ok(());
        }
        // At least doubled, so that items that come one by one are seldom moved.
        self.items.reserve_exact(more.max(self.items.len()))
    }

    /// Adds an item at the end. With a spare place it can't fail; a refused item is dropped.
    pub fn push(&mut self, item: T) -> Result<(), AllocError>
    where
        T: Drop,
        ensures ok { OnOk result (self.new.items ≡ self.old.items ++ item ∷ []) }
        ensures spare { OnOk result (self.old.spare ≤ self.new.spare + 1) }
        ensures err { OnErr result (self.new ≡ self.old) }
        ensures room { 0 < self.old.spare → IsOk result }
    {
        self.reserve(1)?;
        self.push_reserved(item);
        Ok(())
    }

    /// Adds an item at the end, in a spare place.
    pub fn push_reserved(&mut self, item: T)
    where
        T: Drop,
        requires { 0 < self.old.spare }
        ensures items { self.new.items ≡ self.old.items ++ item ∷ [] }
        ensures spare { self.new.spare + 1 ≡ self.old.spare }
    {
        let _ = self.items.push_back(item);
    }

    /// Takes the first item off.
    pub fn take_first(&mut self) -> Option<T>
        ensures items { IfSome result (λ x. self.old.items ≡ x ∷ self.new.items) }
        ensures spare { IfSome result (λ x. self.new.spare ≡ self.old.spare + 1) }
        ensures none { IfNone result ((self.old.items ≡ []) × (self.new ≡ self.old)) }
    {
        self.items.pop_front()
    }

    /// Keeps only the items for which `is_wanted` answers true, in their order. The places of the others
    /// are spare then.
    pub fn retain<F: FnMut(&T) -> bool>(&mut self, is_wanted: F)
    where
        T: Drop,
        requires { F.IsAlwaysCallable is_wanted }
        ensures filtered { IsFiltered (CalledAt F.FnMut) is_wanted self.old.items self.new.items }
        ensures capacity { capacity self.new ≡ capacity self.old }
    {
        self.items.retain(is_wanted);
    }

    /// The first item.
    pub fn first(&self) -> Option<&T>
        ensures { IsItemAt self.now.items 0 result }
    {
        self.items.front()
    }

    /// The number of items.
    pub fn len(&self) -> usize
        ensures { result ≡ length self.now.items }
    {
        self.items.len()
    }

    /// Whether there is no item.
    pub fn is_empty(&self) -> bool
        ensures { IsTrue result ↔ (self.now.items ≡ []) }
    {
        self.items.is_empty()
    }
}
