ghost use Rattle.std.specs.Prelude.{◌≡◌, ℕ, ◌+◌, ◌-◌, ◌<◌, ◌≤◌, [], ◌∷◌, ◌++◌, length, OnOk, OnErr, IfOk, IsOk, IfSome, IfNone, IsTrue, ◌↔◌};

use crate::queue::Queue;
use std::alloc::{AllocError, Global};
use std::marker::Model;

/// A list. Contracts see the items and how many places are spare.
#[derive(Drop)]
pub struct List<T> {
    pub(crate) items: Vec<T>,
}

impl<T> Model for List<T> {
    ghost use Rattle.std.specs.Prelude.{ℕ, ◌-◌, vec_len, vec_capacity};
    ghost use Rattle.cell_codec.specs.Roomy.{Roomy};

    ghost Value = { Roomy T };

    ghost view = { λ l. record { items = l.items.items; spare = vec_capacity l.items - vec_len l.items } };
}

impl<T> List<T> {
    /// An empty list, which holds no memory yet.
    pub fn new(alloc: Global) -> List<T>
        ensures { result.items ≡ [] }
    {
        List {
            items: Vec::new(alloc),
        }
    }

    /// An empty list with room for `n` items.
    pub fn with_room(alloc: Global, n: u32) -> Result<List<T>, AllocError>
        ensures items { IfOk result (λ l. l.items ≡ []) }
        ensures spare { IfOk result (λ l. n ≤ l.spare) }
    {
        Ok(List {
            items: Vec::with_capacity(alloc, n as usize)?,
        })
    }

    /// Takes room for `more` further items.
    pub fn reserve(&mut self, more: usize) -> Result<(), AllocError>
        ensures items { self.new.items ≡ self.old.items }
        ensures ok { OnOk result (more ≤ self.new.spare) }
        ensures kept { self.old.spare ≤ self.new.spare }
        ensures err { OnErr result (self.new ≡ self.old) }
        ensures room { more ≤ self.old.spare → IsOk result }
    {
        self.items.reserve(more)
    }

    /// Adds an item at the end. With a spare place it can't fail; a refused item is dropped.
    pub fn push(&mut self, item: T) -> Result<(), AllocError>
    where
        T: Drop,
        ensures ok { OnOk result (self.new.items ≡ self.old.items ++ item ∷ []) }
        ensures spare { OnOk result (self.old.spare ≤ self.new.spare + 1) }
        ensures err { OnErr result (self.new ≡ self.old) }
        ensures room { 0 < self.old.spare → IsOk result }
    {
        self.items.reserve(1)?;
        self.items.push_reserved(item);
        Ok(())
    }

    /// Adds an item at the end, in a spare place.
    pub fn push_reserved(&mut self, item: T)
        requires { 0 < self.old.spare }
        ensures items { self.new.items ≡ self.old.items ++ item ∷ [] }
        ensures spare { self.new.spare + 1 ≡ self.old.spare }
    {
        self.items.push_reserved(item);
    }

    /// Takes the last item off.
    pub fn pop(&mut self) -> Option<T>
        ensures items { IfSome result (λ x. self.old.items ≡ self.new.items ++ x ∷ []) }
        ensures spare { IfSome result (λ x. self.new.spare ≡ self.old.spare + 1) }
        ensures none { IfNone result ((self.old.items ≡ []) × (self.new ≡ self.old)) }
    {
        self.items.pop()
    }

    /// The number of items.
    pub fn len(&self) -> usize
        ensures { result ≡ length self.now.items }
    {
        self.items.len()
    }

    /// Whether there is no item.
    pub fn is_empty(&self) -> bool
        ensures { IsTrue result ↔ (self.now.items ≡ []) }
    {
        self.items.is_empty()
    }

    /// The items, in order.
    pub fn as_slice(&self) -> &[T]
        ensures { result.now ≡ self.now.items }
    {
        self.items.as_slice()
    }

    /// The items as a queue, whose first one can be taken off. Nothing is copied.
    pub fn into_queue(self) -> Queue<T>
        ensures items { result.items ≡ self.items }
        ensures spare { result.spare ≡ self.spare }
    {
        Queue::of(self.items)
    }
}
