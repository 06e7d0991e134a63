//! A DESTROY that waits to leave on a channel.
ghost use Rattle.std.specs.Prelude.{◌≡◌, ◌==◌, ◌<◌, ◌^◌, ◌∷◌, List, not, filter, length};
ghost use Rattle.switch_model.specs.Waiting.Lanes.{Destroy as WaitingDestroy};

use std::collections::LinkedList;
use std::marker::Model;
use std::mem::replace;

/// A DESTROY that waits to leave. Until it has left, its CircID is in use.
#[derive(Drop)]
pub struct Destroy {
    /// The CircID.
    pub id: u32,
    /// The reason (tor-spec, "Tearing down circuits").
    pub reason: u8,
    /// Whether it is the answer to a refused opening.
    pub is_refusal: bool,
}

impl Model for Destroy {
    ghost use Rattle.switch_model.specs.Waiting.Lanes.{Destroy as WaitingDestroy};

    ghost Value = { WaitingDestroy };

    ghost view = { λ d. record { id = d.id; reason = d.reason; refusal = d.is_refusal } };
}

/// The DESTROYs for other CircIDs than this, in the memory that they have.
pub fn without_id(destroys: LinkedList<Destroy>, id: u32) -> LinkedList<Destroy>
    requires { length destroys < 2 ^ 62 }
    ensures { result ≡ filter (λ d. not (d.id == id)) destroys }
{
    let mut other_destroys = LinkedList::new(*destroys.allocator());
    let mut rest = destroys;
    while !rest.is_empty() {
        let Ok(later_destroys) = rest.split_off(1) else {
            unreachable!()
        };
        let mut first = replace(&mut rest, later_destroys);
        if !is_for(&first, id) {
            let _ = other_destroys.append(&mut first);
        }
    }
    other_destroys
}

/// Whether the first is for this CircID.
fn is_for(destroys: &LinkedList<Destroy>, id: u32) -> bool
    requires { 0 < length destroys.now }
    ensures { (rest : List WaitingDestroy) → (first : WaitingDestroy) → destroys.now ≡ first ∷ rest → result ≡ (first.id == id) }
{
    match destroys.front() {
        Some(destroy) => destroy.id == id,
        None => false,
    }
}
