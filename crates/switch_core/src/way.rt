//! A direction of a circuit: the bodies that wait in it, and the claim that is out.
ghost use Rattle.std.specs.Prelude.{◌≡◌, ◌+◌, ◌≤◌, ◌<◌, OnOk, OnErr, length};
ghost use Rattle.switch_machine.specs.Calls.OpenCircuit.{no_bodies};
ghost use Rattle.switch_machine.specs.Calls.Settling.{more_waits};
ghost use Rattle.switch_machine.specs.Calls.Take.{kept_length};

mod home;
mod out;
mod settles;

use std::alloc::{AllocError, Global};
use std::collections::VecDeque;
use std::marker::Model;
use tr_io::names::ClaimNote;

/// A body that waits, with the command of its cell and its number in the whole switch.
#[derive(Drop)]
pub(crate) struct WaitingBody {
    pub(crate) number: u128,
    pub(crate) command: u8,
    pub(crate) payload: [u8; 509],
}

impl Model for WaitingBody {
    ghost use Rattle.switch_machine.specs.State.{WaitingCell};

    ghost Value = { WaitingCell };

    ghost view = { λ b. record { number = b.number; cell = record { command = b.command; body = b.payload } } };
}

/// A direction of a circuit.
///
/// Contracts see it as the machine's, and for how many more bodies it has room. The bodies of the claim that
/// is out stay at the front of those that wait, so that a claim moves none.
#[derive(Drop)]
pub struct Way {
    pub(crate) claimed_count: u64,
    pub(crate) claim: Option<ClaimNote>,
    pub(crate) bodies: VecDeque<WaitingBody>,
}

impl Model for Way {
    ghost use Rattle.std.specs.Prelude.{◌≤◌, ◌-◌, IfSome, length};
    ghost use Rattle.std.specs.VecDeque.{deque_len, deque_capacity};
    ghost use Rattle.switch_machine.specs.State.{WayState};
    ghost use Rattle.switch_core.specs.Meaning.{WithRoom, way_of};

    ghost Value = { WithRoom WayState };

    ghost view = { λ w. record { state = way_of w.claimed_count w.claim w.bodies.items; spare = deque_capacity w.bodies - deque_len w.bodies } };

    ghost invariant = { λ w. IfSome w.claim (λ note. note.count ≤ length w.bodies.items) };
}

#[tactic(auto, using(crate::proofs::Ways::whole_length, crate::proofs::Ways::one_more))]
impl Way {
    /// A direction that was given no bodies.
    pub fn new(alloc: Global) -> Way
        ensures { result.state ≡ no_bodies }
    {
        Way {
            claimed_count: 0,
            claim: None,
            bodies: VecDeque::new(alloc),
        }
    }

    /// How many bodies are out or wait.
    pub fn len(&self) -> usize
        ensures { result ≡ kept_length self.now.state.claim_out + length self.now.state.waiting_bodies }
    {
        self.bodies.len()
    }

    /// One more body waits.
    pub fn push(&mut self, number: u128, command: u8, payload: &[u8; 509]) -> Result<(), AllocError>
        ensures ok { OnOk result
            (self.new.state ≡ more_waits number (record { command = command; body = payload.now }) self.old.state) }
        ensures spare { OnOk result (self.old.spare ≤ self.new.spare + 1) }
        ensures err { OnErr result (self.new ≡ self.old) }
    {
        self.reserve(1)?;
        self.push_reserved(number, command, payload);
        Ok(())
    }

    /// One more body waits, in a spare place.
    pub fn push_reserved(&mut self, number: u128, command: u8, payload: &[u8; 509])
        requires { 0 < self.old.spare }
        ensures state { self.new.state ≡ more_waits number (record { command = command; body = payload.now }) self.old.state }
        ensures spare { self.new.spare + 1 ≡ self.old.spare }
    {
        let _ = self.bodies.push_back(WaitingBody {
            number,
            command,
            payload: *payload,
        });
    }

    /// Takes room for `more` further bodies.
    pub fn reserve(&mut self, more: usize) -> Result<(), AllocError>
        ensures state { self.new.state ≡ self.old.state }
        ensures ok { OnOk result (more ≤ self.new.spare) }
        ensures kept { self.old.spare ≤ self.new.spare }
        ensures err { OnErr result (self.new ≡ self.old) }
    {
        if more <= self.bodies.capacity() - self.bodies.len() {
            return Ok(());
        }
        // At least doubled, so that bodies that come one by one are seldom moved.
        self.bodies.reserve_exact(more.max(self.bodies.len()))
    }
}
