//! The switch over plain lists: each call is the machine's. The calls stand in files by what they concern.
ghost use Rattle.std.specs.Prelude.{◌≡◌, ◌<◌, IfOk, None};
ghost use Rattle.switch_machine.specs.Machine.{new_state};

mod channels;
mod circuits;
mod claiming;
mod dialling;
mod finding;
mod returning;
mod sealing;
mod sending;
mod settling;
mod taking;
mod teardown;

use crate::channel::Channel;
use crate::circuit::Circuit;
use crate::counters::Counters;
use std::alloc::{AllocError, Global};
use std::marker::Model;

/// How many channels may be live.
const MOST_CHANNELS: u32 = 64;

/// How many cells a direction of a circuit holds at most.
pub(crate) const MOST_BODIES: usize = 1500;

/// The channels and circuits of a switch, each list by number. No channel is gone yet.
#[derive(Drop)]
pub struct Parts {
    alloc: Global,
    counters: Counters,
    channels: Vec<Channel>,
    circuits: Vec<Option<Circuit>>,
}

impl Model for Parts {
    ghost use Rattle.switch_machine.specs.State.{State};
    ghost use Rattle.switch_core.specs.Meaning.{StepsFit, state_of};

    ghost Value = { State };

    ghost view = { λ p. state_of p.counters p.channels.items p.circuits.items };

    ghost invariant = { λ p. StepsFit p.counters p.channels.items p.circuits.items };
}

#[tactic(auto, using(crate::proofs::Plain::plain_lists))]
impl Parts {
    /// A switch without channels and circuits, with room for so many circuits.
    pub fn new(alloc: Global, circuits: u32) -> Result<Parts, AllocError>
        ensures { IfOk result (λ p. p ≡ new_state) }
    {
        Ok(Parts {
            alloc,
            counters: Counters::new(),
            channels: Vec::with_capacity(alloc, MOST_CHANNELS as usize)?,
            circuits: Vec::with_capacity(alloc, circuits as usize)?,
        })
    }

    /// How many steps were made.
    pub fn steps(&self) -> u64
        ensures { result ≡ self.now.steps }
    {
        self.counters.steps
    }
}
