//! One circuit: its leg towards the previous hop.
ghost use Rattle.std.specs.Prelude.{◌≡◌, OnOk, OnErr, IfSome, Some, length};
ghost use Rattle.cell_codec.specs.Cells.{IsWellFormed};
ghost use Rattle.switch_machine.specs.Machine.{has_port, leg_at};
ghost use Rattle.switch_machine.specs.Calls.NextCell.{waits_on, count_of_found, first_cell};
ghost use Rattle.switch_machine.specs.Calls.OpenCircuit.{circuit_has_id};
ghost use Rattle.switch_machine.specs.Calls.OpenCircuit.{no_bodies};
ghost use Rattle.switch_core.specs.Meaning.{circuit_of, OfLeg};
ghost use Rattle.switch_core.specs.Ordering.{no_orders};
ghost use Rattle.switch_core.specs.Picking.{FirstSent};
ghost use Rattle.switch_core.specs.Taking.{body_count};
ghost use Rattle.switch_machine.specs.Calls.Take.{forth_waits};

mod claims;
mod dials;
mod home;
mod seals;
mod settles;

use crate::leg::Leg;
use crate::orders::Orders;
use crate::way::Way;
use cell_codec::Cell;
use std::alloc::{AllocError, Global};
use std::marker::Model;
use tr_io::names::ChanNo;

/// A live circuit.
///
/// Contracts see it as the machine's. How many cells were sent on the leg follows: the answer to the opening
/// and the bodies that came home sealed, less those that wait.
#[derive(Drop)]
pub struct Circuit {
    /// The leg towards the previous hop.
    pub(crate) leg: Leg,
    /// The direction away from the client.
    pub(crate) forth: Way,
    /// The direction towards the client.
    pub(crate) back: Way,
    /// Its orders that were not handed out.
    pub(crate) orders: Orders,
}

impl Model for Circuit {
    ghost use Rattle.switch_machine.specs.State.{CircuitState};
    ghost use Rattle.switch_core.specs.Meaning.{circuit_of, CircuitFits};

    ghost Value = { CircuitState };

    ghost view = { λ c. circuit_of c.leg.state c.forth.state c.back.state c.orders.state };

    ghost invariant = { λ c. CircuitFits c.leg c.forth c.back c.orders };
}

#[tactic(auto, using(crate::proofs::Plain::or_false), unfolding(switch_machine::specs::State::slot_at))]
impl Circuit {
    /// A circuit that was just opened, with its leg.
    pub fn new(alloc: Global, leg: Leg) -> Circuit
        requires { length leg.state.queue ≡ 1 }
        ensures { result ≡ circuit_of leg.state no_bodies no_bodies no_orders }
    {
        Circuit {
            leg,
            forth: Way::new(alloc),
            back: Way::new(alloc),
            orders: Orders::new(alloc),
        }
    }

    /// Whether this CircID of this channel is that of the circuit's leg.
    pub fn has_port(&self, chan: ChanNo, id: u32) -> bool
        ensures any { result ≡ circuit_has_id chan.0 id (Some self.now) }
        ensures port { result ≡ has_port chan.0 id (leg_at (Some self.now) 0) }
        ensures one_leg { length self.now.legs ≡ 1 }
    {
        self.leg.has_port(chan, id)
    }

    /// Whether a cell waits on the circuit's leg for this channel.
    pub fn waits_on(&self, chan: ChanNo) -> bool
        ensures waits { result ≡ waits_on chan.0 (leg_at (Some self.now) 0) }
        ensures one_leg { length self.now.legs ≡ 1 }
    {
        self.leg.waits_on(chan)
    }

    /// The leg's count where this tick is in force.
    pub fn count_at(&self, now: u64) -> u64
        ensures { result ≡ count_of_found now (leg_at (Some self.now) 0) }
    {
        self.leg.count_at(now)
    }

    /// The first cell that waits on the leg leaves at this tick.
    pub fn send_first(&mut self, now: u64) -> Option<Cell>
        ensures cell { result ≡ first_cell (leg_at (Some self.old) 0) }
        ensures state { FirstSent now self.old self.new }
        ensures well_formed { IfSome result IsWellFormed }
    {
        self.leg.send_first(now)
    }

    /// How many bodies are out or wait forth.
    pub fn body_count(&self) -> usize
        ensures { result ≡ body_count (Some self.now) }
    {
        self.forth.len()
    }

    /// One more body waits forth.
    pub fn push_forth(
        &mut self,
        number: u128,
        command: u8,
        payload: &[u8; 509],
    ) -> Result<(), AllocError>
        ensures ok { OnOk result (self.new ≡ forth_waits number (record { command = command; body = payload.now }) self.old) }
        ensures err { OnErr result (self.new ≡ self.old) }
    {
        self.forth.push(number, command, payload)
    }

    /// The leg towards the previous hop, without the circuit.
    pub fn into_leg(self) -> Leg
        ensures { OfLeg self result.state }
    {
        let Circuit {
            leg,
            forth: _,
            back: _,
            orders: _,
        } = self;
        leg
    }
}
