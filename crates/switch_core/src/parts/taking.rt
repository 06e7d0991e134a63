//! Cells that a channel brings.
ghost use Rattle.std.specs.Prelude.{◌≡◌, ◌<◌, ◌^◌, ⊤, ℕ, List, [], IsTrue, false, None};
ghost use Rattle.cell_codec.specs.Cells.{is_var, IsWellFormed};
ghost use Rattle.circuit_model.specs.Events.{Event};
ghost use Rattle.circuit_model.specs.Rules.{Rules};
ghost use Rattle.tor_spec.specs.Reasons.{destroy_destroyed};
ghost use Rattle.switch_model.specs.Answers.Take.{is_for_circuit};
ghost use Rattle.switch_model.specs.Names.{circuit_cell};
ghost use Rattle.switch_machine.specs.Machine.{counted};
ghost use Rattle.switch_machine.specs.State.{slot_at, with_slot};
ghost use Rattle.switch_machine.specs.Calls.Take.{freed_lane, leg_result, circuit_state, take_result, take_state};
ghost use Rattle.switch_machine.specs.Calls.TearDown.{tear_down_state};
ghost use Rattle.switch_core.specs.Picking.{first_leg_of, HasOneLeg};
ghost use Rattle.switch_core.specs.Taking.{why_other, why_not_taken, TakeCase, IsOnLeg, closed_answer, queued_answer, forth_queued_state, body_count};

use crate::parts::{MOST_BODIES, Parts};
use crate::slot::{push_forth_of, slot_body_count};
use cell_codec::{Body, Cell, command, destroy_reason};
use tr_io::answers::{BackAnswer, TakeAnswer, Why};
use tr_io::names::{ChanNo, CircNo};

impl Parts {
    /// Takes a cell that a channel brings.
    pub fn take(&mut self, chan: ChanNo, cell: &Cell) -> TakeAnswer
        requires steps { self.old.steps < 2 ^ 62 }
        requires formed { IsWellFormed cell.now }
        ensures state { TakeCase result (self.new ≡ self.old) ((rules : Rules) (ev : ℕ → List Event)
            → self.new ≡ take_state rules ev self.old chan.0 cell.now) }
        ensures answer { TakeCase result ⊤ ((rules : Rules) (ev : ℕ → List Event) → result ≡ take_result rules ev self.old chan.0 cell.now) }
        ensures leg { TakeCase result ⊤ (IsOnLeg result self.old chan.0 cell.now.circ) }
    {
        if let Some(why) = self.why_not_taken(chan, cell.command) {
            self.counters.steps += 1;
            return TakeAnswer::PassedOver(why);
        }
        match self.circuit_with(chan, cell.circ) {
            Some(number) => self.take_on(number, cell),
            None => self.take_without_circuit(chan, cell),
        }
    }

    /// Why a cell with this command is passed over before its CircID is looked at, if it is.
    fn why_not_taken(&self, chan: ChanNo, command: u8) -> Option<Why>
        ensures { result ≡ why_not_taken self.now chan.0 command }
    {
        if self.channel(chan).is_none() {
            return Some(Why::NoChannel);
        }
        why_passed_over(command)
    }

    /// Takes a cell for a CircID that no circuit has. A DESTROY takes ours for the same CircID away.
    fn take_without_circuit(&mut self, chan: ChanNo, cell: &Cell) -> TakeAnswer
        requires steps { self.old.steps < 2 ^ 62 }
        ensures state { self.new ≡ freed_lane self.old chan.0 cell.now (slot_at self.old.channels chan.0) }
        ensures answer { result ≡ TakeAnswer.PassedOver Why.NoCircuit }
    {
        self.free_by(chan, cell);
        self.counters.steps += 1;
        TakeAnswer::PassedOver(Why::NoCircuit)
    }

    /// Our DESTROYs for a CircID go where the peer's DESTROY for it comes.
    fn free_by(&mut self, chan: ChanNo, cell: &Cell)
        requires { self.old.steps < 2 ^ 62 }
        ensures { counted self.new ≡ freed_lane self.old chan.0 cell.now (slot_at self.old.channels chan.0) }
    {
        if cell.command != command::DESTROY {
            return;
        }
        if chan.0 >= self.channels.len() as u64 {
            return;
        }
        let channel = &mut self.channels[chan.0 as usize];
        channel.free(cell.circ);
    }

    /// Takes a cell on the leg of a circuit towards the previous hop.
    fn take_on(&mut self, number: usize, cell: &Cell) -> TakeAnswer
        requires steps { self.old.steps < 2 ^ 62 }
        requires formed { IsWellFormed cell.now }
        requires command { IsTrue (is_for_circuit cell.now.command) }
        requires one_leg { HasOneLeg (slot_at self.old.circuits number) }
        ensures state { TakeCase result (self.new ≡ self.old) ((rules : Rules) (ev : ℕ → List Event)
            → self.new ≡ circuit_state rules ev self.old (first_leg_of number) (circuit_cell cell.now)
            (slot_at self.old.circuits number) result) }
        ensures answer { TakeCase result ⊤ ((rules : Rules) (ev : List Event)
            → result ≡ leg_result rules ev (first_leg_of number) (circuit_cell cell.now) (slot_at self.old.circuits number)) }
    {
        let circ = CircNo(number as u64);
        if cell.command == command::DESTROY {
            return self.end_by_peer(circ);
        }
        if cell.command == command::CREATED2 {
            return self.close(circ, destroy_reason::PROTOCOL);
        }
        if self.body_count(number) >= MOST_BODIES {
            return self.close(circ, destroy_reason::RESOURCE_LIMIT);
        }
        self.queue_forth(number, cell)
    }

    /// Tears a circuit down for a reason, if it is live.
    fn close(&mut self, circ: CircNo, reason: u8) -> TakeAnswer
        requires { self.old.steps < 2 ^ 62 }
        ensures state { (rules : Rules) (ev : ℕ → List Event) → self.new ≡ tear_down_state rules ev self.old circ.0 reason }
        ensures answer { result ≡ closed_answer circ.0 reason (slot_at self.old.circuits circ.0) }
    {
        match self.tear_down(circ, reason) {
            BackAnswer::Down(reason) => TakeAnswer::Down(circ, reason),
            _ => TakeAnswer::PassedOver(Why::NoCircuit),
        }
    }

    /// The peer has torn a circuit down: its cells go, and no DESTROY waits.
    fn end_by_peer(&mut self, circ: CircNo) -> TakeAnswer
        requires { self.old.steps < 2 ^ 62 }
        ensures state { self.new ≡ record (counted self.old) { circuits = with_slot self.old.circuits circ.0 None } }
        ensures answer { result ≡ closed_answer circ.0 destroy_destroyed (slot_at self.old.circuits circ.0) }
        ensures again { self.old.again ≡ [] }
    {
        let Some(_) = self.take_out(circ) else {
            self.counters.steps += 1;
            return TakeAnswer::PassedOver(Why::NoCircuit);
        };
        self.counters.steps += 1;
        TakeAnswer::Down(circ, destroy_reason::DESTROYED)
    }

    /// How many bodies of a circuit are out or wait forth.
    fn body_count(&self, number: usize) -> usize
        ensures { result ≡ body_count (slot_at self.now.circuits number) }
    {
        if number >= self.circuits.len() {
            return 0;
        }
        slot_body_count(&self.circuits[number])
    }

    /// A relay cell waits forth on a circuit, if it is live.
    fn queue_forth(&mut self, number: usize, cell: &Cell) -> TakeAnswer
        requires steps { self.old.steps < 2 ^ 62 }
        requires fixed { is_var cell.now.body ≡ false }
        ensures state { TakeCase result (self.new ≡ self.old)
            (self.new ≡ forth_queued_state self.old number (circuit_cell cell.now) (slot_at self.old.circuits number)) }
        ensures answer { TakeCase result ⊤ (result ≡ queued_answer (slot_at self.old.circuits number)) }
    {
        let Body::Fixed(payload) = &cell.body else {
            unreachable!()
        };
        if number >= self.circuits.len() {
            self.counters.steps += 1;
            return TakeAnswer::PassedOver(Why::NoCircuit);
        }
        let slot = &mut self.circuits[number];
        let answer = push_forth_of(slot, self.counters.bodies, cell.command, payload);
        match answer {
            TakeAnswer::Memory => {}
            TakeAnswer::Queued => {
                self.counters.bodies += 1;
                self.counters.steps += 1;
            }
            _ => self.counters.steps += 1,
        }
        answer
    }
}

/// Why a cell with this command is passed over, if it is for no circuit.
fn why_passed_over(command: u8) -> Option<Why>
    ensures { result ≡ why_other command }
{
    match command {
        command::PADDING | command::PADDING_NEGOTIATE | command::VPADDING => Some(Why::Padding),
        command::CREATE | command::CREATE_FAST | command::CREATE2 => Some(Why::Opening),
        command::VERSIONS
        | command::NETINFO
        | command::CERTS
        | command::AUTH_CHALLENGE
        | command::AUTHENTICATE => Some(Why::Link),
        command::RELAY | command::DESTROY | command::RELAY_EARLY | command::CREATED2 => None,
        _ => Some(Why::Unknown),
    }
}
