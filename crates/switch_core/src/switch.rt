//! The switch: each call adds one step to every history that it stands for.
ghost use Rattle.std.specs.Prelude.{◌≡◌, ◌+◌, ◌<◌, ◌≤◌, ◌^◌, ⊤, ℕ, List, [], IfOk, IfSome, IsTrue, false};
ghost use Rattle.cell_codec.specs.Cells.{is_var, IsWellFormed};
ghost use Rattle.circuit_model.specs.Events.{Event};
ghost use Rattle.circuit_model.specs.Rules.{Rules as ModelRules};
ghost use Rattle.tor_spec.specs.CellCommands.{opens_circuit};
ghost use Rattle.tr_io.specs.declared.step.Step.TheVariants.{ChannelUp, OpenCircuit, NextCell, Take, TearDown};
ghost use Rattle.switch_model.specs.Limits.{circuit_limit};
ghost use Rattle.switch_machine.specs.Adds.{Adds, UpCase, OpenCase};
ghost use Rattle.switch_machine.specs.Machine.{new_state};
ghost use Rattle.switch_machine.specs.Calls.ChannelUp.{channel_up_result};
ghost use Rattle.switch_machine.specs.Calls.OpenCircuit.{open_result};
ghost use Rattle.switch_machine.specs.Calls.NextCell.{next_cell_result};
ghost use Rattle.switch_machine.specs.Calls.Take.{take_result};
ghost use Rattle.switch_machine.specs.Calls.TearDown.{tear_down_result};
ghost use Rattle.switch_core.specs.Meaning.{start_of};
ghost use Rattle.switch_core.specs.Started.{SwitchAdds};
ghost use Rattle.switch_core.specs.Taking.{TakeCase};

mod claims;
mod dials;
mod returns;

use crate::opening::{forget_relay, forget_taken, open_with_relay};
use crate::parts::Parts;
use crate::relay::Relay;
use cell_codec::Cell;
use circ_relay::Rules;
use hop_handshake::Opening;
use std::alloc::{AllocError, Global};
use std::marker::Model;
use tr_io::answers::{BackAnswer, OpenAnswer, TakeAnswer, UpAnswer};
use tr_io::names::{ChanNo, CircNo, Side};

/// How many circuits may be live where no number is given.
const MOST_CIRCUITS: u32 = 512;

/// The switch of a relay.
///
/// Contracts see what it was made with, the machine's state, and by circuit the one-thread relay and the
/// ciphers of a live circuit; together they stand for some history of steps. Each call that doesn't answer
/// `Memory` is one step: whatever history the switch stood for, it stands for it afterwards with this step,
/// which has this answer, added.
#[derive(Drop)]
pub struct Switch {
    name: u64,
    rules: Rules,
    /// How many circuits may be live.
    circuits: u32,
    parts: Parts,
    /// By circuit number.
    relays: Vec<Option<Relay>>,
}

impl Model for Switch {
    ghost use Rattle.switch_core.specs.Meaning.{start_of};
    ghost use Rattle.switch_core.specs.Started.{Started, SwitchStandsForSome};

    ghost Value = { Started };

    ghost view = { λ s. record { start = start_of s.name s.rules s.circuits; state = s.parts; relays = s.relays.items } };

    ghost invariant = { λ s. SwitchStandsForSome (record { start = start_of s.name s.rules s.circuits; state = s.parts; relays = s.relays.items }) };
}

#[tactic(auto, using(switch_machine::proofs::Laws::channel_up_adds, switch_machine::proofs::Laws::open_adds, switch_machine::proofs::Laws::next_cell_adds, crate::proofs::Whole::new_whole, crate::proofs::History::up_adds, crate::proofs::History::opening_adds, crate::proofs::History::up_steps, crate::proofs::History::opening_steps, crate::proofs::History::next_steps))]
impl Switch {
    /// A switch for 512 live circuits at most, made as by [`Switch::sized`].
    ///
    /// # Errors
    ///
    /// [`AllocError`] where memory is wanting.
    pub fn new(alloc: Global, name: u64, rules: Rules) -> Result<Switch, AllocError>
        ensures start { IfOk result (λ s. s.start ≡ start_of name rules circuit_limit) }
        ensures state { IfOk result (λ s. s.state ≡ new_state) }
        ensures relays { IfOk result (λ s. s.relays ≡ []) }
    {
        Switch::sized(alloc, name, rules, MOST_CIRCUITS)
    }

    /// A switch with no channel and no circuit, for so many live circuits at most, 1 to 512: where as
    /// many are live, an opening is refused with `Full` of that number. Its name tells its jobs from
    /// another switch's.
    ///
    /// # Errors
    ///
    /// [`AllocError`] where memory is wanting.
    pub fn sized(
        alloc: Global,
        name: u64,
        rules: Rules,
        circuits: u32,
    ) -> Result<Switch, AllocError>
        requires some { 1 ≤ circuits }
        requires within { circuits ≤ circuit_limit }
        ensures start { IfOk result (λ s. s.start ≡ start_of name rules circuits) }
        ensures state { IfOk result (λ s. s.state ≡ new_state) }
        ensures relays { IfOk result (λ s. s.relays ≡ []) }
    {
        Ok(Switch {
            name,
            rules,
            circuits,
            parts: Parts::new(alloc, circuits)?,
            relays: Vec::new(alloc),
        })
    }

    /// How many steps were made: calls that answered otherwise than `Memory`.
    pub fn steps(&self) -> u64
        ensures { result ≡ self.now.state.steps }
    {
        self.parts.steps()
    }

    /// Brings up a channel at a slot, which is a label alone. `Full(64)` where 64 channels are
    /// live; `Memory` where memory is wanting, and then the switch stays as it was.
    pub fn channel_up(&mut self, slot: u32, side: Side) -> UpAnswer
        requires { self.old.state.steps < 2 ^ 62 }
        ensures start { self.new.start ≡ self.old.start }
        ensures history { UpCase result (self.new.state ≡ self.old.state)
            (Adds self.old.start self.old.state self.new.state (ChannelUp slot side result)) }
        ensures steps { self.new.state.steps ≤ self.old.state.steps + 1 }
        ensures answer { UpCase result ⊤ (result ≡ channel_up_result self.old.state) }
        ensures whole { UpCase result (self.new ≡ self.old) (SwitchAdds self.old self.new (ChannelUp slot side result)) }
    {
        self.parts.channel_up(side)
    }

    /// Opens a circuit on a channel, at the CircID of the cell that asked for it. A refused opening
    /// may put a DESTROY into the channel's lane; `Memory` where memory is wanting, and then the
    /// switch stays as it was.
    pub fn open_circuit(&mut self, chan: ChanNo, id: u32, opening: &Opening) -> OpenAnswer
        requires steps { self.old.state.steps < 2 ^ 62 }
        requires fixed { is_var opening.now.reply.body ≡ false }
        requires command { IfSome opening.now.keys (λ _. IsTrue (opens_circuit opening.now.reply.command)) }
        ensures start { self.new.start ≡ self.old.start }
        ensures history { OpenCase result (self.new.state ≡ self.old.state)
            (Adds self.old.start self.old.state self.new.state
            (OpenCircuit chan id opening.now.reply opening.now.keys opening.now.pad result)) }
        ensures steps { self.new.state.steps ≤ self.old.state.steps + 1 }
        ensures answer { OpenCase result ⊤ (result ≡ open_result self.old.start.circuits self.old.state chan.0 id opening.now.keys) }
        ensures whole { OpenCase result (self.new ≡ self.old)
            (SwitchAdds self.old self.new (OpenCircuit chan id opening.now.reply opening.now.keys opening.now.pad result)) }
    {
        open_with_relay(
            &mut self.parts,
            &mut self.relays,
            &self.rules,
            self.circuits,
            chan,
            id,
            opening,
        )
    }

    /// Takes a cell that a channel brings. A RELAY or RELAY_EARLY cell waits for a claim; DESTROY, a cell that its
    /// circuit can't take, and one where as many cells wait as may tear the circuit down. A DESTROY for a
    /// CircID on which ours waits takes ours away. `Memory` where memory is wanting, and then the switch stays
    /// as it was.
    pub fn take(&mut self, chan: ChanNo, cell: &Cell) -> TakeAnswer
        requires steps { self.old.state.steps < 2 ^ 62 }
        requires formed { IsWellFormed cell.now }
        ensures start { self.new.start ≡ self.old.start }
        ensures steps { self.new.state.steps ≤ self.old.state.steps + 1 }
        ensures answer { TakeCase result ⊤ ((rules : ModelRules) (ev : ℕ → List Event)
            → result ≡ take_result rules ev self.old.state chan.0 cell.now) }
        ensures whole { TakeCase result (self.new ≡ self.old) (SwitchAdds self.old self.new (Take chan cell.now result)) }
    {
        let answer = self.parts.take(chan, cell);
        forget_taken(&mut self.relays, answer);
        answer
    }

    /// The next cell that leaves on a channel, where this tick is given: the oldest DESTROY of its
    /// lane, else the first cell of the circuit whose turn it is.
    pub fn next_cell(&mut self, chan: ChanNo, tick: u64) -> Option<Cell>
        requires { self.old.state.steps < 2 ^ 62 }
        ensures start { self.new.start ≡ self.old.start }
        ensures history { Adds self.old.start self.old.state self.new.state (NextCell chan tick result) }
        ensures steps { self.new.state.steps ≡ self.old.state.steps + 1 }
        ensures answer { result ≡ next_cell_result self.old.state chan.0 tick }
        ensures whole { SwitchAdds self.old self.new (NextCell chan tick result) }
        ensures well_formed { IfSome result IsWellFormed }
    {
        self.parts.next_cell(chan, tick)
    }

    /// Tears a circuit down for a reason: its cells go, and DESTROY with the reason waits for the previous hop.
    /// `Gone` where it isn't live. It takes no memory.
    pub fn tear_down(&mut self, circ: CircNo, reason: u8) -> BackAnswer
        requires { self.old.state.steps < 2 ^ 62 }
        ensures start { self.new.start ≡ self.old.start }
        ensures steps { self.new.state.steps ≡ self.old.state.steps + 1 }
        ensures whole { SwitchAdds self.old self.new (TearDown circ reason result) }
        ensures answer { result ≡ tear_down_result self.old.state circ.0 reason }
    {
        let answer = self.parts.tear_down(circ, reason);
        forget_relay(&mut self.relays, circ);
        answer
    }
}
