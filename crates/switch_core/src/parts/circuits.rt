//! Opening circuits.
ghost use Rattle.std.specs.Prelude.{◌≡◌, ◌<◌, ◌^◌, ⊤, OnOk, OnErr, IfSome, IsTrue, Some, None, false};
ghost use Rattle.std.specs.List.{list_any};
ghost use Rattle.cell_codec.specs.Cells.{is_var};
ghost use Rattle.tor_spec.specs.CellCommands.{opens_circuit};
ghost use Rattle.switch_machine.specs.Adds.{OpenCase};
ghost use Rattle.switch_machine.specs.Machine.{counted, filled_slots};
ghost use Rattle.switch_machine.specs.State.{slot_at};
ghost use Rattle.switch_machine.specs.Calls.OpenCircuit.{open_result, open_result_on, open_state, circuit_has_id, is_id_taken, with_circuit};
ghost use Rattle.switch_core.specs.Meaning.{refused_on};

use crate::channel::Channel;
use crate::circuit::Circuit;
use crate::leg::Leg;
use crate::parts::Parts;
use crate::slot::slot_has_port;
use hop_handshake::Opening;
use kdf_tor::LayerKeys;
use std::alloc::AllocError;
use tr_io::answers::{OpenAnswer, OpenRefusal};
use tr_io::names::{ChanNo, CircNo};

#[tactic(auto, using(crate::proofs::Plain::plain_lists, crate::proofs::Plain::there, crate::proofs::Plain::beyond, crate::proofs::Plain::refused_state, crate::proofs::Plain::opened_state))]
impl Parts {
    /// Opens a circuit, or refuses to, where at most `most` may be live.
    pub fn open_circuit(
        &mut self,
        most: u32,
        chan: ChanNo,
        id: u32,
        opening: &Opening,
    ) -> OpenAnswer
        requires steps { self.old.steps < 2 ^ 62 }
        requires fixed { is_var opening.now.reply.body ≡ false }
        requires command { IfSome opening.now.keys (λ _. IsTrue (opens_circuit opening.now.reply.command)) }
        ensures state { OpenCase result (self.new ≡ self.old)
            (self.new ≡ open_state most self.old chan.0 id opening.now.reply opening.now.keys) }
        ensures answer { OpenCase result ⊤ (result ≡ open_result most self.old chan.0 id opening.now.keys) }
    {
        let answer = self.open_answer(most, chan, id, &opening.keys);
        let made = match answer {
            OpenAnswer::Refused(why) => self.refuse(chan, id, why),
            OpenAnswer::Opened(_) => self.add_circuit(chan, id, opening),
            OpenAnswer::Memory => Err(AllocError),
        };
        if made.is_err() {
            return OpenAnswer::Memory;
        }
        answer
    }

    /// The answer to an opening.
    fn open_answer(&self, most: u32, chan: ChanNo, id: u32, keys: &Option<LayerKeys>) -> OpenAnswer
        ensures { result ≡ open_result most self.now chan.0 id keys.now }
    {
        match self.channel(chan) {
            Some(channel) => self.open_answer_on(most, channel, chan, id, keys),
            None => OpenAnswer::Refused(OpenRefusal::NoChannel),
        }
    }

    /// The answer to an opening on a live channel.
    fn open_answer_on(
        &self,
        most: u32,
        channel: &Channel,
        chan: ChanNo,
        id: u32,
        keys: &Option<LayerKeys>,
    ) -> OpenAnswer
        ensures { result ≡ open_result_on most self.now chan.0 id keys.now (Some channel.now) }
    {
        if id == 0 {
            return OpenAnswer::Refused(OpenRefusal::BadId);
        }
        if self.id_is_taken(channel, chan, id) {
            return OpenAnswer::Refused(OpenRefusal::InUse);
        }
        if !channel.peer_may_choose(id) {
            return OpenAnswer::Refused(OpenRefusal::BadId);
        }
        if keys.is_none() {
            return OpenAnswer::Refused(OpenRefusal::BadHandshake);
        }
        if self.live_circuits() >= most as usize {
            return OpenAnswer::Refused(OpenRefusal::Full(most));
        }
        OpenAnswer::Opened(CircNo(self.circuits.len() as u64))
    }

    /// How many circuits are live.
    #[tactic(auto, using(crate::proofs::Gone::filled_count))]
    fn live_circuits(&self) -> usize
        ensures { result ≡ filled_slots self.now.circuits }
    {
        self.circuits.iter().filter(|slot| slot.is_some()).count()
    }

    /// Whether the CircID is in use on a channel.
    fn id_is_taken(&self, channel: &Channel, chan: ChanNo, id: u32) -> bool
        ensures { result ≡ is_id_taken self.now chan.0 channel.now id }
    {
        self.has_leg_at(chan, id) || channel.destroy_waits(id)
    }

    /// Whether a circuit's leg has this CircID of this channel.
    fn has_leg_at(&self, chan: ChanNo, id: u32) -> bool
        ensures { result ≡ list_any (circuit_has_id chan.0 id) self.now.circuits }
    {
        any_has_port(self.circuits.as_slice(), chan, id)
    }

    /// Refuses an opening on a channel, which is a step.
    fn refuse(&mut self, chan: ChanNo, id: u32, why: OpenRefusal) -> Result<(), AllocError>
        requires { self.old.steps < 2 ^ 62 }
        ensures ok { OnOk result (self.new ≡ counted (refused_on self.old chan.0 id why (slot_at self.old.channels chan.0))) }
        ensures err { OnErr result (self.new ≡ self.old) }
    {
        if chan.0 >= self.channels.len() as u64 {
            self.counters.steps += 1;
            return Ok(());
        }
        let channel = &mut self.channels[chan.0 as usize];
        channel.refuse(id, why)?;
        self.counters.steps += 1;
        Ok(())
    }

    /// Adds the circuit of an opening, if its handshake was good, which is a step.
    fn add_circuit(&mut self, chan: ChanNo, id: u32, opening: &Opening) -> Result<(), AllocError>
        requires steps { self.old.steps < 2 ^ 62 }
        requires fixed { is_var opening.now.reply.body ≡ false }
        requires command { IfSome opening.now.keys (λ _. IsTrue (opens_circuit opening.now.reply.command)) }
        ensures ok { OnOk result (self.new ≡ with_circuit self.old chan.0 id opening.now.reply opening.now.keys) }
        ensures err { OnErr result (self.new ≡ self.old) }
    {
        if opening.keys.is_none() {
            self.counters.steps += 1;
            return Ok(());
        }
        let leg = Leg::new(self.alloc, chan, id, &opening.reply)?;
        self.circuits.push(Some(Circuit::new(self.alloc, leg)))?;
        self.counters.steps += 1;
        Ok(())
    }
}

/// Whether one of these circuits has this CircID on this channel.
fn any_has_port(circuits: &[Option<Circuit>], chan: ChanNo, id: u32) -> bool
    ensures { result ≡ list_any (circuit_has_id chan.0 id) circuits.now }
{
    circuits.iter().any(|slot| slot_has_port(slot, chan, id))
}
