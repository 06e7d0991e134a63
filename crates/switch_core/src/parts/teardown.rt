//! Tearing circuits down.
ghost use Rattle.std.specs.Prelude.{◌≡◌, ◌<◌, ◌^◌, ℕ, List, IfSome, IfNone, Some, None};
ghost use Rattle.circuit_model.specs.Events.{Event};
ghost use Rattle.circuit_model.specs.Rules.{Rules};
ghost use Rattle.switch_machine.specs.Machine.{counted};
ghost use Rattle.switch_machine.specs.State.{slot_at};
ghost use Rattle.switch_machine.specs.Calls.TearDown.{destroy_of, tear_down_result, tear_down_state, with_lanes};
ghost use Rattle.switch_core.specs.Meaning.{TakenOut};

use crate::circuit::Circuit;
use crate::leg::Leg;
use crate::parts::Parts;
use tr_io::answers::BackAnswer;
use tr_io::names::CircNo;

impl Parts {
    /// Tears a circuit down for a reason, if it is live: its cells go, and a DESTROY waits on the channel of
    /// its leg.
    pub fn tear_down(&mut self, circ: CircNo, reason: u8) -> BackAnswer
        requires { self.old.steps < 2 ^ 62 }
        ensures state { (rules : Rules) (ev : ℕ → List Event) → self.new ≡ tear_down_state rules ev self.old circ.0 reason }
        ensures answer { result ≡ tear_down_result self.old circ.0 reason }
    {
        let Some(circuit) = self.take_out(circ) else {
            self.counters.steps += 1;
            return BackAnswer::Gone;
        };
        let leg = circuit.into_leg();
        self.put_destroy(leg, reason);
        BackAnswer::Down(reason)
    }

    /// Takes a circuit out of the list, if it is live.
    pub(super) fn take_out(&mut self, circ: CircNo) -> Option<Circuit>
        ensures some { IfSome result (λ circuit. TakenOut self.old self.new circ.0 circuit) }
        ensures none { IfNone result ((slot_at self.old.circuits circ.0 ≡ None) × (self.new ≡ self.old)) }
    {
        if circ.0 >= self.circuits.len() as u64 {
            return None;
        }
        let slot = &mut self.circuits[circ.0 as usize];
        slot.take()
    }

    /// A leg's DESTROY waits on its channel, which is a step.
    fn put_destroy(&mut self, leg: Leg, reason: u8)
        requires { self.old.steps < 2 ^ 62 }
        ensures { self.new
            ≡ record (counted self.old) { channels = with_lanes (λ n. destroy_of n reason (Some leg.state)) 0 self.old.channels } }
    {
        let chan = leg.chan();
        if chan.0 >= self.channels.len() as u64 {
            self.counters.steps += 1;
            return;
        }
        let channel = &mut self.channels[chan.0 as usize];
        channel.append(leg.into_destroy(reason));
        self.counters.steps += 1;
    }
}
