//! Forward bodies that come home.
ghost use Rattle.std.specs.Prelude.{◌≡◌, ◌+◌, ◌<◌, ◌≤◌, ◌^◌, ℕ, List, IsTrue, IfSome, is_some, length};
ghost use Rattle.circ_relay.specs.Values.{rules_of};
ghost use Rattle.circuit_model.specs.Events.{Event};
ghost use Rattle.circuit_model.specs.Rules.{Rules as ModelRules};
ghost use Rattle.switch_machine.specs.Calls.Take.{kept_length};
ghost use Rattle.switch_machine.specs.State.{slot_at};
ghost use Rattle.switch_core.specs.Meaning.{home_count};
ghost use Rattle.switch_core.specs.Settling.{CallsFit, CallsGrow, PartsSettle, finished_answer, finished_state};

use crate::parts::Parts;
use crate::slot::settle_forth_of;
use circ_relay::{Circuit as RelayCircuit, Rules};
use relay_cell::Opened;
use tr_io::answers::BackAnswer;
use tr_io::names::CircNo;

impl Parts {
    /// The bodies of a circuit's forward claim come home as these: each acts on the circuit, up to the first
    /// that closes it, and then it is torn down.
    pub fn settle_forth(
        &mut self,
        circ: CircNo,
        relay: &mut RelayCircuit,
        rules: &Rules,
        opened_bodies: &[Opened],
    ) -> BackAnswer
        requires steps { self.old.steps < 2 ^ 62 }
        requires live { IsTrue (is_some (slot_at self.old.circuits circ.0)) }
        requires count { IfSome (slot_at self.old.circuits circ.0) (λ x. length opened_bodies.now ≡ kept_length x.forth.claim_out) }
        requires most { length opened_bodies.now ≤ 32 }
        requires calls { IfSome (slot_at self.old.circuits circ.0) (λ x. CallsFit (home_count x.forth) relay.old) }
        ensures steps { self.new.steps ≡ self.old.steps + 1 }
        ensures grown { CallsGrow (length opened_bodies.now) relay.old relay.new }
        ensures settles { PartsSettle (rules_of rules.now) self.old self.new circ.0 relay.old relay.new opened_bodies.now result }
    {
        let mut counters = self.counters;
        let slot = &mut self.circuits[circ.0 as usize];
        let reason = settle_forth_of(slot, relay, rules, &mut counters, opened_bodies);
        let answer = self.finish(circ, reason);
        self.counters.bodies = counters.bodies;
        self.counters.dial_orders = counters.dial_orders;
        answer
    }

    /// A return ends: the circuit is torn down, if there is a reason.
    fn finish(&mut self, circ: CircNo, reason: Option<u8>) -> BackAnswer
        requires { self.old.steps < 2 ^ 62 }
        ensures state { (rules : ModelRules) (ev : ℕ → List Event) → self.new ≡ finished_state rules ev self.old circ.0 reason }
        ensures answer { result ≡ finished_answer self.old circ.0 reason }
    {
        match reason {
            Some(reason) => self.tear_down(circ, reason),
            None => {
                self.counters.steps += 1;
                BackAnswer::Settled
            }
        }
    }
}
