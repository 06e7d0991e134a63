// What a circuit's next hop has come to.

ghost use Rattle.std.specs.Prelude.{◌≡◌, ◌+◌, ◌≤◌, ◌∷◌, List, None};
ghost use Rattle.circuit_model.specs.Events.{Event};
ghost use Rattle.circuit_model.specs.declared.event.Event.TheVariants.{Linked, Answered, Failed};
ghost use Rattle.circuit_model.specs.Rules.{Rules};
ghost use Rattle.circuit_model.specs.Words.{effects};
ghost use Rattle.circ_relay.specs.CircuitOfLog.{HasCalls, IsCircuit};
ghost use Rattle.circ_relay.specs.Values.{effects_of};
ghost use Rattle.circuit_model.specs.declared.next_hop.NextHop.{NextHop};

use crate::circuit::Circuit;
use crate::effects::Effects;
use cell_codec::{command, destroy_reason};
use circuit_model::NextHop;
use relay_cell::{extended2_body, read_handshake_reply};

/// EXTENDED2 has room for so many bytes of HDATA behind HLEN.
const MOST_HDATA: usize = 496;

impl Circuit {
    /// A channel to the next hop is there, and a new leg on it: CREATE2 goes out.
    pub fn next_linked(&mut self) -> Effects
        requires { self.old.next_hop ≡ NextHop.Dialling }
        ensures effects { (rules : Rules) (h : List Event) → IsCircuit self.old rules h →
            effects_of result ≡ effects rules h Linked }
        ensures circuit { (rules : Rules) (h : List Event) → IsCircuit self.old rules h → IsCircuit self.new rules (Linked ∷ h) }
        ensures rest { self.new ≡ record self.old { next_hop = NextHop.Waiting } }
    {
        self.next_hop = NextHop::Waiting;
        Effects {
            forth: Some((command::CREATE2, self.create2)),
            ..Effects::none()
        }
    }

    /// The next hop answered with this payload of CREATED2.
    #[tactic(auto, using(tor_spec::proofs::Fitting::body_fits, tor_spec::proofs::Fitting::reply_fits))]
    pub fn next_answered(&mut self, payload: &[u8; 509]) -> Effects
        requires calls { HasCalls self.old }
        requires awaited { self.old.next_hop ≡ NextHop.Waiting }
        ensures effects { (rules : Rules) (h : List Event) → IsCircuit self.old rules h →
            effects_of result ≡ effects rules h (Answered payload.now) }
        ensures circuit { (rules : Rules) (h : List Event) → IsCircuit self.old rules h → result.close ≡ None →
            IsCircuit self.new rules (Answered payload.now ∷ h) }
        ensures packaged { self.new.packager.padding.count ≤ self.old.packager.padding.count + 1 }
        ensures rest { self.new ≡ record self.old { next_hop = NextHop.There; packager = self.new.packager } }
    {
        self.next_hop = NextHop::There;
        match read_handshake_reply(payload) {
            Some(handshake) if handshake.len() <= MOST_HDATA => {
                self.packaging(&extended2_body(handshake))
            }
            _ => Effects::closing(destroy_reason::PROTOCOL),
        }
    }

    /// No channel to the next hop could be had.
    pub fn next_failed(&mut self) -> Effects
        requires { self.old.next_hop ≡ NextHop.Dialling }
        ensures effects { (rules : Rules) (h : List Event) → IsCircuit self.old rules h →
            effects_of result ≡ effects rules h Failed }
        ensures stays { self.new ≡ self.old }
    {
        Effects::closing(destroy_reason::CONNECT_FAILED)
    }
}
