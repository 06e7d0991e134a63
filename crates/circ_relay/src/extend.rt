// EXTEND2 and TRUNCATE (tor-spec, "EXTEND and EXTENDED cells", "Tearing down circuits").

ghost use Rattle.std.specs.Prelude.{◌≡◌, ℕ, ◌+◌, ◌^◌, ◌<◌, ◌≤◌, [], ◌∷◌, List, length, option_and_then, not, Some, None, IfSome, IfNone};
ghost use Rattle.tor_spec.specs.CellCommands.{create2_command};
ghost use Rattle.tor_spec.specs.Reasons.{destroy_requested};
ghost use Rattle.tor_spec.specs.RelayCell.{relay_body, truncated_command, extend2_command};
ghost use Rattle.tor_spec.specs.Extend.{Extend, extend_request};
ghost use Rattle.circuit_model.specs.Rules.{Rules as ModelRules};
ghost use Rattle.circuit_model.specs.Log.{Log, Message as ModelMessage};
ghost use Rattle.circuit_model.specs.NextHop.{next_hop, is_absent};
ghost use Rattle.circuit_model.specs.Extending.{create2, extend_effects, truncate_effects};
ghost use Rattle.circuit_model.specs.Words.{effects, log};
ghost use Rattle.circuit_model.specs.declared.next_hop.NextHop.{NextHop};
ghost use Rattle.circ_relay.specs.BroughtMessages.{IsBrought, after_cell};
ghost use Rattle.circ_relay.specs.Packaging.{Packages};
ghost use Rattle.circ_relay.specs.CircuitOfLog.{HasParts};
ghost use Rattle.circ_relay.specs.Values.{effects_of, address_of};

use crate::circuit::{CellPayload, Circuit};
use crate::effects::Effects;
use crate::message::Message;
use cell_codec::destroy_reason;
use circuit_model::NextHop;
use relay_cell::{create2_payload, read_extend2, truncated_body};
use tr_io::names::Dest;

impl Circuit {
    // TRUNCATED with REQUESTED.
    #[tactic(auto, using(tor_spec::proofs::Bodies::relay_body_fits))]
    pub(crate) fn truncate(&mut self) -> Effects
        requires { self.old.packager.padding.count < 2 ^ 63 }
        ensures effects { (log : Log) → HasParts self.old log → effects_of result ≡ truncate_effects log }
        ensures next { Packages self.old.packager self.new.packager (relay_body truncated_command 0 (destroy_requested ∷ [])) }
        ensures unclosed { result.close ≡ None }
        ensures packaged { self.new.packager.padding.count ≡ self.old.packager.padding.count + 1 }
        ensures rest { self.new ≡ record self.old { packager = self.new.packager; next_hop = NextHop.Absent } }
        ensures orderless { result.edge ≡ None }
    {
        let had_next_hop = self.has_next_hop();
        self.next_hop = NextHop::Absent;
        Effects {
            cut: had_next_hop,
            ..self.packaging(&truncated_body(destroy_reason::REQUESTED))
        }
    }

    // EXTEND2 must come in RELAY_EARLY, have no next hop before it, and name an IPv4 address.
    pub(crate) fn extend(&mut self, message: &Message<'_>) -> Effects
        ensures effects { (log : Log) (command : ℕ) (body : List ℕ) (m : ModelMessage) →
            IsBrought message.now log command body m → HasParts self.old log → effects_of result ≡ extend_effects log m }
        ensures parts { (rules : ModelRules) (log : Log) (command : ℕ) (body : List ℕ) (m : ModelMessage) →
            IsBrought message.now log command body m → HasParts self.old log → m.command ≡ extend2_command → result.close ≡ None →
            HasParts self.new (after_cell rules log command body) }
        ensures windows { self.new.windows ≡ self.old.windows }
        ensures places { self.new.places ≡ self.old.places }
        ensures early { self.new.early_cells ≡ self.old.early_cells }
        ensures packager { self.new.packager ≡ self.old.packager }
        ensures orderless { result.edge ≡ None }
        ensures number { self.new.number ≡ self.old.number }
    {
        if !message.is_early || self.has_next_hop() {
            return Effects::closing(destroy_reason::PROTOCOL);
        }
        let Some(extension) = asked(message.payload) else {
            return Effects::closing(destroy_reason::PROTOCOL);
        };
        let (to, create2) = extension;
        self.next_hop = NextHop::Dialling;
        self.create2 = create2;
        Effects {
            dial: Some(to),
            ..Effects::none()
        }
    }

    fn has_next_hop(&self) -> bool
        ensures { result ≡ not (is_absent self.now.next_hop) }
    {
        self.next_hop != NextHop::Absent
    }
}

// What an EXTEND2 asks for, if it names an IPv4 address: the next hop's address and the payload of the
// CREATE2 for it.
fn asked(payload: &[u8]) -> Option<(Dest, CellPayload)>
    requires { length payload.now ≤ 498 }
    ensures some { IfSome result (λ extension. (request : Extend) × (extend_request payload.now ≡ Some request)
        × (request.to ≡ Some (address_of extension.0))
        × (create2 request ≡ record { command = create2_command; body = extension.1 })) }
    ensures none { IfNone result (option_and_then (λ (request : Extend). request.to) (extend_request payload.now) ≡ None) }
{
    let request = read_extend2(payload)?;
    let (ip, port) = request.to?;
    let create2 = create2_payload(request.htype, request.hdata);
    Some((Dest { ip, port }, create2))
}
