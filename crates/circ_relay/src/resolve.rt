// RESOLVE (tor-spec, "Remote hostname lookup").

ghost use Rattle.std.specs.Prelude.{◌≡◌, ℕ, ◌+◌, ◌^◌, ◌<◌, List, IsTrue, option_map, option_and_then};
ghost use Rattle.tor_spec.specs.RelayCell.{fits_length, relay_body, resolve_command, resolved_command};
ghost use Rattle.tor_spec.specs.Resolve.{resolve_host};
ghost use Rattle.circuit_model.specs.Rules.{resolved_address};
ghost use Rattle.circuit_model.specs.Log.{Log, Message as ModelMessage};
ghost use Rattle.circuit_model.specs.Streams.{resolve_effects, resolved_value};
ghost use Rattle.circuit_model.specs.Words.{effects, log};
ghost use Rattle.circ_relay.specs.BroughtMessages.{IsBrought, after_cell};
ghost use Rattle.circ_relay.specs.CircuitOfLog.{HasParts};
ghost use Rattle.circ_relay.specs.Values.{effects_of, rules_of, address_of};

use crate::circuit::{CellPayload, Circuit};
use crate::effects::Effects;
use crate::forward::TIME_TO_LIVE;
use crate::message::Message;
use crate::rules::Rules;
use relay_cell::{read_resolve, resolved_body, resolved_type};
use tr_io::names::Dest;

impl Circuit {
    pub(crate) fn resolve(&mut self, rules: &Rules, message: &Message<'_>) -> Effects
        requires { self.old.packager.padding.count < 2 ^ 63 }
        ensures effects { (log : Log) (command : ℕ) (body : List ℕ) (m : ModelMessage) →
            IsBrought message.now log command body m → HasParts self.old log →
            effects_of result ≡ resolve_effects (rules_of rules.now) log m }
        ensures parts { (log : Log) (command : ℕ) (body : List ℕ) (m : ModelMessage) → IsBrought message.now log command body m →
            HasParts self.old log → m.command ≡ resolve_command →
            HasParts self.new (after_cell (rules_of rules.now) log command body) }
        ensures packaged { self.new.packager.padding.count ≡ self.old.packager.padding.count + 1 }
        ensures rest { self.new ≡ record self.old { packager = self.new.packager } }
        ensures orderless { result.edge ≡ None }
    {
        let to = resolved(rules, message.payload);
        self.packaging(&answer_body(message.stream, to))
    }
}

// The address of the host that a RESOLVE asks for.
fn resolved(rules: &Rules, payload: &[u8]) -> Option<Dest>
    ensures { option_map address_of result ≡ option_and_then (resolved_address (rules_of rules.now)) (resolve_host payload.now) }
{
    rules.resolved(read_resolve(payload)?)
}

// The RESOLVED with this address, or with a lasting error.
#[tactic(auto, using(tor_spec::proofs::Fitting::body_fits, tor_spec::proofs::Fitting::answer_fits))]
fn answer_body(stream: u16, to: Option<Dest>) -> CellPayload
    ensures body { result ≡ relay_body resolved_command stream (resolved_value (option_map address_of to)) }
    ensures fits { IsTrue (fits_length result) }
{
    match to {
        Some(to) => resolved_body(stream, resolved_type::IPV4, &to.ip, TIME_TO_LIVE),
        None => resolved_body(stream, resolved_type::LASTING_ERROR, &[], TIME_TO_LIVE),
    }
}
