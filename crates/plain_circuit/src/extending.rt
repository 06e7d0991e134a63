//! Messages and events that concern the next hop.

ghost use Rattle.std.specs.Prelude.{◌≡◌, ◌≤◌, IfOk, IfSome, length, option_map};
ghost use Rattle.tor_spec.specs.Extend.{extend_request};
ghost use Rattle.relay_cell.specs.Extend.{extend_of};
ghost use Rattle.circuit_model.specs.NextHop.{next_hop, is_absent};
ghost use Rattle.circuit_model.specs.Extending.{address_asked, extend_effects, truncate_effects, accepted_request, create2, linked_effects, answered_effects};
ghost use Rattle.plain_circuit.specs.Values.{log_of, entry_of};

use crate::log::Entry;
use crate::next_hop::next_hop;
use crate::packaged::packaging;
use cell_codec::{command, destroy_reason};
use circuit_model::{CircuitCell, Effects, Message, NextHop};
use relay_cell::{
    Extend2, create2_payload, extended2_body, read_extend2, read_handshake_reply, truncated_body,
};
use std::alloc::{AllocError, Global};
use tor_spec::Address;

fn is_absent(log: &[Entry<'_>]) -> bool
    ensures { result ≡ is_absent (next_hop (log_of log.now)) }
{
    matches!(next_hop(log), NextHop::Absent)
}

/// The first IPv4 address that an EXTEND2 names.
fn address_asked(message: &Message) -> Option<Address>
    ensures { result ≡ address_asked message.now }
{
    let extend = read_extend2(message.payload.as_slice())?;
    let (ip, port) = extend.to?;
    Some(Address { ip, port })
}

/// EXTENDED2 has room for so many bytes of HDATA behind HLEN.
const MOST_HDATA: usize = 496;

/// EXTEND2: in RELAY_EARLY, with no next hop before it, and with an IPv4 address.
pub fn extend_effects(log: &[Entry<'_>], message: &Message) -> Effects
    ensures { result ≡ extend_effects (log_of log.now) message.now }
{
    if !message.early || !is_absent(log) {
        return Effects::closing(destroy_reason::PROTOCOL);
    }
    match address_asked(message) {
        Some(to) => Effects {
            dial: Some(to),
            ..Effects::none()
        },
        None => Effects::closing(destroy_reason::PROTOCOL),
    }
}

/// TRUNCATE.
#[tactic(auto, using(tor_spec::proofs::Bodies::relay_body_fits))]
pub fn truncate_effects(alloc: Global, log: &[Entry<'_>]) -> Result<Effects, AllocError>
    ensures { IfOk result (λ effects. effects ≡ truncate_effects (log_of log.now)) }
{
    let answer = packaging(alloc, log, &truncated_body(destroy_reason::REQUESTED))?;
    Ok(Effects {
        cut: !is_absent(log),
        ..answer
    })
}

/// What a message asks of a next hop, if it is an EXTEND2.
fn request_in(message: &Message) -> Option<Extend2<'_>>
    ensures request { option_map extend_of result ≡ extend_request message.now.payload }
    ensures short { IfSome result (λ request. length request.hdata.now ≤ 498) }
{
    let request = read_extend2(message.payload.as_slice())?;
    Some(request)
}

/// What an entry asked of the next hop, if it was an accepted EXTEND2.
fn accepted_request<'a>(entry: &'a Entry<'_>) -> Option<Extend2<'a>>
    ensures request { option_map extend_of result ≡ accepted_request (entry_of entry.now) }
    ensures short { IfSome result (λ request. length request.hdata.now ≤ 498) }
{
    if entry.effects.dial.is_none() {
        return None;
    }
    let message = entry.message.as_ref()?;
    request_in(message)
}

/// CREATE2: HTYPE, HLEN and HDATA as the EXTEND2 had them.
#[tactic(auto, unfolding(circuit_model::specs::Extending::create2))]
fn create2(request: &Extend2<'_>) -> CircuitCell
    requires { length request.now.hdata.now ≤ 498 }
    ensures { result ≡ create2 (extend_of request.now) }
{
    CircuitCell {
        command: command::CREATE2,
        body: create2_payload(request.htype, request.hdata),
    }
}

/// A linked next hop is sent what the last accepted EXTEND2 asked.
pub fn linked_effects(log: &[Entry<'_>]) -> Effects
    ensures { result ≡ linked_effects (log_of log.now) }
{
    let mut last_request = None;
    for entry in log {
        if let Some(request) = accepted_request(entry) {
            last_request = Some(request);
        }
    }
    match last_request {
        Some(request) => Effects {
            forth: Some(create2(&request)),
            ..Effects::none()
        },
        None => Effects::none(),
    }
}

/// CREATED2 from the next hop.
#[tactic(auto, using(tor_spec::proofs::Fitting::body_fits, tor_spec::proofs::Fitting::reply_fits))]
pub fn answered_effects(
    alloc: Global,
    log: &[Entry<'_>],
    payload: &[u8; 509],
) -> Result<Effects, AllocError>
    ensures { IfOk result (λ effects. effects ≡ answered_effects (log_of log.now) payload.now) }
{
    let Some(handshake) = read_handshake_reply(payload) else {
        return Ok(Effects::closing(destroy_reason::PROTOCOL));
    };
    if handshake.len() <= MOST_HDATA {
        packaging(alloc, log, &extended2_body(handshake))
    } else {
        Ok(Effects::closing(destroy_reason::PROTOCOL))
    }
}
