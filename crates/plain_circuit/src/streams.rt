//! Messages that concern streams.

ghost use Rattle.std.specs.Prelude.{◌≡◌, IfOk, IsTrue, option_and_then};
ghost use Rattle.tor_spec.specs.RelayCell.{fits_length, relay_body, resolved_command, sendme_command};
ghost use Rattle.tor_spec.specs.Resolve.{resolve_host};
ghost use Rattle.tor_spec.specs.Sendme.{sendme_payload};
ghost use Rattle.circuit_model.specs.Rules.{resolved_address};
ghost use Rattle.circuit_model.specs.Streams.{ending, begin_effects, acknowledging, data_effects, end_effects, stream_sendme_at, sendme_effects, resolved_value, resolve_effects};
ghost use Rattle.plain_circuit.specs.Values.{log_of, rules_of};

use crate::log::Entry;
use crate::packaged::packaging;
use crate::places::{place_count, taken_places};
use crate::rules::{Rules, allowed_address, resolved_address};
use crate::sendme::is_right_sendme;
use crate::windows::{
    CIRCUIT_STEP, STREAM_START, STREAM_STEP, accept_grant, accepted_data, carried_count, grant_for,
    packed_for,
};
use cell_codec::destroy_reason;
use circuit_model::{Effects, Message, Order, Payload, StreamKey};
use relay_cell::{
    circuit_sendme_body, end_body, end_reason, read_begin, read_resolve, resolved_body,
    resolved_type, stream_end,
};
use std::alloc::{AllocError, Global};
use tor_spec::Address;

/// The places that a circuit has room for.
const PLACE_LIMIT: usize = 32;

/// For how many seconds answers about names may be kept.
pub const TIME_TO_LIVE: u32 = 60;

/// An END with this reason.
#[tactic(auto, using(tor_spec::proofs::Bodies::relay_body_fits))]
pub fn ending(
    alloc: Global,
    log: &[Entry<'_>],
    stream: u16,
    reason: u8,
) -> Result<Effects, AllocError>
    ensures { IfOk result (λ effects. effects ≡ ending (log_of log.now) stream reason) }
{
    packaging(alloc, log, &end_body(stream, reason))
}

/// BEGIN.
pub fn begin_effects(
    alloc: Global,
    rules: &Rules,
    log: &[Entry<'_>],
    message: &Message,
) -> Result<Effects, AllocError>
    ensures { IfOk result (λ effects. effects ≡ begin_effects (rules_of rules.now) (log_of log.now) message.now) }
{
    if message.stream == 0 || message.place.is_some() {
        return Ok(Effects::closing(destroy_reason::PROTOCOL));
    }
    let Some(target) = read_begin(message.payload.as_slice()) else {
        return ending(alloc, log, message.stream, stream_end::TOR_PROTOCOL);
    };
    if taken_places(alloc, log)? >= PLACE_LIMIT {
        return ending(alloc, log, message.stream, stream_end::RESOURCE_LIMIT);
    }
    let Some(to) = allowed_address(rules, target.host, target.port) else {
        return ending(alloc, log, message.stream, stream_end::EXIT_POLICY);
    };
    let serial = place_count(alloc, log)?;
    let key = StreamKey {
        stream: message.stream,
        serial,
    };
    Ok(Effects::ordering(Order::Reach(key, to)))
}

/// The SENDME that acknowledges the DATA with this digest.
#[tactic(auto, using(tor_spec::proofs::Fitting::body_fits, tor_spec::proofs::Fitting::proof_fits))]
fn acknowledgement(digest: &[u8; 20]) -> [u8; 509]
    ensures body { result ≡ relay_body sendme_command 0 (sendme_payload digest.now) }
    ensures fits { IsTrue (fits_length result) }
{
    circuit_sendme_body(digest)
}

/// Each 100th DATA that the circuit accepts is acknowledged with the digest of its body.
fn acknowledging(alloc: Global, log: &[Entry<'_>], message: &Message) -> Result<Effects, AllocError>
    ensures { IfOk result (λ effects. effects ≡ acknowledging (log_of log.now) message.now) }
{
    if (accepted_data(log) as u128 + 1) % CIRCUIT_STEP == 0 {
        packaging(alloc, log, &acknowledgement(&message.digest))
    } else {
        Ok(Effects::none())
    }
}

/// DATA.
pub fn data_effects(
    alloc: Global,
    log: &[Entry<'_>],
    message: &Message,
) -> Result<Effects, AllocError>
    ensures { IfOk result (λ effects. effects ≡ data_effects (log_of log.now) message.now) }
{
    let Some(serial) = message.place else {
        return acknowledging(alloc, log, message);
    };
    if accept_grant(log, serial) <= carried_count(log, serial) as u128 {
        return Ok(Effects::closing(destroy_reason::PROTOCOL));
    }
    let bytes = Payload::of(alloc, message.payload.as_slice())?;
    let key = StreamKey {
        stream: message.stream,
        serial,
    };
    let acknowledgement_effects = acknowledging(alloc, log, message)?;
    Ok(Effects {
        edge: Some(Order::Carry(key, bytes)),
        ..acknowledgement_effects
    })
}

/// END.
pub fn end_effects(message: &Message) -> Effects
    ensures { result ≡ end_effects message.now }
{
    match message.place {
        Some(serial) => {
            let key = StreamKey {
                stream: message.stream,
                serial,
            };
            Effects::ordering(Order::Close(key, end_reason(message.payload.as_slice())))
        }
        None => Effects::none(),
    }
}

/// A SENDME of a stream. Its window stays at or below 500.
fn stream_sendme_effects(log: &[Entry<'_>], place: Option<usize>) -> Effects
    ensures { result ≡ stream_sendme_at (log_of log.now) place }
{
    match place {
        Some(serial)
            if STREAM_START + (packed_for(log, serial) as u128)
                < grant_for(log, serial) + STREAM_STEP => Effects::closing(
            destroy_reason::PROTOCOL,
        ),
        _ => Effects::none(),
    }
}

/// SENDME.
pub fn sendme_effects(
    alloc: Global,
    rules: &Rules,
    log: &[Entry<'_>],
    message: &Message,
) -> Result<Effects, AllocError>
    ensures { IfOk result (λ effects. effects ≡ sendme_effects (rules_of rules.now) (log_of log.now) message.now) }
{
    if message.stream != 0 {
        return Ok(stream_sendme_effects(log, message.place));
    }
    if is_right_sendme(alloc, rules, log, message.payload.as_slice())? {
        Ok(Effects::none())
    } else {
        Ok(Effects::closing(destroy_reason::PROTOCOL))
    }
}

/// The address of the name that a RESOLVE asks for.
fn looked_up(rules: &Rules, payload: &[u8]) -> Option<Address>
    ensures { result ≡ option_and_then (resolved_address (rules_of rules.now)) (resolve_host payload.now) }
{
    match read_resolve(payload) {
        Some(host) => resolved_address(rules, host),
        None => None,
    }
}

/// The RESOLVED with this address, or with a lasting error.
#[tactic(auto, using(tor_spec::proofs::Fitting::body_fits, tor_spec::proofs::Fitting::answer_fits))]
fn answer_body(stream: u16, to: Option<Address>) -> [u8; 509]
    ensures body { result ≡ relay_body resolved_command stream (resolved_value to) }
    ensures fits { IsTrue (fits_length result) }
{
    match to {
        Some(to) => resolved_body(stream, resolved_type::IPV4, &to.ip, TIME_TO_LIVE),
        None => resolved_body(stream, resolved_type::LASTING_ERROR, &[], TIME_TO_LIVE),
    }
}

/// RESOLVE.
pub fn resolve_effects(
    alloc: Global,
    rules: &Rules,
    log: &[Entry<'_>],
    message: &Message,
) -> Result<Effects, AllocError>
    ensures { IfOk result (λ effects. effects ≡ resolve_effects (rules_of rules.now) (log_of log.now) message.now) }
{
    let to = looked_up(rules, message.payload.as_slice());
    packaging(alloc, log, &answer_body(message.stream, to))
}
