//! What the edge reports of a place.

ghost use Rattle.std.specs.Prelude.{◌≡◌, IfOk};
ghost use Rattle.circuit_model.specs.Streams.{connected_effects, edge_data_effects, ended_effects, drained_effects};
ghost use Rattle.plain_circuit.specs.Values.{log_of};

use crate::log::Entry;
use crate::packaged::packaging;
use crate::streams::{TIME_TO_LIVE, ending};
use crate::windows::{STREAM_STEP, drained_count};
use circuit_model::{Effects, Order, Payload, Place};
use relay_cell::{connected_body, data_body, stream_sendme_body};
use std::alloc::{AllocError, Global};

/// The place's connection is made.
#[tactic(auto, using(tor_spec::proofs::Fitting::body_fits, tor_spec::proofs::Fitting::address_fits))]
pub fn connected_effects(
    alloc: Global,
    log: &[Entry<'_>],
    place: Option<Place>,
) -> Result<Effects, AllocError>
    ensures { IfOk result (λ effects. effects ≡ connected_effects (log_of log.now) place) }
{
    match place {
        Some(place) => packaging(
            alloc,
            log,
            &connected_body(place.key.stream, place.to.ip, TIME_TO_LIVE),
        ),
        None => Ok(Effects::none()),
    }
}

/// The place's connection gave bytes.
#[tactic(auto, using(tor_spec::proofs::Bodies::relay_body_fits))]
pub fn edge_data_effects(
    alloc: Global,
    log: &[Entry<'_>],
    bytes: &Payload,
    place: Option<Place>,
) -> Result<Effects, AllocError>
    ensures { IfOk result (λ effects. effects ≡ edge_data_effects (log_of log.now) bytes.now place) }
{
    match place {
        Some(place) => packaging(alloc, log, &data_body(place.key.stream, bytes.as_slice())),
        None => Ok(Effects::none()),
    }
}

/// The place's connection ended.
pub fn ended_effects(
    alloc: Global,
    log: &[Entry<'_>],
    reason: u8,
    place: Option<Place>,
) -> Result<Effects, AllocError>
    ensures { IfOk result (λ effects. effects ≡ ended_effects (log_of log.now) reason place) }
{
    let Some(place) = place else {
        return Ok(Effects::none());
    };
    let end_effects = ending(alloc, log, place.key.stream, reason)?;
    Ok(Effects {
        edge: Some(Order::Close(place.key, reason)),
        ..end_effects
    })
}

/// The place's connection has taken one more DATA.
#[tactic(auto, using(tor_spec::proofs::Bodies::relay_body_fits))]
pub fn drained_effects(
    alloc: Global,
    log: &[Entry<'_>],
    place: Option<Place>,
) -> Result<Effects, AllocError>
    ensures { IfOk result (λ effects. effects ≡ drained_effects (log_of log.now) place) }
{
    let Some(place) = place else {
        return Ok(Effects::none());
    };
    if (drained_count(log, place.key.serial) as u128 + 1) % STREAM_STEP == 0 {
        packaging(alloc, log, &stream_sendme_body(place.key.stream))
    } else {
        Ok(Effects::none())
    }
}
