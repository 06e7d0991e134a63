//! The places of a circuit: its streams at this relay.

ghost use Rattle.std.specs.Prelude.{◌≡◌, ◌≤◌, ◌==◌, ◌&&◌, IfOk, length, filter, find, option_map, slice_get};
ghost use Rattle.circuit_model.specs.Places.{place_of, connects, frees, closes_place, is_connected, is_ended, is_freed, phase, is_live, is_taken_phase, places, place_at, live_place, taken_places};
ghost use Rattle.plain_circuit.specs.Values.{log_of};

use crate::log::Entry;
use circuit_model::{Event, Order, Phase, Place};
use std::alloc::{AllocError, Global};

fn connects(serial: usize, event: &Event) -> bool
    ensures { result ≡ connects serial event.now }
{
    matches!(event, Event::Connected(n) if *n == serial)
}

fn frees(serial: usize, event: &Event) -> bool
    ensures { result ≡ frees serial event.now }
{
    matches!(event, Event::Freed(n) if *n == serial)
}

fn closes_place(serial: usize, order: &Option<Order>) -> bool
    ensures { result ≡ closes_place serial order.now }
{
    matches!(order, Some(Order::Close(key, _)) if key.serial == serial)
}

fn is_connected(log: &[Entry<'_>], serial: usize) -> bool
    ensures { result ≡ is_connected (log_of log.now) serial }
{
    let mut has_report = false;
    for entry in log {
        if connects(serial, entry.event) {
            has_report = true;
        }
    }
    has_report
}

fn is_ended(log: &[Entry<'_>], serial: usize) -> bool
    ensures { result ≡ is_ended (log_of log.now) serial }
{
    let mut has_close = false;
    for entry in log {
        if closes_place(serial, &entry.effects.edge) {
            has_close = true;
        }
    }
    has_close
}

fn is_freed(log: &[Entry<'_>], serial: usize) -> bool
    ensures { result ≡ is_freed (log_of log.now) serial }
{
    let mut has_freed = false;
    for entry in log {
        if frees(serial, entry.event) {
            has_freed = true;
        }
    }
    has_freed
}

/// The phase of a place that was made.
#[tactic(auto, unfolding(circuit_model::specs::Places::phase))]
pub fn phase_at(log: &[Entry<'_>], serial: usize) -> Phase
    ensures { result ≡ phase (log_of log.now) serial }
{
    if is_freed(log, serial) {
        Phase::Free
    } else if is_ended(log, serial) {
        Phase::Ending
    } else if is_connected(log, serial) {
        Phase::Joined
    } else {
        Phase::Reaching
    }
}

fn is_live(log: &[Entry<'_>], place: &Place) -> bool
    ensures { result ≡ is_live (log_of log.now) place.now }
{
    matches!(
        phase_at(log, place.key.serial),
        Phase::Reaching | Phase::Joined
    )
}

fn is_taken(log: &[Entry<'_>], place: &Place) -> bool
    ensures { result ≡ is_taken_phase (phase (log_of log.now) place.now.key.serial) }
{
    !matches!(phase_at(log, place.key.serial), Phase::Free)
}

/// A Reach order makes a place.
fn place_made(order: &Option<Order>) -> Option<Place>
    ensures { result ≡ place_of order.now }
{
    match order {
        Some(Order::Reach(key, to)) => Some(Place { key: *key, to: *to }),
        _ => None,
    }
}

/// All places, in the order of their BEGINs.
pub fn places(alloc: Global, log: &[Entry<'_>]) -> Result<Vec<Place>, AllocError>
    ensures { IfOk result (λ all. all.items ≡ places (log_of log.now)) }
{
    let mut places = Vec::new(alloc);
    for entry in log {
        if let Some(place) = place_made(&entry.effects.edge) {
            places.push(place)?;
        }
    }
    Ok(places)
}

/// The first of these places that is live with this StreamID.
fn live_among(log: &[Entry<'_>], places: &[Place], stream: u16) -> Option<usize>
    ensures { result ≡ option_map (λ place. place.key.serial)
        (find (λ place. (place.key.stream == stream) && is_live (log_of log.now) place) places.now) }
{
    let (place, rest) = places.split_first()?;
    if place.key.stream == stream && is_live(log, place) {
        Some(place.key.serial)
    } else {
        live_among(log, rest, stream)
    }
}

/// The serial of the place at which a StreamID is live.
#[tactic(auto, unfolding(circuit_model::specs::Places::live_place))]
pub fn live_place(
    alloc: Global,
    log: &[Entry<'_>],
    stream: u16,
) -> Result<Option<usize>, AllocError>
    ensures { IfOk result (λ serial. serial ≡ live_place (log_of log.now) stream) }
{
    let places = places(alloc, log)?;
    Ok(live_among(log, &places, stream))
}

/// How many of these places are taken.
fn taken_among(log: &[Entry<'_>], places: &[Place]) -> usize
    ensures taken { result ≡ length (filter (λ place. is_taken_phase (phase (log_of log.now) place.key.serial)) places.now) }
    ensures bound { result ≤ length places.now }
{
    let Some((place, rest)) = places.split_first() else {
        return 0;
    };
    let others = taken_among(log, rest);
    if is_taken(log, place) {
        others + 1
    } else {
        others
    }
}

/// How many places are taken.
#[tactic(auto, unfolding(circuit_model::specs::Places::taken_places))]
pub fn taken_places(alloc: Global, log: &[Entry<'_>]) -> Result<usize, AllocError>
    ensures { IfOk result (λ count. count ≡ taken_places (log_of log.now)) }
{
    let places = places(alloc, log)?;
    Ok(taken_among(log, &places))
}

/// How many places were made.
pub fn place_count(alloc: Global, log: &[Entry<'_>]) -> Result<usize, AllocError>
    ensures { IfOk result (λ count. count ≡ length (places (log_of log.now))) }
{
    let places = places(alloc, log)?;
    Ok(places.len())
}

/// The place with this number in the list.
fn place_among(places: &[Place], serial: usize) -> Option<Place>
    ensures { result ≡ slice_get places.now serial }
{
    places.get(serial).copied()
}

/// The place with this serial.
pub fn place_at(
    alloc: Global,
    log: &[Entry<'_>],
    serial: usize,
) -> Result<Option<Place>, AllocError>
    ensures { IfOk result (λ place. place ≡ place_at (log_of log.now) serial) }
{
    let places = places(alloc, log)?;
    Ok(place_among(&places, serial))
}
