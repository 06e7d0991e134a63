//! Relay bodies that this relay packages towards the client.

ghost use Rattle.std.specs.Prelude.{◌≡◌, IfOk, IsTrue, Some};
ghost use Rattle.tor_spec.specs.RelayCell.{fits_length};
ghost use Rattle.circuit_model.specs.Log.{no_effects};
ghost use Rattle.circuit_model.specs.Packaged.{packaged_by, own_bodies, digested, padded_by, finished};
ghost use Rattle.plain_circuit.specs.Values.{log_of};

use crate::log::Entry;
use crate::opened::{born_keys, born_pad, digest_of, keystream_for};
use circuit_model::{Effects, Event};
use relay_cell::{put_digest, put_padding};
use std::alloc::{AllocError, Global};

/// The body that an event has packaged: what goes back, unless it is the next hop's.
fn packaged_by(event: &Event, back: &Option<[u8; 509]>) -> Option<[u8; 509]>
    ensures { result ≡ packaged_by event.now back.now }
{
    match event {
        Event::Backward(_) => None,
        _ => *back,
    }
}

/// All bodies that this relay packaged, oldest first.
pub fn own_bodies(alloc: Global, log: &[Entry<'_>]) -> Result<Vec<[u8; 509]>, AllocError>
    ensures { IfOk result (λ bodies. bodies.items ≡ own_bodies (log_of log.now)) }
{
    let mut bodies = Vec::new(alloc);
    for entry in log {
        if let Some(body) = packaged_by(entry.event, &entry.effects.back) {
            bodies.push(body)?;
        }
    }
    Ok(bodies)
}

/// The body with its Digest: the first four bytes of the running digest of all packaged bodies and
/// this one.
#[tactic(auto, unfolding(circuit_model::specs::Packaged::digested))]
fn digested(alloc: Global, log: &[Entry<'_>], body: &[u8; 509]) -> Result<[u8; 509], AllocError>
    ensures { IfOk result (λ digested_body. digested_body ≡ digested (log_of log.now) body.now) }
{
    let mut bodies = own_bodies(alloc, log)?;
    bodies.push(*body)?;
    let [a, b, c, d, ..] = digest_of(&born_keys(log).db, &bodies);
    let mut digested_body = *body;
    put_digest(&mut digested_body, [a, b, c, d]);
    Ok(digested_body)
}

/// Body number `n` with its padding: by a key its keystream, else zero.
fn padded_by(pad: &Option<[u8; 16]>, n: usize, body: &[u8; 509]) -> [u8; 509]
    requires { IsTrue (fits_length body.now) }
    ensures { result ≡ padded_by pad.now n body.now }
{
    let mut padded_body = *body;
    if let Some(key) = pad {
        put_padding(&mut padded_body, &keystream_for(key, n));
    }
    padded_body
}

/// The next body that this relay packages, with its padding and its Digest.
fn finished(alloc: Global, log: &[Entry<'_>], body: &[u8; 509]) -> Result<[u8; 509], AllocError>
    requires { IsTrue (fits_length body.now) }
    ensures { IfOk result (λ finished_body. finished_body ≡ finished (log_of log.now) body.now) }
{
    let number = own_bodies(alloc, log)?.len();
    digested(alloc, log, &padded_by(&born_pad(log), number, body))
}

/// Packages this body.
pub fn packaging(alloc: Global, log: &[Entry<'_>], body: &[u8; 509]) -> Result<Effects, AllocError>
    requires { IsTrue (fits_length body.now) }
    ensures { IfOk result (λ effects. effects ≡ record no_effects { back = Some (finished (log_of log.now) body.now) }) }
{
    let body = finished(alloc, log, body)?;
    Ok(Effects {
        back: Some(body),
        ..Effects::none()
    })
}
