//! What a relay cell from the client's side is to this relay.

ghost use Rattle.std.specs.Prelude.{◌≡◌, IfOk, IsTrue};
ghost use Rattle.tor_spec.specs.RelayCell.{relay_head, fits_length};
ghost use Rattle.relay_cell.specs.Head.{head_of};
ghost use Rattle.circuit_model.specs.Log.{is_closed};
ghost use Rattle.circuit_model.specs.Received.{is_early, early_count, received, message_in_body, message_of};
ghost use Rattle.circuit_model.specs.Opened.{digest_with};
ghost use Rattle.plain_circuit.specs.Values.{log_of};

use crate::log::Entry;
use crate::opened::{born_keys, digest_with, is_recognised_by, plain_body, recognised_bodies};
use crate::places::live_place;
use cell_codec::command;
use circuit_model::{Event, Message, Payload, Received};
use relay_cell::{RelayHead, payload_of, read_head};
use std::alloc::{AllocError, Global};

/// How many RELAY_EARLY cells a circuit takes.
const MOST_EARLY: usize = 8;

fn is_early(event: &Event) -> bool
    ensures { result ≡ is_early event.now }
{
    matches!(event, Event::Forward(number, _) if *number == command::RELAY_EARLY)
}

/// How many RELAY_EARLY cells came.
pub fn early_count(log: &[Entry<'_>]) -> usize
    ensures { result ≡ early_count (log_of log.now) }
{
    let mut count = 0;
    for entry in log {
        if is_early(entry.event) {
            count += 1;
        }
    }
    count
}

/// Whether the circuit has closed.
pub fn is_closed(log: &[Entry<'_>]) -> bool
    ensures { result ≡ is_closed (log_of log.now) }
{
    let mut has_close = false;
    for entry in log {
        if entry.effects.close.is_some() {
            has_close = true;
        }
    }
    has_close
}

/// The message in a recognised body with this running digest.
#[tactic(auto, using(crate::proofs::Payloads::payload_short))]
fn message_in_body(
    alloc: Global,
    log: &[Entry<'_>],
    command: u8,
    plain: &[u8; 509],
    head: &RelayHead,
    digest: [u8; 20],
) -> Result<Message, AllocError>
    requires fits { IsTrue (fits_length plain.now) }
    requires head { head_of head.now ≡ relay_head plain.now }
    requires digest { digest ≡ digest_with (log_of log.now) plain.now }
    ensures { IfOk result (λ message. message ≡ message_in_body (log_of log.now) command plain.now) }
{
    let payload = Payload::of(alloc, payload_of(plain))?;
    let place = live_place(alloc, log, head.stream)?;
    Ok(Message {
        command: head.command,
        stream: head.stream,
        payload,
        digest,
        early: command == command::RELAY_EARLY,
        place,
    })
}

/// What a cell with this command and this body, as it came, is. The first that fits holds.
#[tactic(auto, unfolding(circuit_model::specs::Received::received, crypto_spec::specs::HopLayer::is_recognised))]
pub fn read_cell(
    alloc: Global,
    log: &[Entry<'_>],
    command: u8,
    body: &[u8; 509],
) -> Result<Received, AllocError>
    ensures { IfOk result (λ cell. cell ≡ received (log_of log.now) command body.now) }
{
    let plain = plain_body(log, body);
    if command == command::RELAY_EARLY && early_count(log) >= MOST_EARLY {
        return Ok(Received::TooManyEarly);
    }
    let earlier_bodies = recognised_bodies(alloc, log)?;
    let digest = digest_with(alloc, &born_keys(log).df, &earlier_bodies, &plain)?;
    if !is_recognised_by(&plain, &digest) {
        return Ok(Received::Unrecognised(plain));
    }
    match read_head(&plain) {
        Some(head) => {
            let message = message_in_body(alloc, log, command, &plain, &head, digest)?;
            Ok(Received::ForUs(message))
        }
        None => Ok(Received::TooLong),
    }
}

/// The message, if the cell is one for this relay.
pub fn message_of(cell: Received) -> Option<Message>
    ensures { result ≡ message_of cell }
{
    match cell {
        Received::ForUs(message) => Some(message),
        _ => None,
    }
}
