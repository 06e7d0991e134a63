//! Flow control: counts over the whole log, and how far they may go.

ghost use Rattle.std.specs.Prelude.{◌≡◌, ◌<◌, ◌^◌, nat_le};
ghost use Rattle.circuit_model.specs.Windows.{has_command, has_stream, has_place, is_accepted, packs_data, is_data_of, carries, drains, circuit_packaged, good_sendmes, circuit_grant, stream_packaged, stream_sendmes, stream_grant, accepted_data, carried_count, drained_count, accept_grant};
ghost use Rattle.plain_circuit.specs.Values.{rules_of, log_of, entry_of};

use crate::log::Entry;
use crate::rules::Rules;
use circuit_model::{Event, Message, Order};
use relay_cell::command;

/// The DATA by which a SENDME raises a circuit's window, and a stream's.
pub const CIRCUIT_STEP: u128 = 100;

pub const STREAM_STEP: u128 = 50;

/// The DATA that a stream's window begins with.
pub const STREAM_START: u128 = 500;

fn has_command(command: u8, message: &Option<Message>) -> bool
    ensures { result ≡ has_command command message.now }
{
    matches!(message, Some(message) if message.command == command)
}

fn has_stream(stream: u16, message: &Option<Message>) -> bool
    ensures { result ≡ has_stream stream message.now }
{
    matches!(message, Some(message) if message.stream == stream)
}

fn has_place(serial: usize, message: &Option<Message>) -> bool
    ensures { result ≡ has_place serial message.now }
{
    match message {
        Some(message) => match message.place {
            Some(place) => place == serial,
            None => false,
        },
        None => false,
    }
}

/// Whether an entry is a message of this command that did not close the circuit.
fn is_accepted(command: u8, entry: &Entry<'_>) -> bool
    ensures { result ≡ is_accepted command (entry_of entry.now) }
{
    has_command(command, &entry.message) && entry.effects.close.is_none()
}

/// Whether an entry packaged a DATA.
#[tactic(auto, unfolding(tor_spec::specs::RelayCell::relay_head))]
fn packs_data(entry: &Entry<'_>) -> bool
    ensures { result ≡ packs_data (entry_of entry.now) }
{
    match (entry.event, &entry.effects.back) {
        (Event::Backward(_), _) => false,
        (_, Some(body)) => body[0] == command::DATA,
        (_, None) => false,
    }
}

fn is_data_of(serial: usize, event: &Event) -> bool
    ensures { result ≡ is_data_of serial event.now }
{
    matches!(event, Event::Data(n, _) if *n == serial)
}

fn carries(serial: usize, order: &Option<Order>) -> bool
    ensures { result ≡ carries serial order.now }
{
    matches!(order, Some(Order::Carry(key, _)) if key.serial == serial)
}

fn drains(serial: usize, event: &Event) -> bool
    ensures { result ≡ drains serial event.now }
{
    matches!(event, Event::Drained(n) if *n == serial)
}

/// How many DATA the circuit packaged.
pub fn packed(log: &[Entry<'_>]) -> usize
    ensures { result ≡ circuit_packaged (log_of log.now) }
{
    let mut count = 0;
    for entry in log {
        if packs_data(entry) {
            count += 1;
        }
    }
    count
}

/// How many circuit SENDMEs were right.
pub fn good_sendmes(log: &[Entry<'_>]) -> usize
    ensures { result ≡ good_sendmes (log_of log.now) }
{
    let mut count = 0;
    for entry in log {
        if is_accepted(command::SENDME, entry) && has_stream(0, &entry.message) {
            count += 1;
        }
    }
    count
}

/// How many DATA the circuit may package.
pub fn circuit_grant(rules: &Rules, log: &[Entry<'_>]) -> u128
    ensures grant { result ≡ circuit_grant (rules_of rules.now) (log_of log.now) }
    ensures bound { result < 2 ^ 100 }
{
    u128::from(rules.window) + CIRCUIT_STEP * good_sendmes(log) as u128
}

/// Whether the circuit's window is used up, so that none of its streams may package DATA.
pub fn is_circuit_shut(rules: &Rules, log: &[Entry<'_>]) -> bool
    ensures { result ≡ nat_le (circuit_grant (rules_of rules.now) (log_of log.now)) (circuit_packaged (log_of log.now)) }
{
    circuit_grant(rules, log) <= packed(log) as u128
}

/// How many DATA a place packaged.
pub fn packed_for(log: &[Entry<'_>], serial: usize) -> usize
    ensures { result ≡ stream_packaged (log_of log.now) serial }
{
    let mut count = 0;
    for entry in log {
        if is_data_of(serial, entry.event) {
            count += 1;
        }
    }
    count
}

/// How many SENDMEs a place accepted.
fn stream_sendmes(log: &[Entry<'_>], serial: usize) -> usize
    ensures { result ≡ stream_sendmes (log_of log.now) serial }
{
    let mut count = 0;
    for entry in log {
        if is_accepted(command::SENDME, entry) && has_place(serial, &entry.message) {
            count += 1;
        }
    }
    count
}

/// How many DATA a place may package.
pub fn grant_for(log: &[Entry<'_>], serial: usize) -> u128
    ensures grant { result ≡ stream_grant (log_of log.now) serial }
    ensures bound { result < 2 ^ 100 }
{
    STREAM_START + STREAM_STEP * stream_sendmes(log, serial) as u128
}

/// Whether a place's window is used up.
pub fn is_stream_shut(log: &[Entry<'_>], serial: usize) -> bool
    ensures { result ≡ nat_le (stream_grant (log_of log.now) serial) (stream_packaged (log_of log.now) serial) }
{
    grant_for(log, serial) <= packed_for(log, serial) as u128
}

/// How many DATA the circuit accepted.
pub fn accepted_data(log: &[Entry<'_>]) -> usize
    ensures { result ≡ accepted_data (log_of log.now) }
{
    let mut count = 0;
    for entry in log {
        if is_accepted(command::DATA, entry) {
            count += 1;
        }
    }
    count
}

/// How many DATA a place accepted.
pub fn carried_count(log: &[Entry<'_>], serial: usize) -> usize
    ensures { result ≡ carried_count (log_of log.now) serial }
{
    let mut count = 0;
    for entry in log {
        if carries(serial, &entry.effects.edge) {
            count += 1;
        }
    }
    count
}

/// How many of them were drained.
pub fn drained_count(log: &[Entry<'_>], serial: usize) -> usize
    ensures { result ≡ drained_count (log_of log.now) serial }
{
    let mut count = 0;
    for entry in log {
        if drains(serial, entry.event) {
            count += 1;
        }
    }
    count
}

/// How many DATA a place may accept.
pub fn accept_grant(log: &[Entry<'_>], serial: usize) -> u128
    ensures { result ≡ accept_grant (log_of log.now) serial }
{
    STREAM_START + STREAM_STEP * (drained_count(log, serial) as u128 / STREAM_STEP)
}
