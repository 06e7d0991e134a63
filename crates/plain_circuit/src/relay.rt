//! What the one-thread relay does with an event after a history.

ghost use Rattle.std.specs.Prelude.{◌≡◌, IfOk};
ghost use Rattle.circuit_model.specs.Effects.{message_effects, passed_on, forward_effects, open_effects};
ghost use Rattle.circuit_model.specs.Words.{entry_after, in_order, log, effects};
ghost use Rattle.plain_circuit.specs.Values.{log_of, rules_of, entry_of};

use crate::edge::{connected_effects, drained_effects, edge_data_effects, ended_effects};
use crate::extending::{answered_effects, extend_effects, linked_effects, truncate_effects};
use crate::log::Entry;
use crate::next_hop::next_hop;
use crate::places::place_at;
use crate::received::{is_closed, message_of, read_cell};
use crate::rules::Rules;
use crate::streams::{
    begin_effects, data_effects, end_effects, ending, resolve_effects, sendme_effects,
};
use cell_codec::destroy_reason;
use circuit_model::{CircuitCell, Effects, Event, Message, NextHop, Received};
use relay_cell::{command, stream_end};
use std::alloc::{AllocError, Global};

/// A relay message for this relay, by its relay command.
#[tactic(auto, unfolding(circuit_model::specs::Effects::message_effects))]
fn message_effects(
    alloc: Global,
    rules: &Rules,
    log: &[Entry<'_>],
    message: &Message,
) -> Result<Effects, AllocError>
    ensures { IfOk result (λ effects. effects ≡ message_effects (rules_of rules.now) (log_of log.now) message.now) }
{
    match message.command {
        command::BEGIN => begin_effects(alloc, rules, log, message),
        command::DATA => data_effects(alloc, log, message),
        command::END => Ok(end_effects(message)),
        command::SENDME => sendme_effects(alloc, rules, log, message),
        command::TRUNCATE => truncate_effects(alloc, log),
        command::RESOLVE => resolve_effects(alloc, rules, log, message),
        command::BEGIN_DIR => ending(alloc, log, message.stream, stream_end::NOT_DIRECTORY),
        command::EXTEND2 => Ok(extend_effects(log, message)),
        _ => Ok(Effects::none()),
    }
}

/// A body for another hop goes on with the command of its cell, if there is a next hop.
fn passed_on(hop: NextHop, cell: CircuitCell) -> Effects
    ensures { result ≡ passed_on hop cell }
{
    match hop {
        NextHop::There => Effects {
            forth: Some(cell),
            ..Effects::none()
        },
        _ => Effects::closing(destroy_reason::PROTOCOL),
    }
}

/// A relay cell from the client's side.
fn forward_effects(
    alloc: Global,
    rules: &Rules,
    log: &[Entry<'_>],
    command: u8,
    cell: &Received,
) -> Result<Effects, AllocError>
    ensures { IfOk result (λ effects. effects ≡ forward_effects (rules_of rules.now) (log_of log.now) command cell.now) }
{
    match cell {
        Received::TooManyEarly => Ok(Effects::closing(destroy_reason::PROTOCOL)),
        Received::Unrecognised(plain) => Ok(passed_on(
            next_hop(log),
            CircuitCell {
                command,
                body: *plain,
            },
        )),
        Received::TooLong => Ok(Effects::closing(destroy_reason::PROTOCOL)),
        Received::ForUs(message) => message_effects(alloc, rules, log, message),
    }
}

/// An event in a circuit that has not closed.
#[tactic(auto, unfolding(circuit_model::specs::Effects::open_effects))]
fn open_effects(
    alloc: Global,
    rules: &Rules,
    log: &[Entry<'_>],
    event: &Event,
) -> Result<Effects, AllocError>
    ensures { IfOk result (λ effects. effects ≡ open_effects (rules_of rules.now) (log_of log.now) event.now) }
{
    match event {
        Event::Born(_, _, _) => Ok(Effects::none()),
        Event::Forward(command, body) => {
            let cell = read_cell(alloc, log, *command, body)?;
            forward_effects(alloc, rules, log, *command, &cell)
        }
        Event::Backward(body) => Ok(Effects {
            back: Some(*body),
            ..Effects::none()
        }),
        Event::Connected(serial) => {
            let place = place_at(alloc, log, *serial)?;
            connected_effects(alloc, log, place)
        }
        Event::Data(serial, bytes) => {
            let place = place_at(alloc, log, *serial)?;
            edge_data_effects(alloc, log, bytes, place)
        }
        Event::Ended(serial, reason) => {
            let place = place_at(alloc, log, *serial)?;
            ended_effects(alloc, log, *reason, place)
        }
        Event::Drained(serial) => {
            let place = place_at(alloc, log, *serial)?;
            drained_effects(alloc, log, place)
        }
        Event::Freed(_) => Ok(Effects::none()),
        Event::Linked => Ok(linked_effects(log)),
        Event::Answered(payload) => answered_effects(alloc, log, payload),
        Event::Failed => Ok(Effects::closing(destroy_reason::CONNECT_FAILED)),
    }
}

/// The entry of an event behind a log. After it closed, a circuit reads and gives nothing.
#[tactic(auto, unfolding(circuit_model::specs::Effects::open_effects))]
fn entry_after<'a>(
    alloc: Global,
    rules: &Rules,
    log: &[Entry<'_>],
    event: &'a Event,
) -> Result<Entry<'a>, AllocError>
    ensures { IfOk result (λ entry. entry_of entry ≡ entry_after (rules_of rules.now) (log_of log.now) event.now) }
{
    if is_closed(log) {
        return Ok(Entry {
            event,
            message: None,
            effects: Effects::none(),
        });
    }
    let Event::Forward(command, body) = event else {
        let effects = open_effects(alloc, rules, log, event)?;
        return Ok(Entry {
            event,
            message: None,
            effects,
        });
    };
    let cell = read_cell(alloc, log, *command, body)?;
    let effects = forward_effects(alloc, rules, log, *command, &cell)?;
    Ok(Entry {
        event,
        message: message_of(cell),
        effects,
    })
}

/// The log of a history, whose oldest event stands first.
#[tactic(auto, using(crate::proofs::Logs::log_of_pushed, crate::proofs::Logs::in_order_more))]
pub fn log_of<'a>(
    alloc: Global,
    rules: &Rules,
    history: &'a [Event],
) -> Result<Vec<Entry<'a>>, AllocError>
    ensures { IfOk result (λ entries. log_of entries.items ≡ log (rules_of rules.now) (in_order history.now)) }
{
    let mut log = Vec::new(alloc);
    for event in history {
        let entry = entry_after(alloc, rules, &log, event)?;
        log.push(entry)?;
    }
    Ok(log)
}

/// What the one-thread relay does with an event after a history, whose oldest event stands first.
/// It can only want memory.
pub fn effects(
    alloc: Global,
    rules: &Rules,
    history: &[Event],
    event: &Event,
) -> Result<Effects, AllocError>
    ensures { IfOk result (λ answer. answer ≡ effects (rules_of rules.now) (in_order history.now) event.now) }
{
    let log = log_of(alloc, rules, history)?;
    let entry = entry_after(alloc, rules, &log, event)?;
    Ok(entry.effects)
}
