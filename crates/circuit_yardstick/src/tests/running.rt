//! A history is run over both programs.

use crate::tests::cells::RELAY;
use crate::tests::comparing::are_same;
use crate::tests::coverage::Coverage;
use crate::tests::driver::Driver;
use crate::tests::faults::Fault;
use crate::tests::history::{ClientStream, History};
use crate::tests::rules::{fast_rules, plain_rules};
use circ_relay::Rules;
use circuit_model::{Event, Payload, Phase as PlainPhase};
use plain_circuit::log::Entry;
use plain_circuit::next_hop::next_hop;
use plain_circuit::places::phase_at;
use plain_circuit::relay::log_of;
use plain_circuit::rules::Rules as PlainRules;
use plain_circuit::windows::{is_circuit_shut, is_stream_shut, packed, packed_for};
use std::alloc::{AllocError, Global};
use std::process::Abort;
use stream_edge::Phase;
use tr_io::answers::ShutWhy;

/// A fault, and from which event on it is tried.
#[derive(Clone, Copy)]
pub struct PlannedFault {
    pub fault: Fault,
    pub first_try: usize,
}

/// Lets events happen until there are so many, with the opening.
pub fn play(
    rt: &impl Abort,
    alloc: Global,
    history: &mut History,
    event_count: usize,
    planned_fault: Option<PlannedFault>,
    coverage: &mut Coverage,
) -> Result<(), AllocError> {
    let rules = fast_rules(alloc, history.settings)?;
    for _try in 0..100_000u32 {
        if history.events.len() >= event_count {
            break;
        }
        go_on(rt, alloc, &rules, history, planned_fault, coverage)?;
    }
    assert_eq!(rt; history.events.len(), event_count);
    Ok(())
}

/// One try of one more event.
fn go_on(
    rt: &impl Abort,
    alloc: Global,
    rules: &Rules,
    history: &mut History,
    planned_fault: Option<PlannedFault>,
    coverage: &mut Coverage,
) -> Result<(), AllocError> {
    if history.circuit.is_none() {
        let event = event_of_closed(alloc, history)?;
        let _has_happened = history.happens(rt, alloc, rules, event)?;
        return Ok(());
    }
    if let Some(PlannedFault { fault, first_try }) = planned_fault {
        if fault_happens(rt, alloc, rules, history, fault, first_try)? {
            coverage.fault(fault);
            return Ok(());
        }
    }
    let kinds = history.theme.kinds;
    assert!(rt; !kinds.is_empty());
    let kind = history.random.one_of(kinds);
    if let Some(event) = history.make(rt, alloc, kind)? {
        if history.happens(rt, alloc, rules, event)? {
            coverage.kind(kind);
        }
    }
    Ok(())
}

/// Lets the fault happen, if it is time and it can. It closes the circuit.
fn fault_happens(
    rt: &impl Abort,
    alloc: Global,
    rules: &Rules,
    history: &mut History,
    fault: Fault,
    first_try: usize,
) -> Result<bool, AllocError> {
    if history.events.len() < first_try {
        return Ok(false);
    }
    let Some(event) = history.make_fault(rt, fault) else {
        return Ok(false);
    };
    let has_happened = history.happens(rt, alloc, rules, event)?;
    assert!(rt;
        has_happened && history.circuit.is_none(),
        "{fault:?} doesn't close"
    );
    Ok(true)
}

/// What still comes after a circuit has closed.
fn event_of_closed(alloc: Global, history: &mut History) -> Result<Event, AllocError> {
    Ok(match history.random.below(10) {
        0 => Event::Forward(RELAY, history.random.body()),
        1 => Event::Backward(history.random.body()),
        2 => Event::Connected(0),
        3 => Event::Data(0, Payload::of(alloc, &history.random.bytes(alloc, 498)?)?),
        4 => Event::Ended(0, 6),
        5 => Event::Drained(0),
        6 => Event::Freed(0),
        7 => Event::Linked,
        8 => Event::Answered(history.random.body()),
        _ => Event::Failed,
    })
}

/// The plain program does the same with each event, and ends in the same state.
pub fn compare(
    rt: &impl Abort,
    alloc: Global,
    history: &History,
    coverage: &mut Coverage,
) -> Result<(), AllocError> {
    let rules = plain_rules(alloc, history.settings)?;
    let seed = history.seed;
    let log = log_of(alloc, &rules, &history.events)?;
    assert_eq!(rt; log.len(), history.effects.len());
    for (n, (entry, effects)) in log.iter().zip(history.effects.iter()).enumerate() {
        assert!(rt; are_same(effects, &entry.effects), "seed {seed}, event {n}");
        coverage.effects(entry.event, effects);
    }
    let Some(driver) = &history.circuit else {
        return Ok(());
    };
    assert_eq!(rt; driver.next_hop(), next_hop(&log), "seed {seed}");
    for stream in history.streams.iter() {
        let serial = stream.key.serial;
        assert!(rt;
            is_same_stream(driver, stream, &rules, &log),
            "seed {seed}, stream {serial}"
        );
    }
    Ok(())
}

/// Both programs have the stream in one phase, and its bytes may be packaged in both or in none.
fn is_same_stream(
    driver: &Driver,
    stream: &ClientStream,
    rules: &PlainRules,
    log: &[Entry<'_>],
) -> bool {
    let serial = stream.key.serial as usize;
    let is_same_phase = matches!(
        (driver.phase(stream.key), phase_at(log, serial)),
        (Some(Phase::Reaching), PlainPhase::Reaching)
            | (Some(Phase::Joined), PlainPhase::Joined)
            | (Some(Phase::Ending), PlainPhase::Ending)
            | (None, PlainPhase::Free)
    );
    is_same_phase
        && (driver.phase(stream.key) != Some(Phase::Joined)
            || driver.shut(stream.key) == shut_window(rules, log, serial))
}

/// Which window keeps a stream's bytes from being packaged, and at which count, by the plain program.
fn shut_window(rules: &PlainRules, log: &[Entry<'_>], serial: usize) -> Option<(ShutWhy, u64)> {
    if is_stream_shut(log, serial) {
        Some((ShutWhy::Stream, packed_for(log, serial) as u64))
    } else if is_circuit_shut(rules, log) {
        Some((ShutWhy::Circuit, packed(log) as u64))
    } else {
        None
    }
}
