//! The histories: 200 seeds of 300 events, and longer ones in which windows run dry.

ghost use Rattle.std.specs.Prelude.{◌<◌};

use crate::tests::coverage::Coverage;
use crate::tests::faults::{FAULTS, Fault};
use crate::tests::history::History;
use crate::tests::kinds::{DOWNLOAD, FLOOD, ONE_FLOOD, PATH, THEMES, Theme, UNDRAINED, UPLOAD};
use crate::tests::rules::{CircuitSettings, STANDARD};
use crate::tests::running::{PlannedFault, compare, play};
use std::alloc::{AllocError, Global};
use std::process::Abort;
use std::test::Fail;
use tr_io::answers::ShutWhy;

/// The events of a history, with the opening.
const EVENTS: usize = 300;

/// Whether a fault is one of the circuit's extension. It can come while there are RELAY_EARLY cells left.
fn is_of_path(fault: Fault) -> bool {
    matches!(
        fault,
        Fault::ExtendTwice | Fault::AnswerGarbled | Fault::AnswerTooLong | Fault::Failed
    )
}

/// A theme in which the fault can come.
fn theme_for(fault: Fault, seed: u64) -> Theme {
    match fault {
        Fault::WrongProof | Fault::OtherVersion => DOWNLOAD,
        Fault::NinthEarly => PATH,
        _ if is_of_path(fault) => PATH,
        _ => THEMES[(seed % 5) as usize],
    }
}

/// From which event on the fault is tried.
fn first_try(fault: Fault, seed: u64) -> usize
    requires { seed < 2000 }
{
    if is_of_path(fault) {
        5 + (seed * 37 % 20) as usize
    } else {
        150 + (seed * 37 % 140) as usize
    }
}

/// Runs the histories of 50 seeds. Every kind of event, fault and effect comes in them.
fn run_fifty(rt: &impl Abort, alloc: Global, first: u64) -> Result<(), AllocError>
    requires { first < 1000 }
{
    let mut coverage = Coverage::empty();
    for n in 0..50u64 {
        let seed = first + n;
        let fault = FAULTS[(seed % 19) as usize];
        let planned_fault = PlannedFault {
            fault,
            first_try: first_try(fault, seed),
        };
        let mut history = History::new(
            alloc,
            seed,
            theme_for(fault, seed),
            CircuitSettings::of(seed),
        )?;
        play(
            rt,
            alloc,
            &mut history,
            EVENTS,
            Some(planned_fault),
            &mut coverage,
        )?;
        compare(rt, alloc, &history, &mut coverage)?;
    }
    coverage.assert_all(rt);
    Ok(())
}

#[test]
fn seeds_0_to_49(rt: HostRuntime) -> Result<(), Fail> {
    run_fifty(&rt, rt.alloc(), 0)?;
    Ok(())
}

#[test]
fn seeds_50_to_99(rt: HostRuntime) -> Result<(), Fail> {
    run_fifty(&rt, rt.alloc(), 50)?;
    Ok(())
}

#[test]
fn seeds_100_to_149(rt: HostRuntime) -> Result<(), Fail> {
    run_fifty(&rt, rt.alloc(), 100)?;
    Ok(())
}

#[test]
fn seeds_150_to_199(rt: HostRuntime) -> Result<(), Fail> {
    run_fifty(&rt, rt.alloc(), 150)?;
    Ok(())
}

// The opening, one stream that is begun and connected, and 500 DATA.
#[test]
fn a_stream_window_runs_dry(rt: HostRuntime) -> Result<(), Fail> {
    let mut coverage = Coverage::empty();
    let mut history = History::new(rt.alloc(), 1, ONE_FLOOD, STANDARD)?;
    play(&rt, rt.alloc(), &mut history, 503, None, &mut coverage)?;
    assert_eq!(rt; history.shut(0), Some((ShutWhy::Stream, 500)));
    compare(&rt, rt.alloc(), &history, &mut coverage)?;
    history.theme = DOWNLOAD;
    play(&rt, rt.alloc(), &mut history, 800, None, &mut coverage)?;
    compare(&rt, rt.alloc(), &history, &mut coverage)?;
    Ok(())
}

// The opening, three streams that are begun and connected, and 1,000 DATA.
#[test]
fn the_circuit_window_runs_dry(rt: HostRuntime) -> Result<(), Fail> {
    let mut coverage = Coverage::empty();
    let mut history = History::new(rt.alloc(), 2, FLOOD, STANDARD)?;
    play(&rt, rt.alloc(), &mut history, 1007, None, &mut coverage)?;
    for serial in 0..3 {
        assert_eq!(rt; history.shut(serial), Some((ShutWhy::Circuit, 1000)));
    }
    compare(&rt, rt.alloc(), &history, &mut coverage)?;
    history.theme = DOWNLOAD;
    play(&rt, rt.alloc(), &mut history, 1300, None, &mut coverage)?;
    compare(&rt, rt.alloc(), &history, &mut coverage)?;
    Ok(())
}

// The opening, one stream that is begun, and one DATA more than the 500 that it may accept undrained.
#[test]
fn the_501st_undrained_data_closes(rt: HostRuntime) -> Result<(), Fail> {
    let mut coverage = Coverage::empty();
    let mut history = History::new(rt.alloc(), 3, UNDRAINED, STANDARD)?;
    play(&rt, rt.alloc(), &mut history, 502, None, &mut coverage)?;
    assert!(rt; history.circuit.is_some());
    play(&rt, rt.alloc(), &mut history, 503, None, &mut coverage)?;
    assert!(rt; history.circuit.is_none());
    compare(&rt, rt.alloc(), &history, &mut coverage)?;
    Ok(())
}

// DATA that are drained let more come.
#[test]
fn a_stream_that_is_drained_goes_on(rt: HostRuntime) -> Result<(), Fail> {
    let mut coverage = Coverage::empty();
    let mut history = History::new(rt.alloc(), 4, UNDRAINED, STANDARD)?;
    play(&rt, rt.alloc(), &mut history, 400, None, &mut coverage)?;
    history.theme = UPLOAD;
    play(&rt, rt.alloc(), &mut history, 800, None, &mut coverage)?;
    compare(&rt, rt.alloc(), &history, &mut coverage)?;
    Ok(())
}
