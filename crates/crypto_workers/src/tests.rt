//! A worker over a port that plays a list of claims.
mod play_pass;
mod play_port;

use crate::tests::play_pass::{Find, PlayPass};
use crate::tests::play_port::{KEYS, PlayPort};
use crate::worker_loop;
use hop_crypto::Sealer;
use std::alloc::Global;
use std::cell::Cell;
use std::test::Fail;
use tr_io::answers::BackAnswer;
use tr_io::gate::{Gate, OpenGate};
use tr_io::loop_end::LoopEnd;
use tr_io::step::Step;

/// Counts the points that were passed, as decimal digits: point 0 as 1, point 1 as 2.
#[derive(Drop)]
struct CountingGate {
    points: Cell<u64>,
}

impl Gate for CountingGate {
    fn pass(&self, _worker: u32, point: u32) {
        let digit = u64::from(point).saturating_add(1);
        let points = self.points.get().saturating_mul(10);
        self.points.set(points.saturating_add(digit));
    }
}

/// A pass that has so many steps left, whose claims find these, the last first.
fn pass(alloc: Global, finds: &[Find], steps_left: u32) -> Result<PlayPass, Fail> {
    Ok(PlayPass {
        finds: finds.to_vec(alloc)?,
        steps: Vec::new(alloc),
        returns: Vec::new(alloc),
        steps_left,
    })
}

#[test]
fn a_worker_gives_back_each_job_worked_and_waits_where_there_is_none(
    rt: HostRuntime,
) -> Result<(), Fail> {
    let port = PlayPort {
        alloc: rt.alloc(),
        waits: Cell::new(0),
    };
    let gate = CountingGate {
        points: Cell::new(0),
    };
    let finds = [Find::Body(2), Find::Nothing, Find::Body(1)];
    let mut pass = pass(rt.alloc(), &finds, 100)?;
    assert_eq!(rt; worker_loop(&port, &mut pass, 7, &gate), LoopEnd::Halted);
    assert!(rt;
        matches!(
            pass.steps.as_slice(),
            [
                Step::Halted(false),
                Step::Claim(7, Some(_)),
                Step::GiveBack(_, None, BackAnswer::Settled),
                Step::Halted(false),
                Step::Claim(7, None),
                Step::Halted(false),
                Step::Claim(7, Some(_)),
                Step::GiveBack(_, None, BackAnswer::Settled),
                Step::Halted(true),
            ]
        )
    );
    assert_eq!(rt; port.waits.get(), 1);
    assert_eq!(rt; gate.points.get(), 1212);
    assert_eq!(rt; pass.returns.len(), 2);
    for (parts, claim) in pass.returns.iter().zip([1, 2]) {
        assert_eq!(rt; parts.note.claim, u64::from(claim));
        assert_eq!(rt; parts.note.worker, 7);
        let mut body = [claim; 509];
        Sealer::of(&KEYS).put_on(&mut body);
        assert_eq!(rt; parts.output.len(), 1);
        for opened_body in parts.output.as_slice() {
            assert_eq!(rt; opened_body.body, body);
        }
    }
    Ok(())
}

#[test]
fn a_worker_ends_where_memory_or_a_step_is_wanting(rt: HostRuntime) -> Result<(), Fail> {
    for (steps_left, end, steps) in [
        (100, LoopEnd::Memory, 4),
        (0, LoopEnd::Spent, 0),
        (1, LoopEnd::Spent, 1),
        (2, LoopEnd::Spent, 2),
    ] {
        let port = PlayPort {
            alloc: rt.alloc(),
            waits: Cell::new(0),
        };
        let mut pass = pass(rt.alloc(), &[Find::NoMemory, Find::Body(1)], steps_left)?;
        assert_eq!(rt; worker_loop(&port, &mut pass, 0, &OpenGate), end);
        assert_eq!(rt; pass.steps.len(), steps);
        assert_eq!(rt; port.waits.get(), 0);
    }
    Ok(())
}
