//! Claims whose jobs were worked out by hand.
ghost use Rattle.std.specs.Prelude.{◌≡◌, ◌+◌, ◌<◌, ◌≤◌, ◌^◌};
ghost use Rattle.cell_codec.specs.Cells.{IsWellFormed};

use super::new_switch;
use super::taking::{CHANNEL, circ_id, with_two_circuits};
use crate::Switch;
use cell_codec::{Body, Cell};
use hop_crypto::JobParts;
use std::alloc::AllocError;
use std::test::Fail;
use tr_io::answers::{ClaimAnswer, TakeAnswer};
use tr_io::names::{CircNo, ClaimNote, Dir};

/// A RELAY cell whose body begins with this byte.
pub(super) fn relay_cell(id: u32, first: u8) -> Cell
    ensures { IsWellFormed result }
{
    let mut payload = [0; 509];
    payload[0] = first;
    Cell {
        circ: id,
        command: 3,
        body: Body::Fixed(payload),
    }
}

/// The parts of the job that a worker claims, if there is one.
fn claimed(switch: &mut Switch, worker: u32) -> Result<Option<JobParts>, AllocError>
    requires steps { switch.old.state.steps < 2 ^ 62 }
    requires worker { worker < 64 }
    ensures { switch.new.state.steps ≤ switch.old.state.steps + 1 }
{
    match switch.claim(worker) {
        ClaimAnswer::Job(job) => Ok(Some(job.apart())),
        ClaimAnswer::Nothing => Ok(None),
        ClaimAnswer::Memory => Err(AllocError),
    }
}

/// How the first body of a job begins.
fn first_byte(job: &JobParts) -> Option<u8> {
    match job.bodies.as_slice() {
        [first, ..] => Some(first[0]),
        [] => None,
    }
}

#[test]
fn a_claim_without_bodies_gets_nothing(rt: HostRuntime) -> Result<(), Fail> {
    let mut empty = new_switch(rt.alloc())?;
    assert!(rt; claimed(&mut empty, 0)?.is_none());
    let mut switch = with_two_circuits(rt.alloc())?;
    assert!(rt; claimed(&mut switch, 63)?.is_none());
    assert_eq!(rt; switch.steps(), 4);
    Ok(())
}

#[test]
fn the_body_that_came_first_is_claimed_first(rt: HostRuntime) -> Result<(), Fail> {
    let mut switch = with_two_circuits(rt.alloc())?;
    let on_second = relay_cell(circ_id(1), 7);
    assert_eq!(rt; switch.take(CHANNEL, &on_second), TakeAnswer::Queued);
    let on_first = relay_cell(circ_id(0), 9);
    assert_eq!(rt; switch.take(CHANNEL, &on_first), TakeAnswer::Queued);
    let second = claimed(&mut switch, 1)?.ok_or("a job")?;
    assert_eq!(rt; second.note.circ, CircNo(1));
    assert_eq!(rt; second.note.claim, 0);
    assert_eq!(rt; first_byte(&second), Some(7));
    let first = claimed(&mut switch, 2)?.ok_or("a job")?;
    assert_eq!(rt; first.note.circ, CircNo(0));
    assert_eq!(rt; first.note.claim, 1);
    assert_eq!(rt; first_byte(&first), Some(9));
    assert!(rt; claimed(&mut switch, 3)?.is_none());
    Ok(())
}

#[test]
fn a_claim_takes_32_bodies_of_40(rt: HostRuntime) -> Result<(), Fail> {
    let mut switch = with_two_circuits(rt.alloc())?;
    for number in 0..40 {
        let cell = relay_cell(circ_id(0), number);
        assert_eq!(rt; switch.take(CHANNEL, &cell), TakeAnswer::Queued);
    }
    let job = claimed(&mut switch, 5)?.ok_or("a job")?;
    let note = ClaimNote {
        switch: 0,
        claim: 0,
        worker: 5,
        circ: CircNo(0),
        dir: Dir::Forth,
        first: 0,
        count: 32,
    };
    assert_eq!(rt; job.note, note);
    assert_eq!(rt; job.bodies.len(), 32);
    let mut number = 0;
    for body in job.bodies.as_slice() {
        assert_eq!(rt; body[0], number);
        number = number.saturating_add(1);
    }
    // No second claim of the direction is out beside it.
    assert!(rt; claimed(&mut switch, 5)?.is_none());
    Ok(())
}
