//! Worked jobs that come home, by hand.
ghost use Rattle.std.specs.Prelude.{◌≡◌, ◌+◌, ◌<◌, ◌≤◌, ◌^◌};

use super::claims::relay_cell;
use super::taking::{CHANNEL, circ_id, with_two_circuits};
use crate::Switch;
use hop_crypto::{Done, work};
use std::alloc::AllocError;
use std::test::Fail;
use tr_io::answers::{BackAnswer, ClaimAnswer, TakeAnswer};
use tr_io::names::CircNo;

/// The job that a worker claims, worked, if there is one.
fn worked(switch: &mut Switch, worker: u32) -> Result<Option<Done>, AllocError>
    requires steps { switch.old.state.steps < 2 ^ 62 }
    requires worker { worker < 64 }
    ensures { switch.new.state.steps ≤ switch.old.state.steps + 1 }
{
    match switch.claim(worker) {
        ClaimAnswer::Job(job) => Ok(Some(work(job))),
        ClaimAnswer::Nothing => Ok(None),
        ClaimAnswer::Memory => Err(AllocError),
    }
}

#[test]
fn a_body_for_nobody_closes_its_circuit(rt: HostRuntime) -> Result<(), Fail> {
    let mut switch = with_two_circuits(rt.alloc())?;
    let cell = relay_cell(circ_id(1), 7);
    assert_eq!(rt; switch.take(CHANNEL, &cell), TakeAnswer::Queued);
    let done = worked(&mut switch, 2)?.ok_or("a job")?;
    assert_eq!(rt; switch.give_back(done), BackAnswer::Down(1));
    assert_eq!(rt; switch.tear_down(CircNo(1), 3), BackAnswer::Gone);
    let destroy = switch.next_cell(CHANNEL, 0).ok_or("a DESTROY")?;
    assert_eq!(rt; destroy.circ, circ_id(1));
    assert_eq!(rt; destroy.command, 4);
    assert!(rt; matches!(destroy.body.payload(), [1, 0, ..]));
    let reply = switch
        .next_cell(CHANNEL, 0)
        .ok_or("the other circuit's reply")?;
    assert_eq!(rt; reply.circ, circ_id(0));
    assert!(rt; switch.next_cell(CHANNEL, 0).is_none());
    Ok(())
}

#[test]
fn a_worked_job_finds_its_circuit_gone(rt: HostRuntime) -> Result<(), Fail> {
    let mut switch = with_two_circuits(rt.alloc())?;
    let cell = relay_cell(circ_id(0), 7);
    assert_eq!(rt; switch.take(CHANNEL, &cell), TakeAnswer::Queued);
    let done = worked(&mut switch, 0)?.ok_or("a job")?;
    assert_eq!(rt; switch.tear_down(CircNo(0), 3), BackAnswer::Down(3));
    assert_eq!(rt; switch.give_back(done), BackAnswer::Gone);
    let destroy = switch.next_cell(CHANNEL, 0).ok_or("a DESTROY")?;
    assert_eq!(rt; destroy.circ, circ_id(0));
    assert!(rt; matches!(destroy.body.payload(), [3, 0, ..]));
    Ok(())
}
