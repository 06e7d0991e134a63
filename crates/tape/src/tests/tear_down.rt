//! Tapes that tear circuits down.
use super::{OPENED, UP, front, play_tape, put, put_zeros, tape};
use std::alloc::{AllocError, Global};
use std::test::Fail;
use tr_io::status::Status;

/// A record that tears a circuit down, and one that asks channel 0 for its next cell.
pub fn tear_down(circ: u8, reason: u8) -> [u8; 10] {
    [0x0e, 0, 0, 0, 0, 0, 0, 0, circ, reason]
}

pub const NEXT: [u8; 17] = [8, 0, 0, 0, 0, 0, 0, 0, 0, 0, 0, 0, 0, 0, 0, 0, 0];

/// The records that bring up channel 0 and open circuit 0 on it, at CircID 80000001.
pub fn one_circuit(alloc: Global) -> Result<Vec<u8>, Fail> {
    let whole = tape(alloc, [0x80, 0, 0, 1])?;
    Ok(front(whole.as_slice(), 549)?.to_vec(alloc)?)
}

/// The answer to `next_cell` that is a DESTROY at CircID 80000001.
pub fn put_destroy(bytes: &mut Vec<u8>, reason: u8) -> Result<(), AllocError> {
    put(bytes, &[8, 1, 0x80, 0, 0, 1, 4, reason])?;
    put_zeros(bytes, 508)
}

/// The reply that waits is gone, and DESTROY with the reason is all that leaves.
#[test]
fn a_torn_circuit_sends_its_reason_and_nothing_else(rt: HostRuntime) -> Result<(), Fail> {
    for reason in [0, 8, 255] {
        let mut tape = one_circuit(rt.alloc())?;
        put(&mut tape, &tear_down(0, reason))?;
        put(&mut tape, &NEXT)?;
        put(&mut tape, &NEXT)?;
        let run = play_tape(rt.alloc(), tape.as_slice(), 4096, &[], &[])?;
        let mut expected = Vec::new(rt.alloc());
        put(&mut expected, &UP)?;
        put(&mut expected, &OPENED)?;
        put(&mut expected, &[0x0e, 1, reason])?;
        put_destroy(&mut expected, reason)?;
        put(&mut expected, &[8, 0])?;
        assert_eq!(rt; run.status, Status::Done);
        assert_eq!(rt; run.sink.as_slice(), expected.as_slice());
    }
    Ok(())
}

#[test]
fn a_circuit_that_is_gone_or_never_was_is_gone(rt: HostRuntime) -> Result<(), Fail> {
    let mut tape = one_circuit(rt.alloc())?;
    put(&mut tape, &tear_down(1, 8))?;
    put(&mut tape, &tear_down(0, 8))?;
    put(&mut tape, &tear_down(0, 9))?;
    put(&mut tape, &NEXT)?;
    put(&mut tape, &tear_down(0, 9))?;
    put(&mut tape, &NEXT)?;
    let run = play_tape(rt.alloc(), tape.as_slice(), 4096, &[], &[])?;
    let mut expected = Vec::new(rt.alloc());
    put(&mut expected, &UP)?;
    put(&mut expected, &OPENED)?;
    put(&mut expected, &[0x0e, 2, 0x0e, 1, 8, 0x0e, 2])?;
    put_destroy(&mut expected, 8)?;
    put(&mut expected, &[0x0e, 2, 8, 0])?;
    assert_eq!(rt; run.status, Status::Done);
    assert_eq!(rt; run.sink.as_slice(), expected.as_slice());
    Ok(())
}

#[test]
fn a_cut_teardown_is_bad(rt: HostRuntime) -> Result<(), Fail> {
    let record = tear_down(0, 8);
    for length in 1..10 {
        let run = play_tape(rt.alloc(), front(&record, length)?, 4096, &[], &[])?;
        assert_eq!(rt; run.status, Status::BadTape(0));
        assert!(rt; run.sink.as_slice().is_empty());
    }
    let run = play_tape(rt.alloc(), &record, 4096, &[], &[])?;
    assert_eq!(rt; run.status, Status::Done);
    assert_eq!(rt; run.sink.as_slice(), [0x0e, 2].as_slice());
    Ok(())
}
