//! Tapes on which workers claim jobs, and give them back or up.
use super::take::put_cell;
use super::tear_down::{NEXT, one_circuit, put_destroy, tear_down};
use super::{UP, bytes_after, front, play_tape, put};
use crate::kinds::claim::write_claim;
use crate::kinds::returns::write_return;
use std::alloc::{AllocError, Global};
use std::test::Fail;
use tr_io::answers::{BackAnswer, Difference};
use tr_io::names::{CircNo, ClaimNote, Dir};
use tr_io::status::Status;

/// A record by which this worker claims a job.
pub fn claim(worker: u8) -> [u8; 5] {
    [5, 0, 0, 0, worker]
}

/// A record of this kind by which the job with this claim number is given back.
pub fn returned(kind: u8, number: u8) -> [u8; 9] {
    [kind, 0, 0, 0, 0, 0, 0, 0, number]
}

/// The answer that is a job of circuit 0, with one body.
pub fn job(number: u8, dir: u8, first: u8) -> [u8; 31] {
    let mut bytes = [0; 31];
    bytes[0] = 5;
    bytes[9] = number;
    bytes[18] = dir;
    bytes[26] = first;
    bytes[30] = 1;
    bytes
}

/// The records that open circuit 0 and bring it a RELAY of zero bytes, which a worker claims.
fn one_job(alloc: Global) -> Result<Vec<u8>, Fail> {
    let mut tape = one_circuit(alloc)?;
    put_cell(&mut tape, [0x80, 0, 0, 1], 3, 0)?;
    put(&mut tape, &claim(0))?;
    Ok(tape)
}

/// What that tape with more records is answered behind the circuit's opening, where it is good.
fn answers_to(alloc: Global, more: &[u8]) -> Result<Vec<u8>, Fail> {
    let mut tape = one_job(alloc)?;
    put(&mut tape, more)?;
    let run = play_tape(alloc, tape.as_slice(), 4096, &[], &[])?;
    let Status::Done = run.status else {
        return Ok(Vec::new(alloc));
    };
    Ok(bytes_after(run.sink.as_slice(), 20)?.to_vec(alloc)?)
}

/// The answers of that tape behind the opening.
fn put_job_given(bytes: &mut Vec<u8>) -> Result<(), AllocError> {
    put(bytes, &[4, 0])?;
    put(bytes, &job(0, 0, 0))
}

/// The body that comes out isn't recognised, and there is no next hop: the circuit closes with 1 (PROTOCOL), and its
/// reply, which waited, is dropped.
#[test]
fn a_body_for_nobody_closes_its_circuit(rt: HostRuntime) -> Result<(), Fail> {
    let mut more = Vec::new(rt.alloc());
    put(&mut more, &returned(6, 0))?;
    put(&mut more, &NEXT)?;
    put(&mut more, &NEXT)?;
    put(&mut more, &returned(6, 0))?;
    let mut expected = Vec::new(rt.alloc());
    put_job_given(&mut expected)?;
    put(&mut expected, &[6, 1, 1])?;
    put_destroy(&mut expected, 1)?;
    put(&mut expected, &[8, 0, 6, 4])?;
    let answers = answers_to(rt.alloc(), more.as_slice())?;
    assert_eq!(rt; answers.as_slice(), expected.as_slice());
    Ok(())
}

/// Its circuit is torn down with 2 (INTERNAL).
#[test]
fn a_job_that_is_abandoned_ends_its_circuit(rt: HostRuntime) -> Result<(), Fail> {
    let mut more = Vec::new(rt.alloc());
    put(&mut more, &returned(7, 0))?;
    put(&mut more, &returned(7, 0))?;
    put(&mut more, &claim(0))?;
    put(&mut more, &NEXT)?;
    let mut expected = Vec::new(rt.alloc());
    put_job_given(&mut expected)?;
    put(&mut expected, &[7, 1, 2, 7, 4, 5, 1])?;
    put_destroy(&mut expected, 2)?;
    let answers = answers_to(rt.alloc(), more.as_slice())?;
    assert_eq!(rt; answers.as_slice(), expected.as_slice());
    Ok(())
}

/// A job is kept until it is given back, also where its circuit was torn down.
#[test]
fn a_job_finds_its_circuit_gone(rt: HostRuntime) -> Result<(), Fail> {
    for kind in [6, 7] {
        let mut more = Vec::new(rt.alloc());
        put(&mut more, &tear_down(0, 8))?;
        put(&mut more, &returned(kind, 0))?;
        put(&mut more, &returned(kind, 0))?;
        let mut expected = Vec::new(rt.alloc());
        put_job_given(&mut expected)?;
        put(&mut expected, &[0x0e, 1, 8, kind, 2, kind, 4])?;
        let answers = answers_to(rt.alloc(), more.as_slice())?;
        assert_eq!(rt; answers.as_slice(), expected.as_slice());
    }
    Ok(())
}

/// A claim that was never made, and a tape that ends while it keeps a job.
#[test]
fn no_other_job_is_kept(rt: HostRuntime) -> Result<(), Fail> {
    let mut more = Vec::new(rt.alloc());
    put(&mut more, &returned(6, 1))?;
    put(&mut more, &returned(7, 1))?;
    put(&mut more, &claim(1))?;
    let mut expected = Vec::new(rt.alloc());
    put_job_given(&mut expected)?;
    put(&mut expected, &[6, 4, 7, 4, 5, 1])?;
    let answers = answers_to(rt.alloc(), more.as_slice())?;
    assert_eq!(rt; answers.as_slice(), expected.as_slice());
    Ok(())
}

#[test]
fn workers_have_the_numbers_below_64(rt: HostRuntime) -> Result<(), Fail> {
    let run = play_tape(rt.alloc(), &claim(63), 4096, &[], &[])?;
    assert_eq!(rt; run.status, Status::Done);
    assert_eq!(rt; run.sink.as_slice(), [5, 1].as_slice());
    for worker in [[0, 0, 0, 64], [0, 0, 1, 0], [255, 255, 255, 255]] {
        let [a, b, c, d] = worker;
        let run = play_tape(
            rt.alloc(),
            &[1, 0, 0, 0, 0, 0, 5, a, b, c, d],
            4096,
            &[],
            &[],
        )?;
        assert_eq!(rt; run.status, Status::BadTape(6));
        assert_eq!(rt; run.sink.as_slice(), UP.as_slice());
    }
    Ok(())
}

#[test]
fn cut_records_of_jobs_are_bad(rt: HostRuntime) -> Result<(), Fail> {
    for length in 1..9 {
        for kind in [6, 7] {
            let record = returned(kind, 0);
            let run = play_tape(rt.alloc(), front(&record, length)?, 4096, &[], &[])?;
            assert_eq!(rt; run.status, Status::BadTape(0));
        }
    }
    for length in 1..5 {
        let run = play_tape(rt.alloc(), front(&claim(0), length)?, 4096, &[], &[])?;
        assert_eq!(rt; run.status, Status::BadTape(0));
    }
    Ok(())
}

/// The note of claim 1 of circuit 2.
fn note(dir: Dir) -> ClaimNote {
    ClaimNote {
        switch: 0,
        claim: 1,
        worker: 3,
        circ: CircNo(2),
        dir,
        first: 260,
        count: 32,
    }
}

#[test]
fn answers_to_claim_have_their_bytes(rt: HostRuntime) -> Result<(), Fail> {
    let mut out = Vec::new(rt.alloc());
    write_claim(None, &mut out)?;
    write_claim(Some(note(Dir::Forth)), &mut out)?;
    write_claim(Some(note(Dir::Back)), &mut out)?;
    let mut expected = Vec::new(rt.alloc());
    put(&mut expected, &[5, 1])?;
    for dir in [0, 1] {
        put(&mut expected, &[5, 0, 0, 0, 0, 0, 0, 0, 0, 1])?;
        put(&mut expected, &[0, 0, 0, 0, 0, 0, 0, 2, dir])?;
        put(&mut expected, &[0, 0, 0, 0, 0, 0, 1, 4, 0, 0, 0, 32])?;
    }
    assert_eq!(rt; out.as_slice(), expected.as_slice());
    Ok(())
}

#[test]
fn answers_to_returns_have_their_bytes(rt: HostRuntime) -> Result<(), Fail> {
    let difference = Difference::Note {
        kept: None,
        given: note(Dir::Forth),
    };
    let mut out = Vec::new(rt.alloc());
    write_return(6, Some(BackAnswer::Settled), &mut out)?;
    write_return(7, Some(BackAnswer::Down(2)), &mut out)?;
    write_return(7, Some(BackAnswer::Gone), &mut out)?;
    write_return(6, Some(BackAnswer::Stranger(difference)), &mut out)?;
    write_return(6, None, &mut out)?;
    write_return(7, None, &mut out)?;
    assert_eq!(rt;
        out.as_slice(),
        [6, 0, 7, 1, 2, 7, 2, 6, 3, 6, 4, 7, 4].as_slice()
    );
    Ok(())
}
