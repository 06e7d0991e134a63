//! Tapes played over sources and sinks in memory. The expected bytes were put together by hand; KH
//! is SHA-1 of 41 zero bytes, computed elsewhere.
ghost use Rattle.std.specs.Prelude.{◌≤◌};

mod bad_tapes;
mod dial_order;
mod faults;
mod jobs;
mod round_trip;
mod rules;
mod take;
mod tear_down;

use crate::tape_main;
use std::alloc::{AllocError, Global};
use std::test::Fail;
use tr_io::memory::{MemorySink, MemorySource};
use tr_io::status::Status;

const KH: [u8; 20] = [
    0x66, 0x9b, 0x1c, 0x85, 0xec, 0xba, 0xfe, 0x23, 0xc9, 0x99, 0x10, 0x0f, 0x55, 0xa2, 0x3e, 0x06,
    0xbf, 0x59, 0xea, 0xd7,
];

/// The answers of a channel that is up and of a circuit that is opened, both with number 0.
const UP: [u8; 10] = [1, 0, 0, 0, 0, 0, 0, 0, 0, 0];

const OPENED: [u8; 10] = [3, 0, 0, 0, 0, 0, 0, 0, 0, 0];

/// A list of bytes that grows at its end.
fn put(bytes: &mut Vec<u8>, more: &[u8]) -> Result<(), AllocError> {
    bytes.extend_from_slice(more)
}

fn put_zeros(bytes: &mut Vec<u8>, count: usize) -> Result<(), AllocError> {
    for _ in 0..count {
        put(bytes, &[0])?;
    }
    Ok(())
}

/// The records that bring up channel 0, open a circuit on it by a CREATE_FAST at this CircID, and
/// ask for the channel's next cell.
fn tape(alloc: Global, id: [u8; 4]) -> Result<Vec<u8>, AllocError> {
    tape_of(alloc, id, 5, [0; 4])
}

/// The same by this command, whose payload is these four bytes and zeros.
fn tape_of(alloc: Global, id: [u8; 4], command: u8, front: [u8; 4]) -> Result<Vec<u8>, AllocError> {
    let mut bytes = Vec::new(alloc);
    put(&mut bytes, &[1, 0, 0, 0, 0, 0, 3])?;
    put_zeros(&mut bytes, 8 + 20)?;
    put(&mut bytes, &id)?;
    put(&mut bytes, &[command])?;
    put(&mut bytes, &front)?;
    put_zeros(&mut bytes, 509 - 4)?;
    put(&mut bytes, &[8])?;
    put_zeros(&mut bytes, 8 + 8)?;
    Ok(bytes)
}

/// The answers of that tape for CREATE_FAST at CircID 80000001.
fn answers(alloc: Global) -> Result<Vec<u8>, AllocError> {
    let mut bytes = Vec::new(alloc);
    put(&mut bytes, &UP)?;
    put(&mut bytes, &OPENED)?;
    put(&mut bytes, &[8, 1, 0x80, 0, 0, 1, 6])?;
    put_zeros(&mut bytes, 20)?;
    put(&mut bytes, &KH)?;
    put_zeros(&mut bytes, 469)?;
    Ok(bytes)
}

/// What a run gave: its status, and the bytes written.
#[derive(Drop)]
struct Run {
    status: Status,
    sink: MemorySink,
}

/// Plays a tape, `most` bytes a read or write, with these failing reads and writes.
fn play_tape(
    alloc: Global,
    tape: &[u8],
    most: usize,
    reads: &[u64],
    writes: &[u64],
) -> Result<Run, AllocError>
    requires { 1 ≤ most }
{
    let words = vec![in alloc; String::from_str(alloc, "tape")?]?;
    let mut source = MemorySource::new(tape.to_vec(alloc)?, most, reads.to_vec(alloc)?);
    let mut sink = MemorySink::new(alloc, most, writes.to_vec(alloc)?);
    let status = tape_main(alloc, words.as_slice(), &mut source, &mut sink);
    Ok(Run { status, sink })
}

#[test]
fn one_create_fast_is_answered(rt: HostRuntime) -> Result<(), Fail> {
    let tape = tape(rt.alloc(), [0x80, 0, 0, 1])?;
    let answers = answers(rt.alloc())?;
    // In one piece, in small ones, and byte by byte.
    for most in [4096, 100, 1] {
        let run = play_tape(rt.alloc(), tape.as_slice(), most, &[], &[])?;
        assert_eq!(rt; run.status, Status::Done);
        assert_eq!(rt; run.sink.as_slice(), answers.as_slice());
    }
    Ok(())
}

/// The bytes behind the first so many.
fn bytes_after(bytes: &[u8], length: usize) -> Result<&[u8], &'static str> {
    match bytes.split_at_checked(length) {
        Some((_, bytes_after)) => Ok(bytes_after),
        None => Err("too few bytes"),
    }
}

/// Kind 0f has the key of the padding behind Y, and is answered as kind 03 is.
#[test]
fn one_padded_opening_is_answered(rt: HostRuntime) -> Result<(), Fail> {
    let plain = tape(rt.alloc(), [0x80, 0, 0, 1])?;
    let mut padded = Vec::new(rt.alloc());
    put(&mut padded, front(plain.as_slice(), 6)?)?;
    put(&mut padded, &[0x0f])?;
    put(&mut padded, front(bytes_after(plain.as_slice(), 7)?, 28)?)?;
    put(&mut padded, &[0x5a; 16])?;
    put(&mut padded, bytes_after(plain.as_slice(), 35)?)?;
    let run = play_tape(rt.alloc(), padded.as_slice(), 4096, &[], &[])?;
    let mut expected = Vec::new(rt.alloc());
    put(&mut expected, &UP)?;
    put(&mut expected, &[0x0f, 0, 0, 0, 0, 0, 0, 0, 0, 0])?;
    put(
        &mut expected,
        bytes_after(answers(rt.alloc())?.as_slice(), 20)?,
    )?;
    assert_eq!(rt; run.status, Status::Done);
    assert_eq!(rt; run.sink.as_slice(), expected.as_slice());
    // The key is cut, and the cell is cut.
    for length in [50, 564] {
        let run = play_tape(
            rt.alloc(),
            front(padded.as_slice(), length)?,
            4096,
            &[],
            &[],
        )?;
        assert_eq!(rt; run.status, Status::BadTape(6));
        assert_eq!(rt; run.sink.as_slice(), UP.as_slice());
    }
    Ok(())
}

/// HTYPE ff01, HLEN 20, X and Y zero: CREATED2 brings HLEN 40, Y and KH.
#[test]
fn one_create2_is_answered(rt: HostRuntime) -> Result<(), Fail> {
    let tape = tape_of(rt.alloc(), [0x80, 0, 0, 1], 10, [0xff, 0x01, 0, 20])?;
    let run = play_tape(rt.alloc(), tape.as_slice(), 4096, &[], &[])?;
    let mut expected = Vec::new(rt.alloc());
    put(&mut expected, &UP)?;
    put(&mut expected, &OPENED)?;
    put(&mut expected, &[8, 1, 0x80, 0, 0, 1, 11, 0, 40])?;
    put_zeros(&mut expected, 20)?;
    put(&mut expected, &KH)?;
    put_zeros(&mut expected, 467)?;
    assert_eq!(rt; run.status, Status::Done);
    assert_eq!(rt; run.sink.as_slice(), expected.as_slice());
    Ok(())
}

#[test]
fn bad_handshakes_are_refused(rt: HostRuntime) -> Result<(), Fail> {
    for (command, front) in [
        // CREATE; HTYPE 0002; HLEN 19; HLEN 506, more than there is room for.
        (1, [0, 0, 0, 0]),
        (10, [0, 2, 0, 20]),
        (10, [0xff, 0x01, 0, 19]),
        (10, [0xff, 0x01, 1, 250]),
    ] {
        let tape = tape_of(rt.alloc(), [0x80, 0, 0, 1], command, front)?;
        let run = play_tape(rt.alloc(), tape.as_slice(), 4096, &[], &[])?;
        let mut expected = Vec::new(rt.alloc());
        put(&mut expected, &UP)?;
        put(&mut expected, &[3, 4, 8, 1, 0x80, 0, 0, 1, 4, 1])?;
        put_zeros(&mut expected, 508)?;
        assert_eq!(rt; run.status, Status::Done);
        assert_eq!(rt; run.sink.as_slice(), expected.as_slice(), "{front:?}");
    }
    Ok(())
}

#[test]
fn an_empty_tape_has_no_answers(rt: HostRuntime) -> Result<(), Fail> {
    let run = play_tape(rt.alloc(), &[], 1, &[], &[])?;
    assert_eq!(rt; run.status, Status::Done);
    assert!(rt; run.sink.as_slice().is_empty());
    Ok(())
}

#[test]
fn a_circuit_id_with_the_wrong_highest_bit_is_refused(rt: HostRuntime) -> Result<(), Fail> {
    let tape = tape(rt.alloc(), [0, 0, 0, 1])?;
    let run = play_tape(rt.alloc(), tape.as_slice(), 4096, &[], &[])?;
    let mut expected = Vec::new(rt.alloc());
    put(&mut expected, &UP)?;
    put(&mut expected, &[3, 1, 8, 1, 0, 0, 0, 1, 4, 1])?;
    put_zeros(&mut expected, 508)?;
    assert_eq!(rt; run.status, Status::Done);
    assert_eq!(rt; run.sink.as_slice(), expected.as_slice());
    Ok(())
}

/// The first so many bytes.
fn front(bytes: &[u8], length: usize) -> Result<&[u8], &'static str> {
    match bytes.split_at_checked(length) {
        Some((front, _)) => Ok(front),
        None => Err("too few bytes"),
    }
}
