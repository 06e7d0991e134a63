//! Tapes on which channels bring cells.
use super::tear_down::{NEXT, one_circuit, put_destroy, tear_down};
use super::{OPENED, UP, bytes_after, front, play_tape, put};
use crate::kinds::take::write_take;
use std::alloc::{AllocError, Global};
use std::test::Fail;
use tr_io::answers::{TakeAnswer, Why};
use tr_io::names::CircNo;
use tr_io::status::Status;

/// A record by which channel 0 brings a cell of fixed length, whose payload begins with this byte.
pub fn put_cell(
    bytes: &mut Vec<u8>,
    id: [u8; 4],
    command: u8,
    first: u8,
) -> Result<(), AllocError> {
    let mut payload = [0; 509];
    payload[0] = first;
    put_cell_of(bytes, id, command, &payload)
}

/// The same by the whole payload.
pub fn put_cell_of(
    bytes: &mut Vec<u8>,
    id: [u8; 4],
    command: u8,
    payload: &[u8; 509],
) -> Result<(), AllocError> {
    put(bytes, &[4, 0, 0, 0, 0, 0, 0, 0, 0])?;
    put(bytes, &id)?;
    put(bytes, &[command])?;
    put(bytes, payload)
}

/// What such a cell is answered on a tape with one circuit.
fn answer(alloc: Global, id: [u8; 4], command: u8) -> Result<Vec<u8>, Fail> {
    let mut tape = one_circuit(alloc)?;
    put_cell(&mut tape, id, command, 0)?;
    let run = play_tape(alloc, tape.as_slice(), 4096, &[], &[])?;
    Ok(bytes_after(run.sink.as_slice(), 20)?.to_vec(alloc)?)
}

/// RELAY and RELAY_EARLY.
#[test]
fn relay_cells_wait(rt: HostRuntime) -> Result<(), Fail> {
    for command in [3, 9] {
        let answer = answer(rt.alloc(), [0x80, 0, 0, 1], command)?;
        assert_eq!(rt; answer.as_slice(), [4, 0].as_slice());
    }
    Ok(())
}

#[test]
fn cells_for_no_circuit_are_passed_over(rt: HostRuntime) -> Result<(), Fail> {
    let ours = [0x80, 0, 0, 1];
    for (id, command, why) in [
        // PADDING, PADDING_NEGOTIATE; CREATE, CREATE_FAST, CREATE2; NETINFO; CREATED and 13.
        (ours, 0, 1),
        (ours, 12, 1),
        (ours, 1, 2),
        (ours, 5, 2),
        (ours, 10, 2),
        (ours, 8, 3),
        (ours, 2, 4),
        (ours, 13, 4),
        // RELAY at another CircID.
        ([0x80, 0, 0, 2], 3, 5),
    ] {
        let answer = answer(rt.alloc(), id, command)?;
        assert_eq!(rt; answer.as_slice(), [4, 1, why].as_slice());
    }
    Ok(())
}

/// The peer's DESTROY takes the circuit away. No DESTROY answers it, and the CircID is of no circuit.
#[test]
fn a_destroy_from_the_peer_ends_its_circuit(rt: HostRuntime) -> Result<(), Fail> {
    let ours = [0x80, 0, 0, 1];
    let mut tape = one_circuit(rt.alloc())?;
    put_cell(&mut tape, ours, 4, 9)?;
    put_cell(&mut tape, ours, 3, 0)?;
    put(&mut tape, &tear_down(0, 8))?;
    put(&mut tape, &NEXT)?;
    let run = play_tape(rt.alloc(), tape.as_slice(), 4096, &[], &[])?;
    assert_eq!(rt; run.status, Status::Done);
    assert_eq!(rt;
        bytes_after(run.sink.as_slice(), 20)?,
        [4, 2, 0, 0, 0, 0, 0, 0, 0, 0, 11, 4, 1, 5, 0x0e, 2, 8, 0].as_slice()
    );
    Ok(())
}

/// A CREATED2 that nobody asked for closes the circuit with 1 (PROTOCOL), and a DESTROY with 1 leaves.
#[test]
fn a_created2_from_the_client_closes_its_circuit(rt: HostRuntime) -> Result<(), Fail> {
    let mut tape = one_circuit(rt.alloc())?;
    put_cell(&mut tape, [0x80, 0, 0, 1], 11, 0)?;
    put(&mut tape, &NEXT)?;
    put(&mut tape, &NEXT)?;
    let run = play_tape(rt.alloc(), tape.as_slice(), 4096, &[], &[])?;
    let mut expected = Vec::new(rt.alloc());
    put(&mut expected, &[4, 2, 0, 0, 0, 0, 0, 0, 0, 0, 1])?;
    put_destroy(&mut expected, 1)?;
    put(&mut expected, &[8, 0])?;
    assert_eq!(rt; run.status, Status::Done);
    assert_eq!(rt; bytes_after(run.sink.as_slice(), 20)?, expected.as_slice());
    Ok(())
}

/// VPADDING (128), VERSIONS (7), which behind a link's first cell has a CircID of 4 bytes, CERTS (129), and 255.
#[test]
fn cells_of_variable_length_are_passed_over(rt: HostRuntime) -> Result<(), Fail> {
    for (command, why) in [(128, 1), (7, 3), (129, 3), (255, 4)] {
        let mut tape = Vec::new(rt.alloc());
        put(&mut tape, &[1, 0, 0, 0, 0, 0])?;
        put(&mut tape, &[4, 0, 0, 0, 0, 0, 0, 0, 0, 0, 0, 0, 0])?;
        put(&mut tape, &[command, 0, 3, 5, 6, 7])?;
        for length in [7, 14, 18, 19, 20, 24] {
            let cut_tape = front(tape.as_slice(), length)?;
            let run = play_tape(rt.alloc(), cut_tape, 4096, &[], &[])?;
            assert_eq!(rt; run.status, Status::BadTape(6));
            assert_eq!(rt; run.sink.as_slice(), UP.as_slice());
        }
        // A cell without a payload stands behind it, on a channel that isn't there.
        put(
            &mut tape,
            &[4, 0, 0, 0, 0, 0, 0, 0, 1, 0, 0, 0, 0, 128, 0, 0],
        )?;
        let run = play_tape(rt.alloc(), tape.as_slice(), 4096, &[], &[])?;
        let mut expected = Vec::new(rt.alloc());
        put(&mut expected, &UP)?;
        put(&mut expected, &[4, 1, why, 4, 1, 0])?;
        assert_eq!(rt; run.status, Status::Done);
        assert_eq!(rt; run.sink.as_slice(), expected.as_slice());
    }
    Ok(())
}

#[test]
fn a_cut_cell_is_bad(rt: HostRuntime) -> Result<(), Fail> {
    let mut tape = one_circuit(rt.alloc())?;
    put_cell(&mut tape, [0x80, 0, 0, 1], 3, 7)?;
    let mut expected = Vec::new(rt.alloc());
    put(&mut expected, &UP)?;
    put(&mut expected, &OPENED)?;
    for length in [550, 557, 558, 562, 563, 1071] {
        let cut_tape = front(tape.as_slice(), length)?;
        let run = play_tape(rt.alloc(), cut_tape, 4096, &[], &[])?;
        assert_eq!(rt; run.status, Status::BadTape(549));
        assert_eq!(rt; run.sink.as_slice(), expected.as_slice());
    }
    Ok(())
}

#[test]
fn answers_to_take_have_their_bytes(rt: HostRuntime) -> Result<(), Fail> {
    let mut out = Vec::new(rt.alloc());
    write_take(TakeAnswer::Queued, &mut out)?;
    for why in [
        Why::NoChannel,
        Why::Padding,
        Why::Opening,
        Why::Link,
        Why::Unknown,
        Why::NoCircuit,
    ] {
        write_take(TakeAnswer::PassedOver(why), &mut out)?;
    }
    write_take(TakeAnswer::Down(CircNo(258), 11), &mut out)?;
    let mut expected = Vec::new(rt.alloc());
    put(&mut expected, &[4, 0])?;
    put(&mut expected, &[4, 1, 0, 4, 1, 1, 4, 1, 2])?;
    put(&mut expected, &[4, 1, 3, 4, 1, 4, 4, 1, 5])?;
    put(&mut expected, &[4, 2, 0, 0, 0, 0, 0, 0, 1, 2, 11])?;
    assert_eq!(rt; out.as_slice(), expected.as_slice());
    Ok(())
}
