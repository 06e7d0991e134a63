//! Slots and outlets in memory: what comes, what is read, said and written, and each fault once.

use crate::clock::{Clock, StandingClock};
use crate::door_answer::DoorAnswer;
use crate::gate::{Gate, OpenGate};
use crate::memory_outlet_in::MemoryOutletIn;
use crate::memory_outlet_out::MemoryOutletOut;
use crate::memory_session::Script;
use crate::memory_slot_in::MemorySlotIn;
use crate::memory_slot_out::MemorySlotOut;
use crate::names::Dest;
use crate::outlet_in::OutletIn;
use crate::outlet_out::OutletOut;
use crate::sink::WriteAnswer;
use crate::slot_in::SlotIn;
use crate::slot_out::SlotOut;
use crate::source::ReadAnswer;
use crate::word_slot::{CountingWords, WordSlot};
use std::test::Fail;

const HOP: Dest = Dest {
    ip: [127, 0, 0, 1],
    port: 9001,
};

/// Reads from a slot: the answer, and the buffer then.
fn read_slot<I: SlotIn>(link: &mut I) -> (ReadAnswer, [u8; 4]) {
    let mut buffer = [0; 4];
    let answer = link.read(&mut buffer);
    (answer, buffer)
}

/// Reads from an outlet, the same.
fn read_outlet<I: OutletIn>(outlet: &mut I, session: u64) -> (ReadAnswer, [u8; 4]) {
    let mut buffer = [0; 4];
    let answer = outlet.read(session, &mut buffer);
    (answer, buffer)
}

#[test]
fn a_slot_runs_its_scripts_one_after_another(rt: HostRuntime) -> Result<(), Fail> {
    let mut scripts = Vec::new(rt.alloc());
    scripts.push(Script::sends(rt.alloc(), [9].to_vec(rt.alloc())?))?;
    scripts.push(Script::sends(rt.alloc(), [1, 2, 3].to_vec(rt.alloc())?))?;
    let failing_numbers = [0, 4, 6, 9].to_vec(rt.alloc())?;
    let mut link = MemorySlotIn::new(rt.alloc(), 5, scripts, 2, failing_numbers);
    assert_eq!(rt; link.accept(), DoorAnswer::Failed);
    assert_eq!(rt; read_slot(&mut link), (ReadAnswer::Failed, [0; 4]));
    assert_eq!(rt; link.accept(), DoorAnswer::Came(0));
    assert_eq!(rt; read_slot(&mut link), (ReadAnswer::Got(2), [1, 2, 0, 0]));
    assert_eq!(rt; read_slot(&mut link), (ReadAnswer::Failed, [0; 4]));
    assert_eq!(rt; read_slot(&mut link), (ReadAnswer::Got(1), [3, 0, 0, 0]));
    assert_eq!(rt; link.say(&[7, 8, 9]), WriteAnswer::Failed);
    assert_eq!(rt; link.say(&[7, 8, 9]), WriteAnswer::Took(2));
    assert_eq!(rt; link.greeting(), [7, 8].as_slice());
    assert_eq!(rt; read_slot(&mut link), (ReadAnswer::End, [0; 4]));
    link.end();
    assert_eq!(rt; link.dial(HOP), DoorAnswer::Failed);
    assert_eq!(rt; link.dial(HOP), DoorAnswer::Came(1));
    assert!(rt; link.greeting().is_empty());
    assert_eq!(rt; read_slot(&mut link), (ReadAnswer::Got(1), [9, 0, 0, 0]));
    assert_eq!(rt; link.dial(HOP), DoorAnswer::Refused);
    assert_eq!(rt; link.accept(), DoorAnswer::NoMore);
    Ok(())
}

#[test]
fn a_slot_takes_pieces_of_each_session(rt: HostRuntime) -> Result<(), Fail> {
    let mut link = MemorySlotOut::new(rt.alloc(), 5, 2, [1].to_vec(rt.alloc())?);
    assert_eq!(rt; link.write(0, &[1, 2, 3]), WriteAnswer::Took(2));
    assert_eq!(rt; link.write(0, &[3]), WriteAnswer::Failed);
    assert_eq!(rt; link.write(1, &[4]), WriteAnswer::Took(1));
    link.end(0);
    assert_eq!(rt; link.pieces().len(), 2);
    for (piece, (session, bytes)) in link
        .pieces()
        .iter()
        .zip([(0, [1, 2].as_slice()), (1, [4].as_slice())])
    {
        assert_eq!(rt; piece.session, session);
        assert_eq!(rt; piece.bytes.as_slice(), bytes);
    }
    Ok(())
}

#[test]
fn an_outlet_reaches_is_written_and_read(rt: HostRuntime) -> Result<(), Fail> {
    let other = Dest { port: 7, ..HOP };
    let refuses = [other].to_vec(rt.alloc())?;
    let failing_numbers = [1, 4].to_vec(rt.alloc())?;
    let mut outlet = MemoryOutletOut::new(rt.alloc(), 5, 2, refuses, failing_numbers);
    assert_eq!(rt; outlet.reach(HOP), DoorAnswer::Came(0));
    assert_eq!(rt; outlet.reach(HOP), DoorAnswer::Failed);
    assert_eq!(rt; outlet.reach(other), DoorAnswer::Refused);
    assert_eq!(rt; outlet.reach(HOP), DoorAnswer::Came(1));
    assert_eq!(rt; outlet.write(1, &[1]), WriteAnswer::Failed);
    assert_eq!(rt; outlet.write(1, &[1, 2, 3]), WriteAnswer::Took(2));
    outlet.end(1);
    for piece in outlet.pieces() {
        assert_eq!(rt; piece.session, 1);
        assert_eq!(rt; piece.bytes.as_slice(), [1, 2].as_slice());
    }

    let mut outlet = MemoryOutletIn::new(rt.alloc(), 5, 2, [1].to_vec(rt.alloc())?);
    outlet.add([1].to_vec(rt.alloc())?)?;
    outlet.add([2, 3, 4].to_vec(rt.alloc())?)?;
    for (session, answer, buffer) in [
        (1, ReadAnswer::Got(2), [2, 3, 0, 0]),
        (1, ReadAnswer::Failed, [0; 4]),
        (0, ReadAnswer::Got(1), [1, 0, 0, 0]),
        (1, ReadAnswer::Got(1), [4, 0, 0, 0]),
        (1, ReadAnswer::End, [0; 4]),
        (2, ReadAnswer::Failed, [0; 4]),
    ] {
        assert_eq!(rt; read_outlet(&mut outlet, session), (answer, buffer));
    }
    Ok(())
}

#[test]
fn words_are_drawn_one_after_another(rt: HostRuntime) -> Result<(), Fail> {
    let mut words = CountingWords::new();
    assert_eq!(rt; words.twenty(), [0; 20]);
    assert_eq!(rt; words.twenty(), [1; 20]);
    assert_eq!(rt; StandingClock { tick: 7 }.tick(), 7);
    OpenGate.pass(0, 1);
    Ok(())
}
