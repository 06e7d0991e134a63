//! Tapes with rules in front.
use super::{answers, front, play_tape, put, tape};
use std::test::Fail;
use tr_io::status::Status;

/// A tape with rules in front gives what it gives without them, as long as no circuit packages so
/// many DATA cells.
#[test]
fn rules_have_no_answer(rt: HostRuntime) -> Result<(), Fail> {
    let plain = tape(rt.alloc(), [0x80, 0, 0, 1])?;
    let answers = answers(rt.alloc())?;
    for rules in [
        [0x10, 0, 100, 0, 0],
        [0x10, 0, 100, 1, 0],
        [0x10, 3, 232, 0, 0],
        [0x10, 3, 232, 1, 0],
    ] {
        let run = play_tape(rt.alloc(), &rules, 4096, &[], &[])?;
        assert_eq!(rt; run.status, Status::Done);
        assert!(rt; run.sink.as_slice().is_empty());
        let mut tape = Vec::new(rt.alloc());
        put(&mut tape, &rules)?;
        put(&mut tape, plain.as_slice())?;
        let run = play_tape(rt.alloc(), tape.as_slice(), 4096, &[], &[])?;
        assert_eq!(rt; run.status, Status::Done);
        assert_eq!(rt; run.sink.as_slice(), answers.as_slice());
    }
    Ok(())
}

#[test]
fn rules_out_of_range_end_the_tape(rt: HostRuntime) -> Result<(), Fail> {
    for rules in [
        // A window of 99, of 1001, of 65535; version 2; a last byte other than 0.
        [0x10, 0, 0x63, 0, 0],
        [0x10, 3, 233, 1, 0],
        [0x10, 255, 255, 1, 0],
        [0x10, 0, 100, 2, 0],
        [0x10, 0, 100, 1, 1],
    ] {
        let run = play_tape(rt.alloc(), &rules, 4096, &[], &[])?;
        assert_eq!(rt; run.status, Status::BadTape(0));
        assert!(rt; run.sink.as_slice().is_empty());
    }
    Ok(())
}

#[test]
fn rules_are_whole_and_stand_first(rt: HostRuntime) -> Result<(), Fail> {
    let twice = [0x10, 0, 100, 0, 0, 0x10, 0, 100, 0, 0];
    for (length, status) in [
        (1, Status::BadTape(0)),
        (4, Status::BadTape(0)),
        (5, Status::Done),
        (6, Status::BadTape(5)),
        (10, Status::BadTape(5)),
    ] {
        let run = play_tape(rt.alloc(), front(&twice, length)?, 4096, &[], &[])?;
        assert_eq!(rt; run.status, status);
        assert!(rt; run.sink.as_slice().is_empty());
    }
    // The second read, which begins inside the rules, fails.
    let run = play_tape(rt.alloc(), &twice, 3, &[1], &[])?;
    assert_eq!(rt; run.status, Status::ReadFault);
    Ok(())
}
