//! Tapes whose bytes begin no record, or end inside one.
use super::{UP, answers, front, play_tape, put, tape, tape_of};
use std::test::Fail;
use tr_io::status::Status;

#[test]
fn a_cut_tape_is_bad_at_its_last_record(rt: HostRuntime) -> Result<(), Fail> {
    let tape = tape(rt.alloc(), [0x80, 0, 0, 1])?;
    let answers = answers(rt.alloc())?;
    for (length, status, written) in [
        (3, Status::BadTape(0), 0),
        (6, Status::Done, 10),
        (7, Status::BadTape(6), 10),
        (100, Status::BadTape(6), 10),
        (548, Status::BadTape(6), 10),
        (549, Status::Done, 20),
        (565, Status::BadTape(549), 20),
    ] {
        let run = play_tape(rt.alloc(), front(tape.as_slice(), length)?, 4096, &[], &[])?;
        assert_eq!(rt; run.status, status);
        assert_eq!(rt; run.sink.as_slice(), front(answers.as_slice(), written)?);
    }
    Ok(())
}

#[test]
fn bytes_that_begin_no_built_record_end_the_tape(rt: HostRuntime) -> Result<(), Fail> {
    for (record, status) in [
        // No kind, a side and a worker that are none, records that are cut, kinds that aren't built.
        ([0x00, 0, 0, 0, 0, 0], Status::BadTape(6)),
        ([0x11, 0, 0, 0, 0, 0], Status::BadTape(6)),
        ([0xff, 0, 0, 0, 0, 0], Status::BadTape(6)),
        ([0x01, 0, 0, 0, 0, 2], Status::BadTape(6)),
        ([0x02, 0, 0, 0, 0, 0], Status::NotBuilt(2)),
        ([0x04, 0, 0, 0, 0, 0], Status::BadTape(6)),
        ([0x05, 0, 0, 0, 64, 0], Status::BadTape(6)),
        ([0x07, 0, 0, 0, 0, 0], Status::BadTape(6)),
        ([0x09, 0, 0, 0, 0, 0], Status::NotBuilt(9)),
        ([0x0b, 0, 0, 0, 0, 0], Status::NotBuilt(11)),
        ([0x0d, 0, 0, 0, 0, 0], Status::NotBuilt(13)),
        ([0x0e, 0, 0, 0, 0, 0], Status::BadTape(6)),
    ] {
        let mut tape = Vec::new(rt.alloc());
        put(&mut tape, &[1, 0, 0, 0, 0, 0])?;
        put(&mut tape, &record)?;
        let run = play_tape(rt.alloc(), tape.as_slice(), 4096, &[], &[])?;
        assert_eq!(rt; run.status, status);
        assert_eq!(rt; run.sink.as_slice(), UP.as_slice());
    }
    Ok(())
}

#[test]
fn openings_by_other_commands_end_the_tape(rt: HostRuntime) -> Result<(), Fail> {
    for command in [0, 2, 3, 4, 6, 9, 11, 255] {
        let tape = tape_of(rt.alloc(), [0x80, 0, 0, 1], command, [0; 4])?;
        let run = play_tape(rt.alloc(), tape.as_slice(), 4096, &[], &[])?;
        assert_eq!(rt; run.status, Status::BadTape(6));
        assert_eq!(rt; run.sink.as_slice(), UP.as_slice());
    }
    // The cell of an opening is cut.
    for command in [1, 5, 10] {
        let tape = tape_of(rt.alloc(), [0x80, 0, 0, 1], command, [0; 4])?;
        let run = play_tape(rt.alloc(), front(tape.as_slice(), 548)?, 4096, &[], &[])?;
        assert_eq!(rt; run.status, Status::BadTape(6));
    }
    Ok(())
}
