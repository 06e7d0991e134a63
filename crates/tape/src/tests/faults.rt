//! Sources and sinks that fail, and command lines that are none.
use super::{answers, front, play_tape, tape};
use crate::tape_main;
use std::alloc::{AllocError, Global};
use std::test::Fail;
use tr_io::memory::{MemorySink, MemorySource};
use tr_io::status::Status;

/// The tape of 566 bytes is read in seven pieces of up to 100 bytes, and an eighth read finds its
/// end. The answers of the records that were read whole are written.
#[test]
fn a_fault_at_any_read_ends_the_tape(rt: HostRuntime) -> Result<(), Fail> {
    let tape = tape(rt.alloc(), [0x80, 0, 0, 1])?;
    let answers = answers(rt.alloc())?;
    for (read, written) in [(0, 0), (1, 10), (4, 10), (5, 10), (6, 536)] {
        let run = play_tape(rt.alloc(), tape.as_slice(), 100, &[read], &[])?;
        assert_eq!(rt; run.status, Status::ReadFault);
        assert_eq!(rt; run.sink.as_slice(), front(answers.as_slice(), written)?);
    }
    let run = play_tape(rt.alloc(), tape.as_slice(), 100, &[7], &[])?;
    assert_eq!(rt; run.status, Status::Done);
    Ok(())
}

/// The 536 bytes of the answers are written in six pieces of up to 100 bytes, and then sent on.
#[test]
fn a_fault_at_any_write_ends_the_tape(rt: HostRuntime) -> Result<(), Fail> {
    let tape = tape(rt.alloc(), [0x80, 0, 0, 1])?;
    let answers = answers(rt.alloc())?;
    for (write, written) in [(0, 0), (1, 100), (5, 500), (6, 536)] {
        let run = play_tape(rt.alloc(), tape.as_slice(), 100, &[], &[write])?;
        assert_eq!(rt; run.status, Status::WriteFault);
        assert_eq!(rt; run.sink.as_slice(), front(answers.as_slice(), written)?);
    }
    let run = play_tape(rt.alloc(), tape.as_slice(), 100, &[], &[7])?;
    assert_eq!(rt; run.status, Status::Done);
    Ok(())
}

/// The status of these words, a line each, over a tape that would begin a record.
fn status_of(alloc: Global, text: &str) -> Result<Status, AllocError> {
    let mut words = Vec::new(alloc);
    for word in text.lines() {
        words.push(String::from_str(alloc, word)?)?;
    }
    let mut source = MemorySource::new([1, 0].to_vec(alloc)?, 1, Vec::new(alloc));
    let mut sink = MemorySink::new(alloc, 1, Vec::new(alloc));
    Ok(tape_main(alloc, words.as_slice(), &mut source, &mut sink))
}

#[test]
fn other_words_are_no_command_line(rt: HostRuntime) -> Result<(), Fail> {
    assert_eq!(rt; status_of(rt.alloc(), "tape")?, Status::BadTape(0));
    assert_eq!(rt; status_of(rt.alloc(), "")?, Status::Usage);
    assert_eq!(rt; status_of(rt.alloc(), "Tape")?, Status::Usage);
    assert_eq!(rt; status_of(rt.alloc(), "tape\ntape")?, Status::Usage);
    assert_eq!(rt; status_of(rt.alloc(), "gen\n1\n0")?, Status::Usage);
    Ok(())
}
