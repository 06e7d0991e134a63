//! The program's exit number and its words on standard error, for each end but an input that is too long.
ghost use Rattle.std.specs.Prelude.{◌≤◌};

use crate::program::{end_program, end_without_words, run_program};
use std::alloc::{AllocError, Global};
use std::io;
use std::test::Fail;
use tr_io::memory::{MemorySink, MemorySource};

/// What a run of the program gave.
#[derive(Drop)]
struct End {
    number: u8,
    output: MemorySink,
    errors: MemorySink,
}

/// Runs the program with these words, a line each, over this tape. The reads, the writes and the
/// writes of standard error with the listed numbers fail.
fn run(
    alloc: Global,
    words: &str,
    tape: &[u8],
    reads: &[u64],
    writes: &[u64],
    errors: &[u64],
) -> Result<End, AllocError> {
    let mut all = Vec::new(alloc);
    for word in words.lines() {
        all.push(String::from_str(alloc, word)?)?;
    }
    let mut source = MemorySource::new(tape.to_vec(alloc)?, 4096, reads.to_vec(alloc)?);
    let mut output = MemorySink::new(alloc, 4096, writes.to_vec(alloc)?);
    let mut errors = MemorySink::new(alloc, 16, errors.to_vec(alloc)?);
    let number = run_program(alloc, &all, &mut source, &mut output, &mut errors);
    Ok(End {
        number,
        output,
        errors,
    })
}

const UP: [u8; 6] = [1, 0, 0, 0, 0, 0];

#[test]
fn each_end_has_its_number_and_is_said(rt: HostRuntime) -> Result<(), Fail> {
    let usage = "tor_relay: usage\ntape | gen COUNT SEED | serve PATH\n";
    for (words, tape, reads, writes, number, said) in [
        ("tape", &UP[..], &[][..], &[][..], 0, ""),
        ("gen\n1\n0", &UP, &[], &[], 1, usage),
        ("", &UP, &[], &[], 1, usage),
        ("tape\ntape", &UP, &[], &[], 1, usage),
        ("Tape", &UP, &[], &[], 1, usage),
        ("tape", &UP, &[1], &[], 3, "tor_relay: read fault\n"),
        ("tape", &UP, &[], &[0], 4, "tor_relay: write fault\n"),
        ("tape", &UP[..5], &[], &[], 5, "tor_relay: bad tape at 0\n"),
        ("tape", &[2], &[], &[], 6, "tor_relay: kind 2 not built\n"),
    ] {
        let end = run(rt.alloc(), words, tape, reads, writes, &[])?;
        assert_eq!(rt; end.number, number, "{words}");
        assert_eq!(rt; end.errors.as_slice(), said.as_bytes(), "{words}");
    }
    Ok(())
}

#[test]
fn all_answers_are_flushed(rt: HostRuntime) -> Result<(), Fail> {
    let end = run(rt.alloc(), "tape", &UP, &[], &[], &[])?;
    assert_eq!(rt;
        end.output.as_slice(),
        [1, 0, 0, 0, 0, 0, 0, 0, 0, 0].as_slice()
    );
    assert_eq!(rt; end.output.flushed(), end.output.as_slice());
    Ok(())
}

/// The number stays where standard error fails.
#[test]
fn a_fault_of_standard_error_is_passed_over(rt: HostRuntime) -> Result<(), Fail> {
    let end = run(rt.alloc(), "", &UP, &[], &[], &[1])?;
    assert_eq!(rt; end.number, 1);
    assert_eq!(rt; end.errors.as_slice(), b"tor_relay: usage".as_slice());
    Ok(())
}

/// Arguments that aren't text are no command line.
#[test]
fn words_that_cannot_be_told_end_the_program(rt: HostRuntime) -> Result<(), Fail> {
    for (kind, number) in [
        (io::ErrorKind::InvalidData, 1),
        (io::ErrorKind::OutOfMemory, 10),
    ] {
        let mut errors = MemorySink::new(rt.alloc(), 1, Vec::new(rt.alloc()));
        let status = end_without_words(&io::Error::from(kind));
        assert_eq!(rt; end_program(status, &mut errors), number);
        assert!(rt; !errors.as_slice().is_empty());
    }
    Ok(())
}
