//! The whole program over its outside: arguments, source, sink and standard error.
ghost use Rattle.std.specs.Prelude.{◌≡◌, ◌⊎◌, ◌≤◌, ◌+◌, ◌++◌, map, length, string_bytes};
ghost use Rattle.tr_io.specs.Statuses.{number_text};
ghost use Rattle.std.specs.IoError.{error_kind};
ghost use Rattle.tor_relay.specs.Program.{message, end_message, usage_line, wordless_end, IsSaid, Tells, IsProgramRun};
ghost use Rattle.tape.specs.Runs.{source_run, sink_run};

use arrayvec::ArrayString;
use itoa::Buffer;
use std::alloc::Global;
use std::io;
use tape::tape_main;
use tr_io::output::write_all;
use tr_io::sink::Sink;
use tr_io::source::Source;
use tr_io::status::Status;

/// The command lines, as they are said behind `usage`.
const USAGE: &str = "tape | gen COUNT SEED | serve PATH\n";

/// The most bytes that are said of an end.
const MOST_SAID: usize = 160;

/// Runs the command line that these words are, says on standard error how it ended, and gives the
/// number that the program exits with.
pub fn run_program<S: Source, K: Sink, E: Sink>(
    alloc: Global,
    words: &[String],
    source: &mut S,
    sink: &mut K,
    errors: &mut E,
) -> u8
    ensures { IsProgramRun (map string_bytes words.now) result source.old source.new sink.old sink.new
        (source_run (S.rest source.old) (S.faults source.old) (S.rest source.new) (S.faults source.new))
        (sink_run (K.written sink.old) (K.faults sink.old) (K.written sink.new) (K.flushed sink.new) (K.faults sink.new))
        (sink_run (E.written errors.old) (E.faults errors.old) (E.written errors.new) (E.flushed errors.new) (E.faults errors.new)) }
{
    let status = tape_main(alloc, words, source, sink);
    end_program(status, errors)
}

/// Says how the program ended, and gives the number that it exits with.
pub fn end_program<E: Sink>(status: Status, errors: &mut E) -> u8
    ensures { Tells result status
        (sink_run (E.written errors.old) (E.faults errors.old) (E.written errors.new) (E.flushed errors.new)
        (E.faults errors.new)) }
{
    report(status, errors);
    status.number()
}

/// How the program ends whose words can't be told: they are no command line, or memory is wanting
/// for them.
pub fn end_without_words(error: &io::Error) -> Status
    ensures { result ≡ wordless_end (error_kind error.now) }
{
    match error.kind() {
        io::ErrorKind::OutOfMemory => Status::Memory,
        _ => Status::Usage,
    }
}

/// Says how the program ended, unless all was done. A fault of standard error is passed over.
#[tactic(auto, using(crate::proofs::Programs::says_nothing))]
fn report<E: Sink>(status: Status, errors: &mut E)
    ensures { IsSaid (message status)
        (sink_run (E.written errors.old) (E.faults errors.old) (E.written errors.new) (E.flushed errors.new)
        (E.faults errors.new)) }
{
    match status {
        Status::Done => {}
        _ => say(end_message(status).as_str(), errors),
    }
}

/// Writes a text, as far as it can be.
fn say<E: Sink>(text: &str, errors: &mut E)
    ensures { IsSaid text.now
        (sink_run (E.written errors.old) (E.faults errors.old) (E.written errors.new) (E.flushed errors.new)
        (E.faults errors.new)) }
{
    let _ = write_all(text.as_bytes(), errors);
}

/// The program's name and how it ended, with the command lines behind `usage`.
fn end_message(status: Status) -> ArrayString<MOST_SAID>
    ensures { result.bytes ≡ end_message status }
{
    let phrase = status.phrase();
    let mut text = ArrayString::new();
    text.push_str("tor_relay: ");
    text.push_str(phrase.front);
    push_number(&mut text, phrase.number);
    text.push_str(phrase.tail);
    text.push_str("\n");
    text.push_str(usage_line(status));
    text
}

/// Appends a number in decimal, if there is one.
fn push_number(text: &mut ArrayString<MOST_SAID>, number: Option<u64>)
    requires { length text.old.bytes + 20 ≤ 160 }
    ensures bytes { text.new.bytes ≡ text.old.bytes ++ number_text number }
    ensures length { length text.new.bytes ≤ length text.old.bytes + 20 }
{
    if let Some(number) = number {
        let mut digits = Buffer::new();
        text.push_str(digits.format(number));
    }
}

/// The command lines, where the program ends with `usage`.
fn usage_line(status: Status) -> &'static str
    ensures text { result.now ≡ usage_line status }
    ensures short { length result.now ≤ 40 }
{
    match status {
        Status::Usage => USAGE,
        _ => "",
    }
}
