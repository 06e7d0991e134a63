//! Plays a tape from its source to its sink.
ghost use Rattle.std.specs.Prelude.{◌≡◌, ◌-◌, ◌≤◌, ℕ, [], List, Some, None, true, false, IfOk, OnOk, OnErr, map, length, string_bytes};
ghost use Rattle.circuit_model.specs.Rules.{Rules};
ghost use Rattle.switch_machine.specs.Machine.{new_state};
ghost use Rattle.tr_io.specs.Faults.{Rose};
ghost use Rattle.tape.specs.declared.record.Record.{Record};
ghost use Rattle.tape.specs.Causes.{is_tape_line, IsRunStatus};
ghost use Rattle.tape.specs.Input.{EndCause, IsTape};
ghost use Rattle.tr_io.specs.Output.{IsWritten, IsPartWritten};
ghost use Rattle.tape.specs.Jobs.{job_at};
ghost use Rattle.tape.specs.Playing.{HandedOn, Stopped, Broken};
ghost use Rattle.tape.specs.Runs.{cut_status, source_run, sink_run, EndsPlay, IsRun, IsGood, IsDone};
ghost use Rattle.tape.specs.Steps.{tape_start};
ghost use Rattle.tape.specs.TapeRules.{tape_rules, rules_and, rules_ahead};

use crate::input::{Ending, Input, read_tape};
use crate::player::Player;
use crate::reader::read_front;
use crate::record::Front;
use crate::rules::{RulesFront, TapeRules};
use crate::rules_reader::read_rules;
use std::alloc::Global;
use tr_io::output::{WriteFault, flush, write_all};
use tr_io::sink::Sink;
use tr_io::source::Source;
use tr_io::status::Status;

/// How many bytes of answers are gathered before they are written.
const MANY_ANSWERS: usize = 65_536;

/// Reads a tape from the source, makes the calls of its records one after another, and writes their
/// answers to the sink, where the words are the command line `tape`. It stops at the first status
/// other than `Done`; the answers of the whole records before it are written.
pub fn tape_main<S: Source, K: Sink>(
    alloc: Global,
    words: &[String],
    source: &mut S,
    sink: &mut K,
) -> Status
    ensures usage { is_tape_line (map string_bytes words.now) ≡ false → result ≡ Status.Usage }
    ensures unused { is_tape_line (map string_bytes words.now) ≡ false → (source.new ≡ source.old) × (sink.new ≡ sink.old) }
    ensures status { is_tape_line (map string_bytes words.now) ≡ true → IsRunStatus result }
    ensures read { result ≡ Status.ReadFault → Rose (S.faults source.old) (S.faults source.new) }
    ensures write { result ≡ Status.WriteFault → Rose (K.faults sink.old) (K.faults sink.new) }
    ensures run { is_tape_line (map string_bytes words.now) ≡ true → IsRun result
        (source_run (S.rest source.old) (S.faults source.old) (S.rest source.new) (S.faults source.new))
        (sink_run (K.written sink.old) (K.faults sink.old) (K.written sink.new) (K.flushed sink.new) (K.faults sink.new)) }
    ensures done { is_tape_line (map string_bytes words.now) ≡ true → (tape : List ℕ) (rules : Rules) (records : List Record)
        → IsGood tape rules records
        (source_run (S.rest source.old) (S.faults source.old) (S.rest source.new) (S.faults source.new))
        (sink_run (K.written sink.old) (K.faults sink.old) (K.written sink.new) (K.flushed sink.new) (K.faults sink.new)) →
        IsDone result rules records (sink_run (K.written sink.old) (K.faults sink.old) (K.written sink.new) (K.flushed sink.new) (K.faults sink.new)) }
{
    if !is_tape_line(words) {
        return Status::Usage;
    }
    match read_tape(alloc, source) {
        Ok(input) => play(alloc, &input, sink),
        Err(_) => Status::Memory,
    }
}

/// Whether the words are the command line `tape`.
fn is_tape_line(words: &[String]) -> bool
    ensures { result ≡ is_tape_line (map string_bytes words.now) }
{
    match words {
        [word] => word.as_str() == "tape",
        _ => false,
    }
}

/// Plays a tape whose bytes are read, under the rules that it says, and writes all of its answers.
fn play<K: Sink>(alloc: Global, input: &Input, sink: &mut K) -> Status
    ensures status { IsRunStatus result }
    ensures read { result ≡ Status.ReadFault → input.now.ending ≡ Ending.Fault }
    ensures write { result ≡ Status.WriteFault → Rose (K.faults sink.old) (K.faults sink.new) }
    ensures play { EndsPlay result input.now.ending input.now.bytes.items
        (sink_run (K.written sink.old) (K.faults sink.old) (K.written sink.new) (K.flushed sink.new) (K.faults sink.new)) }
{
    let tape = input.bytes.as_slice();
    match read_rules(tape) {
        RulesFront::Whole(rules, first) => play_under(alloc, &rules, input, first, sink),
        RulesFront::Cut => cut_status(input.ending, 0, tape),
        RulesFront::Bad => Status::BadTape(0),
    }
}

/// Plays the records of a tape with these rules, from the first one on, and writes all of its
/// answers.
fn play_under<K: Sink>(
    alloc: Global,
    rules: &TapeRules,
    input: &Input,
    first: &[u8],
    sink: &mut K,
) -> Status
    requires ahead { rules_and (tape_rules rules.now.window rules.now.least) first.now ≡ rules_ahead input.now.bytes.items }
    requires within { length first.now ≤ length input.now.bytes.items }
    ensures status { IsRunStatus result }
    ensures read { result ≡ Status.ReadFault → input.now.ending ≡ Ending.Fault }
    ensures write { result ≡ Status.WriteFault → Rose (K.faults sink.old) (K.faults sink.new) }
    ensures play { EndsPlay result input.now.ending input.now.bytes.items
        (sink_run (K.written sink.old) (K.faults sink.old) (K.written sink.new) (K.flushed sink.new) (K.faults sink.new)) }
{
    let Ok(mut player) = Player::new(alloc, rules) else {
        return Status::Memory;
    };
    let status = match play_records(&mut player, input, first, sink) {
        Ok(status) => status,
        Err(WriteFault) => return Status::WriteFault,
    };
    match write_rest(player.answers(), sink) {
        Ok(()) => status,
        Err(WriteFault) => Status::WriteFault,
    }
}

/// Plays the records one after another, from the first on, up to one that isn't whole. The last
/// answers stay gathered.
fn play_records<K: Sink>(
    player: &mut Player,
    input: &Input,
    first: &[u8],
    sink: &mut K,
) -> Result<Status, WriteFault>
    requires start { player.old.switch.start ≡ tape_start player.old.switch.start.rules }
    requires within { length first.now ≤ length input.now.bytes.items }
    requires state { player.old.switch.state ≡ new_state }
    requires relays { player.old.switch.relays ≡ [] }
    requires jobs { (claim : ℕ) → job_at player.old.jobs claim ≡ None }
    requires answers { player.old.answers.items ≡ [] }
    ensures status { IfOk result IsRunStatus }
    ensures read { IfOk result (λ status. status ≡ Status.ReadFault → input.now.ending ≡ Ending.Fault) }
    ensures written { IfOk result (λ status. ¬ (status ≡ Status.WriteFault)) }
    ensures counted { K.faults sink.old ≤ K.faults sink.new }
    ensures stopped { IfOk result
        (λ status. Stopped player.old.switch.start.rules status input.now.ending input.now.bytes.items first.now
        player.new.answers.items (K.written sink.old) (K.written sink.new)) }
    ensures broken { OnErr result
        (Broken player.old.switch.start.rules first.now (K.written sink.old) (K.written sink.new) (K.faults sink.old)
        (K.faults sink.new)) }
{
    let tape = input.bytes.as_slice();
    let mut rest = first;
    loop {
        let place = (tape.len() - rest.len()) as u64;
        let Ok(front) = read_front(player.alloc(), rest) else {
            return Ok(Status::Memory);
        };
        match front {
            Front::Whole(record, rest_bytes) => {
                let Ok(()) = player.play(record) else {
                    return Ok(Status::Memory);
                };
                rest = rest_bytes;
            }
            Front::Cut => return Ok(cut_status(input.ending, place, rest)),
            Front::Bad => return Ok(Status::BadTape(place)),
            Front::NotBuilt(kind) => return Ok(Status::NotBuilt(kind)),
        }
        hand_on(player, sink)?;
    }
}

/// The status where the bytes end inside the record at this place, or right behind the last one.
fn cut_status(ending: Ending, place: u64, rest: &[u8]) -> Status
    ensures { result ≡ cut_status ending place rest.now }
{
    match ending {
        Ending::End if rest.is_empty() => Status::Done,
        Ending::End => Status::BadTape(place),
        Ending::Fault => Status::ReadFault,
        Ending::Limit => Status::TooLong,
    }
}

/// Writes the gathered answers once they are many.
fn hand_on<K: Sink>(player: &mut Player, sink: &mut K) -> Result<(), WriteFault>
    ensures switch { player.new.switch ≡ player.old.switch }
    ensures jobs { player.new.jobs ≡ player.old.jobs }
    ensures counted { K.faults sink.old ≤ K.faults sink.new }
    ensures ok { OnOk result
        (HandedOn player.old.answers.items player.new.answers.items (K.written sink.old) (K.written sink.new)) }
    ensures err { OnErr result (IsPartWritten (K.written sink.old) player.old.answers.items (K.written sink.new)) }
    ensures cause { OnErr result (Rose (K.faults sink.old) (K.faults sink.new)) }
{
    if player.answers().len() < MANY_ANSWERS {
        return Ok(());
    }
    write_all(player.answers(), sink)?;
    player.forget_answers();
    Ok(())
}

/// Writes the last answers, and has the sink flush all of them.
fn write_rest<K: Sink>(answers: &[u8], sink: &mut K) -> Result<(), WriteFault>
    ensures counted { K.faults sink.old ≤ K.faults sink.new }
    ensures ok { OnOk result (IsWritten (K.written sink.old) answers.now (K.written sink.new)) }
    ensures flushed { OnOk result (K.flushed sink.new ≡ K.written sink.new) }
    ensures err { OnErr result (IsPartWritten (K.written sink.old) answers.now (K.written sink.new)) }
    ensures cause { OnErr result (Rose (K.faults sink.old) (K.faults sink.new)) }
{
    write_all(answers, sink)?;
    flush(sink)
}
