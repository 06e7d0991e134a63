//! Makes the calls of a tape's records, and gathers their answers.
ghost use Rattle.std.specs.Prelude.{◌≡◌, ℕ, ◌+◌, ◌<◌, ◌≤◌, ◌^◌, [], None, IfOk, OnOk, OnErr};
ghost use Rattle.circ_relay.specs.Values.{rules_of};
ghost use Rattle.switch_machine.specs.Machine.{new_state};
ghost use Rattle.tape.specs.declared.record.Record.TheVariants.{Claim, GiveBack, Abandon};
ghost use Rattle.tape.specs.Fronts.{bare, MeetsCall};
ghost use Rattle.tape.specs.Jobs.{job_at};
ghost use Rattle.tape.specs.Playing.{player_state, PlaysOn};
ghost use Rattle.tape.specs.Steps.{tape_start};
ghost use Rattle.tape.specs.TapeRules.{tape_rules};

use crate::job_calls::{abandon_job, claim_job, give_back_job};
use crate::jobs::Jobs;
use crate::kinds::channel_up::write_up;
use crate::kinds::claim::write_claim;
use crate::kinds::dial_order::write_dial_order;
use crate::kinds::next_cell::write_next;
use crate::kinds::open_circuit::{opening_kind, write_open};
use crate::kinds::returns::write_return;
use crate::kinds::take::write_take;
use crate::kinds::tear_down::write_tear_down;
use crate::record::Record;
use crate::rules::TapeRules;
use cell_codec::{Bytes, List};
use circ_relay::{Allow, Rules};
use hop_handshake::{FastHandshake, opening_of};
use std::alloc::{AllocError, Global};
use switch_core::Switch;
use tr_io::answers::{OpenAnswer, TakeAnswer, UpAnswer};
use tr_io::names::Dest;

/// A switch that a tape is played on, the jobs that the tape keeps, and the answers that aren't written
/// yet.
#[derive(Drop)]
pub struct Player {
    alloc: Global,
    switch: Switch,
    jobs: Jobs,
    answers: Vec<u8>,
}

impl Player {
    /// A player over the tape's switch: its name is 0, and it has the tape's rules. It keeps no job.
    pub fn new(alloc: Global, rules: &TapeRules) -> Result<Player, AllocError>
        ensures start { IfOk result (λ p. p.switch.start ≡ tape_start (tape_rules rules.now.window rules.now.least)) }
        ensures state { IfOk result (λ p. p.switch.state ≡ new_state) }
        ensures relays { IfOk result (λ p. p.switch.relays ≡ []) }
        ensures jobs { IfOk result (λ p. (claim : ℕ) → job_at p.jobs claim ≡ None) }
        ensures answers { IfOk result (λ p. p.answers.items ≡ []) }
    {
        Ok(Player {
            alloc,
            switch: Switch::new(alloc, 0, switch_rules(alloc, rules)?)?,
            jobs: Jobs::new(alloc),
            answers: Vec::new(alloc),
        })
    }

    /// The allocator of its switch.
    pub fn alloc(&self) -> Global {
        self.alloc
    }

    /// The answers that aren't written yet.
    pub fn answers(&self) -> &[u8]
        ensures { result.now ≡ self.now.answers.items }
    {
        self.answers.as_slice()
    }

    /// Forgets the answers, once they are written.
    pub fn forget_answers(&mut self)
        ensures switch { self.new.switch ≡ self.old.switch }
        ensures jobs { self.new.jobs ≡ self.old.jobs }
        ensures answers { self.new.answers.items ≡ [] }
    {
        self.answers.clear();
    }

    /// Makes a record's call, and gathers its answer. Where memory is wanting, the answers before
    /// it stay.
    pub fn play(&mut self, record: Record) -> Result<(), AllocError>
        requires start { self.old.switch.start ≡ tape_start self.old.switch.start.rules }
        requires steps { self.old.switch.state.steps < 2 ^ 62 }
        requires meets { MeetsCall «record» }
        ensures start { self.new.switch.start ≡ self.old.switch.start }
        ensures steps { self.new.switch.state.steps ≤ self.old.switch.state.steps + 1 }
        ensures ok { OnOk result (PlaysOn self.old.switch.start.rules (bare «record»)
            (player_state self.old.switch self.old.jobs) (player_state self.new.switch self.new.jobs)
            self.old.answers.items self.new.answers.items) }
        ensures err { OnErr result (self.new.answers.items ≡ self.old.answers.items) }
    {
        match record {
            Record::ChannelUp(slot, side) => match self.switch.channel_up(slot, side) {
                UpAnswer::Memory => Err(AllocError),
                answer => write_up(answer, &mut self.answers),
            },
            Record::OpenCircuit(chan, y, pad, request) => {
                let cell = request.cell();
                let opening = opening_of(self.alloc, &cell, &FastHandshake, &y, pad)?;
                match self.switch.open_circuit(chan, cell.circ, &opening) {
                    OpenAnswer::Memory => Err(AllocError),
                    answer => write_open(opening_kind(pad), answer, &mut self.answers),
                }
            }
            Record::Take(chan, cell) => match self.switch.take(chan, &cell) {
                TakeAnswer::Memory => Err(AllocError),
                answer => write_take(answer, &mut self.answers),
            },
            Record::Claim(worker) => self.claim(worker),
            Record::GiveBack(number) => self.give_back(number),
            Record::Abandon(number) => self.abandon(number),
            Record::NextCell(chan, tick) => {
                let answer = self.switch.next_cell(chan, tick);
                write_next(&answer, &mut self.answers)
            }
            Record::DialOrder => {
                let answer = self.switch.dial_order();
                write_dial_order(answer, &mut self.answers)
            }
            Record::TearDown(circ, reason) => {
                let answer = self.switch.tear_down(circ, reason);
                write_tear_down(answer, &mut self.answers)
            }
        }
    }
}

impl Player {
    /// A worker claims a job, which is kept until it is given back or abandoned.
    fn claim(&mut self, worker: u32) -> Result<(), AllocError>
        requires start { self.old.switch.start ≡ tape_start self.old.switch.start.rules }
        requires steps { self.old.switch.state.steps < 2 ^ 62 }
        requires worker { worker < 64 }
        ensures start { self.new.switch.start ≡ self.old.switch.start }
        ensures steps { self.new.switch.state.steps ≤ self.old.switch.state.steps + 1 }
        ensures ok { OnOk result (PlaysOn self.old.switch.start.rules (Claim worker)
            (player_state self.old.switch self.old.jobs) (player_state self.new.switch self.new.jobs)
            self.old.answers.items self.new.answers.items) }
        ensures err { OnErr result (self.new.answers.items ≡ self.old.answers.items) }
    {
        let note = claim_job(&mut self.switch, &mut self.jobs, worker)?;
        write_claim(note, &mut self.answers)
    }

    /// The job of this claim is worked and given back.
    fn give_back(&mut self, number: u64) -> Result<(), AllocError>
        requires start { self.old.switch.start ≡ tape_start self.old.switch.start.rules }
        requires steps { self.old.switch.state.steps < 2 ^ 62 }
        ensures start { self.new.switch.start ≡ self.old.switch.start }
        ensures steps { self.new.switch.state.steps ≤ self.old.switch.state.steps + 1 }
        ensures ok { OnOk result (PlaysOn self.old.switch.start.rules (GiveBack number)
            (player_state self.old.switch self.old.jobs) (player_state self.new.switch self.new.jobs)
            self.old.answers.items self.new.answers.items) }
        ensures err { OnErr result (self.new.answers.items ≡ self.old.answers.items) }
    {
        let answer = give_back_job(&mut self.switch, &mut self.jobs, number);
        write_return(0x06, answer, &mut self.answers)
    }

    /// The job of this claim is given back undone.
    fn abandon(&mut self, number: u64) -> Result<(), AllocError>
        requires start { self.old.switch.start ≡ tape_start self.old.switch.start.rules }
        requires steps { self.old.switch.state.steps < 2 ^ 62 }
        ensures start { self.new.switch.start ≡ self.old.switch.start }
        ensures steps { self.new.switch.state.steps ≤ self.old.switch.state.steps + 1 }
        ensures ok { OnOk result (PlaysOn self.old.switch.start.rules (Abandon number)
            (player_state self.old.switch self.old.jobs) (player_state self.new.switch self.new.jobs)
            self.old.answers.items self.new.answers.items) }
        ensures err { OnErr result (self.new.answers.items ≡ self.old.answers.items) }
    {
        let answer = abandon_job(&mut self.switch, &mut self.jobs, number);
        write_return(0x07, answer, &mut self.answers)
    }
}

/// The switch's rules: those of the tape, and `echo.test`, port 7, leads to 127.0.0.1, port 7.
fn switch_rules(alloc: Global, rules: &TapeRules) -> Result<Rules, AllocError>
    ensures { IfOk result (λ r. rules_of r ≡ tape_rules rules.now.window rules.now.least) }
{
    let mut allow = List::new(alloc);
    allow.push(Allow {
        host: Bytes::of(alloc, b"echo.test")?,
        port: 7,
        to: Dest {
            ip: [127, 0, 0, 1],
            port: 7,
        },
    })?;
    Ok(Rules {
        allow,
        window: rules.window,
        least: rules.least,
    })
}
