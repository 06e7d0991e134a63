// The jobs of a crypto worker.

ghost use Rattle.std.specs.Prelude.{◌≡◌, ℕ, ◌+◌, ◌*◌, ◌^◌, ◌<◌, ◌≤◌, length, IfOk, IfErr};
ghost use Rattle.crypto_spec.specs.Keystream.{keystream_part};
ghost use Rattle.hop_crypto.specs.Ciphers.{direction_of, key_of, position_of, IsOfLayer, IsWorked};
ghost use Rattle.hop_crypto.specs.Jobs.{IsJob, IsDoneJob};

use crate::cipher::Cipher;
use crate::parts::{DoneParts, JobParts};
use crate::ready::ReadyCipher;
use cell_codec::List;
use relay_cell::Opened;
use std::alloc::Global;
use std::marker::Model;
use tr_io::names::ClaimNote;

/// One direction's cipher with 1 to 32 bodies that wait for it, and room for what comes out. It must
/// be spent: by `work`, by `apart`, or by handing it to the switch that gave it.
///
/// Contracts see its parts.
pub struct Job {
    parts: JobParts,
    room: List<Opened>,
}

impl Model for Job {
    ghost use Rattle.hop_crypto.specs.declared.parts.JobParts.{JobParts};
    ghost use Rattle.hop_crypto.specs.Jobs.{HasOutputRoom};

    ghost Value = { JobParts };

    ghost view = { λ job. job.parts };

    ghost invariant = { λ job. HasOutputRoom job.parts job.room };
}

/// A job that was worked: its type keeps that output and end state are what the standard gives for
/// start state and input, and that 1,024 bytes of the end state's keystream are made ahead. It must be
/// spent, by `apart` or by handing it to the switch.
///
/// Contracts see its parts.
pub struct Done {
    note: ClaimNote,
    start: Cipher,
    input: List<[u8; 509]>,
    end: ReadyCipher,
    output: List<Opened>,
}

impl Model for Done {
    ghost use Rattle.hop_crypto.specs.declared.parts.DoneParts.{DoneParts};
    ghost use Rattle.hop_crypto.specs.Jobs.{IsDoneJob};

    ghost Value = { DoneParts };

    ghost view = { λ done. record { note = done.note; start = done.start; input = done.input; end = done.end; output = done.output } };

    ghost invariant = { λ done. IsDoneJob (record { note = done.note; start = done.start; input = done.input; end = done.end; output = done.output }) };
}

impl Job {
    /// The job of a claim. Where there is no memory for what comes out, the parts are handed back.
    pub fn of(
        alloc: Global,
        note: ClaimNote,
        cipher: Cipher,
        bodies: List<[u8; 509]>,
    ) -> Result<Job, JobParts>
        requires direction { note.dir ≡ direction_of cipher }
        requires count { note.count ≡ length bodies.items }
        requires some { 1 ≤ length bodies.items }
        requires most { length bodies.items ≤ 32 }
        requires position { position_of cipher + 509 * length bodies.items < 2 ^ 90 }
        ensures ok { IfOk result (λ job. job ≡ record { note = note; cipher = cipher; bodies = bodies }) }
        ensures err { IfErr result (λ parts. parts ≡ record { note = note; cipher = cipher; bodies = bodies }) }
    {
        let parts = JobParts {
            note,
            cipher,
            bodies,
        };
        match List::with_room(alloc, note.count) {
            Ok(room) => Ok(Job { parts, room }),
            Err(_) => Err(parts),
        }
    }

    /// Which claim it is.
    pub fn note(&self) -> ClaimNote
        ensures { result ≡ self.now.note }
    {
        self.parts.note
    }

    /// The parts.
    pub fn apart(self) -> JobParts
        ensures parts { result ≡ self }
        ensures job { IsJob result }
    {
        let Job { parts, room: _ } = self;
        parts
    }
}

impl Done {
    /// Which claim it is.
    pub fn note(&self) -> ClaimNote
        ensures { result ≡ self.now.note }
    {
        self.note
    }

    /// The keystream that is made ahead: the 1,024 bytes that the cipher behind the last body uses next.
    pub fn ahead(&self) -> &[u8]
        ensures next { result.now ≡ keystream_part (key_of self.now.end) (position_of self.now.end) 1024 }
        ensures long { length result.now ≡ 1024 }
    {
        self.end.ahead()
    }

    /// The parts. One thing came out of each body, the direction stayed, and the keystream went on.
    pub fn apart(self) -> DoneParts
        ensures parts { result ≡ self }
        ensures done { IsDoneJob result }
        ensures many { length result.output.items ≡ length result.input.items }
        ensures direction { direction_of result.end ≡ direction_of result.start }
        ensures position { position_of result.end ≡ position_of result.start + 509 * length result.input.items }
    {
        let Done {
            note,
            start,
            input,
            end,
            output,
        } = self;
        DoneParts {
            note,
            start,
            input,
            end: end.cipher(),
            output,
        }
    }
}

/// Lets the job's bodies go through its cipher, and makes the keystream of the bodies that follow ahead.
pub fn work(job: Job) -> Done
    ensures note { result.note ≡ job.note }
    ensures start { result.start ≡ job.cipher }
    ensures input { result.input ≡ job.bodies }
    ensures layer { IsOfLayer job.cipher }
    ensures worked { IsWorked job.cipher job.bodies.items result.output.items result.end }
{
    let Job {
        parts,
        room: mut output,
    } = job;
    let JobParts {
        note,
        cipher,
        bodies,
    } = parts;
    let mut end = cipher.copy();
    for body in bodies.as_slice() {
        output.push_reserved(end.pass(body));
    }
    Done {
        note,
        start: cipher,
        input: bodies,
        end: ReadyCipher::of(end),
        output,
    }
}
