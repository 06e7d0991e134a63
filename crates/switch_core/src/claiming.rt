//! Claims of workers: the job of a claim has its direction's cipher and the bodies that wait there first.
ghost use Rattle.std.specs.Prelude.{◌≡◌, ◌<◌, ◌^◌, ⊤, IfOk, IsSome};
ghost use Rattle.tr_io.specs.PortSteps.{IfJob};
ghost use Rattle.switch_machine.specs.Calls.Claim.{claim_result, claim_state};
ghost use Rattle.switch_machine.specs.State.{slot_at};
ghost use Rattle.switch_core.specs.Claiming.{Carries, ClaimCase, HasCipher, MayClaim, RelaysServe, given_note};

pub(crate) mod slots;

use crate::parts::Parts;
use crate::relay::Relay;
use hop_crypto::{Cipher, Job};
use std::alloc::AllocError;
use tr_io::answers::ClaimAnswer;
use tr_io::names::ClaimNote;

/// A worker claims a job: the direction whose first waiting body has the least number gives up to 32.
pub fn claim_job(
    parts: &mut Parts,
    relays: &Vec<Option<Relay>>,
    switch: u64,
    worker: u32,
) -> ClaimAnswer<Job>
    requires steps { parts.old.steps < 2 ^ 62 }
    requires relays { RelaysServe relays.now.items parts.old.circuits }
    ensures state { ClaimCase result (parts.new ≡ parts.old) (parts.new ≡ claim_state switch parts.old worker) }
    ensures answer { ClaimCase result ⊤ (given_note result ≡ claim_result switch parts.old worker) }
    ensures job { IfJob (Carries relays.now.items parts.old) result }
{
    let Some(note) = parts.next_claim(switch, worker) else {
        parts.give_nothing();
        return ClaimAnswer::Nothing;
    };
    let Ok(job) = job_of(parts, relays, note) else {
        return ClaimAnswer::Memory;
    };
    if parts.give_out(note).is_err() {
        let _ = job.apart();
        return ClaimAnswer::Memory;
    }
    ClaimAnswer::Job(job)
}

/// The job of a claim that may be made.
fn job_of(parts: &Parts, relays: &Vec<Option<Relay>>, note: ClaimNote) -> Result<Job, AllocError>
    requires claim { MayClaim (slot_at parts.now.circuits note.circ.0) note }
    requires fits { note.first < 2 ^ 64 }
    requires relays { RelaysServe relays.now.items parts.now.circuits }
    ensures note { IfOk result (λ job. job.note ≡ note) }
    ensures carries { IfOk result (Carries relays.now.items parts.now) }
{
    let bodies = parts.bodies_of(note)?;
    let cipher = cipher_of(&relays[note.circ.0 as usize], note);
    match Job::of(parts.alloc(), note, cipher, bodies) {
        Ok(job) => Ok(job),
        Err(_) => Err(AllocError),
    }
}

/// A copy of the cipher that a claim takes out. The relay keeps its own until the job comes home.
fn cipher_of(slot: &Option<Relay>, note: ClaimNote) -> Cipher
    requires { IsSome slot.now }
    ensures { HasCipher slot.now note.dir result }
{
    let Some(relay) = slot else { unreachable!() };
    relay.cipher(note.dir).copy()
}
