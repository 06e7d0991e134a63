//! The calls of a tape's records that give jobs out and take them home.
ghost use Rattle.std.specs.Prelude.{◌≡◌, ◌+◌, ◌<◌, ◌≤◌, ◌^◌, IfOk, option_map};
ghost use Rattle.switch_model.specs.Answers.Claim.{claim_answer};
ghost use Rattle.tape.specs.declared.record.Record.TheVariants.{Claim, GiveBack, Abandon};
ghost use Rattle.tape.specs.KeptJobs.{kept_job};
ghost use Rattle.tape.specs.Playing.{player_state, Makes};
ghost use Rattle.tape.specs.Steps.{tape_start, give_back_of, abandon_of};

use crate::jobs::Jobs;
use hop_crypto::work;
use std::alloc::AllocError;
use switch_core::Switch;
use tr_io::answers::{BackAnswer, ClaimAnswer};
use tr_io::names::ClaimNote;

/// A worker claims a job, which is kept: its note, if a direction is ready.
pub fn claim_job(
    switch: &mut Switch,
    jobs: &mut Jobs,
    worker: u32,
) -> Result<Option<ClaimNote>, AllocError>
    requires start { switch.old.start ≡ tape_start switch.old.start.rules }
    requires steps { switch.old.state.steps < 2 ^ 62 }
    requires worker { worker < 64 }
    ensures start { switch.new.start ≡ switch.old.start }
    ensures steps { switch.new.state.steps ≤ switch.old.state.steps + 1 }
    ensures ok { IfOk result (λ note. Makes switch.old.start.rules (Claim worker)
        (player_state switch.old jobs.old) (player_state switch.new jobs.new)
        note (λ h. claim_answer (tape_start switch.old.start.rules) h worker)) }
{
    match switch.claim(worker) {
        ClaimAnswer::Job(job) => {
            let note = job.note();
            jobs.keep(job)?;
            Ok(Some(note))
        }
        ClaimAnswer::Nothing => Ok(None),
        ClaimAnswer::Memory => Err(AllocError),
    }
}

/// The job of a claim is worked and given back, if it is kept.
#[tactic(auto, using(crate::proofs::ReturnCalls::none_given_back))]
pub fn give_back_job(switch: &mut Switch, jobs: &mut Jobs, claim: u64) -> Option<BackAnswer>
    requires start { switch.old.start ≡ tape_start switch.old.start.rules }
    requires steps { switch.old.state.steps < 2 ^ 62 }
    ensures start { switch.new.start ≡ switch.old.start }
    ensures steps { switch.new.state.steps ≤ switch.old.state.steps + 1 }
    ensures made { Makes switch.old.start.rules (GiveBack claim)
        (player_state switch.old jobs.old) (player_state switch.new jobs.new)
        result (λ h. option_map (give_back_of switch.old.start.rules h) (kept_job h claim)) }
{
    let job = jobs.take(claim)?;
    Some(switch.give_back(work(job)))
}

/// The job of a claim is given back undone, if it is kept.
#[tactic(auto, using(crate::proofs::ReturnCalls::none_abandoned))]
pub fn abandon_job(switch: &mut Switch, jobs: &mut Jobs, claim: u64) -> Option<BackAnswer>
    requires start { switch.old.start ≡ tape_start switch.old.start.rules }
    requires steps { switch.old.state.steps < 2 ^ 62 }
    ensures start { switch.new.start ≡ switch.old.start }
    ensures steps { switch.new.state.steps ≤ switch.old.state.steps + 1 }
    ensures made { Makes switch.old.start.rules (Abandon claim)
        (player_state switch.old jobs.old) (player_state switch.new jobs.new)
        result (λ h. option_map (abandon_of switch.old.start.rules h) (kept_job h claim)) }
{
    let job = jobs.take(claim)?;
    Some(switch.abandon(job))
}
