//! The jobs that a tape keeps, by claim number.
ghost use Rattle.std.specs.Prelude.{◌≡◌, ◌==◌, ℕ, Some, None, if◌then◌else◌, OnOk};
ghost use Rattle.tape.specs.Jobs.{job_at};

use hop_crypto::Job;
use std::alloc::{AllocError, Global};
use std::collections::HashMap;

/// A job that wasn't given back yet. Where it is dropped, as when the tape ends, it is taken apart.
pub struct KeptJob {
    job: Job,
}

impl Drop for KeptJob {
    fn drop(self) {
        let KeptJob { job } = self;
        let _ = job.apart();
    }
}

impl KeptJob {
    /// The job, which is to be given back.
    fn into_job(self) -> Job
        ensures { result ≡ self.job }
    {
        let KeptJob { job } = self;
        job
    }
}

/// The jobs that a tape keeps, from their claims until they are given back or abandoned.
#[derive(Drop)]
pub struct Jobs {
    by_claim: HashMap<u64, KeptJob>,
}

impl Jobs {
    /// No job, and no memory yet.
    pub fn new(alloc: Global) -> Jobs
        ensures { (claim : ℕ) → job_at result claim ≡ None }
    {
        Jobs {
            by_claim: HashMap::new(alloc),
        }
    }

    /// Keeps a job by its claim number. Where memory is wanting, it is taken apart.
    #[tactic(auto, using(crate::proofs::JobsKept::found_job))]
    pub fn keep(&mut self, job: Job) -> Result<(), AllocError>
        ensures { OnOk result ((claim : ℕ) →
            job_at self.new claim ≡ (if job.note.claim == claim then Some job else job_at self.old claim)) }
    {
        self.by_claim.insert(job.note().claim, KeptJob { job })?;
        Ok(())
    }

    /// Gives out the job with this claim number, which is kept no longer.
    #[tactic(auto, using(crate::proofs::JobsKept::found_job))]
    pub fn take(&mut self, claim: u64) -> Option<Job>
        ensures job { result ≡ job_at self.old claim }
        ensures others { (other : ℕ) → job_at self.new other ≡ (if claim == other then None else job_at self.old other) }
    {
        let job_entry = self.by_claim.remove(&claim)?;
        Some(job_entry.into_job())
    }
}
