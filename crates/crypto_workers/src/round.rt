//! One round of a worker.
ghost use Rattle.std.specs.Prelude.{◌≡◌, ◌<◌, ◌≤◌, ◌^◌, ◌∷◌, ◌++◌, [], None, List, MatchOption, length};
ghost use Rattle.tr_io.specs.declared.answers.BackAnswer.{BackAnswer};
ghost use Rattle.tr_io.specs.declared.step.Step.{Step};
ghost use Rattle.tr_io.specs.declared.step.Step.TheVariants.{GiveBack};
ghost use Rattle.tr_io.specs.PortSteps.{Adds};
ghost use Rattle.crypto_workers.specs.Rounds.{WorkerRound, round_steps, work_steps, IsLastPart, IsLastClaim};

use hop_crypto::{Done, Job, work};
use tr_io::answers::ClaimAnswer;
use tr_io::core_port::CorePort;
use tr_io::gate::Gate;
use tr_io::loop_end::LoopEnd;
use tr_io::stepping::Turn;

// Makes a round; an end where it was the last.
pub(crate) fn round<P: CorePort<Job = Job, Done = Done>, G: Gate>(
    port: &P,
    pass: &mut P::Pass,
    worker: u32,
    gate: &G,
) -> Option<LoopEnd>
    requires own { P.is_own port.now pass.old }
    requires worker { worker < 64 }
    ensures own { P.is_own port.now pass.new }
    ensures spent { result ≡ Some LoopEnd.Spent → P.is_spent pass.new }
    ensures steps { MatchOption result ((r : WorkerRound) × Adds (P.mine pass.old) (round_steps worker r) (P.mine pass.new))
        (λ end. (steps : List Step) × (P.mine pass.new ≡ P.mine pass.old ++ steps) × IsLastPart worker end steps) }
{
    match port.halted(pass) {
        Turn::Did(false) => claim_and_work(port, pass, worker, gate),
        Turn::Did(true) => Some(LoopEnd::Halted),
        Turn::Spent => Some(LoopEnd::Spent),
    }
}

// Claims a job and works it; waits where there is none.
fn claim_and_work<P: CorePort<Job = Job, Done = Done>, G: Gate>(
    port: &P,
    pass: &mut P::Pass,
    worker: u32,
    gate: &G,
) -> Option<LoopEnd>
    requires own { P.is_own port.now pass.old }
    requires worker { worker < 64 }
    ensures own { P.is_own port.now pass.new }
    ensures spent { result ≡ Some LoopEnd.Spent → P.is_spent pass.new }
    ensures steps { MatchOption result ((r : WorkerRound) × Adds (P.mine pass.old) (work_steps worker r) (P.mine pass.new))
        (λ end. (steps : List Step) × (P.mine pass.new ≡ P.mine pass.old ++ steps) × IsLastClaim worker end steps) }
{
    match port.claim(pass, worker) {
        Turn::Did(ClaimAnswer::Job(job)) => work_and_return(port, pass, worker, gate, job),
        Turn::Did(ClaimAnswer::Nothing) => {
            port.wait(pass);
            None
        }
        Turn::Did(ClaimAnswer::Memory) => Some(LoopEnd::Memory),
        Turn::Spent => Some(LoopEnd::Spent),
    }
}

// Works a job, outside the lock, and gives it back.
fn work_and_return<P: CorePort<Job = Job, Done = Done>, G: Gate>(
    port: &P,
    pass: &mut P::Pass,
    worker: u32,
    gate: &G,
    job: Job,
) -> Option<LoopEnd>
    requires own { P.is_own port.now pass.old }
    requires gave { P.gave pass.old job }
    ensures own { P.is_own port.now pass.new }
    ensures spent { result ≡ Some LoopEnd.Spent → P.is_spent pass.new }
    ensures steps { MatchOption result ((a : BackAnswer) × Adds (P.mine pass.old) (GiveBack job.note None a ∷ []) (P.mine pass.new))
        (λ end. (end ≡ LoopEnd.Spent) × (P.mine pass.new ≡ P.mine pass.old)) }
{
    gate.pass(worker, 0);
    let done = work(job);
    gate.pass(worker, 1);
    match port.give_back(pass, done) {
        Turn::Did(_) => None,
        Turn::Spent => Some(LoopEnd::Spent),
    }
}
