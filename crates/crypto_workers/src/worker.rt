//! A worker's rounds.
ghost use Rattle.std.specs.Prelude.{◌≡◌, ◌<◌, ◌++◌, List};
ghost use Rattle.tr_io.specs.declared.step.Step.{Step};
ghost use Rattle.crypto_workers.specs.Rounds.{IsWorkerRun};

use crate::round::round;
use hop_crypto::{Done, Job};
use tr_io::core_port::CorePort;
use tr_io::gate::Gate;
use tr_io::loop_end::LoopEnd;

/// Serves a switch as the worker of this number, below 64, until the relay has halted.
///
/// Its steps are rounds: `halted` and, while that is false, `claim` and, for a job, `give_back` of that
/// job as [`hop_crypto::work`] gives it. The worker makes no other step, and keeps no job. Where a claim
/// finds nothing it waits by the port's `wait`, and nowhere else. The gate is passed at point 0 between
/// claim and work, and at point 1 between work and return.
///
/// It ends `Halted` at a `halted` that is true, `Spent` where no step is left, and `Memory` at a claim that
/// wants memory; nothing else ends it. At `Spent` behind a claim the job is lost with the switch's history.
pub fn worker_loop<P: CorePort<Job = Job, Done = Done>, G: Gate>(
    port: &P,
    pass: &mut P::Pass,
    worker: u32,
    gate: &G,
) -> LoopEnd
    requires own { P.is_own port.now pass.old }
    requires worker { worker < 64 }
    ensures own { P.is_own port.now pass.new }
    ensures spent { result ≡ LoopEnd.Spent → P.is_spent pass.new }
    ensures rounds { (steps : List Step) × (P.mine pass.new ≡ P.mine pass.old ++ steps) × IsWorkerRun worker result steps }
{
    'rounds: loop {
        if let Some(end) = round(port, pass, worker, gate) {
            return end;
        }
    }
}
