//! The claims of crypto workers.
ghost use Rattle.std.specs.Prelude.{◌≡◌, ◌+◌, ◌<◌, ◌≤◌, ◌^◌, ⊤};
ghost use Rattle.tr_io.specs.PortSteps.{IfJob};
ghost use Rattle.tr_io.specs.declared.step.Step.TheVariants.{Claim};
ghost use Rattle.switch_machine.specs.Calls.Claim.{claim_result};
ghost use Rattle.switch_core.specs.Claiming.{Carries, ClaimCase, given_note};
ghost use Rattle.switch_core.specs.Started.{SwitchAdds};

use crate::claiming::claim_job;
use crate::switch::Switch;
use hop_crypto::Job;
use tr_io::answers::ClaimAnswer;

impl Switch {
    /// A crypto worker claims a job. Of the directions where bodies wait and no claim is out, that with the
    /// body which came to wait first gives its cipher and up to 32 bodies; `Nothing` where there is none.
    /// `Memory` where memory is wanting, and then the switch stays as it was.
    pub fn claim(&mut self, worker: u32) -> ClaimAnswer<Job>
        requires steps { self.old.state.steps < 2 ^ 62 }
        requires worker { worker < 64 }
        ensures start { self.new.start ≡ self.old.start }
        ensures steps { self.new.state.steps ≤ self.old.state.steps + 1 }
        ensures answer { ClaimCase result ⊤ (given_note result ≡ claim_result self.old.start.name self.old.state worker) }
        ensures whole { ClaimCase result (self.new ≡ self.old) (SwitchAdds self.old self.new (Claim worker (given_note result))) }
        ensures job { IfJob (Carries self.old.relays self.old.state) result }
    {
        claim_job(&mut self.parts, &self.relays, self.name, worker)
    }
}
