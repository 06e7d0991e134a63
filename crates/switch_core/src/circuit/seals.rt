//! Backward bodies that come home.
ghost use Rattle.std.specs.Prelude.{◌≡◌, ◌≤◌, length};
ghost use Rattle.switch_machine.specs.Calls.Take.{kept_length};
ghost use Rattle.switch_core.specs.Sealing.{sealed_cells_of, with_sealed};

use crate::circuit::Circuit;
use relay_cell::Opened;

impl Circuit {
    /// The bodies of the backward claim come home sealed as these: they are the next cells of the leg towards the
    /// client. It takes no memory.
    pub fn seal_back(&mut self, sealed: &[Opened])
        requires count { length sealed.now ≡ kept_length self.old.back.claim_out }
        requires out { kept_length self.old.back.claim_out ≤ self.old.back.claimed_count }
        ensures { self.new ≡ with_sealed (sealed_cells_of sealed.now) self.old }
    {
        for number in 0..sealed.len() {
            self.leg.push_sealed(&sealed[number].body);
        }
        self.back.bring_home();
    }
}
