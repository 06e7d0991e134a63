//! A claim that comes home.
ghost use Rattle.std.specs.Prelude.{◌≡◌, ◌<◌, ◌≤◌};
ghost use Rattle.switch_machine.specs.Calls.GiveBack.{home_way};
ghost use Rattle.switch_machine.specs.Calls.Take.{kept_length};
ghost use Rattle.switch_machine.specs.Machine.{kept_cells};
ghost use Rattle.switch_core.specs.Settling.{command_at};

use crate::way::Way;

impl Way {
    /// The bodies of the claim that is out leave the direction: they came home.
    pub fn bring_home(&mut self)
        ensures state { self.new.state ≡ home_way self.old.state }
        ensures spare { self.old.spare ≤ self.new.spare }
    {
        let Some(note) = self.claim.take() else {
            return;
        };
        for _ in 0..note.count {
            let _ = self.bodies.pop_front();
        }
    }

    /// The command of the cell of this number among those of the claim that is out.
    pub fn command_out(&self, number: usize) -> u8
        requires { number < kept_length self.now.state.claim_out }
        ensures { result ≡ command_at number (kept_cells self.now.state.claim_out) }
    {
        self.bodies[number].command
    }
}
