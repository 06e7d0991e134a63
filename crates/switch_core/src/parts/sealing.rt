//! Backward bodies that come home.
ghost use Rattle.std.specs.Prelude.{◌≡◌, ◌<◌, ◌≤◌, ◌^◌, IsTrue, IfSome, is_some, length};
ghost use Rattle.switch_machine.specs.Calls.Take.{kept_length};
ghost use Rattle.switch_machine.specs.State.{slot_at};
ghost use Rattle.switch_core.specs.Sealing.{sealed_by, sealed_cells_of};

use crate::parts::Parts;
use crate::slot::seal_back_of;
use relay_cell::Opened;
use tr_io::names::CircNo;

impl Parts {
    /// The bodies of a circuit's backward claim come home sealed as these, which is a step: they wait on its leg
    /// towards the client.
    pub fn seal_back(&mut self, circ: CircNo, sealed: &[Opened])
        requires steps { self.old.steps < 2 ^ 62 }
        requires live { IsTrue (is_some (slot_at self.old.circuits circ.0)) }
        requires count { IfSome (slot_at self.old.circuits circ.0) (λ x. length sealed.now ≡ kept_length x.back.claim_out) }
        requires out { IfSome (slot_at self.old.circuits circ.0) (λ x. kept_length x.back.claim_out ≤ x.back.claimed_count) }
        ensures { self.new ≡ sealed_by self.old circ.0 (sealed_cells_of sealed.now) }
    {
        let slot = &mut self.circuits[circ.0 as usize];
        seal_back_of(slot, sealed);
        self.counters.steps += 1;
    }
}
