//! Finding the circuit that a cell is for.
ghost use Rattle.std.specs.Prelude.{◌≡◌, IfSome, option_map};
ghost use Rattle.switch_machine.specs.State.{slot_at};
ghost use Rattle.switch_machine.specs.Calls.Take.{found_leg};
ghost use Rattle.switch_core.specs.Picking.{first_leg_of, HasOneLeg};

use crate::parts::Parts;
use crate::slot::slot_has_port;
use tr_io::names::ChanNo;

impl Parts {
    /// The circuit whose leg towards the previous hop has this CircID of this channel.
    pub(super) fn circuit_with(&self, chan: ChanNo, id: u32) -> Option<usize>
        ensures leg { found_leg self.now chan.0 id ≡ option_map first_leg_of result }
        ensures one_leg { IfSome result (λ number. HasOneLeg (slot_at self.now.circuits number)) }
    {
        for number in 0..self.circuits.len() {
            let slot = &self.circuits[number];
            if slot_has_port(slot, chan, id) {
                return Some(number);
            }
        }
        None
    }
}
