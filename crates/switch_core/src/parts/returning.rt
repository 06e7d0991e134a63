//! Jobs that come home.
ghost use Rattle.std.specs.Prelude.{◌≡◌, ◌≤◌, ◌<◌, ◌^◌, ℕ, List, length};
ghost use Rattle.circuit_model.specs.Events.{Event};
ghost use Rattle.circuit_model.specs.Rules.{Rules};
ghost use Rattle.switch_machine.specs.State.{slot_at};
ghost use Rattle.switch_machine.specs.Calls.Abandon.{abandon_result, abandon_state};
ghost use Rattle.switch_core.specs.Returning.{behind_refusal, bodies_out, IsBodyDifference, refusal};

use crate::parts::Parts;
use crate::returning::{difference_from_none, slot_difference, slot_refusal};
use cell_codec::destroy_reason;
use tr_io::answers::{BackAnswer, Difference};
use tr_io::names::ClaimNote;

impl Parts {
    /// A job comes home undone, with this note, and differs from what is out at this place, if it does: its
    /// circuit is torn down.
    pub fn abandon(&mut self, switch: u64, note: ClaimNote, place: Option<u32>) -> BackAnswer
        requires { self.old.steps < 2 ^ 62 }
        ensures state { (rules : Rules) (ev : ℕ → List Event) → self.new ≡ abandon_state switch rules ev self.old note place }
        ensures answer { result ≡ abandon_result switch self.old note place }
    {
        match self.refusal(switch, note, place) {
            Some(answer) => {
                self.counters.steps += 1;
                answer
            }
            None => self.tear_down(note.circ, destroy_reason::INTERNAL),
        }
    }

    /// A job comes home worked, with this note, and is refused if it differs from what is out, which is a step.
    pub fn refuse_return(
        &mut self,
        switch: u64,
        note: ClaimNote,
        place: Option<u32>,
    ) -> Option<BackAnswer>
        requires { self.old.steps < 2 ^ 62 }
        ensures answer { result ≡ refusal switch self.old note place }
        ensures state { self.new ≡ behind_refusal result self.old }
    {
        let answer = self.refusal(switch, note, place)?;
        self.counters.steps += 1;
        Some(answer)
    }

    /// What a return is refused with, if it is.
    fn refusal(&self, switch: u64, note: ClaimNote, place: Option<u32>) -> Option<BackAnswer>
        ensures { result ≡ refusal switch self.now note place }
    {
        if note.switch != switch || note.circ.0 >= self.circuits.len() as u64 {
            let why = Difference::Note {
                kept: None,
                given: note,
            };
            return Some(BackAnswer::Stranger(why));
        }
        slot_refusal(&self.circuits[note.circ.0 as usize], note, place)
    }

    /// The number of the first body of a return that differs from those of the claim that is out.
    pub fn different_body(&self, note: ClaimNote, bodies: &[[u8; 509]]) -> Option<u32>
        requires { length bodies.now ≤ 32 }
        ensures { IsBodyDifference (bodies_out (slot_at self.now.circuits note.circ.0) note.dir) bodies.now result }
    {
        if note.circ.0 >= self.circuits.len() as u64 {
            return difference_from_none(bodies);
        }
        let slot = &self.circuits[note.circ.0 as usize];
        slot_difference(slot, note.dir, bodies)
    }
}
