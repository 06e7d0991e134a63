//! What is out of a direction, compared with what comes home.
ghost use Rattle.std.specs.Prelude.{◌≡◌, ◌≤◌, ◌↔◌, IsTrue, Some, length};
ghost use Rattle.std.specs.List.{slice_get};
ghost use Rattle.switch_machine.specs.Machine.{kept_note, kept_cells};
ghost use Rattle.switch_core.specs.Returning.{bodies_out_of, IsBodyDifference};

use crate::way::Way;
use tr_io::names::ClaimNote;

impl Way {
    /// The note of the claim that is out.
    pub fn note_out(&self) -> Option<ClaimNote>
        ensures { result ≡ kept_note self.now.state.claim_out }
    {
        self.claim
    }

    /// The number of the first body that differs from those of the claim that is out.
    pub fn different_body(&self, bodies: &[[u8; 509]]) -> Option<u32>
        requires { length bodies.now ≤ 32 }
        ensures { IsBodyDifference (bodies_out_of self.now.state) bodies.now result }
    {
        for number in 0..bodies.len() {
            let body = &bodies[number];
            if !self.has_out(number, body) {
                return Some(number as u32);
            }
        }
        if bodies.len() < self.out_count() {
            return Some(bodies.len() as u32);
        }
        None
    }

    /// Whether the body of this number of the claim that is out is this one.
    fn has_out(&self, number: usize, body: &[u8; 509]) -> bool
        ensures { IsTrue result ↔ (slice_get (bodies_out_of self.now.state) number ≡ Some body.now) }
    {
        number < self.out_count() && self.bodies[number].payload == *body
    }
}
