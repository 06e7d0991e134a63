//! What is out of a circuit's directions, compared with what comes home.
ghost use Rattle.std.specs.Prelude.{◌≡◌, ◌≤◌, length};
ghost use Rattle.switch_machine.specs.Machine.{kept_note, way_of_circuit};
ghost use Rattle.switch_core.specs.Returning.{bodies_out_of, IsBodyDifference};

use crate::circuit::Circuit;
use tr_io::names::{ClaimNote, Dir};

impl Circuit {
    /// The note of the claim that is out of a direction.
    pub fn note_out(&self, dir: Dir) -> Option<ClaimNote>
        ensures { result ≡ kept_note (way_of_circuit self.now dir).claim_out }
    {
        match dir {
            Dir::Forth => self.forth.note_out(),
            Dir::Back => self.back.note_out(),
        }
    }

    /// The number of the first body that differs from those of the claim that is out of a direction.
    pub fn different_body(&self, dir: Dir, bodies: &[[u8; 509]]) -> Option<u32>
        requires { length bodies.now ≤ 32 }
        ensures { IsBodyDifference (bodies_out_of (way_of_circuit self.now dir)) bodies.now result }
    {
        match dir {
            Dir::Forth => self.forth.different_body(bodies),
            Dir::Back => self.back.different_body(bodies),
        }
    }
}
