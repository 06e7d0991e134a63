//! Claims of a worker.
ghost use Rattle.std.specs.Prelude.{◌≡◌, ◌<◌, ◌^◌, IfOk, IfSome, OnOk, OnErr, Some, None, length, option_map};
ghost use Rattle.switch_machine.specs.Machine.{counted};
ghost use Rattle.switch_machine.specs.State.{slot_at};
ghost use Rattle.switch_machine.specs.Calls.Claim.{soonest, way_at, note_at, claim_result, claim_state_by};
ghost use Rattle.switch_core.specs.Claiming.{MayClaim, note_bodies, offer_of};

use crate::circuit::Circuit;
use crate::claiming::slots::{give_out_of, slot_bodies, slot_offer};
use crate::offer::{Offering, sooner};
use crate::parts::Parts;
use cell_codec::List;
use std::alloc::{AllocError, Global};
use tr_io::names::{CircNo, ClaimNote, Dir};

impl Parts {
    /// The note of the claim that a worker would make, if some direction is ready.
    pub fn next_claim(&self, switch: u64, worker: u32) -> Option<ClaimNote>
        ensures answer { result ≡ claim_result switch self.now worker }
        ensures fits { IfSome result (λ note. note.first < 2 ^ 64) }
    {
        match self.soonest() {
            Some(offer) => self.note_of(&self.circuits[offer.circ], switch, worker, offer),
            None => None,
        }
    }

    /// The note of a claim of the direction that was picked.
    fn note_of(
        &self,
        slot: &Option<Circuit>,
        switch: u64,
        worker: u32,
        offer: Offering,
    ) -> Option<ClaimNote>
        ensures answer { result ≡ note_at switch self.now worker (offer_of offer).way (way_at slot.now offer.dir) }
        ensures fits { IfSome result (λ note. note.first < 2 ^ 64) }
    {
        let Some(circuit) = slot else {
            return None;
        };
        let way = circuit.way(offer.dir);
        Some(ClaimNote {
            switch,
            claim: self.counters.claims,
            worker,
            circ: CircNo(offer.circ as u64),
            dir: offer.dir,
            first: way.claimed_count(),
            count: way.claim_size(),
        })
    }

    /// The direction whose first waiting body has the least number, of those with no claim out.
    fn soonest(&self) -> Option<Offering>
        ensures offer { option_map offer_of result ≡ soonest self.now }
        ensures inside { IfSome result (λ offer. offer.circ < length self.now.circuits) }
    {
        let mut best = None;
        for number in 0..self.circuits.len() {
            let slot = &self.circuits[number];
            let forth = slot_offer(slot, Dir::Forth);
            let back = slot_offer(slot, Dir::Back);
            let with_forth = sooner(best, number, Dir::Forth, forth);
            best = sooner(with_forth, number, Dir::Back, back);
        }
        best
    }

    /// A copy of the payloads of the bodies that a claim takes out.
    pub fn bodies_of(&self, note: ClaimNote) -> Result<List<[u8; 509]>, AllocError>
        requires { MayClaim (slot_at self.now.circuits note.circ.0) note }
        ensures { IfOk result (λ bodies. bodies.items ≡ note_bodies note (slot_at self.now.circuits note.circ.0)) }
    {
        slot_bodies(&self.circuits[note.circ.0 as usize], self.alloc, note)
    }

    /// Where memory comes from.
    pub fn alloc(&self) -> Global {
        self.alloc
    }

    /// A claim goes out with its bodies, which is a step.
    pub fn give_out(&mut self, note: ClaimNote) -> Result<(), AllocError>
        requires steps { self.old.steps < 2 ^ 62 }
        requires claim { MayClaim (slot_at self.old.circuits note.circ.0) note }
        ensures ok { OnOk result (self.new ≡ claim_state_by self.old (Some note)) }
        ensures err { OnErr result (self.new ≡ self.old) }
    {
        let slot = &mut self.circuits[note.circ.0 as usize];
        give_out_of(slot, note)?;
        self.counters.claims += 1;
        self.counters.steps += 1;
        Ok(())
    }

    /// A call for which nothing was ready, which is a step.
    pub fn give_nothing(&mut self)
        requires { self.old.steps < 2 ^ 62 }
        ensures { self.new ≡ counted self.old }
    {
        self.counters.steps += 1;
    }
}
