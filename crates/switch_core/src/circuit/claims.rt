//! Claims of a circuit's directions.
ghost use Rattle.std.specs.Prelude.{◌≡◌, ◌+◌, ◌<◌, ◌≤◌, ◌^◌, OnOk, OnErr, None, length};
ghost use Rattle.switch_machine.specs.Calls.Claim.{claimed_way};
ghost use Rattle.switch_machine.specs.Machine.{way_of_circuit};
ghost use Rattle.switch_core.specs.Claiming.{with_claim};

use crate::circuit::Circuit;
use crate::way::Way;
use std::alloc::AllocError;
use tr_io::names::{ClaimNote, Dir};

impl Circuit {
    /// One of the two directions.
    pub fn way(&self, dir: Dir) -> &Way
        ensures { result.now.state ≡ way_of_circuit self.now dir }
    {
        match dir {
            Dir::Forth => &self.forth,
            Dir::Back => &self.back,
        }
    }

    /// The first bodies that wait in a claim's direction go out with it. There is room then for what comes
    /// of them: a body and an order of each one forth, a cell of each one back.
    pub fn give_out(&mut self, note: ClaimNote) -> Result<(), AllocError>
        requires none_out { (way_of_circuit self.old note.dir).claim_out ≡ None }
        requires enough { note.count ≤ length (way_of_circuit self.old note.dir).waiting_bodies }
        requires fits { self.old.forth.claimed_count + length self.old.forth.waiting_bodies < 2 ^ 64 }
        ensures ok { OnOk result (self.new ≡ with_claim note self.old) }
        ensures err { OnErr result (self.new ≡ self.old) }
    {
        match note.dir {
            Dir::Forth => self.give_out_forth(note),
            Dir::Back => self.give_out_back(note),
        }
    }

    /// The first bodies that wait forth go out. Each may package one body back and make one order.
    fn give_out_forth(&mut self, note: ClaimNote) -> Result<(), AllocError>
        requires none_out { self.old.forth.claim_out ≡ None }
        requires enough { note.count ≤ length self.old.forth.waiting_bodies }
        requires fits { self.old.forth.claimed_count + length self.old.forth.waiting_bodies < 2 ^ 64 }
        ensures ok { OnOk result (self.new ≡ record self.old { forth = claimed_way note self.old.forth }) }
        ensures err { OnErr result (self.new ≡ self.old) }
    {
        self.back.reserve(note.count as usize)?;
        self.orders.reserve(note.count as usize)?;
        self.forth.give_out(note);
        Ok(())
    }

    /// The first bodies that wait back go out. Each will be a cell on the leg.
    fn give_out_back(&mut self, note: ClaimNote) -> Result<(), AllocError>
        requires none_out { self.old.back.claim_out ≡ None }
        requires enough { note.count ≤ length self.old.back.waiting_bodies }
        requires fits { self.old.forth.claimed_count < 2 ^ 64 }
        ensures ok { OnOk result (self.new ≡ record self.old { back = claimed_way note self.old.back }) }
        ensures err { OnErr result (self.new ≡ self.old) }
    {
        self.leg.reserve(note.count as usize)?;
        self.back.give_out(note);
        Ok(())
    }
}
