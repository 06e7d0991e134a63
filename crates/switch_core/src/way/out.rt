//! What a direction offers to a claim, and what a claim takes out of it.
ghost use Rattle.std.specs.Prelude.{◌≡◌, ◌+◌, ◌<◌, ◌≤◌, ◌^◌, IfOk, Some, None, length, min};
ghost use Rattle.switch_model.specs.Limits.{claim_limit};
ghost use Rattle.switch_machine.specs.Calls.Claim.{claimed_way, offered_by};
ghost use Rattle.switch_machine.specs.Calls.Take.{kept_length};
ghost use Rattle.switch_core.specs.Claiming.{first_bodies};

use crate::way::Way;
use cell_codec::List;
use std::alloc::{AllocError, Global};
use tr_io::names::ClaimNote;

/// How many bodies a claim takes out at most.
const MOST_CLAIMED: usize = 32;

impl Way {
    /// The number of the first body that waits, where no claim is out.
    pub fn offer(&self) -> Option<u128>
        ensures { result ≡ offered_by (Some self.now.state) }
    {
        if self.claim.is_some() {
            return None;
        }
        match self.bodies.front() {
            Some(first) => Some(first.number),
            None => None,
        }
    }

    /// How many bodies were claimed.
    pub fn claimed_count(&self) -> u64
        ensures { result ≡ self.now.state.claimed_count }
    {
        self.claimed_count
    }

    /// How many bodies a claim would take out.
    pub fn claim_size(&self) -> u32
        ensures { result ≡ min claim_limit (length self.now.state.waiting_bodies) }
    {
        let waiting_count = self.bodies.len() - self.out_count();
        waiting_count.min(MOST_CLAIMED) as u32
    }

    /// How many bodies are out.
    pub fn out_count(&self) -> usize
        ensures { result ≡ kept_length self.now.state.claim_out }
    {
        match &self.claim {
            Some(note) => note.count as usize,
            None => 0,
        }
    }

    /// A copy of the payloads of the first bodies that wait, where no claim is out.
    pub fn first_bodies(&self, alloc: Global, count: u32) -> Result<List<[u8; 509]>, AllocError>
        requires none_out { self.now.state.claim_out ≡ None }
        requires enough { count ≤ length self.now.state.waiting_bodies }
        ensures { IfOk result (λ bodies. bodies.items ≡ first_bodies count self.now.state.waiting_bodies) }
    {
        let mut payloads = List::with_room(alloc, count)?;
        for place in 0..count as usize {
            payloads.push_reserved(self.bodies[place].payload);
        }
        Ok(payloads)
    }

    /// The first bodies that wait go out with a claim. They stay where they are.
    pub fn give_out(&mut self, note: ClaimNote)
        requires none_out { self.old.state.claim_out ≡ None }
        requires enough { note.count ≤ length self.old.state.waiting_bodies }
        requires fits { self.old.state.claimed_count + note.count < 2 ^ 64 }
        ensures state { self.new.state ≡ claimed_way note self.old.state }
        ensures spare { self.new.spare ≡ self.old.spare }
    {
        self.claimed_count += note.count as u64;
        self.claim = Some(note);
    }
}
