//! The cell that leaves next.
ghost use Rattle.std.specs.Prelude.{◌≡◌, ◌<◌, ◌^◌, [], IfSome, IfNone, Some, None, length, max};
ghost use Rattle.cell_codec.specs.Cells.{IsWellFormed};
ghost use Rattle.switch_machine.specs.Machine.{counted};
ghost use Rattle.switch_machine.specs.State.{slot_at};
ghost use Rattle.switch_machine.specs.Calls.NextCell.{ticked, picked_leg, cell_of_leg, sent_from, lane_of, next_cell_result, next_cell_state};
ghost use Rattle.switch_core.specs.Picking.{DestroyLeaves, Picks};

use crate::parts::Parts;
use crate::pick::{WaitingLeg, lesser};
use crate::slot::{send_first_of, slot_count_at, slot_waits_on};
use cell_codec::Cell;
use tr_io::names::ChanNo;

#[tactic(auto, using(crate::proofs::Plain::plain_lists, crate::proofs::Plain::there, crate::proofs::Plain::beyond, crate::proofs::Leaves::none_left, crate::proofs::Leaves::none_said, crate::proofs::Leaves::picked_left, crate::proofs::Leaves::picked_said, crate::proofs::Leaves::destroy_left, crate::proofs::Leaves::destroy_said))]
impl Parts {
    /// The next cell that leaves on a channel, where this tick is given.
    pub fn next_cell(&mut self, chan: ChanNo, new_tick: u64) -> Option<Cell>
        requires { self.old.steps < 2 ^ 62 }
        ensures state { self.new ≡ next_cell_state self.old chan.0 new_tick }
        ensures answer { result ≡ next_cell_result self.old chan.0 new_tick }
        ensures well_formed { IfSome result IsWellFormed }
    {
        let cell = self.leave(chan, new_tick);
        self.counters.steps += 1;
        self.counters.tick = self.counters.tick.max(new_tick);
        cell
    }

    /// The next cell leaves, and nothing is counted.
    fn leave(&mut self, chan: ChanNo, new_tick: u64) -> Option<Cell>
        ensures state { ticked self.new new_tick ≡ next_cell_state self.old chan.0 new_tick }
        ensures answer { result ≡ next_cell_result self.old chan.0 new_tick }
        ensures well_formed { IfSome result IsWellFormed }
    {
        let quiet = match self.channel(chan) {
            Some(channel) => channel.is_quiet(),
            None => return None,
        };
        if quiet {
            self.send_picked(chan, new_tick)
        } else {
            self.send_destroy(chan)
        }
    }

    /// The oldest DESTROY of a channel leaves.
    fn send_destroy(&mut self, chan: ChanNo) -> Option<Cell>
        requires live { chan.0 < length self.old.channels }
        ensures some { IfSome result (λ cell. DestroyLeaves self.old self.new chan.0 cell) }
        ensures none { IfNone result (lane_of (slot_at self.old.channels chan.0) ≡ []) }
        ensures well_formed { IfSome result IsWellFormed }
    {
        let channel = &mut self.channels[chan.0 as usize];
        channel.next_destroy()
    }

    /// The first cell of the leg that is served next leaves.
    fn send_picked(&mut self, chan: ChanNo, new_tick: u64) -> Option<Cell>
        ensures state { self.new ≡ sent_from self.old (max self.old.tick new_tick) (picked_leg self.old chan.0 new_tick) }
        ensures answer { result ≡ cell_of_leg self.old (picked_leg self.old chan.0 new_tick) }
        ensures well_formed { IfSome result IsWellFormed }
    {
        let picked = self.picked(chan, new_tick)?;
        let now = self.counters.tick.max(new_tick);
        let slot = &mut self.circuits[picked.number];
        send_first_of(slot, now)
    }

    /// The circuit whose leg is served next on a channel: of those with a cell for it the one with
    /// the least count at this tick, then the one with the least number.
    fn picked(&self, chan: ChanNo, new_tick: u64) -> Option<WaitingLeg>
        ensures { Picks self.now new_tick (length self.now.circuits) result (picked_leg self.now chan.0 new_tick) }
    {
        let now = self.counters.tick.max(new_tick);
        let mut least = None;
        for number in 0..self.circuits.len() {
            let slot = &self.circuits[number];
            if slot_waits_on(slot, chan) {
                let count = slot_count_at(slot, now);
                least = Some(lesser(least, WaitingLeg { number, count }));
            }
        }
        least
    }
}
