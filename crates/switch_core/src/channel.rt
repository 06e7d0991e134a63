//! One channel: who opened it, and the DESTROY cells that wait to leave on it.
ghost use Rattle.std.specs.Prelude.{◌≡◌, ◌==◌, ◌+◌, ◌++◌, ◌≤◌, ◌<◌, ◌^◌, [], IfSome, IfNone, OnErr, OnOk, Some, IsTrue, ◌↔◌, count_by, length};
ghost use Rattle.std.specs.List.{list_any};
ghost use Rattle.cell_codec.specs.Cells.{IsWellFormed};
ghost use Rattle.switch_model.specs.History.Channels.{is_ours};
ghost use Rattle.switch_machine.specs.Calls.DialOrder.{is_dialled_to};
ghost use Rattle.switch_machine.specs.Calls.OpenCircuit.{has_peers_bit, refusing};
ghost use Rattle.switch_machine.specs.Calls.Take.{without_destroys};
ghost use Rattle.switch_model.specs.Waiting.Lanes.{refusal_reason, with_refusal};
ghost use Rattle.switch_core.specs.Meaning.{channel_of, FirstLeaves};

use crate::cells::destroy_cell;
use crate::destroy::{Destroy, without_id};
use cell_codec::{Cell, destroy_reason};
use std::alloc::{AllocError, Global};
use std::collections::LinkedList;
use std::marker::Model;
use std::mem::replace;
use tr_io::answers::OpenRefusal;
use tr_io::names::{Dest, Side};

/// How many refusals of openings may wait on a channel.
const MOST_REFUSALS: usize = 512;

/// The highest bit of a CircID, which the side that opened the connection sets.
const HIGHEST_BIT: u32 = 0x8000_0000;

/// A live channel.
///
/// Contracts see it as the machine's.
#[derive(Drop)]
pub struct Channel {
    side: Side,
    destroys: LinkedList<Destroy>,
}

impl Model for Channel {
    ghost use Rattle.switch_machine.specs.State.{ChannelState};
    ghost use Rattle.switch_core.specs.Meaning.{channel_of};

    ghost Value = { ChannelState };

    ghost view = { λ c. channel_of c.side c.destroys };
}

impl Channel {
    /// A channel on which nothing waits.
    pub fn new(alloc: Global, side: Side) -> Channel
        ensures { result ≡ channel_of side [] }
    {
        Channel {
            side,
            destroys: LinkedList::new(alloc),
        }
    }

    /// Whether the peer may choose this CircID: its highest bit is set exactly where the peer
    /// opened the connection (tor-spec, "Choosing circuit IDs in create cells").
    pub fn peer_may_choose(&self, id: u32) -> bool
        ensures { result ≡ has_peers_bit self.now.side id }
    {
        match self.side {
            Side::PeerOpened => id >= HIGHEST_BIT,
            Side::WeOpened => id < HIGHEST_BIT,
        }
    }

    /// Whether this side opened the connection.
    pub fn is_ours(&self) -> bool
        ensures { result ≡ is_ours self.now.side }
    {
        match self.side {
            Side::PeerOpened => false,
            Side::WeOpened => true,
        }
    }

    /// Whether this side dialled the channel to a destination. Whoever opened it, it was dialled to none.
    pub fn leads_to(&self, _to: &Dest) -> bool
        ensures { result ≡ is_dialled_to _to.now (Some self.now) }
    {
        match self.side {
            Side::PeerOpened | Side::WeOpened => false,
        }
    }

    /// Whether a DESTROY for the CircID waits.
    pub fn destroy_waits(&self, id: u32) -> bool
        ensures { result ≡ list_any (λ d. d.id == id) self.now.lane }
    {
        self.destroys.iter().any(|destroy| destroy.id == id)
    }

    /// Refuses an opening: a DESTROY waits for the peer where one is owed, unless as many refusals
    /// as may wait do.
    pub fn refuse(&mut self, id: u32, why: OpenRefusal) -> Result<(), AllocError>
        ensures ok { OnOk result (self.new ≡ refusing id why self.old) }
        ensures err { OnErr result (self.new ≡ self.old) }
        ensures longer { length self.new.lane ≤ length self.old.lane + 1 }
    {
        match self.refusal_reason(id, why) {
            Some(reason) => self.push_refusal(id, reason),
            None => Ok(()),
        }
    }

    /// The reason of the DESTROY that a refusal owes the peer.
    fn refusal_reason(&self, id: u32, why: OpenRefusal) -> Option<u8>
        ensures { result ≡ refusal_reason (is_ours self.now.side) id why }
    {
        match why {
            OpenRefusal::BadId if self.is_ours() || id == 0 => None,
            OpenRefusal::BadId | OpenRefusal::BadHandshake => Some(destroy_reason::PROTOCOL),
            OpenRefusal::Full(_) => Some(destroy_reason::RESOURCE_LIMIT),
            OpenRefusal::NoChannel | OpenRefusal::InUse => None,
        }
    }

    /// A DESTROY waits, unless as many refusals as may wait do.
    fn push_refusal(&mut self, id: u32, reason: u8) -> Result<(), AllocError>
        ensures ok { OnOk result (self.new ≡ record self.old { lane = with_refusal id (Some reason) self.old.lane }) }
        ensures err { OnErr result (self.new ≡ self.old) }
        ensures longer { length self.new.lane ≤ length self.old.lane + 1 }
    {
        if self.refusals() >= MOST_REFUSALS {
            return Ok(());
        }
        let refusal = Destroy {
            id,
            reason,
            is_refusal: true,
        };
        if self.destroys.push_back(refusal).is_err() {
            return Err(AllocError);
        }
        Ok(())
    }

    /// Whether no DESTROY waits.
    pub fn is_quiet(&self) -> bool
        ensures { IsTrue result ↔ (self.now.lane ≡ []) }
    {
        self.destroys.is_empty()
    }

    /// How many refusals wait.
    fn refusals(&self) -> usize
        ensures { result ≡ count_by (λ d. d.refusal) self.now.lane }
    {
        self.destroys
            .iter()
            .filter(|destroy| destroy.is_refusal)
            .count()
    }

    /// The oldest DESTROY leaves.
    pub fn next_destroy(&mut self) -> Option<Cell>
        ensures some { IfSome result (λ cell. FirstLeaves self.old self.new cell) }
        ensures none { IfNone result ((self.old.lane ≡ []) × (self.new ≡ self.old)) }
        ensures shorter { length self.new.lane ≤ length self.old.lane }
        ensures well_formed { IfSome result IsWellFormed }
    {
        let destroy = self.destroys.pop_front()?;
        Some(destroy_cell(destroy.id, destroy.reason))
    }

    /// Puts more DESTROYs into the lane, in the memory that they have.
    pub fn append(&mut self, destroys: LinkedList<Destroy>)
        requires lane { length self.old.lane < 2 ^ 62 }
        requires more { length destroys < 2 ^ 62 }
        ensures { self.new ≡ record self.old { lane = self.old.lane ++ destroys } }
    {
        let mut destroys = destroys;
        let _ = self.destroys.append(&mut destroys);
    }

    /// The DESTROYs for a CircID are taken away: the peer has ended it. It takes no memory.
    pub fn free(&mut self, id: u32)
        requires { length self.old.lane < 2 ^ 62 }
        ensures { self.new ≡ without_destroys id self.old }
    {
        let empty = LinkedList::new(*self.destroys.allocator());
        let destroys = replace(&mut self.destroys, empty);
        self.destroys = without_id(destroys, id);
    }
}
