//! The leg of a circuit towards the previous hop: its CircID on a channel, the cells that wait on
//! it, and its decaying count of cells.
ghost use Rattle.std.specs.Prelude.{◌≡◌, ◌+◌, ◌<◌, ◌≤◌, ◌∷◌, [], IfOk, OnOk, OnErr, IfSome, Some, IsTrue, false, length};
ghost use Rattle.cell_codec.specs.Cells.{is_var, IsWellFormed};
ghost use Rattle.switch_machine.specs.Machine.{has_port};
ghost use Rattle.switch_machine.specs.Calls.NextCell.{waits_on, count_of, first_cell, sent_first};
ghost use Rattle.switch_machine.specs.Calls.OpenCircuit.{first_leg};
ghost use Rattle.switch_model.specs.Waiting.Counts.{halved};
ghost use Rattle.switch_machine.specs.Calls.Settling.{more_queued};
ghost use Rattle.tor_spec.specs.CellCommands.{opens_circuit, relay_command};

use crate::destroy::Destroy;
use cell_codec::{Body, Cell, Queue, command};
use std::alloc::{AllocError, Global};
use std::collections::LinkedList;
use std::marker::Model;
use tr_io::names::ChanNo;

/// What a cell that leaves adds to its leg's count.
const CELL_CHARGE: u64 = 65_536;

/// A cell that waits on a leg, without its CircID. A DESTROY is none: it waits on the channel.
#[derive(Drop)]
pub(crate) struct QueuedCell {
    pub(crate) command: u8,
    pub(crate) payload: [u8; 509],
}

impl Model for QueuedCell {
    ghost use Rattle.circuit_model.specs.Events.{CircuitCell};
    ghost use Rattle.switch_core.specs.Meaning.{MayQueue};

    ghost Value = { CircuitCell };

    ghost view = { λ q. record { command = q.command; body = q.payload } };

    ghost invariant = { λ q. MayQueue q.command };
}

/// The first leg of a circuit.
///
/// Contracts see it as the machine's, and for how many more cells it has room. The count is kept as it was
/// when its last cell left, with that cell's tick, so that a tick changes no leg.
#[derive(Drop)]
pub struct Leg {
    chan: ChanNo,
    id: u32,
    cells: Queue<QueuedCell>,
    count: u64,
    counted_at: u64,
    /// The DESTROY of the leg's teardown, so that this takes no memory.
    destroy: LinkedList<Destroy>,
}

impl Model for Leg {
    ghost use Rattle.std.specs.Prelude.{◌≡◌, ◌∷◌, [], false};
    ghost use Rattle.switch_machine.specs.State.{LegState};
    ghost use Rattle.switch_core.specs.Meaning.{WithRoom};

    ghost Value = { WithRoom LegState };

    ghost view = { λ l. record { state = record { chan = l.chan.0; id = l.id; queue = l.cells.items; count = l.count; counted_at = l.counted_at }; spare = l.cells.spare } };

    ghost invariant = { λ l. l.destroy ≡ record { id = l.id; reason = 0; refusal = false } ∷ [] };
}

impl Leg {
    /// A leg on which the reply to an opening waits.
    pub fn new(alloc: Global, chan: ChanNo, id: u32, reply: &Cell) -> Result<Leg, AllocError>
        requires fixed { is_var reply.now.body ≡ false }
        requires command { IsTrue (opens_circuit reply.now.command) }
        ensures { IfOk result (λ leg. leg.state ≡ first_leg chan.0 id reply.now) }
    {
        let Body::Fixed(payload) = &reply.body else {
            unreachable!()
        };
        let mut destroy = LinkedList::new(alloc);
        let blank = Destroy {
            id,
            reason: 0,
            is_refusal: false,
        };
        if destroy.push_back(blank).is_err() {
            return Err(AllocError);
        }
        let mut cells = Queue::new(alloc);
        cells.push(QueuedCell {
            command: reply.command,
            payload: *payload,
        })?;
        Ok(Leg {
            chan,
            id,
            cells,
            count: 0,
            counted_at: 0,
            destroy,
        })
    }

    /// The channel on which the leg lies.
    pub fn chan(&self) -> ChanNo
        ensures { result.0 ≡ self.now.state.chan }
    {
        self.chan
    }

    /// A sealed body waits to leave as a RELAY cell, in a spare place.
    pub fn push_sealed(&mut self, body: &[u8; 509])
        requires { 0 < self.old.spare }
        ensures state { self.new.state ≡ more_queued (record { command = relay_command; body = body.now } ∷ []) self.old.state }
        ensures spare { self.new.spare + 1 ≡ self.old.spare }
    {
        self.cells.push_reserved(QueuedCell {
            command: command::RELAY,
            payload: *body,
        });
    }

    /// How many cells wait.
    pub fn len(&self) -> usize
        ensures { result ≡ length self.now.state.queue }
    {
        self.cells.len()
    }

    /// The leg ends: the DESTROY with this reason, in memory that the leg had.
    pub fn into_destroy(self, reason: u8) -> LinkedList<Destroy>
        ensures { result ≡ record { id = self.state.id; reason = reason; refusal = false } ∷ [] }
    {
        let Leg {
            chan: _,
            id: _,
            cells: _,
            count: _,
            counted_at: _,
            mut destroy,
        } = self;
        if let Some(only) = destroy.front_mut() {
            only.reason = reason;
        }
        destroy
    }

    /// Takes room for `more` further cells.
    pub fn reserve(&mut self, more: usize) -> Result<(), AllocError>
        ensures state { self.new.state ≡ self.old.state }
        ensures ok { OnOk result (more ≤ self.new.spare) }
        ensures kept { self.old.spare ≤ self.new.spare }
        ensures err { OnErr result (self.new ≡ self.old) }
    {
        self.cells.reserve(more)
    }

    /// Whether this CircID of this channel is the leg's.
    pub fn has_port(&self, chan: ChanNo, id: u32) -> bool
        ensures { result ≡ has_port chan.0 id (Some self.now.state) }
    {
        self.chan.0 == chan.0 && self.id == id
    }

    /// Whether a cell waits on the leg for this channel.
    pub fn waits_on(&self, chan: ChanNo) -> bool
        ensures { result ≡ waits_on chan.0 (Some self.now.state) }
    {
        self.chan.0 == chan.0 && !self.cells.is_empty()
    }

    /// The leg's count where this tick is in force: each tick since the last cell left halves it.
    pub fn count_at(&self, now: u64) -> u64
        ensures { result ≡ count_of now self.now.state }
    {
        halved(self.count, now.saturating_sub(self.counted_at))
    }

    /// The first cell that waits leaves at this tick, and is charged.
    pub fn send_first(&mut self, now: u64) -> Option<Cell>
        ensures cell { result ≡ first_cell (Some self.old.state) }
        ensures state { Some self.new.state ≡ sent_first now self.old.state self.old.state.queue }
        ensures spare { self.old.spare ≤ self.new.spare }
        ensures well_formed { IfSome result IsWellFormed }
    {
        let first = self.cells.take_first()?;
        self.count = self.count_at(now).saturating_add(CELL_CHARGE);
        self.counted_at = now;
        Some(Cell {
            circ: self.id,
            command: first.command,
            body: Body::Fixed(first.payload),
        })
    }
}

/// A count that so many ticks halved, rounded down each time.
fn halved(count: u64, ticks: u64) -> u64
    ensures { result ≡ halved count ticks }
{
    if ticks < 64 { count >> ticks } else { 0 }
}
