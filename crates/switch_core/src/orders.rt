//! The orders of a circuit that were not handed out.
ghost use Rattle.std.specs.Prelude.{◌≡◌, ◌+◌, ◌≤◌, ◌<◌, OnOk, option_map};
ghost use Rattle.circ_relay.specs.Values.{address_of, order_of};
ghost use Rattle.switch_core.specs.Ordering.{IsRoom, no_orders, ordered, with_edge};
ghost use Rattle.switch_machine.specs.Calls.Settling.{dial_with};

mod dials;

use cell_codec::{Bytes, List, Queue};
use std::alloc::{AllocError, Global};
use std::marker::Model;
use tr_io::edges::EdgeOrder;
use tr_io::names::Dest;

/// How many bytes an order carries at most.
const MOST_BYTES: u32 = 498;

/// Room for the bytes of an order.
#[derive(Drop)]
struct Room {
    bytes: Bytes,
}

impl Model for Room {
    ghost use Rattle.std.specs.Prelude.{ℕ, []};
    ghost use Rattle.cell_codec.specs.Roomy.{Roomy};
    ghost use Rattle.switch_core.specs.Ordering.{IsRoom};

    ghost Value = { Roomy ℕ };

    ghost view = { λ r. r.bytes };

    ghost invariant = { λ r. IsRoom r.bytes };
}

/// A dial order that is neither done nor given up.
#[derive(Drop)]
struct OpenDial {
    order: u128,
    to: Dest,
    handed_out: bool,
}

impl Model for OpenDial {
    ghost use Rattle.switch_machine.specs.State.{DialState};

    ghost Value = { DialState };

    ghost view = { λ d. record { order = d.order; to = d.to; handed_out = d.handed_out } };
}

/// The orders of a circuit that were not handed out: those to the edge connections of its streams, of each kind
/// oldest first, and the dial order that is open.
///
/// Contracts see them as the machine's, for how many more of each kind there is room, and how many rooms there
/// are for the bytes of an order.
#[derive(Drop)]
pub struct Orders {
    alloc: Global,
    reach: Queue<EdgeOrder>,
    carry: Queue<EdgeOrder>,
    close: Queue<EdgeOrder>,
    dial: Option<OpenDial>,
    rooms: List<Room>,
}

impl Model for Orders {
    ghost use Rattle.std.specs.Prelude.{length, map, min};
    ghost use Rattle.circ_relay.specs.Values.{order_of};
    ghost use Rattle.switch_core.specs.Ordering.{RoomyOrders};

    ghost Value = { RoomyOrders };

    ghost view = { λ o. record {
      state = record { reach = map order_of o.reach.items; carry = map order_of o.carry.items; close = map order_of o.close.items; dial = o.dial };
      spare = min o.reach.spare (min o.carry.spare o.close.spare);
      rooms = length o.rooms.items;
    } };
}

impl Orders {
    /// Those of a circuit that was just opened.
    pub fn new(alloc: Global) -> Orders
        ensures { result.state ≡ no_orders }
    {
        Orders {
            alloc,
            reach: Queue::new(alloc),
            carry: Queue::new(alloc),
            close: Queue::new(alloc),
            dial: None,
            rooms: List::new(alloc),
        }
    }

    /// Takes room for `more` further orders and their bytes.
    pub fn reserve(&mut self, more: usize) -> Result<(), AllocError>
        ensures state { self.new.state ≡ self.old.state }
        ensures spare { OnOk result (more ≤ self.new.spare) }
        ensures rooms { OnOk result (more ≤ self.new.rooms) }
        ensures kept_spare { self.old.spare ≤ self.new.spare }
        ensures kept_rooms { self.old.rooms ≤ self.new.rooms }
    {
        self.reach.reserve(more)?;
        self.carry.reserve(more)?;
        self.close.reserve(more)?;
        self.make_rooms(more)
    }

    /// Makes rooms until there are so many.
    fn make_rooms(&mut self, count: usize) -> Result<(), AllocError>
        ensures state { self.new.state ≡ self.old.state }
        ensures spare { self.new.spare ≡ self.old.spare }
        ensures rooms { OnOk result (count ≤ self.new.rooms) }
        ensures kept { self.old.rooms ≤ self.new.rooms }
    {
        for _ in self.rooms.len()..count {
            let bytes = Bytes::with_room(self.alloc, MOST_BYTES)?;
            self.rooms.push(Room { bytes })?;
        }
        Ok(())
    }

    /// A room for the bytes of an order.
    pub fn take_room(&mut self) -> Bytes
        requires { 0 < self.old.rooms }
        ensures room { IsRoom result }
        ensures state { self.new.state ≡ self.old.state }
        ensures spare { self.new.spare ≡ self.old.spare }
        ensures rooms { self.new.rooms + 1 ≡ self.old.rooms }
    {
        let Some(room) = self.rooms.pop() else {
            unreachable!()
        };
        let Room { bytes } = room;
        bytes
    }

    /// What an event has the circuit order: the edge, and to dial with this number, or to give its dialling up.
    pub fn add(&mut self, edge: Option<EdgeOrder>, number: u128, dial: Option<Dest>, is_cut: bool)
        requires { 0 < self.old.spare }
        ensures state { self.new.state ≡ ordered number (option_map order_of edge) (option_map address_of dial) is_cut self.old.state }
        ensures spare { self.old.spare ≤ self.new.spare + 1 }
        ensures rooms { self.new.rooms ≡ self.old.rooms }
    {
        self.push(edge);
        self.set_dial(number, dial, is_cut);
    }

    /// One more order to the edge, if there is one.
    fn push(&mut self, edge: Option<EdgeOrder>)
        requires { 0 < self.old.spare }
        ensures state { self.new.state ≡ with_edge (option_map order_of edge) self.old.state }
        ensures spare { self.old.spare ≤ self.new.spare + 1 }
        ensures rooms { self.new.rooms ≡ self.old.rooms }
    {
        let Some(order) = edge else {
            return;
        };
        match order {
            EdgeOrder::Reach(..) => self.reach.push_reserved(order),
            EdgeOrder::Carry(..) => self.carry.push_reserved(order),
            EdgeOrder::Close(..) => self.close.push_reserved(order),
        }
    }

    /// The dial order that is open behind an event.
    fn set_dial(&mut self, number: u128, dial: Option<Dest>, is_cut: bool)
        ensures state { self.new.state
            ≡ record self.old.state { dial = dial_with number (option_map address_of dial) is_cut self.old.state.dial } }
        ensures spare { self.new.spare ≡ self.old.spare }
        ensures rooms { self.new.rooms ≡ self.old.rooms }
    {
        if let Some(to) = dial {
            self.dial = Some(OpenDial {
                order: number,
                to,
                handed_out: false,
            });
            return;
        }
        if is_cut {
            self.dial = None;
        }
    }
}
