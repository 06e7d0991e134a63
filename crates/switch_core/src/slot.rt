//! A circuit by its number, which may be gone.
ghost use Rattle.std.specs.Prelude.{◌≡◌, ◌+◌, ◌<◌, ◌≤◌, ◌^◌, ⊤, IfSome, IsTrue, is_some, length, option_map};
ghost use Rattle.circ_relay.specs.Values.{rules_of};
ghost use Rattle.switch_machine.specs.Calls.Take.{kept_length};
ghost use Rattle.switch_core.specs.Sealing.{sealed_cells_of, with_sealed};
ghost use Rattle.switch_core.specs.Settling.{CallsGrow, HasCallsFor, SlotSettles};
ghost use Rattle.cell_codec.specs.Cells.{IsWellFormed};
ghost use Rattle.switch_machine.specs.Machine.{has_port, leg_at};
ghost use Rattle.switch_machine.specs.Calls.NextCell.{waits_on, count_of_found, first_cell};
ghost use Rattle.switch_machine.specs.Calls.OpenCircuit.{circuit_has_id};
ghost use Rattle.switch_core.specs.Picking.{HasOneLeg, SlotSent};
ghost use Rattle.switch_core.specs.Taking.{TakeCase, body_count, queued_answer, slot_with_body};

use crate::circuit::Circuit;
use crate::counters::Counters;
use cell_codec::Cell;
use circ_relay::{Circuit as RelayCircuit, Rules};
use relay_cell::Opened;
use tr_io::answers::{TakeAnswer, Why};
use tr_io::names::ChanNo;

/// Whether this CircID of this channel is that of the circuit's leg.
pub fn slot_has_port(slot: &Option<Circuit>, chan: ChanNo, id: u32) -> bool
    ensures any { result ≡ circuit_has_id chan.0 id slot.now }
    ensures port { result ≡ has_port chan.0 id (leg_at slot.now 0) }
    ensures one_leg { HasOneLeg slot.now }
{
    match slot {
        Some(circuit) => circuit.has_port(chan, id),
        None => false,
    }
}

/// Whether a cell waits on the circuit's leg for this channel.
pub fn slot_waits_on(slot: &Option<Circuit>, chan: ChanNo) -> bool
    ensures waits { result ≡ waits_on chan.0 (leg_at slot.now 0) }
    ensures one_leg { HasOneLeg slot.now }
{
    match slot {
        Some(circuit) => circuit.waits_on(chan),
        None => false,
    }
}

/// The count of the circuit's leg where this tick is in force.
pub fn slot_count_at(slot: &Option<Circuit>, now: u64) -> u64
    ensures { result ≡ count_of_found now (leg_at slot.now 0) }
{
    match slot {
        Some(circuit) => circuit.count_at(now),
        None => 0,
    }
}

/// The first cell that waits on the circuit's leg leaves at this tick.
pub fn send_first_of(slot: &mut Option<Circuit>, now: u64) -> Option<Cell>
    ensures cell { result ≡ first_cell (leg_at slot.old 0) }
    ensures state { SlotSent now slot.old slot.new }
    ensures well_formed { IfSome result IsWellFormed }
{
    match slot {
        Some(circuit) => circuit.send_first(now),
        None => None,
    }
}

/// How many bodies of the circuit are out or wait forth.
pub fn slot_body_count(slot: &Option<Circuit>) -> usize
    ensures { result ≡ body_count slot.now }
{
    match slot {
        Some(circuit) => circuit.body_count(),
        None => 0,
    }
}

/// One more body waits forth on the circuit.
pub fn push_forth_of(
    slot: &mut Option<Circuit>,
    number: u128,
    command: u8,
    payload: &[u8; 509],
) -> TakeAnswer
    ensures state { TakeCase result (slot.new ≡ slot.old)
        (slot.new ≡ slot_with_body number (record { command = command; body = payload.now }) slot.old) }
    ensures answer { TakeCase result ⊤ (result ≡ queued_answer slot.old) }
{
    match slot {
        Some(circuit) => match circuit.push_forth(number, command, payload) {
            Ok(()) => TakeAnswer::Queued,
            Err(_) => TakeAnswer::Memory,
        },
        None => TakeAnswer::PassedOver(Why::NoCircuit),
    }
}

/// The bodies of a live circuit's forward claim come home as these.
pub fn settle_forth_of(
    slot: &mut Option<Circuit>,
    relay: &mut RelayCircuit,
    rules: &Rules,
    counters: &mut Counters,
    opened_bodies: &[Opened],
) -> Option<u8>
    requires live { IsTrue (is_some slot.old) }
    requires count { IfSome slot.old (λ x. length opened_bodies.now ≡ kept_length x.forth.claim_out) }
    requires most { length opened_bodies.now ≤ 32 }
    requires calls { HasCallsFor 32 relay.old }
    requires bodies { counters.old.bodies < 2 ^ 99 }
    requires dials { counters.old.dial_orders < 2 ^ 99 }
    ensures settles { SlotSettles (rules_of rules.now) slot.old slot.new counters.old counters.new relay.old relay.new opened_bodies.now
        result }
    ensures grown { CallsGrow (length opened_bodies.now) relay.old relay.new }
    ensures counts { counters.new ≡ record counters.old { bodies = counters.new.bodies; dial_orders = counters.new.dial_orders } }
    ensures bodies { counters.new.bodies ≤ counters.old.bodies + 32 }
    ensures dials { counters.new.dial_orders ≤ counters.old.dial_orders + 32 }
{
    match slot {
        Some(circuit) => circuit.settle_forth(relay, rules, counters, opened_bodies),
        None => unreachable!(),
    }
}

/// The bodies of a live circuit's backward claim come home sealed as these.
pub fn seal_back_of(slot: &mut Option<Circuit>, sealed: &[Opened])
    requires live { IsTrue (is_some slot.old) }
    requires count { IfSome slot.old (λ x. length sealed.now ≡ kept_length x.back.claim_out) }
    requires out { IfSome slot.old (λ x. kept_length x.back.claim_out ≤ x.back.claimed_count) }
    ensures { slot.new ≡ option_map (with_sealed (sealed_cells_of sealed.now)) slot.old }
{
    match slot {
        Some(circuit) => circuit.seal_back(sealed),
        None => unreachable!(),
    }
}
