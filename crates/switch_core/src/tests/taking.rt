//! Cells that channels bring.
ghost use Rattle.std.specs.Prelude.{◌≡◌, ◌≤◌, ◌+◌, IfOk, false};
ghost use Rattle.cell_codec.specs.Cells.{IsWellFormed};
ghost use Rattle.tor_spec.specs.CellEncoding.{is_variable};

use super::{new_switch, opening_at};
use crate::Switch;
use cell_codec::{Body, Cell};
use std::alloc::{AllocError, Global};
use std::test::Fail;
use tr_io::answers::{BackAnswer, OpenAnswer, OpenRefusal, TakeAnswer, Why};
use tr_io::names::{ChanNo, CircNo, Side};

pub(super) const CHANNEL: ChanNo = ChanNo(0);

/// The CircID of a circuit that its client has given this number.
pub(super) fn circ_id(number: u32) -> u32 {
    0x8000_0001 + number % 512
}

/// A cell with this command and a payload of zeros.
fn cell(id: u32, command: u8) -> Cell
    requires { is_variable command ≡ false }
    ensures { IsWellFormed result }
{
    Cell {
        circ: id,
        command,
        body: Body::Fixed([0; 509]),
    }
}

/// A switch with a channel that the peer opened and two circuits on it.
pub(super) fn with_two_circuits(alloc: Global) -> Result<Switch, AllocError>
    ensures { IfOk result (λ s. s.state.steps ≤ 3) }
{
    let mut switch = new_switch(alloc)?;
    let first = opening_at(alloc, circ_id(0), 5)?;
    let second = opening_at(alloc, circ_id(1), 5)?;
    let _up = switch.channel_up(0, Side::PeerOpened);
    let _first = switch.open_circuit(CHANNEL, circ_id(0), &first);
    let _second = switch.open_circuit(CHANNEL, circ_id(1), &second);
    Ok(switch)
}

#[test]
fn relay_cells_wait(rt: HostRuntime) -> Result<(), Fail> {
    let mut switch = with_two_circuits(rt.alloc())?;
    assert_eq!(rt;
        switch.take(CHANNEL, &cell(circ_id(0), 3)),
        TakeAnswer::Queued
    );
    assert_eq!(rt;
        switch.take(CHANNEL, &cell(circ_id(1), 9)),
        TakeAnswer::Queued
    );
    assert_eq!(rt; switch.steps(), 5);
    Ok(())
}

#[test]
fn other_cells_are_passed_over(rt: HostRuntime) -> Result<(), Fail> {
    let mut switch = with_two_circuits(rt.alloc())?;
    let down_answer = switch.take(ChanNo(1), &cell(circ_id(0), 3));
    assert_eq!(rt; down_answer, TakeAnswer::PassedOver(Why::NoChannel));
    let padding = switch.take(CHANNEL, &cell(0, 0));
    assert_eq!(rt; padding, TakeAnswer::PassedOver(Why::Padding));
    let negotiation = switch.take(CHANNEL, &cell(0, 12));
    assert_eq!(rt; negotiation, TakeAnswer::PassedOver(Why::Padding));
    let opening = switch.take(CHANNEL, &cell(circ_id(0), 5));
    assert_eq!(rt; opening, TakeAnswer::PassedOver(Why::Opening));
    let netinfo = switch.take(CHANNEL, &cell(0, 8));
    assert_eq!(rt; netinfo, TakeAnswer::PassedOver(Why::Link));
    let unknown = switch.take(CHANNEL, &cell(circ_id(0), 6));
    assert_eq!(rt; unknown, TakeAnswer::PassedOver(Why::Unknown));
    let stranger = switch.take(CHANNEL, &cell(circ_id(2), 3));
    assert_eq!(rt; stranger, TakeAnswer::PassedOver(Why::NoCircuit));
    assert_eq!(rt; switch.steps(), 10);
    Ok(())
}

#[test]
fn a_destroy_ends_its_circuit_without_one_of_ours(rt: HostRuntime) -> Result<(), Fail> {
    let mut switch = with_two_circuits(rt.alloc())?;
    let ended = switch.take(CHANNEL, &cell(circ_id(0), 4));
    assert_eq!(rt; ended, TakeAnswer::Down(CircNo(0), 11));
    // The other circuit's reply leaves, and nothing else does.
    let reply = switch.next_cell(CHANNEL, 0).ok_or("a reply")?;
    assert_eq!(rt; reply.circ, circ_id(1));
    assert!(rt; switch.next_cell(CHANNEL, 0).is_none());
    let again = switch.take(CHANNEL, &cell(circ_id(0), 3));
    assert_eq!(rt; again, TakeAnswer::PassedOver(Why::NoCircuit));
    let open_answer = switch.open_circuit(
        CHANNEL,
        circ_id(0),
        &opening_at(rt.alloc(), circ_id(0), 5)?,
    );
    assert_eq!(rt; open_answer, OpenAnswer::Opened(CircNo(2)));
    Ok(())
}

#[test]
fn a_reply_from_the_client_closes_its_circuit(rt: HostRuntime) -> Result<(), Fail> {
    let mut switch = with_two_circuits(rt.alloc())?;
    let closed = switch.take(CHANNEL, &cell(circ_id(1), 11));
    assert_eq!(rt; closed, TakeAnswer::Down(CircNo(1), 1));
    let destroy = switch.next_cell(CHANNEL, 0).ok_or("a DESTROY")?;
    assert_eq!(rt; destroy.circ, circ_id(1));
    assert!(rt; matches!(destroy.body.payload(), [1, 0, ..]));
    Ok(())
}

#[test]
fn destroys_that_cross_free_the_circid(rt: HostRuntime) -> Result<(), Fail> {
    let mut switch = with_two_circuits(rt.alloc())?;
    let opening = opening_at(rt.alloc(), circ_id(0), 5)?;
    assert_eq!(rt; switch.tear_down(CircNo(0), 3), BackAnswer::Down(3));
    let early = switch.open_circuit(CHANNEL, circ_id(0), &opening);
    assert_eq!(rt; early, OpenAnswer::Refused(OpenRefusal::InUse));
    let crossed = switch.take(CHANNEL, &cell(circ_id(0), 4));
    assert_eq!(rt; crossed, TakeAnswer::PassedOver(Why::NoCircuit));
    let reply = switch.next_cell(CHANNEL, 0).ok_or("a reply")?;
    assert_eq!(rt; reply.circ, circ_id(1));
    assert!(rt; switch.next_cell(CHANNEL, 0).is_none());
    let open_answer = switch.open_circuit(CHANNEL, circ_id(0), &opening);
    assert_eq!(rt; open_answer, OpenAnswer::Opened(CircNo(2)));
    Ok(())
}

#[test]
fn the_1501st_body_closes_its_circuit(rt: HostRuntime) -> Result<(), Fail> {
    let mut switch = with_two_circuits(rt.alloc())?;
    for body in 0..1500_u64 {
        let answer = switch.take(CHANNEL, &cell(circ_id(0), 3));
        assert_eq!(rt; answer, TakeAnswer::Queued);
    }
    let full = switch.take(CHANNEL, &cell(circ_id(0), 3));
    assert_eq!(rt; full, TakeAnswer::Down(CircNo(0), 5));
    let other = switch.take(CHANNEL, &cell(circ_id(1), 3));
    assert_eq!(rt; other, TakeAnswer::Queued);
    Ok(())
}
