//! Calls whose answers were worked out by hand.
ghost use Rattle.std.specs.Prelude.{◌≡◌, IfOk, IfSome, IsTrue, false};
ghost use Rattle.cell_codec.specs.Cells.{is_var};
ghost use Rattle.tor_spec.specs.CellCommands.{asks_for_circuit, opens_circuit};

mod claims;
mod filling;
mod homecoming;
mod returns;
mod taking;

use super::*;
use cell_codec::{Body, Cell, List};
use circ_relay::Rules;
use hop_handshake::{FastHandshake, Opening, opening_of};
use std::alloc::{AllocError, Global};
use std::test::Fail;
use tr_io::answers::{BackAnswer, OpenAnswer, OpenRefusal, UpAnswer};
use tr_io::names::{ChanNo, CircNo, Side};

fn new_switch(alloc: Global) -> Result<Switch, AllocError>
    ensures { IfOk result (λ s. s.state.steps ≡ 0) }
{
    Switch::new(
        alloc,
        0,
        Rules {
            allow: List::new(alloc),
            window: 1000,
            least: 1,
        },
    )
}

/// The opening that this command asks for at this CircID, with a payload of zeros, where Y is zero.
fn opening_at(alloc: Global, id: u32, command: u8) -> Result<Opening, AllocError>
    requires { IsTrue (asks_for_circuit command) }
    ensures fixed { IfOk result (λ o. is_var o.reply.body ≡ false) }
    ensures command { IfOk result (λ o. IfSome o.keys (λ _. IsTrue (opens_circuit o.reply.command))) }
{
    let cell = Cell {
        circ: id,
        command,
        body: Body::Fixed([0; 509]),
    };
    opening_of(alloc, &cell, &FastHandshake, &[0; 20], None)
}

#[test]
fn a_circuit_answers_once(rt: HostRuntime) -> Result<(), Fail> {
    let mut switch = new_switch(rt.alloc())?;
    let opening = opening_at(rt.alloc(), 0x8000_0001, 5)?;
    assert_eq!(rt;
        switch.channel_up(3, Side::PeerOpened),
        UpAnswer::Up(ChanNo(0))
    );
    let answer = switch.open_circuit(ChanNo(0), 0x8000_0001, &opening);
    assert_eq!(rt; answer, OpenAnswer::Opened(CircNo(0)));
    let again = switch.open_circuit(ChanNo(0), 0x8000_0001, &opening);
    assert_eq!(rt; again, OpenAnswer::Refused(OpenRefusal::InUse));
    let cell = switch.next_cell(ChanNo(0), 0).ok_or("a reply")?;
    assert_eq!(rt; cell.circ, 0x8000_0001);
    assert_eq!(rt; cell.command, 6);
    assert!(rt; switch.next_cell(ChanNo(0), 1).is_none());
    assert_eq!(rt; switch.steps(), 5);
    Ok(())
}

#[test]
fn a_refused_id_is_destroyed(rt: HostRuntime) -> Result<(), Fail> {
    let mut switch = new_switch(rt.alloc())?;
    let opening = opening_at(rt.alloc(), 1, 5)?;
    assert_eq!(rt;
        switch.channel_up(0, Side::PeerOpened),
        UpAnswer::Up(ChanNo(0))
    );
    let answer = switch.open_circuit(ChanNo(0), 1, &opening);
    assert_eq!(rt; answer, OpenAnswer::Refused(OpenRefusal::BadId));
    let cell = switch.next_cell(ChanNo(0), 0).ok_or("a DESTROY")?;
    assert_eq!(rt; cell.circ, 1);
    assert_eq!(rt; cell.command, 4);
    assert!(rt; switch.next_cell(ChanNo(0), 0).is_none());
    Ok(())
}

#[test]
fn a_bad_handshake_is_destroyed(rt: HostRuntime) -> Result<(), Fail> {
    let mut switch = new_switch(rt.alloc())?;
    let opening = opening_at(rt.alloc(), 0x8000_0001, 10)?;
    assert_eq!(rt;
        switch.channel_up(0, Side::PeerOpened),
        UpAnswer::Up(ChanNo(0))
    );
    let answer = switch.open_circuit(ChanNo(0), 0x8000_0001, &opening);
    assert_eq!(rt; answer, OpenAnswer::Refused(OpenRefusal::BadHandshake));
    let cell = switch.next_cell(ChanNo(0), 0).ok_or("a DESTROY")?;
    assert_eq!(rt; cell.circ, 0x8000_0001);
    assert_eq!(rt; cell.command, 4);
    assert!(rt; switch.next_cell(ChanNo(0), 0).is_none());
    Ok(())
}

#[test]
fn a_torn_circuit_sends_its_destroy_alone(rt: HostRuntime) -> Result<(), Fail> {
    let mut switch = new_switch(rt.alloc())?;
    let opening = opening_at(rt.alloc(), 0x8000_0001, 5)?;
    assert_eq!(rt;
        switch.channel_up(0, Side::PeerOpened),
        UpAnswer::Up(ChanNo(0))
    );
    let answer = switch.open_circuit(ChanNo(0), 0x8000_0001, &opening);
    assert_eq!(rt; answer, OpenAnswer::Opened(CircNo(0)));
    assert_eq!(rt; switch.tear_down(CircNo(0), 8), BackAnswer::Down(8));
    assert_eq!(rt; switch.tear_down(CircNo(0), 8), BackAnswer::Gone);
    assert_eq!(rt; switch.tear_down(CircNo(1), 8), BackAnswer::Gone);
    // The CircID is in use until the DESTROY has left.
    let early = switch.open_circuit(ChanNo(0), 0x8000_0001, &opening);
    assert_eq!(rt; early, OpenAnswer::Refused(OpenRefusal::InUse));
    let cell = switch.next_cell(ChanNo(0), 0).ok_or("a DESTROY")?;
    assert_eq!(rt; cell.circ, 0x8000_0001);
    assert_eq!(rt; cell.command, 4);
    assert!(rt; matches!(cell.body.payload(), [8, 0, ..]));
    assert!(rt; switch.next_cell(ChanNo(0), 0).is_none());
    let again = switch.open_circuit(ChanNo(0), 0x8000_0001, &opening);
    assert_eq!(rt; again, OpenAnswer::Opened(CircNo(1)));
    Ok(())
}

#[test]
fn the_65th_channel_finds_the_switch_full(rt: HostRuntime) -> Result<(), Fail> {
    let mut switch = new_switch(rt.alloc())?;
    for number in 0..64 {
        let answer = switch.channel_up(0, Side::WeOpened);
        assert_eq!(rt; answer, UpAnswer::Up(ChanNo(number)));
    }
    assert_eq!(rt; switch.channel_up(0, Side::WeOpened), UpAnswer::Full(64));
    assert!(rt; switch.next_cell(ChanNo(64), 0).is_none());
    Ok(())
}
