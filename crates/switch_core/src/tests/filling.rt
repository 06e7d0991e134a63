//! A switch with as many live circuits as may be.
ghost use Rattle.std.specs.Prelude.{◌≡◌, ◌≤◌, IfOk};
ghost use Rattle.switch_model.specs.Limits.{circuit_limit};

use super::opening_at;
use super::taking::CHANNEL;
use crate::Switch;
use cell_codec::List;
use circ_relay::Rules;
use std::alloc::{AllocError, Global};
use std::test::Fail;
use tr_io::answers::{BackAnswer, OpenAnswer, OpenRefusal};
use tr_io::names::{CircNo, Side};

/// A switch for so many circuits.
fn switch_for(alloc: Global, circuits: u32) -> Result<Switch, AllocError>
    requires some { 1 ≤ circuits }
    requires within { circuits ≤ circuit_limit }
    ensures { IfOk result (λ s. s.state.steps ≡ 0) }
{
    let rules = Rules {
        allow: List::new(alloc),
        window: 1000,
        least: 1,
    };
    Switch::sized(alloc, 0, rules, circuits)
}

/// A switch for so many circuits, with a channel that the peer opened and a circuit on it.
fn with_one_circuit(alloc: Global, circuits: u32) -> Result<Switch, AllocError>
    requires some { 1 ≤ circuits }
    requires within { circuits ≤ circuit_limit }
    ensures { IfOk result (λ s. s.state.steps ≤ 2) }
{
    let mut switch = switch_for(alloc, circuits)?;
    let opening = opening_at(alloc, 0x8000_0001, 5)?;
    let _up = switch.channel_up(0, Side::PeerOpened);
    let _first = switch.open_circuit(CHANNEL, 0x8000_0001, &opening);
    Ok(switch)
}

#[test]
fn a_switch_for_one_circuit_refuses_the_second(rt: HostRuntime) -> Result<(), Fail> {
    let mut switch = with_one_circuit(rt.alloc(), 1)?;
    let second = opening_at(rt.alloc(), 0x8000_0002, 5)?;
    let full = switch.open_circuit(CHANNEL, 0x8000_0002, &second);
    assert_eq!(rt; full, OpenAnswer::Refused(OpenRefusal::Full(1)));
    let refusal = switch.next_cell(CHANNEL, 0).ok_or("a DESTROY")?;
    assert_eq!(rt; refusal.circ, 0x8000_0002);
    assert_eq!(rt; refusal.command, 4);
    assert!(rt; matches!(refusal.body.payload(), [5, 0, ..]));
    // The circuit that is live is answered as ever.
    let reply = switch.next_cell(CHANNEL, 0).ok_or("a reply")?;
    assert_eq!(rt; reply.circ, 0x8000_0001);
    assert_eq!(rt; reply.command, 6);
    assert!(rt; switch.next_cell(CHANNEL, 0).is_none());
    Ok(())
}

#[test]
fn a_circuit_that_is_torn_down_makes_room(rt: HostRuntime) -> Result<(), Fail> {
    let mut switch = with_one_circuit(rt.alloc(), 1)?;
    let second = opening_at(rt.alloc(), 0x8000_0002, 5)?;
    assert_eq!(rt; switch.tear_down(CircNo(0), 8), BackAnswer::Down(8));
    let answer = switch.open_circuit(CHANNEL, 0x8000_0002, &second);
    assert_eq!(rt; answer, OpenAnswer::Opened(CircNo(1)));
    Ok(())
}

#[test]
fn a_switch_for_two_circuits_opens_a_second(rt: HostRuntime) -> Result<(), Fail> {
    let mut switch = with_one_circuit(rt.alloc(), 2)?;
    let second = opening_at(rt.alloc(), 0x8000_0002, 5)?;
    let third = opening_at(rt.alloc(), 0x8000_0003, 5)?;
    let answer = switch.open_circuit(CHANNEL, 0x8000_0002, &second);
    assert_eq!(rt; answer, OpenAnswer::Opened(CircNo(1)));
    let full = switch.open_circuit(CHANNEL, 0x8000_0003, &third);
    assert_eq!(rt; full, OpenAnswer::Refused(OpenRefusal::Full(2)));
    Ok(())
}
