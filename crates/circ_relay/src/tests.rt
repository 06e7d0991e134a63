// Circuits whose cells and answers were worked out by hand.

ghost use Rattle.std.specs.Prelude.{◌≡◌, ◌≤◌, length};
ghost use Rattle.tor_spec.specs.CircuitWindow.{circuit_start, least_start};

mod padding;
mod sendmes;
mod streams;

use super::*;
use cell_codec::{Bytes, List};
use kdf_tor::LayerKeys;
use relay_cell::{Opened, command, payload_of, read_head, write_body};
use std::alloc::{AllocError, Global};
use std::test::Fail;
use tr_io::edges::EdgeOrder;
use tr_io::names::{CircNo, Dest};

const RELAY: u8 = 3;

const RELAY_EARLY: u8 = 9;

const ECHO: Dest = Dest {
    ip: [127, 0, 0, 1],
    port: 7,
};

// echo.test, port 7, leads to 127.0.0.1; windows of 1000 DATA, and SENDMEs with a proof alone.
fn rules(alloc: Global) -> Result<Rules, AllocError> {
    rules_of(alloc, 1000, 1)
}

// The same names, and circuits with this window and this least version of SENDMEs.
fn rules_of(alloc: Global, window: u32, least: u8) -> Result<Rules, AllocError>
    requires least_start { least_start ≤ window }
    requires most_start { window ≤ circuit_start }
    requires version { least ≤ 1 }
{
    let mut allow = List::new(alloc);
    allow.push(Allow {
        host: Bytes::of(alloc, b"echo.test")?,
        port: 7,
        to: ECHO,
    })?;
    Ok(Rules {
        allow,
        window,
        least,
    })
}

// A circuit whose keys are zero, and whose padding is too.
fn circuit(rules: &Rules) -> Circuit
    ensures windows { result.windows.calls ≡ 0 }
    ensures places { result.places.calls ≡ 0 }
    ensures packaged { result.packager.padding.count ≡ 0 }
{
    padded_circuit(None, rules)
}

fn padded_circuit(pad: Option<[u8; 16]>, rules: &Rules) -> Circuit
    ensures windows { result.windows.calls ≡ 0 }
    ensures places { result.places.calls ≡ 0 }
    ensures packaged { result.packager.padding.count ≡ 0 }
{
    let keys = LayerKeys {
        df: [0; 20],
        db: [0; 20],
        kf: [0; 16],
        kb: [0; 16],
    };
    Circuit::new(CircNo(0), &keys, pad, rules)
}

// A cell that was recognised, whose digest is of these bytes.
fn meant(command: u8, stream: u16, payload: &[u8], digest: u8) -> Opened
    requires { length payload.now ≤ 498 }
{
    Opened {
        body: write_body(command, stream, payload),
        recognised: Some([digest; 20]),
    }
}

// Command, StreamID and payload of what goes back.
fn packaged(effects: &Effects) -> Option<(u8, u16, &[u8])> {
    let body = effects.back.as_ref()?;
    let head = read_head(body)?;
    Some((head.command, head.stream, payload_of(body)))
}

#[test]
fn begins_to_no_allowed_name_are_refused(rt: HostRuntime) -> Result<(), Fail> {
    let rules = rules(rt.alloc())?;
    let mut circuit = circuit(&rules);
    let begin = meant(command::BEGIN, 1, b"no.test:1\0", 0);
    let effects = circuit.forward(rt.alloc(), &rules, &begin, RELAY)?;
    assert!(rt; packaged(&effects) == Some((command::END, 1, [4].as_slice())));
    assert!(rt; effects.edge.is_none() && effects.close.is_none());
    Ok(())
}

#[test]
fn data_of_498_bytes_is_carried(rt: HostRuntime) -> Result<(), Fail> {
    let rules = rules(rt.alloc())?;
    let mut circuit = circuit(&rules);
    let begin = meant(command::BEGIN, 1, b"Echo.Test:7\0", 0);
    let begin_effects = circuit.forward(rt.alloc(), &rules, &begin, RELAY)?;
    let Some(EdgeOrder::Reach(key, to)) = begin_effects.edge else {
        // no connection is ordered
        assert!(rt; false);
        return Ok(());
    };
    assert_eq!(rt; to, ECHO);
    assert_eq!(rt; key.serial, 0);
    let data = meant(command::DATA, 1, &[7; 498], 0);
    let data_effects = circuit.forward(rt.alloc(), &rules, &data, RELAY)?;
    let Some(EdgeOrder::Carry(to_stream, bytes)) = data_effects.edge else {
        // no bytes are ordered
        assert!(rt; false);
        return Ok(());
    };
    assert_eq!(rt; to_stream, key);
    assert_eq!(rt; bytes.as_slice(), [7; 498].as_slice());
    let mut longer_cell = data;
    longer_cell.body[9..11].copy_from_slice(&[1, 0xf3]);
    let effects = circuit.forward(rt.alloc(), &rules, &longer_cell, RELAY)?;
    assert_eq!(rt; effects.close, Some(1));
    Ok(())
}

#[test]
fn sendmes_that_are_not_owed_close(rt: HostRuntime) -> Result<(), Fail> {
    let rules = rules(rt.alloc())?;
    let mut proof = [0; 23];
    proof[..3].copy_from_slice(&[1, 0, 20]);
    let sendme = meant(command::SENDME, 0, &proof, 0);
    let effects = circuit(&rules).forward(rt.alloc(), &rules, &sendme, RELAY)?;
    assert_eq!(rt; effects.close, Some(1));
    let empty_sendme = meant(command::SENDME, 0, &[], 0);
    let effects = circuit(&rules).forward(rt.alloc(), &rules, &empty_sendme, RELAY)?;
    assert_eq!(rt; effects.close, Some(1));
    Ok(())
}

#[test]
fn extends_come_in_relay_early(rt: HostRuntime) -> Result<(), Fail> {
    let rules = rules(rt.alloc())?;
    let mut payload = [0; 32];
    payload[..12].copy_from_slice(&[1, 0, 6, 127, 0, 0, 1, 0x23, 0x29, 0xff, 0x01, 0]);
    payload[12] = 0x13;
    payload[13..].copy_from_slice(&[8; 19]);
    let extend = meant(command::EXTEND2, 0, &payload, 0);
    let effects = circuit(&rules).forward(rt.alloc(), &rules, &extend, RELAY)?;
    assert_eq!(rt; effects.close, Some(1));
    let mut circuit = circuit(&rules);
    let extend_effects = circuit.forward(rt.alloc(), &rules, &extend, RELAY_EARLY)?;
    let next = Dest {
        ip: [127, 0, 0, 1],
        port: 9001,
    };
    assert_eq!(rt; extend_effects.dial, Some(next));
    if circuit.next_hop() != NextHop::Dialling {
        assert!(rt; false);
        return Ok(());
    }
    let link_effects = circuit.next_linked();
    let mut create2 = [0; 509];
    create2[..4].copy_from_slice(&[0xff, 0x01, 0, 0x13]);
    create2[4..23].copy_from_slice(&[8; 19]);
    assert!(rt; link_effects.forth == Some((10, create2)));
    Ok(())
}

#[test]
fn each_hundredth_data_is_acknowledged(rt: HostRuntime) -> Result<(), Fail> {
    let rules = rules(rt.alloc())?;
    let mut circuit = circuit(&rules);
    let data = meant(command::DATA, 9, &[], 5);
    for number in 0..100u64 {
        let effects = circuit.forward(rt.alloc(), &rules, &data, RELAY)?;
        assert_eq!(rt; effects.back.is_some(), number == 99);
        if number == 99 {
            let mut proof = [5; 23];
            proof[..3].copy_from_slice(&[1, 0, 20]);
            assert!(rt; packaged(&effects) == Some((command::SENDME, 0, proof.as_slice())));
        }
    }
    Ok(())
}

#[test]
fn a_circuit_has_room_for_32_places(rt: HostRuntime) -> Result<(), Fail> {
    let rules = rules(rt.alloc())?;
    let mut circuit = circuit(&rules);
    for number in 0..32u16 {
        let begin = meant(command::BEGIN, number + 1, b"echo.test:7\0", 0);
        let effects = circuit.forward(rt.alloc(), &rules, &begin, RELAY)?;
        assert!(rt; effects.edge.is_some() && effects.back.is_none());
    }
    let begin = meant(command::BEGIN, 33, b"echo.test:7\0", 0);
    let effects = circuit.forward(rt.alloc(), &rules, &begin, RELAY)?;
    assert!(rt; packaged(&effects) == Some((command::END, 33, [11].as_slice())));
    Ok(())
}

#[test]
fn the_ninth_relay_early_closes(rt: HostRuntime) -> Result<(), Fail> {
    let rules = rules(rt.alloc())?;
    let mut circuit = circuit(&rules);
    let drop_cell = meant(command::DROP, 0, &[], 0);
    for _number in 0..8u64 {
        let effects = circuit.forward(rt.alloc(), &rules, &drop_cell, RELAY_EARLY)?;
        assert_eq!(rt; effects.close, None);
    }
    let effects = circuit.forward(rt.alloc(), &rules, &drop_cell, RELAY_EARLY)?;
    assert_eq!(rt; effects.close, Some(1));
    Ok(())
}
