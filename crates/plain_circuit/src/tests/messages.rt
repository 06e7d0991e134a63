//! What single messages have the relay do.

use crate::relay::log_of;
use crate::tests::client::{Client, RELAY, RELAY_EARLY, echo_rules};
use crate::tests::deeds::{
    CLOSES, EdgeDeed, NOTHING, answers, deeds_of, dials, last_deeds, orders, passes,
};
use circuit_model::Event;
use relay_cell::{
    begin_body, circuit_sendme_body, command, data_body, end_body, extend2_body, resolve_body,
    stream_sendme_body, truncate_body, write_body,
};
use std::test::Fail;

/// The command of CREATE2 cells.
const CREATE2: u8 = 10;

/// DATA whose Length is 499.
fn too_long() -> [u8; 509] {
    let mut body = data_body(1, &[7; 498]);
    body[9] = 1;
    body[10] = 0xf3;
    body
}

/// EXTEND2 with an empty handshake and a link specifier of each type: 2, 3, 1, one without a meaning,
/// and at last 0, the IPv4 address.
fn all_specifiers() -> [u8; 509] {
    let mut payload = [0; 94];
    payload[..3].copy_from_slice(&[5, 2, 20]);
    payload[23..25].copy_from_slice(&[3, 32]);
    payload[57..59].copy_from_slice(&[1, 18]);
    payload[77..79].copy_from_slice(&[9, 3]);
    payload[82..90].copy_from_slice(&[0, 6, 127, 0, 0, 1, 0x23, 0x29]);
    write_body(command::EXTEND2, 0, &payload)
}

/// EXTEND2 that names an IPv6 address alone.
fn without_ipv4() -> [u8; 509] {
    let mut payload = [0; 25];
    payload[..3].copy_from_slice(&[1, 1, 18]);
    write_body(command::EXTEND2, 0, &payload)
}

fn next_hop() -> [u8; 509] {
    extend2_body(([127, 0, 0, 1], 9001), 0xff01, &[0; 20])
}

// Each row is sent on a circuit whose stream 1 is live.
#[test]
fn messages_have_their_effects(rt: HostRuntime) -> Result<(), Fail> {
    let rules = echo_rules(rt.alloc())?;
    let rows = [
        (
            RELAY,
            begin_body(2, b"Echo.Test", 7),
            orders(EdgeDeed::Reach),
        ),
        (
            RELAY,
            begin_body(2, b"no.test", 1),
            answers(command::END, 4),
        ),
        (RELAY, begin_body(1, b"echo.test", 7), CLOSES),
        (RELAY, begin_body(0, b"echo.test", 7), CLOSES),
        (
            RELAY,
            write_body(command::BEGIN, 2, b"echo.test:7"),
            answers(command::END, 13),
        ),
        (RELAY, data_body(1, &[7; 498]), orders(EdgeDeed::Carry)),
        (RELAY, data_body(2, &[7; 498]), NOTHING),
        (RELAY, too_long(), CLOSES),
        (RELAY, end_body(1, 6), orders(EdgeDeed::Close)),
        (RELAY, stream_sendme_body(1), CLOSES),
        (RELAY, stream_sendme_body(2), NOTHING),
        (RELAY, circuit_sendme_body(&[0; 20]), CLOSES),
        (RELAY, write_body(command::SENDME, 0, &[]), CLOSES),
        (RELAY, truncate_body(0), answers(command::TRUNCATED, 3)),
        (
            RELAY,
            resolve_body(2, b"ECHO.TEST"),
            answers(command::RESOLVED, 4),
        ),
        (
            RELAY,
            resolve_body(2, b"no.test"),
            answers(command::RESOLVED, 241),
        ),
        (
            RELAY,
            write_body(command::BEGIN_DIR, 2, &[]),
            answers(command::END, 14),
        ),
        (RELAY, next_hop(), CLOSES),
        (RELAY_EARLY, next_hop(), dials(9001)),
        (RELAY_EARLY, all_specifiers(), dials(9001)),
        (RELAY_EARLY, without_ipv4(), CLOSES),
        (RELAY, write_body(command::DROP, 0, &[]), NOTHING),
    ];
    for (cell, body, expected) in &rows {
        let mut client = Client::with_streams(rt.alloc(), 1)?;
        client.send(*cell, body)?;
        assert_eq!(rt; client.last(rt.alloc(), &rules)?, *expected);
    }
    Ok(())
}

#[test]
fn the_ninth_relay_early_closes(rt: HostRuntime) -> Result<(), Fail> {
    let rules = echo_rules(rt.alloc())?;
    let mut client = Client::new(rt.alloc())?;
    for _ in 0..9u8 {
        client.send(RELAY_EARLY, &write_body(command::DROP, 0, &[]))?;
    }
    let mut log = log_of(rt.alloc(), &rules, &client.history)?;
    assert_eq!(rt; last_deeds(&log), Some(CLOSES));
    let _ninth = log.pop().ok_or("no entry")?;
    assert_eq!(rt; last_deeds(&log), Some(NOTHING));
    Ok(())
}

#[test]
fn the_33rd_place_is_refused(rt: HostRuntime) -> Result<(), Fail> {
    let rules = echo_rules(rt.alloc())?;
    let mut client = Client::with_streams(rt.alloc(), 32)?;
    assert_eq!(rt; client.last(rt.alloc(), &rules)?, orders(EdgeDeed::Reach));
    let refused = client.relay_of(rt.alloc(), &rules, &begin_body(33, b"echo.test", 7))?;
    assert_eq!(rt; refused, answers(command::END, 11));
    Ok(())
}

#[test]
fn truncate_gives_the_next_hop_up(rt: HostRuntime) -> Result<(), Fail> {
    let rules = echo_rules(rt.alloc())?;
    let mut client = Client::new(rt.alloc())?;
    client.send(RELAY_EARLY, &next_hop())?;
    client.history.push(Event::Linked)?;
    assert_eq!(rt; client.last(rt.alloc(), &rules)?, passes(CREATE2));
    let mut created = [0; 509];
    created[1] = 40;
    client.history.push(Event::Answered(created))?;
    assert_eq!(rt;
        client.last(rt.alloc(), &rules)?,
        answers(command::EXTENDED2, 0)
    );
    client.pass(RELAY_EARLY, &[1; 509])?;
    assert_eq!(rt; client.last(rt.alloc(), &rules)?, passes(RELAY_EARLY));
    client.send(RELAY, &truncate_body(0))?;
    client.pass(RELAY, &[1; 509])?;
    let mut log = log_of(rt.alloc(), &rules, &client.history)?;
    assert_eq!(rt; last_deeds(&log), Some(CLOSES));
    let _passed = log.pop().ok_or("no entry")?;
    let truncated = log.pop().ok_or("no entry")?;
    assert_eq!(rt;
        deeds_of(&truncated.effects),
        answers(command::TRUNCATED, 3)
    );
    assert!(rt; truncated.effects.cut);
    Ok(())
}
