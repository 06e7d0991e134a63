//! Windows over long histories, and the SENDMEs that move them.

use crate::relay::log_of;
use crate::tests::client::{Client, RELAY, back_digest, echo_rules};
use crate::tests::deeds::{CLOSES, EdgeDeed, NOTHING, last_deeds, orders};
use crate::windows::{
    circuit_grant, grant_for, is_circuit_shut, is_stream_shut, packed, packed_for,
};
use relay_cell::{circuit_sendme_body, command, data_body, stream_sendme_body, write_body};
use std::test::Fail;

#[test]
fn the_hundredth_data_is_acknowledged_by_its_digest(rt: HostRuntime) -> Result<(), Fail> {
    let rules = echo_rules(rt.alloc())?;
    let mut client = Client::with_streams(rt.alloc(), 1)?;
    let mut digest = [0; 20];
    for _ in 0..100u8 {
        digest = client.send(RELAY, &data_body(1, &[7]))?;
    }
    let mut log = log_of(rt.alloc(), &rules, &client.history)?;
    let hundredth = log.pop().ok_or("no entry")?;
    let back = hundredth.effects.back.ok_or("nothing back")?;
    let expected = circuit_sendme_body(&digest);
    assert_eq!(rt; &back[..5], &expected[..5]);
    assert_eq!(rt; &back[9..], &expected[9..]);
    assert_eq!(rt; last_deeds(&log), Some(orders(EdgeDeed::Carry)));
    Ok(())
}

#[test]
fn the_one_right_proof_is_taken(rt: HostRuntime) -> Result<(), Fail> {
    let rules = echo_rules(rt.alloc())?;
    let mut client = Client::with_streams(rt.alloc(), 1)?;
    client.data_in_turn(rt.alloc(), 1, 100)?;
    let proof = back_digest(&log_of(rt.alloc(), &rules, &client.history)?);
    let mut wrong = proof;
    wrong[19] ^= 1;
    let rows = [
        (circuit_sendme_body(&proof), NOTHING),
        (circuit_sendme_body(&wrong), CLOSES),
        (write_body(command::SENDME, 0, &[]), CLOSES),
    ];
    for (body, expected) in &rows {
        assert_eq!(rt; client.relay_of(rt.alloc(), &rules, body)?, *expected);
    }
    Ok(())
}

#[test]
fn a_stream_is_shut_at_500_until_its_sendme(rt: HostRuntime) -> Result<(), Fail> {
    let rules = echo_rules(rt.alloc())?;
    let mut client = Client::with_streams(rt.alloc(), 1)?;
    client.data_in_turn(rt.alloc(), 1, 500)?;
    client.send(RELAY, &stream_sendme_body(1))?;

    let mut log = log_of(rt.alloc(), &rules, &client.history)?;
    assert_eq!(rt; (packed_for(&log, 0), grant_for(&log, 0)), (500, 550));
    assert!(rt; !is_stream_shut(&log, 0));
    let _sendme = log.pop().ok_or("no entry")?;
    assert_eq!(rt; (packed_for(&log, 0), grant_for(&log, 0)), (500, 500));
    assert!(rt; is_stream_shut(&log, 0) && !is_circuit_shut(&rules, &log));
    let _500th = log.pop().ok_or("no entry")?;
    assert_eq!(rt; packed_for(&log, 0), 499);
    assert!(rt; !is_stream_shut(&log, 0));
    Ok(())
}

// The streams have packaged 334, 333 and 333 when the circuit is shut.
#[test]
fn three_streams_are_shut_at_1000_until_a_right_sendme(rt: HostRuntime) -> Result<(), Fail> {
    let rules = echo_rules(rt.alloc())?;
    let mut client = Client::with_streams(rt.alloc(), 3)?;
    client.data_in_turn(rt.alloc(), 3, 1000)?;
    let proof = {
        let mut log = log_of(rt.alloc(), &rules, &client.history)?;
        let streams = (
            packed_for(&log, 0),
            packed_for(&log, 1),
            packed_for(&log, 2),
        );
        assert_eq!(rt; streams, (334, 333, 333));
        assert!(rt; is_circuit_shut(&rules, &log) && !is_stream_shut(&log, 0));
        let _1000th = log.pop().ok_or("no entry")?;
        assert!(rt; !is_circuit_shut(&rules, &log));
        log.truncate(1 + 3 + 100);
        back_digest(&log)
    };
    client.send(RELAY, &circuit_sendme_body(&proof))?;
    let log = log_of(rt.alloc(), &rules, &client.history)?;
    assert_eq!(rt; (packed(&log), circuit_grant(&rules, &log)), (1000, 1100));
    assert!(rt; !is_circuit_shut(&rules, &log));
    Ok(())
}
