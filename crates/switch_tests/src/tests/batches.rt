//! Bodies of one claim that come home together.

use crate::tests::bodies::{drop_body, refused_begin, refused_resolve, too_long};
use crate::tests::client::Client;
use crate::tests::leaving::{destroy_leaves, end_leaves, nothing_leaves, replies_leave};
use crate::tests::opening::circ_id;
use crate::tests::switch::TestSwitch;
use cell_codec::destroy_reason;
use relay_cell::resolved_body;
use std::process::Abort;
use tr_io::answers::BackAnswer;

/// The client sends a BEGIN for a name that isn't allowed, a second body, and a RESOLVE for such a name.
fn send_three(rt: &impl Abort, switch: &mut TestSwitch, client: &mut Client, second: &[u8; 509]) {
    client.send(rt, switch, &refused_begin(1));
    client.send(rt, switch, second);
    client.send(rt, switch, &refused_resolve(2));
}

#[test]
fn forty_bodies_come_home_in_two_claims(rt: HostRuntime) {
    let mut switch = TestSwitch::with_two_circuits(&rt);
    let mut client = Client::of(&rt, 0);
    replies_leave(&rt, &mut switch);
    for _body in 0..40_u32 {
        client.send(&rt, &mut switch, &drop_body());
    }
    let first = switch.job(&rt, 0);
    assert_eq!(rt; (first.note().first, first.note().count), (0, 32));
    // The eight that wait can't be claimed while these are out.
    assert_eq!(rt; switch.round(&rt), None);
    assert_eq!(rt; switch.give_back(&rt, first), BackAnswer::Settled);
    let second = switch.job(&rt, 0);
    assert_eq!(rt; (second.note().first, second.note().count), (32, 8));
    assert_eq!(rt; switch.give_back(&rt, second), BackAnswer::Settled);
    assert_eq!(rt; switch.round(&rt), None);
    nothing_leaves(&rt, &mut switch);
}

#[test]
fn bodies_of_a_claim_are_answered_in_their_order(rt: HostRuntime) {
    let mut switch = TestSwitch::with_two_circuits(&rt);
    let mut client = Client::of(&rt, 0);
    replies_leave(&rt, &mut switch);
    send_three(&rt, &mut switch, &mut client, &drop_body());
    assert_eq!(rt; switch.round(&rt), Some((3, BackAnswer::Settled)));
    // What the relay packaged waits for a claim of its own.
    nothing_leaves(&rt, &mut switch);
    assert_eq!(rt; switch.round(&rt), Some((2, BackAnswer::Settled)));
    end_leaves(&rt, &mut switch, &mut client, 1);
    let no_answer = resolved_body(2, 0xf1, &[], 60);
    assert_eq!(rt; client.receive(&rt, &mut switch), no_answer);
    nothing_leaves(&rt, &mut switch);
}

#[test]
fn a_body_that_closes_keeps_the_next_from_acting(rt: HostRuntime) {
    let mut switch = TestSwitch::with_two_circuits(&rt);
    let mut client = Client::of(&rt, 0);
    replies_leave(&rt, &mut switch);
    send_three(&rt, &mut switch, &mut client, &too_long());
    let closed = BackAnswer::Down(destroy_reason::PROTOCOL);
    assert_eq!(rt; switch.round(&rt), Some((3, closed)));
    assert_eq!(rt; switch.round(&rt), None);
    destroy_leaves(&rt, &mut switch, circ_id(0), destroy_reason::PROTOCOL);
    nothing_leaves(&rt, &mut switch);
}
