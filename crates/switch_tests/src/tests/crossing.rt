//! Jobs that are out at once, and come home in another order than they went.

use crate::tests::bodies::refused_begin;
use crate::tests::client::Client;
use crate::tests::leaving::{destroy_leaves, end_leaves, nothing_leaves, replies_leave};
use crate::tests::opening::circ_id;
use crate::tests::switch::TestSwitch;
use cell_codec::destroy_reason;
use std::process::Abort;
use tr_io::answers::BackAnswer;
use tr_io::names::{CircNo, ClaimNote, Dir};

/// One body is claimed, and comes home.
fn one_comes_home(rt: &impl Abort, switch: &mut TestSwitch) {
    assert_eq!(rt; switch.round(rt), Some((1, BackAnswer::Settled)));
}

#[test]
fn later_claim_comes_home_first(rt: HostRuntime) {
    let mut switch = TestSwitch::with_two_circuits(&rt);
    let mut first = Client::of(&rt, 0);
    let mut second = Client::of(&rt, 1);
    replies_leave(&rt, &mut switch);
    first.send(&rt, &mut switch, &refused_begin(1));
    second.send(&rt, &mut switch, &refused_begin(2));
    let earlier = switch.job(&rt, 0);
    let later = switch.job(&rt, 1);
    assert_eq!(rt; later.note().circ, CircNo(1));
    assert_eq!(rt; switch.give_back(&rt, later), BackAnswer::Settled);
    assert_eq!(rt; earlier.note().circ, CircNo(0));
    assert_eq!(rt; switch.give_back(&rt, earlier), BackAnswer::Settled);
    // What was packaged first is claimed first.
    one_comes_home(&rt, &mut switch);
    end_leaves(&rt, &mut switch, &mut second, 2);
    nothing_leaves(&rt, &mut switch);
    one_comes_home(&rt, &mut switch);
    end_leaves(&rt, &mut switch, &mut first, 1);
    nothing_leaves(&rt, &mut switch);
}

#[test]
fn both_directions_of_a_circuit_are_out_at_once(rt: HostRuntime) {
    let mut switch = TestSwitch::with_two_circuits(&rt);
    let mut client = Client::of(&rt, 0);
    replies_leave(&rt, &mut switch);
    client.send(&rt, &mut switch, &refused_begin(1));
    one_comes_home(&rt, &mut switch);
    client.send(&rt, &mut switch, &refused_begin(2));
    let back = switch.job(&rt, 0);
    assert_eq!(rt; back.note().dir, Dir::Back);
    let forth = switch.job(&rt, 1);
    assert_eq!(rt; forth.note().dir, Dir::Forth);
    assert_eq!(rt; switch.give_back(&rt, forth), BackAnswer::Settled);
    // What the one packaged can't be claimed while the other is out.
    assert_eq!(rt; switch.round(&rt), None);
    assert_eq!(rt; switch.give_back(&rt, back), BackAnswer::Settled);
    end_leaves(&rt, &mut switch, &mut client, 1);
    nothing_leaves(&rt, &mut switch);
    one_comes_home(&rt, &mut switch);
    end_leaves(&rt, &mut switch, &mut client, 2);
}

#[test]
fn a_sealed_body_finds_its_circuit_gone(rt: HostRuntime) {
    let mut switch = TestSwitch::with_two_circuits(&rt);
    let mut client = Client::of(&rt, 0);
    replies_leave(&rt, &mut switch);
    client.send(&rt, &mut switch, &refused_begin(1));
    one_comes_home(&rt, &mut switch);
    let back = switch.job(&rt, 63);
    let note = ClaimNote {
        switch: 0,
        claim: 1,
        worker: 63,
        circ: CircNo(0),
        dir: Dir::Back,
        first: 0,
        count: 1,
    };
    assert_eq!(rt; back.note(), note);
    let reason = destroy_reason::REQUESTED;
    assert_eq!(rt;
        switch.tear_down(&rt, CircNo(0), reason),
        BackAnswer::Down(reason)
    );
    assert_eq!(rt; switch.give_back(&rt, back), BackAnswer::Gone);
    destroy_leaves(&rt, &mut switch, circ_id(0), reason);
    nothing_leaves(&rt, &mut switch);
}
