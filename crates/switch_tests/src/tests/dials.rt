//! Dial orders that EXTEND2s make.

use crate::tests::bodies::extend_to;
use crate::tests::client::Client;
use crate::tests::switch::TestSwitch;
use cell_codec::destroy_reason;
use std::process::Abort;
use tr_io::answers::BackAnswer;
use tr_io::dials::DialStep;
use tr_io::names::{CircNo, Dest};

/// The bodies that wait on a circuit come home.
fn comes_home(rt: &impl Abort, switch: &mut TestSwitch) {
    assert_eq!(rt; switch.round(rt), Some((1, BackAnswer::Settled)));
}

/// The order that is handed out has this number and is of this circuit, to this port of 127.0.0.1.
fn order_comes(rt: &impl Abort, switch: &mut TestSwitch, order: u64, circ: u64, port: u16) {
    let wanted = DialStep {
        order,
        circ: CircNo(circ),
        to: Dest {
            ip: [127, 0, 0, 1],
            port,
        },
        over: None,
    };
    assert_eq!(rt; switch.dial_order(rt), Some(wanted));
}

/// No order is handed out.
fn no_order_comes(rt: &impl Abort, switch: &mut TestSwitch) {
    assert_eq!(rt; switch.dial_order(rt), None);
}

#[test]
fn an_extend2_makes_one_order(rt: HostRuntime) {
    let mut switch = TestSwitch::with_two_circuits(&rt);
    let mut client = Client::of(&rt, 0);
    no_order_comes(&rt, &mut switch);
    client.send_early(&rt, &mut switch, &extend_to(9001));
    // Nothing is ordered before the body comes home.
    no_order_comes(&rt, &mut switch);
    comes_home(&rt, &mut switch);
    order_comes(&rt, &mut switch, 0, 0, 9001);
    no_order_comes(&rt, &mut switch);
}

#[test]
fn each_circuits_order_comes_once_and_the_oldest_first(rt: HostRuntime) {
    let mut switch = TestSwitch::with_two_circuits(&rt);
    let mut first = Client::of(&rt, 0);
    let mut second = Client::of(&rt, 1);
    second.send_early(&rt, &mut switch, &extend_to(9002));
    comes_home(&rt, &mut switch);
    first.send_early(&rt, &mut switch, &extend_to(9001));
    comes_home(&rt, &mut switch);
    order_comes(&rt, &mut switch, 0, 1, 9002);
    order_comes(&rt, &mut switch, 1, 0, 9001);
    no_order_comes(&rt, &mut switch);
}

#[test]
fn a_torn_circuits_order_never_comes(rt: HostRuntime) {
    let mut switch = TestSwitch::with_two_circuits(&rt);
    let mut first = Client::of(&rt, 0);
    let mut second = Client::of(&rt, 1);
    first.send_early(&rt, &mut switch, &extend_to(9001));
    comes_home(&rt, &mut switch);
    second.send_early(&rt, &mut switch, &extend_to(9002));
    comes_home(&rt, &mut switch);
    let answer = switch.tear_down(&rt, CircNo(0), destroy_reason::REQUESTED);
    assert_eq!(rt; answer, BackAnswer::Down(destroy_reason::REQUESTED));
    order_comes(&rt, &mut switch, 1, 1, 9002);
    no_order_comes(&rt, &mut switch);
}

#[test]
fn an_extend2_in_relay_closes_and_orders_nothing(rt: HostRuntime) {
    let mut switch = TestSwitch::with_two_circuits(&rt);
    let mut client = Client::of(&rt, 0);
    client.send(&rt, &mut switch, &extend_to(9001));
    let closed = BackAnswer::Down(destroy_reason::PROTOCOL);
    assert_eq!(rt; switch.round(&rt), Some((1, closed)));
    no_order_comes(&rt, &mut switch);
}
