//! Whether two programs did the same.

use crate::tests::driver::CIRCUIT;
use circ_relay::Effects;
use circuit_model::{CircuitCell, Effects as PlainEffects, Order, StreamKey as PlainKey};
use tor_spec::Address;
use tr_io::edges::EdgeOrder;
use tr_io::names::{Dest, StreamKey};

fn is_same_key(key: StreamKey, plain: PlainKey) -> bool {
    key.circ == CIRCUIT && key.id == plain.stream && key.serial == plain.serial as u64
}

fn is_same_address(to: Dest, plain: Address) -> bool {
    to.ip == plain.ip && to.port == plain.port
}

fn is_same_order(order: &EdgeOrder, plain: &Order) -> bool {
    match (order, plain) {
        (EdgeOrder::Reach(key, to), Order::Reach(plain_key, plain_to)) => {
            is_same_key(*key, *plain_key) && is_same_address(*to, *plain_to)
        }
        (EdgeOrder::Carry(key, bytes), Order::Carry(plain_key, plain_bytes)) => {
            is_same_key(*key, *plain_key) && bytes.as_slice() == plain_bytes.as_slice()
        }
        (EdgeOrder::Close(key, reason), Order::Close(plain_key, plain_reason)) => {
            is_same_key(*key, *plain_key) && reason == plain_reason
        }
        _ => false,
    }
}

fn is_same_edge(edge: &Option<EdgeOrder>, plain: &Option<Order>) -> bool {
    match (edge, plain) {
        (Some(order), Some(plain)) => is_same_order(order, plain),
        (None, None) => true,
        _ => false,
    }
}

/// Command and body.
fn parts_of(cell: CircuitCell) -> (u8, [u8; 509]) {
    let CircuitCell { command, body } = cell;
    (command, body)
}

fn is_same_dial(effects: &Effects, plain: &PlainEffects) -> bool {
    match (effects.dial, plain.dial) {
        (Some(to), Some(plain)) => is_same_address(to, plain),
        (None, None) => true,
        _ => false,
    }
}

pub fn are_same(effects: &Effects, plain: &PlainEffects) -> bool {
    effects.back == plain.back
        && effects.forth == plain.forth.map(parts_of)
        && is_same_edge(&effects.edge, &plain.edge)
        && is_same_dial(effects, plain)
        && effects.cut == plain.cut
        && effects.close == plain.close
}
