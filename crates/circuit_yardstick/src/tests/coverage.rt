//! Which kinds of effects, events and faults came.

use crate::tests::cells::{RELAY, RELAY_EARLY};
use crate::tests::faults::{FAULTS, Fault};
use crate::tests::kinds::{KINDS, Kind};
use circ_relay::Effects;
use circuit_model::Event;
use relay_cell::command;
use std::process::Abort;
use tr_io::edges::EdgeOrder;

/// A kind of effect.
#[derive(Clone, Copy, PartialEq, Eq, Debug)]
pub enum EffectKind {
    Nothing,
    // Packaged bodies.
    Connected,
    Data,
    End,
    CircuitSendme,
    StreamSendme,
    Truncated,
    Resolved,
    Extended,
    /// A body of the next hop.
    PassedBack,
    // Cells to the next hop.
    Create2,
    Relay,
    RelayEarly,
    // Orders to edges.
    Reach,
    Carry,
    Close,
    Dial,
    Cut,
    // Reasons of DESTROY.
    Protocol,
    ConnectFailed,
}

const EFFECT_KINDS: usize = 20;

/// What came so far.
#[derive(Drop)]
pub struct Coverage {
    effect_kinds: [bool; EFFECT_KINDS],
    kinds: [bool; KINDS],
    faults: [bool; FAULTS.len()],
}

impl Coverage {
    pub fn empty() -> Coverage {
        Coverage {
            effect_kinds: [false; EFFECT_KINDS],
            kinds: [false; KINDS],
            faults: [false; FAULTS.len()],
        }
    }

    pub fn kind(&mut self, kind: Kind) {
        mark(&mut self.kinds, kind as usize);
    }

    pub fn fault(&mut self, fault: Fault) {
        mark(&mut self.faults, fault as usize);
    }

    /// What an event had the circuit do.
    pub fn effects(&mut self, event: &Event, effects: &Effects) {
        let effect_kinds = [
            back_effect(event, effects),
            forth_effect(effects),
            edge_effect(effects),
            if effects.dial.is_some() {
                Some(EffectKind::Dial)
            } else {
                None
            },
            if effects.cut {
                Some(EffectKind::Cut)
            } else {
                None
            },
            close_effect(effects),
        ];
        let mut did_nothing = true;
        for effect_kind in effect_kinds {
            if let Some(effect_kind) = effect_kind {
                did_nothing = false;
                mark(&mut self.effect_kinds, effect_kind as usize);
            }
        }
        if did_nothing {
            mark(&mut self.effect_kinds, EffectKind::Nothing as usize);
        }
    }

    /// Every kind of effect, event and fault has come.
    pub fn assert_all(&self, rt: &impl Abort) {
        for (n, has_come) in self.effect_kinds.iter().enumerate() {
            assert!(rt; *has_come, "effect {n} never came");
        }
        for (n, has_come) in self.kinds.iter().enumerate() {
            assert!(rt; *has_come, "event {n} never came");
        }
        for (n, has_come) in self.faults.iter().enumerate() {
            assert!(rt; *has_come, "fault {n} never came");
        }
    }
}

fn mark(marks: &mut [bool], place: usize) {
    if let Some(has_come) = marks.get_mut(place) {
        *has_come = true;
    }
}

fn back_effect(event: &Event, effects: &Effects) -> Option<EffectKind> {
    let body = effects.back.as_ref()?;
    if let Event::Backward(_) = event {
        return Some(EffectKind::PassedBack);
    }
    let is_of_circuit = body[3..5] == [0, 0];
    match body[0] {
        command::CONNECTED => Some(EffectKind::Connected),
        command::DATA => Some(EffectKind::Data),
        command::END => Some(EffectKind::End),
        command::SENDME if is_of_circuit => Some(EffectKind::CircuitSendme),
        command::SENDME => Some(EffectKind::StreamSendme),
        command::TRUNCATED => Some(EffectKind::Truncated),
        command::RESOLVED => Some(EffectKind::Resolved),
        command::EXTENDED2 => Some(EffectKind::Extended),
        _ => None,
    }
}

fn forth_effect(effects: &Effects) -> Option<EffectKind> {
    match &effects.forth {
        Some((RELAY, _)) => Some(EffectKind::Relay),
        Some((RELAY_EARLY, _)) => Some(EffectKind::RelayEarly),
        Some(_) => Some(EffectKind::Create2),
        None => None,
    }
}

fn edge_effect(effects: &Effects) -> Option<EffectKind> {
    match &effects.edge {
        Some(EdgeOrder::Reach(_, _)) => Some(EffectKind::Reach),
        Some(EdgeOrder::Carry(_, _)) => Some(EffectKind::Carry),
        Some(EdgeOrder::Close(_, _)) => Some(EffectKind::Close),
        None => None,
    }
}

fn close_effect(effects: &Effects) -> Option<EffectKind> {
    match effects.close {
        Some(1) => Some(EffectKind::Protocol),
        Some(_) => Some(EffectKind::ConnectFailed),
        None => None,
    }
}
