//! The events of the path behind the relay, where they can come: it is extended and truncated, bodies pass
//! it, and its next hop answers.

use crate::tests::cells::{NEXT_HOP, RELAY, RELAY_EARLY, created2, extend_by_all_specifiers};
use crate::tests::history::History;
use crate::tests::kinds::Kind;
use circ_relay::NextHop;
use circuit_model::Event;
use relay_cell::{command, extend2_body, truncate_body, write_body};
use std::process::Abort;

/// Commands that mean nothing from a client.
const OTHER_COMMANDS: [u8; 10] = [
    0,
    command::CONNECTED,
    6,
    7,
    command::TRUNCATED,
    command::RESOLVED,
    command::EXTENDED2,
    16,
    43,
    255,
];

impl History {
    /// An event of this kind, if one can come now.
    pub fn path_event(&mut self, rt: &impl Abort, kind: Kind) -> Option<Event> {
        match kind {
            Kind::Extend => self.extend(rt),
            Kind::Truncate => self.said(rt, &truncate_body(0)),
            Kind::Drop => self.said(rt, &write_body(command::DROP, 0, &[])),
            Kind::EarlyDrop => {
                if self.early >= 8 {
                    return None;
                }
                Some(self.meant(rt, RELAY_EARLY, &write_body(command::DROP, 0, &[])))
            }
            Kind::OtherCommand => {
                let other = self.random.one_of(&OTHER_COMMANDS);
                let stream = self.random.below(4) as u16;
                self.said(rt, &write_body(other, stream, &[1, 2, 3]))
            }
            Kind::PassedOn => {
                if self.next_hop()? != NextHop::There {
                    return None;
                }
                let is_early = self.early < 7 && self.random.once_in(8);
                let plain = self.random.body();
                let cell = if is_early { RELAY_EARLY } else { RELAY };
                Some(self.passing(rt, cell, &plain))
            }
            Kind::Backward => Some(Event::Backward(self.random.body())),
            Kind::Linked => Some(Event::Linked),
            _ => {
                let length = self.random.one_of(&[0, 20, 84, 496]);
                Some(Event::Answered(created2(length, &self.random.body())))
            }
        }
    }

    fn extend(&mut self, rt: &impl Abort) -> Option<Event> {
        if self.early >= 8 || self.next_hop()? != NextHop::Absent {
            return None;
        }
        let body = match self.random.below(3) {
            0 => extend_by_all_specifiers(),
            1 => extend2_body(NEXT_HOP, 2, &[9; 84]),
            _ => extend2_body(NEXT_HOP, 0xff01, &[8; 485]),
        };
        Some(self.meant(rt, RELAY_EARLY, &body))
    }
}
