//! What closes a circuit.

use crate::tests::cells::{
    NEXT_HOP, RELAY, RELAY_EARLY, created2, extend_without_ipv4, with_length,
};
use crate::tests::history::{History, LIVE};
use circ_relay::NextHop;
use circuit_model::Event;
use relay_cell::{
    begin_body, circuit_sendme_body, command, data_body, extend2_body, stream_sendme_body,
    write_body,
};
use std::process::Abort;

#[derive(Clone, Copy, PartialEq, Eq, Debug)]
pub enum Fault {
    /// BEGIN on a StreamID that is live.
    BeginOnLive,
    BeginOnZero,
    /// A relay cell whose Length is above 498.
    TooLong,
    /// SENDME of a stream that is owed none.
    StreamSendmeTooMany,
    /// SENDME of the circuit with another proof than the one that is owed.
    WrongProof,
    /// SENDME of the circuit where none is owed.
    ProofNotOwed,
    /// SENDME of the circuit without a proof.
    NoProof,
    /// SENDME of the circuit with a version that has no proof.
    OtherVersion,
    /// EXTEND2 in a RELAY cell.
    ExtendInRelay,
    /// EXTEND2 where there is a next hop.
    ExtendTwice,
    ExtendWithoutAddress,
    ExtendGarbled,
    NinthEarly,
    /// A cell for another hop, where there is none.
    NoNextHop,
    /// The field Digest isn't that of the body.
    WrongDigest,
    /// The field Recognized isn't zero.
    NonzeroRecognized,
    AnswerGarbled,
    /// The next hop's answer is longer than EXTENDED2 has room for.
    AnswerTooLong,
    /// The next hop can't be reached.
    Failed,
}

pub const FAULTS: [Fault; 19] = [
    Fault::BeginOnLive,
    Fault::BeginOnZero,
    Fault::TooLong,
    Fault::StreamSendmeTooMany,
    Fault::WrongProof,
    Fault::ProofNotOwed,
    Fault::NoProof,
    Fault::OtherVersion,
    Fault::ExtendInRelay,
    Fault::ExtendTwice,
    Fault::ExtendWithoutAddress,
    Fault::ExtendGarbled,
    Fault::NinthEarly,
    Fault::NoNextHop,
    Fault::WrongDigest,
    Fault::NonzeroRecognized,
    Fault::AnswerGarbled,
    Fault::AnswerTooLong,
    Fault::Failed,
];

impl History {
    /// The event of this fault, if it can come now.
    pub fn make_fault(&mut self, rt: &impl Abort, fault: Fault) -> Option<Event> {
        match fault {
            Fault::BeginOnLive
            | Fault::BeginOnZero
            | Fault::TooLong
            | Fault::StreamSendmeTooMany
            | Fault::NinthEarly => self.stream_fault(rt, fault),
            Fault::WrongProof | Fault::ProofNotOwed | Fault::NoProof | Fault::OtherVersion => {
                let body = self.wrong_sendme(fault)?;
                Some(self.meant(rt, RELAY, &body))
            }
            Fault::ExtendInRelay
            | Fault::ExtendTwice
            | Fault::ExtendWithoutAddress
            | Fault::ExtendGarbled => self.wrong_extend(rt, fault),
            Fault::NoNextHop | Fault::WrongDigest | Fault::NonzeroRecognized => self.unrecognised(
                rt, fault,
            ),
            Fault::AnswerGarbled | Fault::AnswerTooLong | Fault::Failed => self.hop_fault(fault),
        }
    }

    fn stream_fault(&mut self, rt: &impl Abort, fault: Fault) -> Option<Event> {
        let body = match fault {
            Fault::BeginOnLive => {
                let stream = self.stream_in(&LIVE)?;
                begin_body(stream.key.id, b"echo.test", 7)
            }
            Fault::BeginOnZero => begin_body(0, b"echo.test", 7),
            Fault::TooLong => {
                let length = 499 + self.random.below(65_000);
                with_length(&data_body(1, &[7; 9]), length as u16)
            }
            Fault::StreamSendmeTooMany => {
                let stream = self.stream_in(&LIVE)?;
                if stream.data / 50 > stream.sendmes {
                    return None;
                }
                stream_sendme_body(stream.key.id)
            }
            _ => {
                if self.early < 8 {
                    return None;
                }
                let drop = write_body(command::DROP, 0, &[]);
                return Some(self.meant(rt, RELAY_EARLY, &drop));
            }
        };
        Some(self.meant(rt, RELAY, &body))
    }

    fn wrong_sendme(&mut self, fault: Fault) -> Option<[u8; 509]> {
        let next_proof = self.client.next_proof();
        match fault {
            Fault::WrongProof => {
                let mut proof = next_proof?;
                let byte = self.random.below(20) as usize;
                proof[byte] ^= 1;
                Some(circuit_sendme_body(&proof))
            }
            Fault::ProofNotOwed => match next_proof {
                Some(_) => None,
                None => Some(circuit_sendme_body(&self.random.digest())),
            },
            Fault::NoProof => {
                if self.settings.least == 0 && next_proof.is_some() {
                    return None;
                }
                Some(write_body(command::SENDME, 0, &[]))
            }
            _ => {
                let mut body = circuit_sendme_body(&next_proof?);
                body[11] = if self.settings.least == 0 {
                    self.random.one_of(&[2, 255])
                } else {
                    self.random.one_of(&[0, 2, 255])
                };
                Some(body)
            }
        }
    }

    fn wrong_extend(&mut self, rt: &impl Abort, fault: Fault) -> Option<Event> {
        let is_absent = self.next_hop()? == NextHop::Absent;
        let right_body = extend2_body(NEXT_HOP, 2, &[9; 84]);
        if fault == Fault::ExtendInRelay {
            return Some(self.meant(rt, RELAY, &right_body));
        }
        if self.early >= 8 || is_absent == (fault == Fault::ExtendTwice) {
            return None;
        }
        let body = match fault {
            Fault::ExtendTwice => right_body,
            Fault::ExtendWithoutAddress => extend_without_ipv4(),
            _ => write_body(command::EXTEND2, 0, &[3, 0, 6, 127, 0]),
        };
        Some(self.meant(rt, RELAY_EARLY, &body))
    }

    fn unrecognised(&mut self, rt: &impl Abort, fault: Fault) -> Option<Event> {
        if self.next_hop()? == NextHop::There {
            return None;
        }
        let mut plain = data_body(1, &[7; 9]);
        if fault == Fault::NonzeroRecognized {
            plain[2] = 1;
        }
        plain = self.client.digested(&plain);
        match fault {
            Fault::NoNextHop => plain = self.random.body(),
            Fault::WrongDigest => plain[8] ^= 1,
            _ => {}
        }
        Some(self.passing(rt, RELAY, &plain))
    }

    fn hop_fault(&mut self, fault: Fault) -> Option<Event> {
        let hop = self.next_hop()?;
        let bytes = self.random.body();
        match fault {
            Fault::Failed if hop == NextHop::Dialling => Some(Event::Failed),
            Fault::AnswerGarbled if hop == NextHop::Waiting => {
                let length = 508 + self.random.below(65_000);
                Some(Event::Answered(created2(length as u16, &bytes)))
            }
            Fault::AnswerTooLong if hop == NextHop::Waiting => {
                let length = 497 + self.random.below(11);
                Some(Event::Answered(created2(length as u16, &bytes)))
            }
            _ => None,
        }
    }
}
