//! The events of each kind, where they can come: messages of streams, and what edge connections report.

use crate::tests::cells::{RELAY, RELAY_EARLY};
use crate::tests::history::{History, LIVE};
use crate::tests::kinds::Kind;
use circuit_model::{Event, Payload};
use relay_cell::{
    begin_body, circuit_sendme_body, command, data_body, end_body, resolve_body,
    stream_sendme_body, write_body,
};
use std::alloc::{AllocError, Global};
use std::process::Abort;
use stream_edge::Phase;

/// StreamIDs are of 1 to this.
const STREAM_IDS: u64 = 48;

/// Payloads of BEGIN and of RESOLVE that aren't spelled right.
const GARBLED_BEGINS: [&[u8]; 6] = [
    b"",
    b"echo.test:7",
    b"echo.test\0",
    b"echo.test:0\0",
    b"echo.test:65536\0",
    b":7\0",
];

const GARBLED_RESOLVES: [&[u8]; 3] = [b"", b"\0", b"echo.test"];

/// Payloads of a circuit's SENDME of version 0.
const VERSION_0: [&[u8]; 3] = [b"", b"\0", b"\0\x07\x07"];

impl History {
    /// An event of this kind, if one can come now.
    pub fn make(
        &mut self,
        rt: &impl Abort,
        alloc: Global,
        kind: Kind,
    ) -> Result<Option<Event>, AllocError> {
        match kind {
            Kind::EdgeData => self.edge_data(alloc),
            Kind::Data => self.data_for_live(rt, alloc),
            Kind::Begin
            | Kind::BeginElsewhere
            | Kind::BeginGarbled
            | Kind::BeginDirectory
            | Kind::Resolve => Ok(self.name_message(rt, kind)),
            Kind::DataForNone
            | Kind::End
            | Kind::EndForNone
            | Kind::StreamSendme
            | Kind::StreamSendmeForNone
            | Kind::CircuitSendme => Ok(self.stream_message(rt, kind)),
            Kind::Connected | Kind::Ended | Kind::Drained | Kind::Freed => Ok(self.edge_report(
                kind,
            )),
            _ => Ok(self.path_event(rt, kind)),
        }
    }

    /// A body in a cell of this command, recognised by the relay.
    pub fn meant(&mut self, rt: &impl Abort, cell: u8, body: &[u8; 509]) -> Event {
        Event::Forward(cell, self.client.sealed(rt, body))
    }

    /// A body in a cell of this command that is plain at the relay.
    pub fn passing(&mut self, rt: &impl Abort, cell: u8, plain: &[u8; 509]) -> Event {
        Event::Forward(cell, self.client.encrypted(rt, plain))
    }

    /// RELAY, or sometimes RELAY_EARLY, as long as the relay takes it.
    fn some_cell(&mut self) -> u8 {
        if self.early < 7 && self.random.once_in(60) {
            RELAY_EARLY
        } else {
            RELAY
        }
    }

    /// A body in a cell that the relay takes now, recognised by it.
    pub fn said(&mut self, rt: &impl Abort, body: &[u8; 509]) -> Option<Event> {
        let cell = self.some_cell();
        Some(self.meant(rt, cell, body))
    }

    /// A StreamID that isn't live, if this one isn't.
    fn dead_stream(&mut self) -> Option<u16> {
        let stream = (1 + self.random.below(STREAM_IDS)) as u16;
        if self.is_live(stream) {
            None
        } else {
            Some(stream)
        }
    }

    fn name_message(&mut self, rt: &impl Abort, kind: Kind) -> Option<Event> {
        let stream = self.dead_stream()?;
        match kind {
            Kind::Begin => {
                if self.count_in(&LIVE) >= self.theme.most_streams {
                    return None;
                }
                let body = self.begin(rt, stream);
                self.said(rt, &body)
            }
            Kind::BeginElsewhere => self.said(rt, &begin_body(stream, b"no.test", 7)),
            Kind::BeginGarbled => {
                let payload = self.random.one_of(&GARBLED_BEGINS);
                self.said(rt, &body_of(rt, command::BEGIN, stream, payload))
            }
            Kind::BeginDirectory => self.said(rt, &write_body(command::BEGIN_DIR, stream, &[])),
            _ => {
                let body = self.resolve(rt, stream);
                self.said(rt, &body)
            }
        }
    }

    /// BEGIN of a name that is allowed, now and then with flags.
    fn begin(&mut self, rt: &impl Abort, stream: u16) -> [u8; 509] {
        match self.random.below(5) {
            0 => begin_body(stream, b"echo.test", 7),
            1 => begin_body(stream, b"Echo.Test", 80),
            2 => begin_body(stream, b"ECHO.TEST", 7),
            3 => begin_body(stream, b"files.test", 443),
            _ => body_of(rt, command::BEGIN, stream, b"files.TEST:443\0\0\0\0\x01"),
        }
    }

    fn resolve(&mut self, rt: &impl Abort, stream: u16) -> [u8; 509] {
        match self.random.below(3) {
            0 => resolve_body(stream, b"ECHO.TEST"),
            1 => resolve_body(stream, b"no.test"),
            _ => {
                let payload = self.random.one_of(&GARBLED_RESOLVES);
                body_of(rt, command::RESOLVE, stream, payload)
            }
        }
    }

    fn data_for_live(
        &mut self,
        rt: &impl Abort,
        alloc: Global,
    ) -> Result<Option<Event>, AllocError> {
        let Some(stream) = self.stream_in(&LIVE) else {
            return Ok(None);
        };
        let bytes = self.random.bytes(alloc, 498)?;
        let body = data_body(stream.key.id, &bytes);
        Ok(self.said(rt, &body))
    }

    fn stream_message(&mut self, rt: &impl Abort, kind: Kind) -> Option<Event> {
        let body = match kind {
            Kind::DataForNone => data_body(self.dead_stream()?, &[7; 3]),
            Kind::End => self.end()?,
            Kind::EndForNone => end_body(self.dead_stream()?, 6),
            Kind::StreamSendme => self.stream_sendme()?,
            Kind::StreamSendmeForNone => stream_sendme_body(self.dead_stream()?),
            _ => self.circuit_sendme(rt)?,
        };
        self.said(rt, &body)
    }

    /// END of a live stream, now and then without a reason.
    fn end(&mut self) -> Option<[u8; 509]> {
        let stream = self.stream_in(&LIVE)?.key.id;
        if self.random.once_in(3) {
            return Some(write_body(command::END, stream, &[]));
        }
        Some(end_body(stream, self.random.below(256) as u8))
    }

    /// The SENDME that a stream is owed.
    fn stream_sendme(&mut self) -> Option<[u8; 509]> {
        let stream = self.stream_in(&LIVE)?;
        if stream.data / 50 <= stream.sendmes {
            return None;
        }
        self.sendme_sent(stream.key.serial as usize);
        Some(stream_sendme_body(stream.key.id))
    }

    /// The circuit's SENDME that is owed, now and then of version 0 where that is accepted.
    fn circuit_sendme(&mut self, rt: &impl Abort) -> Option<[u8; 509]> {
        let proof = self.client.next_proof()?;
        self.client.proof_sent();
        if self.settings.least == 0 && self.random.once_in(2) {
            let payload = self.random.one_of(&VERSION_0);
            return Some(body_of(rt, command::SENDME, 0, payload));
        }
        Some(circuit_sendme_body(&proof))
    }

    fn edge_data(&mut self, alloc: Global) -> Result<Option<Event>, AllocError> {
        let Some(stream) = self.stream_in(&[Phase::Joined]) else {
            return Ok(None);
        };
        let bytes = Payload::of(alloc, &self.random.bytes(alloc, 498)?)?;
        Ok(Some(Event::Data(stream.key.serial as usize, bytes)))
    }

    fn edge_report(&mut self, kind: Kind) -> Option<Event> {
        match kind {
            Kind::Connected => {
                let stream = self.stream_in(&[Phase::Reaching])?;
                Some(Event::Connected(stream.key.serial as usize))
            }
            Kind::Ended => {
                let stream = self.stream_in(&LIVE)?;
                let reason = self.random.below(256) as u8;
                Some(Event::Ended(stream.key.serial as usize, reason))
            }
            Kind::Drained => {
                let stream = self.stream_in(&LIVE)?;
                Some(Event::Drained(stream.key.serial as usize))
            }
            _ => {
                let stream = self.stream_in(&[Phase::Ending])?;
                Some(Event::Freed(stream.key.serial as usize))
            }
        }
    }
}

/// A body with this payload, which has room in it.
fn body_of(rt: &impl Abort, command: u8, stream: u16, payload: &[u8]) -> [u8; 509] {
    assert!(rt; payload.len() <= 498);
    write_body(command, stream, payload)
}
