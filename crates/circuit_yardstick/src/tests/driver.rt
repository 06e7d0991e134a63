//! A circuit at the relay, with the layer in front of it, that takes the events of a history.

ghost use Rattle.std.specs.Prelude.{◌≤◌, ◌<◌, ◌*◌, ◌^◌, IsTrue};
ghost use Rattle.circ_relay.specs.CircuitOfLog.{MaySend};

use cell_codec::Bytes;
use circ_relay::{Circuit, Effects, NextHop, Rules};
use circuit_model::{Event, Payload};
use hop_crypto::Opener;
use kdf_tor::LayerKeys;
use relay_cell::Opened;
use std::alloc::{AllocError, Global};
use std::process::Abort;
use stream_edge::Phase;
use tr_io::answers::ShutWhy;
use tr_io::edges::EdgeEvent;
use tr_io::names::{CircNo, StreamKey};

/// The number of the circuit.
pub const CIRCUIT: CircNo = CircNo(5);

#[derive(Drop)]
pub struct Driver {
    circuit: Circuit,
    opener: Opener,
    /// The calls of the circuit that changed it.
    calls: u64,
    ghost windows: { circuit.windows.calls ≤ calls },
    ghost places: { circuit.places.calls ≤ calls },
    ghost packaged: { circuit.packager.padding.count ≤ calls },
    ghost opened: { opener.stream.position ≤ 509 * calls },
}

impl Driver {
    pub fn new(keys: &LayerKeys, pad: Option<[u8; 16]>, rules: &Rules) -> Driver {
        Driver {
            circuit: Circuit::new(CIRCUIT, keys, pad, rules),
            opener: Opener::of(keys),
            calls: 0,
        }
    }

    /// What the circuit does with an event, which is of this stream if it is one of the edge. `None`
    /// where the circuit can't be given the event.
    pub fn take(
        &mut self,
        rt: &impl Abort,
        alloc: Global,
        rules: &Rules,
        key: Option<StreamKey>,
        event: &Event,
    ) -> Result<Option<Effects>, AllocError> {
        assert!(rt; self.calls < 1 << 40);
        match (event, key) {
            (Event::Forward(command, body), _) => self.forward(alloc, rules, *command, body),
            (Event::Backward(body), _) => Ok(Some(self.circuit.backward(body))),
            (Event::Linked, _) => Ok(self.linked()),
            (Event::Answered(payload), _) => Ok(self.answered(payload)),
            (Event::Failed, _) => Ok(self.failed()),
            (Event::Connected(_), Some(key)) => Ok(self.connected(key)),
            (Event::Data(_, payload), Some(key)) => self.bytes(alloc, key, payload),
            (Event::Ended(_, reason), Some(key)) => Ok(self.ended(key, *reason)),
            (Event::Drained(_), Some(key)) => Ok(self.drained(key)),
            (Event::Freed(_), Some(key)) => Ok(self.freed(key)),
            _ => Ok(None),
        }
    }

    /// What the circuit has of a next hop.
    pub fn next_hop(&self) -> NextHop {
        self.circuit.next_hop()
    }

    /// The phase of a stream; `None` where its place was given back.
    pub fn phase(&self, key: StreamKey) -> Option<Phase> {
        self.circuit.phase(key)
    }

    /// Which window keeps a connected stream's bytes from being packaged, and at which count.
    pub fn shut(&self, key: StreamKey) -> Option<(ShutWhy, u64)> {
        match self.circuit.phase(key) {
            Some(Phase::Joined) => self.circuit.shut(key),
            _ => None,
        }
    }

    fn forward(
        &mut self,
        alloc: Global,
        rules: &Rules,
        command: u8,
        body: &[u8; 509],
    ) -> Result<Option<Effects>, AllocError>
        requires { self.old.calls < 2 ^ 40 }
    {
        let mut body = *body;
        let digest = self.opener.take_off(&mut body);
        self.calls += 1;
        let opened_cell = Opened {
            body,
            recognised: digest,
        };
        let effects = self.circuit.forward(alloc, rules, &opened_cell, command)?;
        Ok(Some(effects))
    }

    fn linked(&mut self) -> Option<Effects> {
        match self.circuit.next_hop() {
            NextHop::Dialling => Some(self.circuit.next_linked()),
            _ => None,
        }
    }

    fn answered(&mut self, payload: &[u8; 509]) -> Option<Effects>
        requires { self.old.calls < 2 ^ 40 }
    {
        match self.circuit.next_hop() {
            NextHop::Waiting => {
                let effects = self.circuit.next_answered(payload);
                self.calls += 1;
                Some(effects)
            }
            _ => None,
        }
    }

    fn failed(&mut self) -> Option<Effects> {
        match self.circuit.next_hop() {
            NextHop::Dialling => Some(self.circuit.next_failed()),
            _ => None,
        }
    }

    fn connected(&mut self, key: StreamKey) -> Option<Effects>
        requires { self.old.calls < 2 ^ 40 }
    {
        match self.circuit.phase(key) {
            Some(Phase::Reaching) => {
                let effects = self.circuit.edge(key, &EdgeEvent::Connected);
                self.calls += 1;
                Some(effects)
            }
            _ => None,
        }
    }

    fn bytes(
        &mut self,
        alloc: Global,
        key: StreamKey,
        payload: &Payload,
    ) -> Result<Option<Effects>, AllocError>
        requires { self.old.calls < 2 ^ 40 }
    {
        let bytes = payload.as_slice();
        let event = EdgeEvent::Data(Bytes::of(alloc, bytes)?);
        if bytes.is_empty() || !self.may_send(key) {
            return Ok(None);
        }
        let effects = self.circuit.edge(key, &event);
        self.calls += 1;
        Ok(Some(effects))
    }

    /// Whether the stream is connected, and both windows allow one more DATA.
    fn may_send(&self, key: StreamKey) -> bool
        ensures { IsTrue result → MaySend self.now.circuit key }
    {
        match self.circuit.phase(key) {
            Some(Phase::Joined) => self.circuit.shut(key).is_none(),
            _ => false,
        }
    }

    fn ended(&mut self, key: StreamKey, reason: u8) -> Option<Effects>
        requires { self.old.calls < 2 ^ 40 }
    {
        match self.circuit.phase(key) {
            Some(Phase::Reaching | Phase::Joined) => {
                let effects = self.circuit.edge(key, &EdgeEvent::Ended(reason));
                self.calls += 1;
                Some(effects)
            }
            _ => None,
        }
    }

    fn drained(&mut self, key: StreamKey) -> Option<Effects>
        requires { self.old.calls < 2 ^ 40 }
    {
        if !self.circuit.has_undrained(key) {
            return None;
        }
        let effects = self.circuit.drained(key);
        self.calls += 1;
        Some(effects)
    }

    fn freed(&mut self, key: StreamKey) -> Option<Effects>
        requires { self.old.calls < 2 ^ 40 }
    {
        match self.circuit.phase(key) {
            Some(Phase::Ending) => {
                self.circuit.freed(key);
                self.calls += 1;
                Some(Effects::none())
            }
            _ => None,
        }
    }
}
