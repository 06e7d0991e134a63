// What the edge connections of a circuit's streams report.

ghost use Rattle.std.specs.Prelude.{◌≡◌, ◌↔◌, ◌+◌, ◌<◌, ◌≤◌, ◌∷◌, List, length, position, Some, None, IfSome, IsSome, IsTrue};
ghost use Rattle.tor_spec.specs.Connected.{connected_payload};
ghost use Rattle.tor_spec.specs.RelayCell.{connected_command, fits_length, relay_body};
ghost use Rattle.circuit_model.specs.Events.{Event};
ghost use Rattle.circuit_model.specs.declared.event.Event.TheVariants.{Connected, Data, Ended, Drained, Freed};
ghost use Rattle.circuit_model.specs.Rules.{Rules};
ghost use Rattle.circuit_model.specs.Streams.{time_to_live};
ghost use Rattle.circuit_model.specs.Words.{effects, log};
ghost use Rattle.circ_relay.specs.CircuitOfLog.{IsCircuit, HasCalls, HasStream, HasUndrained, IsLiveStream, MaySend};
ghost use Rattle.circ_relay.specs.EdgeEvents.{MayReport, event_of, stream_of_order};
ghost use Rattle.circ_relay.specs.ShutWindows.{shut_window};
ghost use Rattle.circ_relay.specs.Values.{effects_of};
ghost use Rattle.stream_edge.specs.Streams.{is_stream};
ghost use Rattle.stream_edge.specs.declared.placed_stream.Phase.{Phase};

use crate::circuit::{CellPayload, Circuit};
use crate::effects::Effects;
use crate::forward::TIME_TO_LIVE;
use relay_cell::{connected_body, data_body, end_body, stream_sendme_body};
use stream_edge::{Phase, PlaceNo};
use tr_io::answers::ShutWhy;
use tr_io::edges::{EdgeEvent, EdgeOrder};
use tr_io::names::{Dest, StreamKey};

impl Circuit {
    /// What the edge connection of a stream reports (tor-spec, "Opening streams and transferring data",
    /// "Closing streams"). A connection that is made is told by CONNECTED, bytes are packaged as DATA,
    /// and an end is told by END, with an order to close the connection.
    #[inline(always)] // A body that is packaged is then copied to its place at the caller.
    pub fn edge(&mut self, key: StreamKey, event: &EdgeEvent) -> Effects
        requires calls { HasCalls self.old }
        requires stream { MayReport self.old key event.now }
        ensures effects { (rules : Rules) (h : List Event) → IsCircuit self.old rules h →
            effects_of result ≡ effects rules h (event_of key event.now) }
        ensures circuit { (rules : Rules) (h : List Event) → IsCircuit self.old rules h →
            IsCircuit self.new rules (event_of key event.now ∷ h) }
        ensures order { IfSome result.edge (λ order. stream_of_order order ≡ key) }
        ensures number { self.new.number ≡ self.old.number }
        ensures windows { self.new.windows.calls ≤ self.old.windows.calls + 1 }
        ensures places { self.new.places.calls ≡ self.old.places.calls + 1 }
        ensures packaged { self.new.packager.padding.count ≡ self.old.packager.padding.count + 1 }
    {
        match event {
            EdgeEvent::Connected => self.connected(key),
            EdgeEvent::Data(bytes) => self.bytes(key, bytes.as_slice()),
            EdgeEvent::Ended(reason) => self.ended(key, *reason),
        }
    }

    // The connection is made.
    fn connected(&mut self, key: StreamKey) -> Effects
        requires calls { HasCalls self.old }
        requires stream { HasStream self.old key Phase.Reaching }
        ensures effects { (rules : Rules) (h : List Event) → IsCircuit self.old rules h →
            effects_of result ≡ effects rules h (Connected key.serial) }
        ensures circuit { (rules : Rules) (h : List Event) → IsCircuit self.old rules h →
            IsCircuit self.new rules (Connected key.serial ∷ h) }
        ensures order { result.edge ≡ None }
        ensures number { self.new.number ≡ self.old.number }
        ensures windows { self.new.windows ≡ self.old.windows }
        ensures places { self.new.places.calls ≡ self.old.places.calls + 1 }
        ensures packaged { self.new.packager.padding.count ≡ self.old.packager.padding.count + 1 }
    {
        let place = self.taken_place(key);
        self.places.joined(place);
        let to = self.addresses[place.0 as usize];
        self.packaging(&address_body(key.id, to))
    }

    // Bytes of the connection, which both windows allow.
    #[tactic(auto, using(tor_spec::proofs::Bodies::relay_body_fits))]
    fn bytes(&mut self, key: StreamKey, bytes: &[u8]) -> Effects
        requires calls { HasCalls self.old }
        requires stream { MaySend self.old key }
        requires short { length bytes.now ≤ 498 }
        ensures effects { (rules : Rules) (h : List Event) → IsCircuit self.old rules h →
            effects_of result ≡ effects rules h (Data key.serial bytes.now) }
        ensures circuit { (rules : Rules) (h : List Event) → IsCircuit self.old rules h →
            IsCircuit self.new rules (Data key.serial bytes.now ∷ h) }
        ensures order { result.edge ≡ None }
        ensures number { self.new.number ≡ self.old.number }
        ensures windows { self.new.windows.calls ≡ self.old.windows.calls + 1 }
        ensures places { self.new.places.calls ≡ self.old.places.calls + 1 }
        ensures packaged { self.new.packager.padding.count ≡ self.old.packager.padding.count + 1 }
    {
        let place = self.taken_place(key);
        self.places.packed(place);
        let mut body = data_body(key.id, bytes);
        let digest = self.packager.package(&mut body);
        self.windows.packed(&digest);
        Effects {
            back: Some(body),
            forth: None,
            edge: None,
            dial: None,
            cut: false,
            close: None,
        }
    }

    // The connection ended.
    #[tactic(auto, using(tor_spec::proofs::Bodies::relay_body_fits))]
    fn ended(&mut self, key: StreamKey, reason: u8) -> Effects
        requires calls { HasCalls self.old }
        requires stream { IsLiveStream self.old key }
        ensures effects { (rules : Rules) (h : List Event) → IsCircuit self.old rules h →
            effects_of result ≡ effects rules h (Ended key.serial reason) }
        ensures circuit { (rules : Rules) (h : List Event) → IsCircuit self.old rules h →
            IsCircuit self.new rules (Ended key.serial reason ∷ h) }
        ensures order { result.edge ≡ Some (EdgeOrder.Close key reason) }
        ensures number { self.new.number ≡ self.old.number }
        ensures windows { self.new.windows ≡ self.old.windows }
        ensures places { self.new.places.calls ≡ self.old.places.calls + 1 }
        ensures packaged { self.new.packager.padding.count ≡ self.old.packager.padding.count + 1 }
    {
        let place = self.taken_place(key);
        self.places.ending(place);
        Effects {
            edge: Some(EdgeOrder::Close(key, reason)),
            ..self.packaging(&end_body(key.id, reason))
        }
    }

    /// The edge connection has taken all bytes of one more DATA. Each 50th is acknowledged by a SENDME of
    /// the stream (tor-spec, "Flow control").
    #[tactic(auto, using(tor_spec::proofs::Bodies::relay_body_fits))]
    pub fn drained(&mut self, key: StreamKey) -> Effects
        requires calls { HasCalls self.old }
        requires stream { HasUndrained self.old key }
        ensures effects { (rules : Rules) (h : List Event) → IsCircuit self.old rules h →
            effects_of result ≡ effects rules h (Drained key.serial) }
        ensures circuit { (rules : Rules) (h : List Event) → IsCircuit self.old rules h →
            IsCircuit self.new rules (Drained key.serial ∷ h) }
        ensures number { self.new.number ≡ self.old.number }
        ensures windows { self.new.windows ≡ self.old.windows }
        ensures places { self.new.places.calls ≡ self.old.places.calls + 1 }
        ensures packaged { self.new.packager.padding.count ≤ self.old.packager.padding.count + 1 }
    {
        let place = self.taken_place(key);
        let is_due = self.places.drained(place).unwrap_or(false);
        if is_due {
            self.packaging(&stream_sendme_body(key.id))
        } else {
            Effects::none()
        }
    }

    /// Whether the stream is live and a DATA that was accepted for it is undrained.
    pub fn has_undrained(&self, key: StreamKey) -> bool
        ensures { IsTrue result ↔ HasUndrained self.now key }
    {
        let Some(phase) = self.phase(key) else {
            return false;
        };
        if phase == Phase::Ending {
            return false;
        }
        self.places.has_undrained(self.taken_place(key))
    }

    /// The place of a stream that ended is given back, after its Close was handed out.
    pub fn freed(&mut self, key: StreamKey)
        requires calls { HasCalls self.old }
        requires stream { HasStream self.old key Phase.Ending }
        ensures circuit { (rules : Rules) (h : List Event) → IsCircuit self.old rules h →
            IsCircuit self.new rules (Freed key.serial ∷ h) }
        ensures number { self.new.number ≡ self.old.number }
        ensures windows { self.new.windows ≡ self.old.windows }
        ensures places { self.new.places.calls ≡ self.old.places.calls + 1 }
        ensures packager { self.new.packager ≡ self.old.packager }
    {
        let place = self.taken_place(key);
        self.places.freed(place);
    }

    /// Which window keeps bytes of a connected stream from being packaged (tor-spec, "Flow control"), and
    /// how many DATA were packaged in it: the stream's own window before the circuit's. `None` exactly
    /// where both allow one more DATA.
    pub fn shut(&self, key: StreamKey) -> Option<(ShutWhy, u64)>
        requires { HasStream self.now key Phase.Joined }
        ensures window { (rules : Rules) (h : List Event) → IsCircuit self.now rules h →
            result ≡ shut_window rules (log rules h) key.serial }
        ensures none { (result ≡ None) ↔ MaySend self.now key }
    {
        let place = self.taken_place(key);
        if !self.places.may_pack(place) {
            return Some((ShutWhy::Stream, self.places.count(place)));
        }
        if !self.windows.may_pack() {
            return Some((ShutWhy::Circuit, self.windows.count()));
        }
        None
    }

    // The place of a stream that has one.
    fn taken_place(&self, key: StreamKey) -> PlaceNo
        requires { IsSome (position (is_stream key.id key.serial) self.now.places.streams) }
        ensures first { position (is_stream key.id key.serial) self.now.places.streams ≡ Some result.0 }
        ensures within { result.0 < 32 }
    {
        match self.places.place_of(key.id, key.serial) {
            Some(place) => place,
            None => unreachable!(),
        }
    }
}

// The CONNECTED with this address.
#[tactic(auto, using(tor_spec::proofs::Fitting::body_fits, tor_spec::proofs::Fitting::address_fits))]
fn address_body(stream: u16, to: Dest) -> CellPayload
    ensures body { result ≡ relay_body connected_command stream (connected_payload to.ip time_to_live) }
    ensures fits { IsTrue (fits_length result) }
{
    connected_body(stream, to.ip, TIME_TO_LIVE)
}
