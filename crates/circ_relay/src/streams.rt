// The relay messages of a circuit's streams: DATA, END and SENDME (tor-spec, "Closing streams", "Flow
// control").

ghost use Rattle.std.specs.Prelude.{◌≡◌, ℕ, ◌+◌, ◌^◌, ◌<◌, ◌≤◌, [], ◌∷◌, List, length, position, is_some, Some, None, IfSome, IfNone, IsTrue};
ghost use Rattle.tor_spec.specs.RelayCell.{relay_body, data_command, end_command, sendme_command};
ghost use Rattle.tor_spec.specs.CircuitWindow.{CircuitWindow, after_accepting};
ghost use Rattle.sendme_windows.specs.WindowsState.{KeepsLimits, HasCountsOf};
ghost use Rattle.circuit_model.specs.Rules.{Rules as ModelRules};
ghost use Rattle.circuit_model.specs.Log.{Log, Message as ModelMessage, no_effects};
ghost use Rattle.circuit_model.specs.Places.{live_place};
ghost use Rattle.circuit_model.specs.Streams.{ending, acknowledging, data_effects, end_effects, sendme_effects};
ghost use Rattle.circuit_model.specs.Words.{effects, log};
ghost use Rattle.stream_edge.specs.PlacesState.{IsLive, IsTaken, held_at};
ghost use Rattle.stream_edge.specs.Streams.{is_live_as};
ghost use Rattle.stream_edge.specs.declared.placed_stream.PlacedStream.{PlacedStream};
ghost use Rattle.circ_relay.specs.BroughtMessages.{IsBrought, after_cell};
ghost use Rattle.circ_relay.specs.Packaging.{IsPackagedNext, Packages};
ghost use Rattle.circ_relay.specs.EdgeEvents.{stream_of_order};
ghost use Rattle.circ_relay.specs.CircuitOfLog.{HasCalls, HasParts, IsMadeBy};
ghost use Rattle.circ_relay.specs.Packaging.{IsPackager};
ghost use Rattle.circ_relay.specs.PlacesOfLog.{AreNamed, ArePlaces};
ghost use Rattle.circ_relay.specs.WindowOfLog.{window_of};
ghost use Rattle.circ_relay.specs.Values.{effects_of, key_of};

use crate::circuit::Circuit;
use crate::effects::Effects;
use crate::message::Message;
use cell_codec::{Bytes, destroy_reason};
use relay_cell::{circuit_sendme_body, end_body, end_reason};
use sendme_windows::ProofAnswer;
use stream_edge::{AcceptAnswer, CreditAnswer, PlaceNo};
use tr_io::edges::EdgeOrder;
use tr_io::names::StreamKey;

impl Circuit {
    // The place at which the StreamID is live.
    pub(crate) fn live_place(&self, stream: u16) -> Option<PlaceNo>
        ensures live { IfSome result (λ place. IsLive self.now.places place.0) }
        ensures serial { IfSome result (λ place. (log : Log) (h : PlacedStream) → ArePlaces self.now.places log → AreNamed log
            → held_at self.now.places place.0 ≡ Some h → live_place log stream ≡ Some h.serial) }
        ensures none { IfNone result ((log : Log) → ArePlaces self.now.places log → AreNamed log → live_place log stream ≡ None) }
        ensures found { is_some result ≡ is_some (position (is_live_as stream) self.now.places.streams) }
    {
        self.places.live(stream)
    }

    pub(crate) fn key_at(&self, stream: u16, place: PlaceNo) -> StreamKey
        requires { IsTaken self.now.places place.0 }
        ensures key { (h : PlacedStream) → held_at self.now.places place.0 ≡ Some h →
            key_of result ≡ record { stream = stream; serial = h.serial } }
        ensures circuit { result.circ ≡ self.now.number }
    {
        StreamKey {
            circ: self.number,
            id: stream,
            serial: self.places.serial(place),
        }
    }

    // An END for this reason (tor-spec, "Closing streams").
    #[tactic(auto, using(tor_spec::proofs::Bodies::relay_body_fits))]
    pub(crate) fn ending(&mut self, stream: u16, reason: u8) -> Effects
        requires { self.old.packager.padding.count < 2 ^ 63 }
        ensures effects { (log : Log) → IsPackager self.old.packager log → effects_of result ≡ ending log stream reason }
        ensures next { Packages self.old.packager self.new.packager (relay_body end_command stream (reason ∷ [])) }
        ensures unclosed { result.close ≡ None }
        ensures orderless { result.edge ≡ None }
        ensures packaged { self.new.packager.padding.count ≡ self.old.packager.padding.count + 1 }
        ensures rest { self.new ≡ record self.old { packager = self.new.packager } }
    {
        self.packaging(&end_body(stream, reason))
    }

    pub(crate) fn data(&mut self, message: &Message<'_>, room: Bytes, outcome: &mut Effects)
        requires calls { HasCalls self.old }
        requires empty { room.items ≡ [] }
        requires ample { IsTrue (is_some (position (is_live_as message.now.stream) self.old.places.streams)) → 498 ≤ room.spare }
        requires blank { effects_of outcome.old ≡ no_effects }
        ensures effects { (log : Log) (command : ℕ) (body : List ℕ) (m : ModelMessage) →
            IsBrought message.now log command body m → HasParts self.old log → effects_of outcome.new ≡ data_effects log m }
        ensures parts { (rules : ModelRules) (log : Log) (command : ℕ) (body : List ℕ) (m : ModelMessage) →
            IsBrought message.now log command body m → HasParts self.old log → m.command ≡ data_command →
            outcome.new.close ≡ None → HasParts self.new (after_cell rules log command body) }
        ensures windows { self.new.windows.calls ≤ self.old.windows.calls + 1 }
        ensures places { self.new.places.calls ≤ self.old.places.calls + 1 }
        ensures packaged { self.new.packager.padding.count ≤ self.old.packager.padding.count + 1 }
        ensures limits { KeepsLimits self.old.windows self.new.windows }
        ensures early { self.new.early_cells ≡ self.old.early_cells }
        ensures number { self.new.number ≡ self.old.number }
        ensures order { IfSome outcome.new.edge (λ order. (stream_of_order order).circ ≡ self.old.number) }
    {
        let Some(place) = self.live_place(message.stream) else {
            self.acknowledging(&message.digest, outcome);
            return;
        };
        let key = self.key_at(message.stream, place);
        match self.places.accepted(place) {
            AcceptAnswer::Overrun => *outcome = Effects::closing(destroy_reason::PROTOCOL),
            AcceptAnswer::Accepted => {
                self.acknowledging(&message.digest, outcome);
                outcome.edge = Some(EdgeOrder::Carry(key, filled(room, message.payload)));
            }
        }
    }

    // Each 100th DATA that the circuit accepts is acknowledged with the digest of its body.
    #[tactic(auto, using(tor_spec::proofs::Fitting::body_fits, tor_spec::proofs::Fitting::proof_fits))]
    fn acknowledging(&mut self, digest: &[u8; 20], outcome: &mut Effects)
        requires calls { self.old.windows.calls < 2 ^ 63 }
        requires packaged { self.old.packager.padding.count < 2 ^ 63 }
        requires blank { effects_of outcome.old ≡ no_effects }
        ensures effects { (log : Log) (m : ModelMessage) → IsPackager self.old.packager log →
            HasCountsOf self.old.windows (window_of log) → m.digest ≡ digest.now → effects_of outcome.new ≡ acknowledging log m }
        ensures packager { (log : Log) (m : ModelMessage) → IsPackager self.old.packager log →
            HasCountsOf self.old.windows (window_of log) → m.digest ≡ digest.now →
            IsPackagedNext self.new.packager log (acknowledging log m).back }
        ensures stands { (w : CircuitWindow) → HasCountsOf self.old.windows w → HasCountsOf self.new.windows (after_accepting w) }
        ensures windows { self.new.windows.calls ≡ self.old.windows.calls + 1 }
        ensures limits { KeepsLimits self.old.windows self.new.windows }
        ensures packaged { self.new.packager.padding.count ≤ self.old.packager.padding.count + 1 }
        ensures rest { self.new ≡ record self.old { packager = self.new.packager; windows = self.new.windows } }
        ensures unclosed { outcome.new.close ≡ None }
        ensures orderless { outcome.new.edge ≡ None }
    {
        let is_due = self.windows.accepted();
        if !is_due {
            return;
        }
        self.package_into(&circuit_sendme_body(digest), outcome);
    }

    pub(crate) fn end(&mut self, message: &Message<'_>) -> Effects
        requires calls { HasCalls self.old }
        ensures effects { (log : Log) (command : ℕ) (body : List ℕ) (m : ModelMessage) →
            IsBrought message.now log command body m → HasParts self.old log → effects_of result ≡ end_effects m }
        ensures parts { (rules : ModelRules) (log : Log) (command : ℕ) (body : List ℕ) (m : ModelMessage) →
            IsBrought message.now log command body m → HasParts self.old log → m.command ≡ end_command → result.close ≡ None →
            HasParts self.new (after_cell rules log command body) }
        ensures windows { self.new.windows ≡ self.old.windows }
        ensures places { self.new.places.calls ≤ self.old.places.calls + 1 }
        ensures packager { self.new.packager ≡ self.old.packager }
        ensures early { self.new.early_cells ≡ self.old.early_cells }
        ensures number { self.new.number ≡ self.old.number }
        ensures order { IfSome result.edge (λ order. (stream_of_order order).circ ≡ self.old.number) }
    {
        let Some(place) = self.live_place(message.stream) else {
            return Effects::none();
        };
        let key = self.key_at(message.stream, place);
        self.places.ending(place);
        Effects {
            edge: Some(EdgeOrder::Close(key, end_reason(message.payload))),
            ..Effects::none()
        }
    }

    pub(crate) fn sendme(&mut self, message: &Message<'_>) -> Effects
        requires calls { HasCalls self.old }
        ensures effects { (rules : ModelRules) (log : Log) (command : ℕ) (body : List ℕ) (m : ModelMessage) →
            IsBrought message.now log command body m → IsMadeBy self.old rules → HasParts self.old log →
            effects_of result ≡ sendme_effects rules log m }
        ensures parts { (rules : ModelRules) (log : Log) (command : ℕ) (body : List ℕ) (m : ModelMessage) →
            IsBrought message.now log command body m → IsMadeBy self.old rules → HasParts self.old log →
            m.command ≡ sendme_command → result.close ≡ None → HasParts self.new (after_cell rules log command body) }
        ensures windows { self.new.windows.calls ≤ self.old.windows.calls + 1 }
        ensures places { self.new.places.calls ≤ self.old.places.calls + 1 }
        ensures packager { self.new.packager ≡ self.old.packager }
        ensures limits { KeepsLimits self.old.windows self.new.windows }
        ensures early { self.new.early_cells ≡ self.old.early_cells }
        ensures number { self.new.number ≡ self.old.number }
        ensures order { IfSome result.edge (λ order. (stream_of_order order).circ ≡ self.old.number) }
    {
        if message.stream == 0 {
            return match self.windows.proof_of(message.payload) {
                ProofAnswer::Good => Effects::none(),
                _ => Effects::closing(destroy_reason::PROTOCOL),
            };
        }
        let Some(place) = self.live_place(message.stream) else {
            return Effects::none();
        };
        match self.places.credit(place) {
            CreditAnswer::Raised => Effects::none(),
            CreditAnswer::TooMuch => Effects::closing(destroy_reason::PROTOCOL),
        }
    }
}

// The room with these bytes, for which it is large enough.
fn filled(room: Bytes, bytes: &[u8]) -> Bytes
    requires empty { room.items ≡ [] }
    requires ample { length bytes.now ≤ room.spare }
    ensures { result.items ≡ bytes.now }
{
    let mut contents = room;
    match contents.extend(bytes) {
        Ok(()) => contents,
        Err(_) => unreachable!(),
    }
}
