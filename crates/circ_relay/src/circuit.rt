// A circuit's state, and the relay cells that pass through it.

ghost use Rattle.std.specs.Prelude.{◌≡◌, ◌≢◌, ◌+◌, ◌^◌, ◌<◌, ℕ, [], ◌∷◌, List, Some, None, IfSome, IfNone, IsTrue, option_and_then, option_map, position};
ghost use Rattle.tor_spec.specs.RelayCell.{fits_length};
ghost use Rattle.circuit_model.specs.Events.{Event, CircuitCell};
ghost use Rattle.circuit_model.specs.declared.event.Event.TheVariants.{Born, Backward};
ghost use Rattle.circuit_model.specs.Log.{Log, no_effects};
ghost use Rattle.circuit_model.specs.Packaged.{finished};
ghost use Rattle.circuit_model.specs.Rules.{Rules as ModelRules};
ghost use Rattle.circuit_model.specs.Words.{effects};
ghost use Rattle.circ_relay.specs.CircuitOfLog.{HasStream, IsCircuit};
ghost use Rattle.circ_relay.specs.Packaging.{IsPackager, Packages};
ghost use Rattle.circ_relay.specs.Values.{effects_of, rules_of};
ghost use Rattle.stream_edge.specs.PlacesState.{held_at};
ghost use Rattle.stream_edge.specs.Streams.{is_stream};
ghost use Rattle.stream_edge.specs.declared.placed_stream.PlacedStream.{PlacedStream};

use crate::effects::Effects;
use crate::packager::Packager;
use crate::rules::Rules;
use circuit_model::NextHop;
use kdf_tor::LayerKeys;
use sendme_windows::Windows;
use stream_edge::{Phase, PlaceNo, Places};
use tr_io::names::{CircNo, Dest, StreamKey};

/// The payload of a fixed cell, in bytes.
pub type CellPayload = [u8; 509];

/// One circuit at a relay.
#[derive(Drop)]
pub struct Circuit {
    pub(crate) number: CircNo,
    /// The RELAY_EARLY cells that came, at most 8 of them.
    pub(crate) early_cells: u8,
    pub(crate) next_hop: NextHop,
    /// The payload of CREATE2 that the last accepted EXTEND2 asked for.
    pub(crate) create2: CellPayload,
    pub(crate) packager: Packager,
    pub(crate) windows: Windows,
    pub(crate) places: Places,
    /// Where the stream at each place is connected to.
    pub(crate) addresses: [Dest; 32],
}

impl Circuit {
    /// A circuit that was just opened. Where `pad` is a key, its keystream pads what the circuit packages.
    pub fn new(number: CircNo, keys: &LayerKeys, pad: Option<[u8; 16]>, rules: &Rules) -> Circuit
        ensures circuit { (reply : CircuitCell) → IsCircuit result (rules_of rules.now) (Born reply keys.now pad ∷ []) }
        ensures number { result.number ≡ number }
        ensures windows { result.windows.calls ≡ 0 }
        ensures places { result.places.calls ≡ 0 }
        ensures packaged { result.packager.padding.count ≡ 0 }
    {
        Circuit {
            number,
            early_cells: 0,
            next_hop: NextHop::Absent,
            create2: [0; 509],
            packager: Packager::of(&keys.db, pad),
            windows: Windows::new(rules.window, rules.least),
            places: Places::new(),
            addresses: [Dest {
                ip: [0; 4],
                port: 0,
            }; 32],
        }
    }

    /// A relay body from the next hop goes back as it is.
    pub fn backward(&mut self, body: &[u8; 509]) -> Effects
        ensures effects { (rules : ModelRules) (h : List Event) → IsCircuit self.old rules h →
            effects_of result ≡ effects rules h (Backward body.now) }
        ensures circuit { (rules : ModelRules) (h : List Event) → IsCircuit self.old rules h →
            IsCircuit self.new rules (Backward body.now ∷ h) }
        ensures stays { self.new ≡ self.old }
    {
        Effects {
            back: Some(*body),
            forth: None,
            edge: None,
            dial: None,
            cut: false,
            close: None,
        }
    }

    /// The phase of the stream; `None` exactly where no place is taken with this StreamID and serial.
    pub fn phase(&self, key: StreamKey) -> Option<Phase>
        ensures phase { result ≡ option_map (λ stream. stream.phase)
            (option_and_then (held_at self.now.places) (position (is_stream key.id key.serial) self.now.places.streams)) }
        ensures some { IfSome result (λ phase. HasStream self.now key phase) }
        ensures none { IfNone result ((place : ℕ) (stream : PlacedStream) → held_at self.now.places place ≡ Some stream
            → stream.stream ≡ key.id → stream.serial ≢ key.serial) }
    {
        self.places.phase(self.place_of(key)?)
    }

    /// What is there of a next hop.
    pub fn next_hop(&self) -> NextHop
        ensures { result ≡ self.now.next_hop }
    {
        self.next_hop
    }

    pub(crate) fn place_of(&self, key: StreamKey) -> Option<PlaceNo>
        ensures { option_map (λ place. place.0) result ≡ position (is_stream key.id key.serial) self.now.places.streams }
    {
        self.places.place_of(key.id, key.serial)
    }

    // Packages a body towards the client: the one thing to do.
    pub(crate) fn packaging(&mut self, body: &[u8; 509]) -> Effects
        requires count { self.old.packager.padding.count < 2 ^ 63 }
        requires fits { IsTrue (fits_length body.now) }
        ensures effects { (log : Log) → IsPackager self.old.packager log →
            effects_of result ≡ record no_effects { back = Some (finished log body.now) } }
        ensures next { Packages self.old.packager self.new.packager body.now }
        ensures unclosed { result.close ≡ None }
        ensures orderless { result.edge ≡ None }
        ensures count { self.new.packager.padding.count ≡ self.old.packager.padding.count + 1 }
        ensures rest { self.new ≡ record self.old { packager = self.new.packager } }
    {
        let mut outcome = Effects::none();
        self.package_into(body, &mut outcome);
        outcome
    }

    // Packages a body towards the client, where nothing is to be done yet.
    #[inline(never)]
    pub(crate) fn package_into(&mut self, body: &[u8; 509], outcome: &mut Effects)
        requires count { self.old.packager.padding.count < 2 ^ 63 }
        requires fits { IsTrue (fits_length body.now) }
        requires blank { effects_of outcome.old ≡ no_effects }
        ensures effects { (log : Log) → IsPackager self.old.packager log →
            effects_of outcome.new ≡ record no_effects { back = Some (finished log body.now) } }
        ensures next { Packages self.old.packager self.new.packager body.now }
        ensures unclosed { outcome.new.close ≡ None }
        ensures orderless { outcome.new.edge ≡ None }
        ensures count { self.new.packager.padding.count ≡ self.old.packager.padding.count + 1 }
        ensures rest { self.new ≡ record self.old { packager = self.new.packager } }
    {
        let mut packaged_body = *body;
        let _digest = self.packager.package(&mut packaged_body);
        outcome.back = Some(packaged_body);
    }
}
