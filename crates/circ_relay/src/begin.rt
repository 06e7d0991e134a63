// BEGIN (tor-spec, "Opening streams and transferring data").

ghost use Rattle.std.specs.Prelude.{◌≡◌, ℕ, ◌+◌, ◌<◌, ◌≤◌, List, position, is_some, not, nat_le, slice_index_or, ◌≢◌, ◌==◌, ◌||◌, Some, None, IsTrue, IfSome};
ghost use Rattle.tor_spec.specs.RelayCell.{begin_command};
ghost use Rattle.circuit_model.specs.Rules.{Rules as ModelRules};
ghost use Rattle.circuit_model.specs.Log.{Log, Message as ModelMessage};
ghost use Rattle.circuit_model.specs.Places.{live_place, taken_places};
ghost use Rattle.circuit_model.specs.Streams.{place_limit, begin_effects, reaching};
ghost use Rattle.circuit_model.specs.Words.{effects, log};
ghost use Rattle.stream_edge.specs.Streams.{is_live_as, is_free};
ghost use Rattle.tr_io.specs.declared.names.Dest.{Dest};
ghost use Rattle.circ_relay.specs.BroughtMessages.{IsBrought, after_cell};
ghost use Rattle.circ_relay.specs.EdgeEvents.{stream_of_order};
ghost use Rattle.circ_relay.specs.CircuitOfLog.{HasCalls, HasParts};
ghost use Rattle.circ_relay.specs.PlacesOfLog.{AreNamed, ArePlaces};
ghost use Rattle.circ_relay.specs.Values.{effects_of, rules_of, address_of};

use crate::circuit::Circuit;
use crate::effects::Effects;
use crate::message::Message;
use crate::rules::Rules;
use cell_codec::destroy_reason;
use relay_cell::{read_begin, stream_end};
use stream_edge::PlaceNo;
use tr_io::edges::EdgeOrder;
use tr_io::names::Dest;

impl Circuit {
    // BEGIN is answered by an order to connect, or by END.
    pub(crate) fn begin(&mut self, rules: &Rules, message: &Message<'_>) -> Effects
        requires calls { HasCalls self.old }
        ensures effects { (log : Log) (command : ℕ) (body : List ℕ) (m : ModelMessage) →
            IsBrought message.now log command body m → HasParts self.old log →
            effects_of result ≡ begin_effects (rules_of rules.now) log m }
        ensures parts { (log : Log) (command : ℕ) (body : List ℕ) (m : ModelMessage) → IsBrought message.now log command body m →
            HasParts self.old log → m.command ≡ begin_command → result.close ≡ None →
            HasParts self.new (after_cell (rules_of rules.now) log command body) }
        ensures windows { self.new.windows ≡ self.old.windows }
        ensures places { self.new.places.calls ≤ self.old.places.calls + 1 }
        ensures packaged { self.new.packager.padding.count ≤ self.old.packager.padding.count + 1 }
        ensures early { self.new.early_cells ≡ self.old.early_cells }
        ensures number { self.new.number ≡ self.old.number }
        ensures order { IfSome result.edge (λ order. (stream_of_order order).circ ≡ self.old.number) }
    {
        if !self.may_begin(message.stream) {
            return Effects::closing(destroy_reason::PROTOCOL);
        }
        let Some(begin) = read_begin(message.payload) else {
            return self.ending(message.stream, stream_end::TOR_PROTOCOL);
        };
        if !self.has_place() {
            return self.ending(message.stream, stream_end::RESOURCE_LIMIT);
        }
        match rules.allowed(begin.host, begin.port) {
            Some(to) => self.reach(message, to),
            None => self.ending(message.stream, stream_end::EXIT_POLICY),
        }
    }

    // A BEGIN is for a StreamID that isn't 0 and isn't live.
    fn may_begin(&self, stream: u16) -> bool
        ensures test { (log : Log) → ArePlaces self.now.places log → AreNamed log →
            result ≡ not ((stream == 0) || is_some (live_place log stream)) }
        ensures new { IsTrue result → position (is_live_as stream) self.now.places.streams ≡ None }
    {
        stream != 0 && self.live_place(stream).is_none()
    }

    // Whether fewer than 32 places are taken.
    fn has_place(&self) -> bool
        ensures test { (log : Log) → ArePlaces self.now.places log → AreNamed log →
            result ≡ not (nat_le place_limit (taken_places log)) }
        ensures free { result ≡ is_some (position is_free self.now.places.streams) }
    {
        self.places.has_free()
    }

    // There is a free place.
    fn reach(&mut self, message: &Message<'_>, to: Dest) -> Effects
        requires calls { HasCalls self.old }
        requires new { position (is_live_as message.now.stream) self.old.places.streams ≡ None }
        requires free { IsTrue (is_some (position is_free self.old.places.streams)) }
        ensures effects { (log : Log) → ArePlaces self.old.places log →
            effects_of result ≡ reaching log message.now.stream (Some (address_of to)) }
        ensures parts { (rules : ModelRules) (log : Log) (command : ℕ) (body : List ℕ) (m : ModelMessage) →
            IsBrought message.now log command body m → HasParts self.old log → m.command ≡ begin_command →
            begin_effects rules log m ≡ reaching log m.stream (Some (address_of to)) →
            HasParts self.new (after_cell rules log command body) }
        ensures windows { self.new.windows ≡ self.old.windows }
        ensures places { self.new.places.calls ≤ self.old.places.calls + 1 }
        ensures packager { self.new.packager ≡ self.old.packager }
        ensures early { self.new.early_cells ≡ self.old.early_cells }
        ensures number { self.new.number ≡ self.old.number }
        ensures order { IfSome result.edge (λ order. (stream_of_order order).circ ≡ self.old.number) }
    {
        let Some(place) = self.places.take_place(message.stream) else {
            unreachable!()
        };
        let key = self.key_at(message.stream, place);
        self.keep_address(place, to);
        Effects {
            edge: Some(EdgeOrder::Reach(key, to)),
            ..Effects::none()
        }
    }

    fn keep_address(&mut self, place: PlaceNo, to: Dest)
        requires { place.0 < 32 }
        ensures there { (none : Dest) → slice_index_or self.new.addresses place.0 none ≡ to }
        ensures elsewhere { (other : ℕ) (none : Dest) → other ≢ place.0 →
            slice_index_or self.new.addresses other none ≡ slice_index_or self.old.addresses other none }
        ensures rest { self.new ≡ record self.old { addresses = self.new.addresses } }
    {
        self.addresses[place.0 as usize] = to;
    }
}
