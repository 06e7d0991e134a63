//! What the table of effects has the relay do with a stream, by what the places hold of it.

ghost use Rattle.std.specs.Prelude.{◌≡◌, ◌<◌, ℕ, List, [], length, position, IsTrue, IsFalse, if◌then◌else◌, Bool, Some, None};
ghost use Rattle.tor_spec.specs.RelayCell.{begin_command, connected_command, data_command, end_command, sendme_command};
ghost use Rattle.tor_spec.specs.Begin.{Target, begin_target};
ghost use Rattle.tor_spec.specs.Connected.{connected_payload};
ghost use Rattle.tor_spec.specs.Ends.{end_reason};
ghost use Rattle.tor_spec.specs.Reasons.{destroy_protocol, end_exit_policy, end_resource_limit};
ghost use Rattle.tor_spec.specs.Extend.{Address};
ghost use Rattle.circuit_model.specs.Events.{Event};
ghost use Rattle.circuit_model.specs.declared.event.Event.TheVariants.{Connected, Data, Drained, Ended};
ghost use Rattle.circuit_model.specs.Rules.{Rules, allowed_address};
ghost use Rattle.circuit_model.specs.Log.{Log, Message, closing, is_closed, no_effects, ordering};
ghost use Rattle.circuit_model.specs.declared.effects.Order.TheVariants.{Reach, Carry, Close};
ghost use Rattle.circuit_model.specs.Places.{Place, place_at};
ghost use Rattle.circuit_model.specs.Packaged.{packaging};
ghost use Rattle.circuit_model.specs.Received.{message_at};
ghost use Rattle.circuit_model.specs.Streams.{acknowledging, ending, place_limit, time_to_live};
ghost use Rattle.circuit_model.specs.Effects.{effects_after};
ghost use Rattle.stream_edge.specs.PlacesState.{PlacesState, held_at};
ghost use Rattle.stream_edge.specs.Streams.{is_free, may_accept, may_credit, sendme_due};
ghost use Rattle.stream_edge.specs.declared.placed_stream.PlacedStream.{PlacedStream};
ghost use Rattle.circ_relay.specs.PlacesOfLog.{AreNamed, ArePlaces, stream_key};

/// What the edge reports of a held stream.
pub fn reports_of_a_held_stream()
    ensures connected { (state : PlacesState) (rules : Rules) (log : Log) (place : ℕ) (h : PlacedStream) (p : Place) →
        ArePlaces state log → IsFalse (is_closed log) →
        held_at state place ≡ Some h → place_at log h.serial ≡ Some p →
        effects_after rules log (Connected h.serial) ≡ packaging log connected_command h.stream (connected_payload p.to.ip time_to_live) }
    ensures bytes { (state : PlacesState) (rules : Rules) (log : Log) (place : ℕ) (h : PlacedStream) (bytes : List ℕ) →
        ArePlaces state log → IsFalse (is_closed log) →
        held_at state place ≡ Some h → effects_after rules log (Data h.serial bytes) ≡ packaging log data_command h.stream bytes }
    ensures ended { (state : PlacesState) (rules : Rules) (log : Log) (place : ℕ) (h : PlacedStream) (reason : ℕ)
        → ArePlaces state log →
        IsFalse (is_closed log) →
        held_at state place ≡ Some h →
        effects_after rules log (Ended h.serial reason) ≡ record (ending log h.stream reason) { edge = Some (Close (stream_key h) reason) } }
    ensures drained { (state : PlacesState) (rules : Rules) (log : Log) (place : ℕ) (h : PlacedStream) (due : Bool) →
        ArePlaces state log → IsFalse (is_closed log) →
        held_at state place ≡ Some h → sendme_due h ≡ Some due →
        effects_after rules log (Drained h.serial) ≡ (if due then packaging log sendme_command h.stream [] else no_effects) }
{}

/// END, DATA and SENDME for a live stream.
pub fn messages_of_a_live_stream()
    ensures end { (rules : Rules) (log : Log) (e : Event) (m : Message) (serial : ℕ) →
        message_at log e ≡ Some m → m.command ≡ end_command → m.place ≡ Some serial →
        effects_after rules log e ≡ ordering (Close (record { stream = m.stream; serial = serial }) (end_reason m.payload)) }
    ensures accepted { (state : PlacesState) (rules : Rules) (log : Log) (e : Event) (m : Message) (place : ℕ) (h : PlacedStream)
        →
        ArePlaces state log →
        message_at log e ≡ Some m → m.command ≡ data_command → m.place ≡ Some h.serial → held_at state place ≡ Some h →
        IsTrue (may_accept h) →
        effects_after rules log e ≡ record (acknowledging log m) { edge = Some (Carry (record { stream = m.stream; serial = h.serial }) m.payload) } }
    ensures overrun { (state : PlacesState) (rules : Rules) (log : Log) (e : Event) (m : Message) (place : ℕ) (h : PlacedStream) →
        ArePlaces state log →
        message_at log e ≡ Some m → m.command ≡ data_command → m.place ≡ Some h.serial → held_at state place ≡ Some h →
        IsFalse (may_accept h) →
        effects_after rules log e ≡ closing destroy_protocol }
    ensures raised { (state : PlacesState) (rules : Rules) (log : Log) (e : Event) (m : Message) (place : ℕ) (h : PlacedStream) →
        ArePlaces state log →
        message_at log e ≡ Some m → m.command ≡ sendme_command → 0 < m.stream → m.place ≡ Some h.serial →
        held_at state place ≡ Some h → IsTrue (may_credit h) →
        effects_after rules log e ≡ no_effects }
    ensures too_much { (state : PlacesState) (rules : Rules) (log : Log) (e : Event) (m : Message) (place : ℕ) (h : PlacedStream)
        →
        ArePlaces state log →
        message_at log e ≡ Some m → m.command ≡ sendme_command → 0 < m.stream → m.place ≡ Some h.serial →
        held_at state place ≡ Some h → IsFalse (may_credit h) →
        effects_after rules log e ≡ closing destroy_protocol }
{}

/// A BEGIN for a name of the grammar, by the places that are free: END with RESOURCELIMIT where none
/// is, else an order Reach with the next serial where its name is allowed, and END with EXITPOLICY where
/// it isn't.
pub fn a_begin_by_the_free_places()
    ensures full { (state : PlacesState) (rules : Rules) (log : Log) (e : Event) (m : Message) (target : Target) →
        ArePlaces state log → AreNamed log → length state.streams ≡ place_limit →
        message_at log e ≡ Some m → m.command ≡ begin_command → 0 < m.stream → m.place ≡ None →
        begin_target m.payload ≡ Some target →
        position is_free state.streams ≡ None → effects_after rules log e ≡ ending log m.stream end_resource_limit }
    ensures reach { (state : PlacesState) (rules : Rules) (log : Log) (e : Event) (m : Message) (target : Target) (place : ℕ) (to : Address)
        →
        ArePlaces state log → AreNamed log → length state.streams ≡ place_limit →
        message_at log e ≡ Some m → m.command ≡ begin_command → 0 < m.stream → m.place ≡ None →
        begin_target m.payload ≡ Some target →
        position is_free state.streams ≡ Some place → allowed_address rules target ≡ Some to →
        effects_after rules log e ≡ ordering (Reach (record { stream = m.stream; serial = state.next_serial }) to) }
    ensures unallowed { (state : PlacesState) (rules : Rules) (log : Log) (e : Event) (m : Message) (target : Target) (place : ℕ)
        →
        ArePlaces state log → AreNamed log → length state.streams ≡ place_limit →
        message_at log e ≡ Some m → m.command ≡ begin_command → 0 < m.stream → m.place ≡ None →
        begin_target m.payload ≡ Some target →
        position is_free state.streams ≡ Some place → allowed_address rules target ≡ None →
        effects_after rules log e ≡ ending log m.stream end_exit_policy }
{}
