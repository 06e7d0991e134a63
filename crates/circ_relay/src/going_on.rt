//! How the places that a circuit keeps go on with its log, in a form that the check finds by itself: each
//! state after a call by an equation, and the word `PlacesGoOn`, which tactics leave whole.

ghost use Rattle.std.specs.Prelude.{◌≡◌, ◌≢◌, ◌<◌, ◌+◌, ℕ, List, length, position, IsTrue, IsFalse, Some, None};
ghost use Rattle.tor_spec.specs.RelayCell.{begin_command, data_command, end_command, sendme_command};
ghost use Rattle.tor_spec.specs.Extend.{Address};
ghost use Rattle.circuit_model.specs.Events.{Event};
ghost use Rattle.circuit_model.specs.declared.event.Event.TheVariants.{Connected, Data, Drained, Ended, Freed};
ghost use Rattle.circuit_model.specs.Rules.{Rules};
ghost use Rattle.circuit_model.specs.Log.{Log, Message, closing, is_closed};
ghost use Rattle.circuit_model.specs.declared.effects.Order.TheVariants.{Reach};
ghost use Rattle.circuit_model.specs.Places.{places};
ghost use Rattle.circuit_model.specs.Received.{message_at};
ghost use Rattle.circuit_model.specs.Effects.{effects_after};
ghost use Rattle.stream_edge.specs.PlacesState.{PlacesState, held_at, with_held};
ghost use Rattle.stream_edge.specs.Streams.{after_accepting, after_credit, after_draining, after_packaging, begun, is_free, may_drain};
ghost use Rattle.stream_edge.specs.declared.placed_stream.PlacedStream.{PlacedStream};
ghost use Rattle.circ_relay.specs.PlacesOfLog.{PlacesGoOn, is_edge_report};

use stream_edge::Phase;

/// With what the edge reports of a held stream.
pub fn places_go_on_with_reports()
    ensures connected { (state new : PlacesState) (rules : Rules) (log : Log) (place : ℕ) (h : PlacedStream) →
        held_at state place ≡ Some h → h.phase ≡ Phase.Reaching →
        new ≡ with_held state place (Some (record h { phase = Phase.Joined })) →
        PlacesGoOn state new rules log (Connected h.serial) }
    ensures bytes { (state new : PlacesState) (rules : Rules) (log : Log) (place : ℕ) (h : PlacedStream) (bytes : List ℕ) →
        held_at state place ≡ Some h → new ≡ with_held state place (Some (after_packaging h)) →
        PlacesGoOn state new rules log (Data h.serial bytes) }
    ensures drained { (state new : PlacesState) (rules : Rules) (log : Log) (place : ℕ) (h : PlacedStream) →
        held_at state place ≡ Some h → IsTrue (may_drain h) → new ≡ with_held state place (Some (after_draining h)) →
        PlacesGoOn state new rules log (Drained h.serial) }
    ensures ended { (state new : PlacesState) (rules : Rules) (log : Log) (place : ℕ) (h : PlacedStream) (reason : ℕ) →
        IsFalse (is_closed log) → held_at state place ≡ Some h →
        new ≡ with_held state place (Some (record h { phase = Phase.Ending })) →
        PlacesGoOn state new rules log (Ended h.serial reason) }
    ensures freed { (state new : PlacesState) (rules : Rules) (log : Log) (place : ℕ) (h : PlacedStream) →
        held_at state place ≡ Some h → new ≡ with_held state place None → PlacesGoOn state new rules log (Freed h.serial) }
{}

/// With the messages of a stream: an accepted BEGIN, and END, DATA and SENDME for a live one.
pub fn places_go_on_with_messages()
    ensures begin { (state new : PlacesState) (rules : Rules) (log : Log) (e : Event) (m : Message) (place id : ℕ) (to : Address)
        →
        message_at log e ≡ Some m → m.command ≡ begin_command →
        (effects_after rules log e).edge ≡ Some (Reach (record { stream = id; serial = length (places log) }) to) →
        position is_free state.streams ≡ Some place →
        new ≡ record (with_held state place (Some (begun id state.next_serial))) { next_serial = state.next_serial + 1 } →
        PlacesGoOn state new rules log e }
    ensures end { (state new : PlacesState) (rules : Rules) (log : Log) (e : Event) (m : Message) (place : ℕ) (h : PlacedStream) →
        held_at state place ≡ Some h → message_at log e ≡ Some m → m.command ≡ end_command → m.place ≡ Some h.serial →
        new ≡ with_held state place (Some (record h { phase = Phase.Ending })) → PlacesGoOn state new rules log e }
    ensures accepted { (state new : PlacesState) (rules : Rules) (log : Log) (e : Event) (m : Message) (place : ℕ) (h : PlacedStream) →
        held_at state place ≡ Some h → message_at log e ≡ Some m → m.command ≡ data_command → m.place ≡ Some h.serial →
        new ≡ with_held state place (Some (after_accepting h)) → PlacesGoOn state new rules log e }
    ensures credited { (state new : PlacesState) (rules : Rules) (log : Log) (e : Event) (m : Message) (place : ℕ) (h : PlacedStream) →
        held_at state place ≡ Some h → message_at log e ≡ Some m → m.command ≡ sendme_command → 0 < m.stream →
        m.place ≡ Some h.serial →
        new ≡ with_held state place (Some (after_credit h)) → PlacesGoOn state new rules log e }
{}

/// With every other event, by which they stay as they are.
pub fn places_go_on_with_other_events()
    ensures no_message { (state : PlacesState) (rules : Rules) (log : Log) (e : Event) → message_at log e ≡ None →
        IsFalse (is_edge_report e) → PlacesGoOn state state rules log e }
    ensures no_place { (state : PlacesState) (rules : Rules) (log : Log) (e : Event) (m : Message) → message_at log e ≡ Some m →
        m.command ≢ begin_command → m.place ≡ None → PlacesGoOn state state rules log e }
    ensures other_command { (state : PlacesState) (rules : Rules) (log : Log) (e : Event) (m : Message) →
        message_at log e ≡ Some m →
        m.command ≢ begin_command → m.command ≢ data_command → m.command ≢ end_command → m.command ≢ sendme_command →
        PlacesGoOn state state rules log e }
    ensures refused { (state : PlacesState) (rules : Rules) (log : Log) (e : Event) (m : Message) → message_at log e ≡ Some m →
        m.command ≡ begin_command →
        (effects_after rules log e).edge ≡ None → PlacesGoOn state state rules log e }
    ensures closing { (state : PlacesState) (rules : Rules) (log : Log) (e : Event) (m : Message) (reason : ℕ) →
        message_at log e ≡ Some m →
        effects_after rules log e ≡ closing reason → PlacesGoOn state state rules log e }
{}
