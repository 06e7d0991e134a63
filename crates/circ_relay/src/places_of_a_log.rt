//! How the places that a circuit keeps go on with its log.

ghost use Rattle.std.specs.Prelude.{◌≡◌, ◌≢◌, ◌<◌, ◌+◌, ◌∷◌, [], ℕ, List, length, position, replicate, IsTrue, IsFalse, Some, None};
ghost use Rattle.tor_spec.specs.RelayCell.{begin_command, data_command, end_command, sendme_command};
ghost use Rattle.tor_spec.specs.Extend.{Address};
ghost use Rattle.circuit_model.specs.Events.{Event};
ghost use Rattle.circuit_model.specs.declared.event.Event.TheVariants.{Connected, Data, Drained, Ended, Freed};
ghost use Rattle.circuit_model.specs.Log.{Log, Entry, Message, StreamKey, closing, is_closed};
ghost use Rattle.circuit_model.specs.declared.effects.Order.TheVariants.{Reach};
ghost use Rattle.circuit_model.specs.Rules.{Rules};
ghost use Rattle.circuit_model.specs.Places.{Place, live_place, place_at, place_of, places};
ghost use Rattle.circuit_model.specs.Received.{message_at};
ghost use Rattle.circuit_model.specs.Effects.{effects_after};
ghost use Rattle.circuit_model.specs.Words.{entry_after, log};
ghost use Rattle.stream_edge.specs.PlacesState.{PlacesState, held_at, with_held};
ghost use Rattle.stream_edge.specs.Streams.{after_accepting, after_credit, after_packaging, after_draining, begun, is_free, may_drain};
ghost use Rattle.stream_edge.specs.declared.placed_stream.PlacedStream.{PlacedStream};
ghost use Rattle.circ_relay.specs.PlacesOfLog.{AreNamed, ArePlaces, IsSilent, is_edge_report};

use stream_edge::Phase;

/// An entry that makes no place and says nothing of one leaves the places as they are.
pub fn silent_entries_leave_the_places()
    ensures { (state new : PlacesState) (log : Log) (entry : Entry) →
        new.streams ≡ state.streams → new.next_serial ≡ state.next_serial → place_of entry.effects.edge ≡ None →
        ((serial : ℕ) → IsSilent entry serial) → ArePlaces state log → ArePlaces new (entry ∷ log) }
{}

/// The count of calls says nothing of a log.
pub fn calls_alone_leave_the_places()
    ensures { (state new : PlacesState) (log : Log) → new.streams ≡ state.streams → new.next_serial ≡ state.next_serial →
        ArePlaces state log → ArePlaces new log }
{}

/// At first no place is taken.
pub fn no_places_are_those_of_no_log()
    ensures { ArePlaces (record { streams = replicate 32 None; next_serial = 0; calls = 0 }) [] }
{}

/// An accepted BEGIN takes the first free place for its stream.
pub fn an_accepted_begin_takes_a_place()
    ensures { (state : PlacesState) (rules : Rules) (log : Log) (e : Event) (m : Message) (place id : ℕ) (to : Address) →
        ArePlaces state log → message_at log e ≡ Some m → m.command ≡ begin_command →
        (effects_after rules log e).edge ≡ Some (Reach (record { stream = id; serial = length (places log) }) to) →
        position is_free state.streams ≡ Some place →
        ArePlaces (record (with_held state place (Some (begun id state.next_serial))) { next_serial = state.next_serial + 1 }) (entry_after rules log e ∷ log) }
{}

/// A stream that is connected is Joined.
pub fn connected_streams_are_joined()
    ensures { (state : PlacesState) (rules : Rules) (log : Log) (place : ℕ) (h : PlacedStream) →
        ArePlaces state log → held_at state place ≡ Some h → h.phase ≡ Phase.Reaching →
        ArePlaces (with_held state place (Some (record h { phase = Phase.Joined }))) (entry_after rules log (Connected h.serial) ∷ log) }
{}

/// Bytes of a stream's connection are packaged, also where there are none.
pub fn bytes_are_packaged()
    ensures { (state : PlacesState) (rules : Rules) (log : Log) (place : ℕ) (h : PlacedStream) (bytes : List ℕ) →
        ArePlaces state log → held_at state place ≡ Some h →
        ArePlaces (with_held state place (Some (after_packaging h))) (entry_after rules log (Data h.serial bytes) ∷ log) }
{}

/// An accepted DATA that its connection has taken is drained.
pub fn taken_cells_are_drained()
    ensures { (state : PlacesState) (rules : Rules) (log : Log) (place : ℕ) (h : PlacedStream) →
        ArePlaces state log → held_at state place ≡ Some h → IsTrue (may_drain h) →
        ArePlaces (with_held state place (Some (after_draining h))) (entry_after rules log (Drained h.serial) ∷ log) }
{}

/// A stream whose connection ended is Ending.
pub fn ended_streams_are_ending()
    ensures { (state : PlacesState) (rules : Rules) (log : Log) (place : ℕ) (h : PlacedStream) (reason : ℕ) →
        ArePlaces state log → IsFalse (is_closed log) → held_at state place ≡ Some h →
        ArePlaces (with_held state place (Some (record h { phase = Phase.Ending }))) (entry_after rules log (Ended h.serial reason) ∷ log) }
{}

/// A place that was given back holds nothing.
pub fn freed_places_hold_nothing()
    ensures { (state : PlacesState) (rules : Rules) (log : Log) (place : ℕ) (h : PlacedStream) →
        ArePlaces state log → held_at state place ≡ Some h →
        ArePlaces (with_held state place None) (entry_after rules log (Freed h.serial) ∷ log) }
{}

/// A live stream that an END ends is Ending.
pub fn an_end_message_ends_its_stream()
    ensures { (state : PlacesState) (rules : Rules) (log : Log) (e : Event) (m : Message) (place : ℕ) (h : PlacedStream) →
        ArePlaces state log → message_at log e ≡ Some m → m.command ≡ end_command → m.place ≡ Some h.serial →
        held_at state place ≡ Some h →
        ArePlaces (with_held state place (Some (record h { phase = Phase.Ending }))) (entry_after rules log e ∷ log) }
{}

/// A DATA for a live stream is accepted where the stream's window allows it; else nothing is counted.
pub fn a_data_message_is_accepted_by_its_window()
    ensures { (state : PlacesState) (rules : Rules) (log : Log) (e : Event) (m : Message) (place : ℕ) (h : PlacedStream) →
        ArePlaces state log → message_at log e ≡ Some m → m.command ≡ data_command → m.place ≡ Some h.serial →
        held_at state place ≡ Some h →
        ArePlaces (with_held state place (Some (after_accepting h))) (entry_after rules log e ∷ log) }
{}

/// A SENDME for a live stream raises its window where the window stays at or below its start; else
/// nothing is counted.
pub fn a_sendme_raises_the_window_of_its_stream()
    ensures { (state : PlacesState) (rules : Rules) (log : Log) (e : Event) (m : Message) (place : ℕ) (h : PlacedStream) →
        ArePlaces state log → message_at log e ≡ Some m → m.command ≡ sendme_command → 0 < m.stream → m.place ≡ Some h.serial →
        held_at state place ≡ Some h →
        ArePlaces (with_held state place (Some (after_credit h))) (entry_after rules log e ∷ log) }
{}

/// Every other event leaves the places as they are: one that is no report of the edge and brings no
/// message, and a message that is for no live stream, of another command than these four, a BEGIN that
/// is refused, or one that closes.
pub fn other_events_leave_the_places()
    ensures no_message { (state : PlacesState) (rules : Rules) (log : Log) (e : Event) → ArePlaces state log →
        message_at log e ≡ None → IsFalse (is_edge_report e) → ArePlaces state (entry_after rules log e ∷ log) }
    ensures no_place { (state : PlacesState) (rules : Rules) (log : Log) (e : Event) (m : Message) → ArePlaces state log →
        message_at log e ≡ Some m → m.command ≢ begin_command → m.place ≡ None → ArePlaces state (entry_after rules log e ∷ log) }
    ensures other_command { (state : PlacesState) (rules : Rules) (log : Log) (e : Event) (m : Message) → ArePlaces state log →
        message_at log e ≡ Some m → m.command ≢ begin_command → m.command ≢ data_command → m.command ≢ end_command →
        m.command ≢ sendme_command →
        ArePlaces state (entry_after rules log e ∷ log) }
    ensures refused { (state : PlacesState) (rules : Rules) (log : Log) (e : Event) (m : Message) → ArePlaces state log →
        message_at log e ≡ Some m → m.command ≡ begin_command → (effects_after rules log e).edge ≡ None →
        ArePlaces state (entry_after rules log e ∷ log) }
    ensures closing { (state : PlacesState) (rules : Rules) (log : Log) (e : Event) (m : Message) (reason : ℕ) →
        ArePlaces state log →
        message_at log e ≡ Some m → effects_after rules log e ≡ closing reason → ArePlaces state (entry_after rules log e ∷ log) }
{}

/// In every log of a history places are numbered in the order of their BEGINs, none has StreamID 0, and
/// a StreamID is live at one place at most.
pub fn places_are_named_in_every_history()
    ensures history { (rules : Rules) (h : List Event) → AreNamed (log rules h) }
    ensures start { AreNamed [] }
    ensures more { (rules : Rules) (log : Log) (e : Event) → AreNamed log → AreNamed (entry_after rules log e ∷ log) }
{}

/// A message names the place at which its StreamID is live; StreamID 0 is live at none.
pub fn a_message_names_its_live_place()
    ensures place { (log : Log) (e : Event) (m : Message) → message_at log e ≡ Some m → m.place ≡ live_place log m.stream }
    ensures zero { (log : Log) → AreNamed log → live_place log 0 ≡ None }
{}

/// A place that was made stays in the log, with its name and its address; an order Reach makes it.
pub fn places_of_a_log_last()
    ensures last { (log : Log) (entry : Entry) (serial : ℕ) (place : Place) →
        place_at log serial ≡ Some place → place_at (entry ∷ log) serial ≡ Some place }
    ensures begin { (log : Log) (entry : Entry) (key : StreamKey) (to : Address) → entry.effects.edge ≡ Some (Reach key to) →
        place_at (entry ∷ log) (length (places log)) ≡ Some (record { key = key; to = to }) }
{}
