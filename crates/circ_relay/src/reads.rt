//! What is read off the places that a circuit keeps is what the words of its log say.

ghost use Rattle.std.specs.Prelude.{◌≡◌, ◌≢◌, ◌+◌, ◌%◌, ◌==◌, ℕ, position, option_and_then, option_map, nat_lt, nat_le, length, is_none, not, if◌then◌else◌, Some, None};
ghost use Rattle.circuit_model.specs.Log.{Log};
ghost use Rattle.circuit_model.specs.Places.{live_place, taken_places};
ghost use Rattle.circuit_model.specs.Streams.{place_limit};
ghost use Rattle.circuit_model.specs.Windows.{stream_packaged, stream_grant, carried_count, drained_count, accept_grant as log_accept_grant};
ghost use Rattle.tor_spec.specs.StreamWindow.{stream_start, stream_step};
ghost use Rattle.stream_edge.specs.PlacesState.{PlacesState, held_at};
ghost use Rattle.stream_edge.specs.Streams.{is_free, is_live_as, pack_grant, accept_grant, may_package, may_accept, may_credit, sendme_due};
ghost use Rattle.stream_edge.specs.declared.placed_stream.PlacedStream.{PlacedStream};
ghost use Rattle.circ_relay.specs.PlacesOfLog.{AreNamed, ArePlaces, taken_count};

use stream_edge::Phase;

/// The place at which the state has a StreamID live is the log's live place of that StreamID.
pub fn the_live_stream_is_the_live_place()
    ensures serial { (state : PlacesState) (log : Log) (id : ℕ) → ArePlaces state log → AreNamed log →
        option_and_then (λ place. option_map (λ (h : PlacedStream). h.serial) (held_at state place)) (position (is_live_as id) state.streams) ≡ live_place log id }
    ensures found { (state : PlacesState) (log : Log) (id place : ℕ) → ArePlaces state log → AreNamed log →
        position (is_live_as id) state.streams ≡ Some place →
        (h : PlacedStream) × (held_at state place ≡ Some h) × (h.stream ≡ id) × (h.phase ≢ Phase.Ending) × (live_place log id ≡ Some h.serial) }
    ensures absent { (state : PlacesState) (log : Log) (id : ℕ) → ArePlaces state log → AreNamed log →
        position (is_live_as id) state.streams ≡ None → live_place log id ≡ None }
    ensures live { (state : PlacesState) (log : Log) (place : ℕ) (h : PlacedStream) → ArePlaces state log → AreNamed log →
        held_at state place ≡ Some h → h.phase ≢ Phase.Ending → live_place log h.stream ≡ Some h.serial }
{}

/// A held stream's windows, and what they allow, are those of its place.
pub fn windows_are_those_of_the_log()
    ensures pack_grant { (state : PlacesState) (log : Log) (place : ℕ) (h : PlacedStream) → ArePlaces state log →
        held_at state place ≡ Some h →
        pack_grant h ≡ stream_grant log h.serial }
    ensures accept_grant { (state : PlacesState) (log : Log) (place : ℕ) (h : PlacedStream) → ArePlaces state log →
        held_at state place ≡ Some h →
        accept_grant h ≡ log_accept_grant log h.serial }
    ensures may_package { (state : PlacesState) (log : Log) (place : ℕ) (h : PlacedStream) → ArePlaces state log →
        held_at state place ≡ Some h →
        may_package h ≡ nat_lt (stream_packaged log h.serial) (stream_grant log h.serial) }
    ensures may_accept { (state : PlacesState) (log : Log) (place : ℕ) (h : PlacedStream) → ArePlaces state log →
        held_at state place ≡ Some h →
        may_accept h ≡ not (nat_le (log_accept_grant log h.serial) (carried_count log h.serial)) }
    ensures may_credit { (state : PlacesState) (log : Log) (place : ℕ) (h : PlacedStream) → ArePlaces state log →
        held_at state place ≡ Some h →
        may_credit h ≡ not (nat_lt (stream_start + stream_packaged log h.serial) (stream_grant log h.serial + stream_step)) }
    ensures sendme_due { (state : PlacesState) (log : Log) (place : ℕ) (h : PlacedStream) → ArePlaces state log →
        held_at state place ≡ Some h →
        sendme_due h ≡ (if nat_lt (drained_count log h.serial) (carried_count log h.serial) then Some (((drained_count log h.serial + 1) % stream_step) == 0) else None) }
{}

/// As many places are taken as places of the log aren't freed; none is free exactly where these are as
/// many as a circuit has room for.
pub fn taken_places_are_those_of_the_log()
    ensures count { (state : PlacesState) (log : Log) → ArePlaces state log → AreNamed log →
        taken_count state ≡ taken_places log }
    ensures full { (state : PlacesState) (log : Log) → ArePlaces state log → AreNamed log → length state.streams ≡ 32 →
        is_none (position is_free state.streams) ≡ nat_le place_limit (taken_places log) }
{}
