//! The windows of a circuit's streams (tor-spec, "Stream-level flow control").

ghost use Rattle.std.specs.Prelude.{◌≡◌, ◌+◌, ◌^◌, ◌<◌, IsTrue, if◌then◌else◌, Some};
ghost use Rattle.stream_edge.specs.Streams.{after_accepting, after_credit, after_draining, after_packaging, may_accept, may_credit, may_drain, may_package, sendme_due};
ghost use Rattle.stream_edge.specs.PlacesState.{IsLive, IsTaken, held_at, with_held};
ghost use Rattle.stream_edge.specs.declared.placed_stream.PlacedStream.{PlacedStream};

use super::{AcceptAnswer, CreditAnswer, PlaceNo, Places};
use crate::placed_stream::PlacedStream;

/// The cells that a stream's window begins with (tor-spec, "Stream-level flow control").
const START: u64 = 500;

/// The cells by which each SENDME of the stream raises it.
const STEP: u64 = 50;

impl Places {
    /// Counts a DATA cell that came for the stream, where its window allows one more.
    pub fn accepted(&mut self, place: PlaceNo) -> AcceptAnswer
        requires calls { self.old.calls < 2 ^ 63 }
        requires live { IsLive self.old place.0 }
        ensures answer { (h : PlacedStream) → held_at self.old place.0 ≡ Some h →
            result ≡ (if may_accept h then AcceptAnswer.Accepted else AcceptAnswer.Overrun) }
        ensures counted { (h : PlacedStream) → held_at self.old place.0 ≡ Some h →
            self.new ≡ with_held self.old place.0 (Some (after_accepting h)) }
        ensures calls { self.new.calls ≡ self.old.calls + 1 }
    {
        let stream = self.stream_at(place);
        if stream.accepted < START + STEP * (stream.drained / STEP) {
            self.put(
                place,
                Some(PlacedStream {
                    accepted: stream.accepted + 1,
                    ..stream
                }),
            );
            AcceptAnswer::Accepted
        } else {
            self.put(place, Some(stream));
            AcceptAnswer::Overrun
        }
    }

    /// Counts an accepted DATA cell whose bytes the connection has taken. `None` exactly where there
    /// is none; else whether a SENDME is due, which raises the window: for each 50th.
    pub fn drained(&mut self, place: PlaceNo) -> Option<bool>
        requires calls { self.old.calls < 2 ^ 63 }
        requires live { IsLive self.old place.0 }
        ensures answer { (h : PlacedStream) → held_at self.old place.0 ≡ Some h → result ≡ sendme_due h }
        ensures counted { (h : PlacedStream) → held_at self.old place.0 ≡ Some h →
            self.new ≡ with_held self.old place.0 (Some (after_draining h)) }
        ensures calls { self.new.calls ≡ self.old.calls + 1 }
    {
        let stream = self.stream_at(place);
        if stream.drained < stream.accepted {
            let count = stream.drained + 1;
            self.put(
                place,
                Some(PlacedStream {
                    drained: count,
                    ..stream
                }),
            );
            Some(count % STEP == 0)
        } else {
            self.put(place, Some(stream));
            None
        }
    }

    /// Whether one more DATA cell may be packaged for the stream.
    pub fn may_pack(&self, place: PlaceNo) -> bool
        requires { IsLive self.now place.0 }
        ensures { (h : PlacedStream) → held_at self.now place.0 ≡ Some h → result ≡ may_package h }
    {
        let stream = self.stream_at(place);
        stream.packed < START + STEP * stream.credits
    }

    /// Counts a DATA cell that is packaged for the stream.
    pub fn packed(&mut self, place: PlaceNo)
        requires calls { self.old.calls < 2 ^ 63 }
        requires live { IsLive self.old place.0 }
        requires room { (h : PlacedStream) → held_at self.old place.0 ≡ Some h → IsTrue (may_package h) }
        ensures stream { (h : PlacedStream) → held_at self.old place.0 ≡ Some h →
            self.new ≡ with_held self.old place.0 (Some (after_packaging h)) }
        ensures calls { self.new.calls ≡ self.old.calls + 1 }
    {
        let stream = self.stream_at(place);
        self.put(
            place,
            Some(PlacedStream {
                packed: stream.packed + 1,
                ..stream
            }),
        );
    }

    /// A SENDME of the stream, which raises its window by 50 cells, where it stays at or below its start.
    pub fn credit(&mut self, place: PlaceNo) -> CreditAnswer
        requires calls { self.old.calls < 2 ^ 63 }
        requires live { IsLive self.old place.0 }
        ensures answer { (h : PlacedStream) → held_at self.old place.0 ≡ Some h →
            result ≡ (if may_credit h then CreditAnswer.Raised else CreditAnswer.TooMuch) }
        ensures counted { (h : PlacedStream) → held_at self.old place.0 ≡ Some h →
            self.new ≡ with_held self.old place.0 (Some (after_credit h)) }
        ensures calls { self.new.calls ≡ self.old.calls + 1 }
    {
        let stream = self.stream_at(place);
        if START + STEP * stream.credits + STEP <= START + stream.packed {
            self.put(
                place,
                Some(PlacedStream {
                    credits: stream.credits + 1,
                    ..stream
                }),
            );
            CreditAnswer::Raised
        } else {
            self.put(place, Some(stream));
            CreditAnswer::TooMuch
        }
    }

    /// How many DATA cells were packaged for the stream.
    pub fn count(&self, place: PlaceNo) -> u64
        requires { IsTaken self.now place.0 }
        ensures { (h : PlacedStream) → held_at self.now place.0 ≡ Some h → result ≡ h.packed }
    {
        self.stream_at(place).packed
    }

    /// Whether a DATA cell that was accepted for the stream is undrained.
    pub fn has_undrained(&self, place: PlaceNo) -> bool
        requires { IsTaken self.now place.0 }
        ensures { (h : PlacedStream) → held_at self.now place.0 ≡ Some h → result ≡ may_drain h }
    {
        let stream = self.stream_at(place);
        stream.drained < stream.accepted
    }
}
