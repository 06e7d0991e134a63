//! The places of a circuit.

ghost use Rattle.std.specs.Prelude.{◌≡◌, ℕ, ◌+◌, ◌^◌, ◌<◌, ◌≤◌, IsTrue, IfSome, IfNone, Option, Some, None, option_map, is_some, length, position, replicate};
ghost use Rattle.stream_edge.specs.Streams.{begun, is_free, is_live_as, is_stream};
ghost use Rattle.stream_edge.specs.PlacesState.{IsCounted, IsEnding, IsLive, IsTaken, LivesOnce, held_at, with_held};
ghost use Rattle.stream_edge.specs.declared.placed_stream.PlacedStream.{PlacedStream};

mod finding;
mod windows;

use crate::placed_stream::{Phase, PlacedStream};
use finding::{begun, free_place, live_place, stream_place};
use std::marker::Model;

/// The places of a circuit.
const PLACES: usize = 32;

/// The number of a place, below 32.
#[derive(Clone, Copy, PartialEq, Eq, Debug)]
pub struct PlaceNo(pub u32);

/// Whether a stream may accept one more DATA cell.
#[derive(Clone, Copy, PartialEq, Eq, Debug)]
pub enum AcceptAnswer {
    Accepted,
    /// Its window is used up.
    Overrun,
}

/// Whether a stream's SENDME is accepted.
#[derive(Clone, Copy, PartialEq, Eq, Debug)]
pub enum CreditAnswer {
    Raised,
    /// The window would pass its start.
    TooMuch,
}

/// The streams of a circuit. Its type keeps that a StreamID is live at one place at most, that no count of a
/// stream passes its grant, and that no window opens past its start.
#[derive(Drop)]
pub struct Places {
    streams: [Option<PlacedStream>; 32],
    next_serial: u64,
    calls: u64,
}

impl Model for Places {
    ghost use Rattle.stream_edge.specs.PlacesState.{PlacesState, IsInStep};

    ghost Value = { PlacesState };

    ghost view = { λ p. record { streams = p.streams; next_serial = p.next_serial; calls = p.calls } };

    ghost invariant = { λ p. IsInStep (record { streams = p.streams; next_serial = p.next_serial; calls = p.calls }) };
}

impl Places {
    /// No place is taken.
    pub fn new() -> Places
        ensures { result ≡ record { streams = replicate 32 None; next_serial = 0; calls = 0 } }
    {
        Places {
            streams: [None; PLACES],
            next_serial: 0,
            calls: 0,
        }
    }

    /// The place at which the StreamID is live, if there is one.
    pub fn live(&self, id: u16) -> Option<PlaceNo>
        ensures { option_map (λ place. place.0) result ≡ position (is_live_as id) self.now.streams }
    {
        let place = live_place(&self.streams, id)?;
        Some(PlaceNo(place as u32))
    }

    /// The place of the stream with this StreamID and serial, if it has one.
    pub fn place_of(&self, id: u16, serial: u64) -> Option<PlaceNo>
        ensures first { option_map (λ place. place.0) result ≡ position (is_stream id serial) self.now.streams }
        ensures within { IfSome result (λ place. place.0 < 32) }
    {
        let place = stream_place(&self.streams, id, serial)?;
        Some(PlaceNo(place as u32))
    }

    /// Whether a place is free.
    pub fn has_free(&self) -> bool
        ensures free { result ≡ is_some (position is_free self.now.streams) }
        ensures places { length self.now.streams ≡ 32 }
        ensures live_once { LivesOnce self.now.streams }
    {
        free_place(&self.streams).is_some()
    }

    /// Takes a place for a stream that was just accepted. `None`, and nothing is taken, exactly where
    /// all 32 are taken.
    pub fn take_place(&mut self, id: u16) -> Option<PlaceNo>
        requires calls { self.old.calls < 2 ^ 63 }
        requires new { position (is_live_as id) self.old.streams ≡ None }
        ensures place { option_map (λ place. place.0) result ≡ position is_free self.old.streams }
        ensures within { IfSome result (λ place. place.0 < 32) }
        ensures some { IfSome result
            (λ place. self.new ≡ record (with_held self.old place.0 (Some (begun id self.old.next_serial)))
            { next_serial = self.old.next_serial + 1 }) }
        ensures taken { IfSome result (λ place. held_at self.new place.0 ≡ Some (begun id self.old.next_serial)) }
        ensures none { IfNone result (self.new ≡ record self.old { calls = self.old.calls + 1 }) }
        ensures live_once { LivesOnce self.new.streams }
        ensures calls { self.new.calls ≡ self.old.calls + 1 }
    {
        self.calls += 1;
        let place = free_place(&self.streams)?;
        self.streams[place] = Some(begun(id, self.next_serial));
        self.next_serial += 1;
        Some(PlaceNo(place as u32))
    }

    /// The phase of the stream at the place; `None` where the place is free.
    pub fn phase(&self, place: PlaceNo) -> Option<Phase>
        ensures { result ≡ option_map (λ h. h.phase) (held_at self.now place.0) }
    {
        self.get(place).map(|stream| stream.phase)
    }

    /// Which of the circuit's accepted BEGINs the stream is, counted from 0.
    pub fn serial(&self, place: PlaceNo) -> u64
        requires { IsTaken self.now place.0 }
        ensures { (h : PlacedStream) → held_at self.now place.0 ≡ Some h → result ≡ h.serial }
    {
        self.stream_at(place).serial
    }

    /// The stream is connected.
    pub fn joined(&mut self, place: PlaceNo)
        requires calls { self.old.calls < 2 ^ 63 }
        requires live { IsLive self.old place.0 }
        ensures stream { (h : PlacedStream) → held_at self.old place.0 ≡ Some h →
            self.new ≡ with_held self.old place.0 (Some (record h { phase = Phase.Joined })) }
        ensures calls { self.new.calls ≡ self.old.calls + 1 }
    {
        let stream = self.stream_at(place);
        self.put(
            place,
            Some(PlacedStream {
                phase: Phase::Joined,
                ..stream
            }),
        );
    }

    /// The stream has ended; its place stays taken until `freed`.
    pub fn ending(&mut self, place: PlaceNo)
        requires calls { self.old.calls < 2 ^ 63 }
        requires taken { IsTaken self.old place.0 }
        ensures stream { (h : PlacedStream) → held_at self.old place.0 ≡ Some h →
            self.new ≡ with_held self.old place.0 (Some (record h { phase = Phase.Ending })) }
        ensures calls { self.new.calls ≡ self.old.calls + 1 }
    {
        let stream = self.stream_at(place);
        self.put(
            place,
            Some(PlacedStream {
                phase: Phase::Ending,
                ..stream
            }),
        );
    }

    /// The place of an ended stream is free again.
    pub fn freed(&mut self, place: PlaceNo)
        requires calls { self.old.calls < 2 ^ 63 }
        requires ending { IsEnding self.old place.0 }
        ensures place { self.new ≡ with_held self.old place.0 None }
        ensures calls { self.new.calls ≡ self.old.calls + 1 }
    {
        // A place that is taken is one of the 32.
        let _stream = self.stream_at(place);
        self.put(place, None);
    }

    fn get(&self, place: PlaceNo) -> Option<PlacedStream>
        ensures { result ≡ held_at self.now place.0 }
    {
        match self.streams.get(place.0 as usize) {
            Some(stream) => *stream,
            None => None,
        }
    }

    fn stream_at(&self, place: PlaceNo) -> PlacedStream
        requires { IsTaken self.now place.0 }
        ensures held { held_at self.now place.0 ≡ Some result }
        ensures within { place.0 < 32 }
        ensures counted { IsCounted result self.now.calls }
        ensures calls { self.now.calls ≤ 2 ^ 63 }
    {
        match self.streams[place.0 as usize] {
            Some(stream) => stream,
            None => unreachable!(),
        }
    }

    fn put(&mut self, place: PlaceNo, stream: Option<PlacedStream>)
        requires calls { self.old.calls < 2 ^ 63 }
        requires within { place.0 < 32 }
        requires counted { (h : PlacedStream) → stream ≡ Some h → IsCounted h (self.old.calls + 1) }
        requires lives { (id : ℕ) → IsTrue (is_live_as id stream) → IsTrue (is_live_as id (held_at self.old place.0)) }
        ensures { self.new ≡ with_held self.old place.0 stream }
    {
        self.streams[place.0 as usize] = stream;
        self.calls += 1;
    }
}
