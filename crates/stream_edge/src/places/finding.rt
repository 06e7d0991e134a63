//! The place of a stream among the places of a circuit, and a stream that has just begun.

ghost use Rattle.std.specs.Prelude.{◌≡◌, ◌<◌, IfSome, position};
ghost use Rattle.stream_edge.specs.Streams.{begun, is_free, is_live_as, is_stream};

use crate::placed_stream::{Phase, PlacedStream};

pub(super) fn live_place(streams: &[Option<PlacedStream>; 32], id: u16) -> Option<usize>
    ensures first { result ≡ position (is_live_as id) streams.now }
    ensures within { IfSome result (λ place. place < 32) }
{
    streams.iter().position(|stream| is_live_as(stream, id))
}

pub(super) fn stream_place(
    streams: &[Option<PlacedStream>; 32],
    id: u16,
    serial: u64,
) -> Option<usize>
    ensures first { result ≡ position (is_stream id serial) streams.now }
    ensures within { IfSome result (λ place. place < 32) }
{
    streams
        .iter()
        .position(|stream| is_stream(stream, id, serial))
}

pub(super) fn free_place(streams: &[Option<PlacedStream>; 32]) -> Option<usize>
    ensures first { result ≡ position is_free streams.now }
    ensures within { IfSome result (λ place. place < 32) }
{
    streams.iter().position(|stream| stream.is_none())
}

fn is_live_as(stream: &Option<PlacedStream>, id: u16) -> bool
    ensures { result ≡ is_live_as id stream.now }
{
    match stream {
        Some(stream) => stream.stream == id && stream.phase != Phase::Ending,
        None => false,
    }
}

fn is_stream(stream: &Option<PlacedStream>, id: u16, serial: u64) -> bool
    ensures { result ≡ is_stream id serial stream.now }
{
    match stream {
        Some(stream) => stream.stream == id && stream.serial == serial,
        None => false,
    }
}

pub(super) fn begun(id: u16, serial: u64) -> PlacedStream
    ensures { result ≡ begun id serial }
{
    PlacedStream {
        stream: id,
        serial,
        phase: Phase::Reaching,
        packed: 0,
        credits: 0,
        accepted: 0,
        drained: 0,
    }
}
