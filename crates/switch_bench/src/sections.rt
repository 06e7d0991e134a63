//! Times what a switch does with a round's cells.

use crate::cells::sealed_rounds;
use crate::clock::now;
use crate::request::Request;
use crate::section::Section;
use crate::switches::{back, forth, take_all, with_room};
use relay_cell::{command, write_body};
use std::alloc::Global;
use std::io;
use std::time::CpuClock;

/// A DROP.
fn drop_body() -> [u8; 509] {
    write_body(command::DROP, 0, &[])
}

/// A BEGIN for a name that isn't allowed.
fn refused_begin() -> [u8; 509] {
    write_body(command::BEGIN, 1, b"no.test:7\0")
}

/// Cells that are taken, and wait.
pub(crate) fn taken(rt: &impl CpuClock, alloc: Global) -> io::Result<Section> {
    let rounds = sealed_rounds(alloc, &drop_body())?;
    let mut switch = with_room(alloc, rounds.untimed.as_slice())?;
    let start = now(rt)?;
    let waiting_count = take_all(&mut switch, rounds.timed.as_slice());
    let end = now(rt)?;
    Ok(Section::between(start, end, waiting_count))
}

/// Cells forth that nothing comes of: DROPs.
pub(crate) fn dropped(rt: &impl CpuClock, alloc: Global, request: Request) -> io::Result<Section> {
    let rounds = sealed_rounds(alloc, &drop_body())?;
    let mut switch = with_room(alloc, rounds.untimed.as_slice())?;
    let start = now(rt)?;
    let home = forth(&mut switch, rounds.timed.as_slice(), request.batch)?;
    let end = now(rt)?;
    Ok(Section::between(start, end, home))
}

/// Cells back: the ENDs that answer refused BEGINs.
pub(crate) fn answered(rt: &impl CpuClock, alloc: Global, request: Request) -> io::Result<Section> {
    let rounds = sealed_rounds(alloc, &refused_begin())?;
    let mut switch = with_room(alloc, rounds.untimed.as_slice())?;
    back(rt, &mut switch, rounds.timed.as_slice(), request.batch)
}
