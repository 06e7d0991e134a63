//! Times the cipher, and the cipher and the running digest, of a round's bodies; and the clock alone.

ghost use Rattle.std.specs.Prelude.{◌≡◌, ◌*◌};

use crate::cells::{CELLS, circuit_keys};
use crate::clock::now;
use crate::request::Request;
use crate::section::{NOTHING, Section};
use hop_crypto::Sealer;
use run_digest::Running;
use std::io;
use std::time::CpuClock;

/// A layer goes on as many bodies as a round has cells.
pub(crate) fn layer(rt: &impl CpuClock) -> io::Result<Section> {
    let mut sealer = Sealer::of(&circuit_keys());
    let mut body = [0; 509];
    let start = now(rt)?;
    for _cell in 0..CELLS {
        sealer.put_on(&mut body);
    }
    let end = now(rt)?;
    Ok(section(end.saturating_sub(start), body[508]))
}

/// As many bodies get their layer and go by a running digest, which is asked each time.
pub(crate) fn layer_and_digest(rt: &impl CpuClock) -> io::Result<Section> {
    let keys = circuit_keys();
    let mut sealer = Sealer::of(&keys);
    let mut running = Running::seeded(&keys.db);
    let mut body = [0; 509];
    let mut last = 0;
    let start = now(rt)?;
    for _cell in 0..CELLS {
        sealer.put_on(&mut body);
        running.absorb(&body);
        let [first, ..] = running.digest();
        last = first;
    }
    let end = now(rt)?;
    Ok(section(end.saturating_sub(start), last))
}

/// The clock is read before and behind nothing, as often as a round has batches.
pub(crate) fn clock_alone(rt: &impl CpuClock, request: Request) -> io::Result<Section> {
    let mut section = NOTHING;
    for _batch in 0..CELLS / request.batch {
        let start = now(rt)?;
        let end = now(rt)?;
        section = section.with(Section::between(start, end, request.batch));
    }
    Ok(section)
}

/// What a round's bodies took. A byte of what came of them is used, so that it has to be made.
fn section(nanoseconds: u64, last: u8) -> Section {
    Section {
        nanoseconds: nanoseconds.max(u64::from(last)),
        cells: u64::from(CELLS),
    }
}
