//! What a circuit does with its cells, again and again.

ghost use Rattle.std.specs.Prelude.{◌+◌, ◌<◌, ◌≤◌, ◌^◌, length};

use crate::cells::{KEYS, RELAY, Report, first_of, recognised};
use crate::circuits::{extend, fresh, join, rules};
use aes_ctr::Stream;
use cell_codec::Bytes;
use circ_relay::{Circuit, Effects, Rules};
use hop_crypto::Opener;
use relay_cell::{Opened, command, data_body, put_digest};
use run_digest::Running;
use std::alloc::{AllocError, Global};
use stream_edge::Phase;
use tr_io::edges::EdgeEvent;
use tr_io::names::StreamKey;

/// Takes the relay's layer off a body that is meant for another hop, and has a circuit pass it on: what it
/// passes on is its next body.
pub fn pass_on(alloc: Global, count: u32) -> Result<Report, AllocError> {
    let rules = rules(alloc)?;
    let mut circuit = fresh(None, &rules);
    extend(&mut circuit, alloc, &rules)?;
    let mut opener = Opener::of(&KEYS);
    let mut opened_cell = Opened {
        body: [0; 509],
        recognised: None,
    };
    let mut cells = 0u64;
    for _cell in 0..count {
        opened_cell.recognised = opener.take_off(&mut opened_cell.body);
        let effects = circuit.forward(alloc, &rules, &opened_cell, RELAY)?;
        if let Some(next_body) = passed_on(&effects) {
            opened_cell.body.copy_from_slice(next_body);
            cells = cells.saturating_add(1);
        }
    }
    Ok(Report {
        cells,
        last_bytes: first_of(&opened_cell.body),
    })
}

/// The body that goes on to the next hop.
fn passed_on(effects: &Effects) -> Option<&[u8; 509]> {
    let forth = effects.forth.as_ref()?;
    Some(&forth.1)
}

/// As many DATA as a stream takes in before its connection has taken any.
const FIVE_HUNDRED: usize = 500;

/// As many DATA as a SENDME of the circuit is for.
const HUNDRED: usize = 100;

/// DATA cells of stream 1, as the client seals them for the relay alone.
fn sealed() -> [[u8; 509]; FIVE_HUNDRED] {
    let mut stream = Stream::of(&KEYS.kf);
    let mut running_digest = Running::seeded(&KEYS.df);
    let mut bodies = [[0; 509]; FIVE_HUNDRED];
    for number in 0..FIVE_HUNDRED {
        let mut body = data_body(1, &[7; 498]);
        running_digest.absorb(&body);
        let [a, b, c, d, ..] = running_digest.digest();
        put_digest(&mut body, [a, b, c, d]);
        stream.apply(&mut body);
        bodies[number] = body;
    }
    bodies
}

/// Takes the relay's layer off DATA cells that are meant for it, and has a circuit bring their bytes to
/// the stream: by five hundreds, each in a circuit of its own.
pub fn accept(alloc: Global, count: u32) -> Result<Report, AllocError> {
    let rules = rules(alloc)?;
    let bodies = sealed();
    let mut cells = 0u64;
    let mut last_bytes = [0; 20];
    for _five_hundred in 0..count / 500 {
        let batch_report = accept_all(alloc, &rules, &bodies)?;
        cells = cells.saturating_add(batch_report.cells);
        last_bytes = batch_report.last_bytes;
    }
    Ok(Report { cells, last_bytes })
}

fn accept_all(
    alloc: Global,
    rules: &Rules,
    bodies: &[[u8; 509]; FIVE_HUNDRED],
) -> Result<Report, AllocError> {
    let mut circuit = fresh(None, rules);
    let _stream = join(&mut circuit, alloc, rules)?;
    let mut opener = Opener::of(&KEYS);
    let mut report = Report {
        cells: 0,
        last_bytes: [0; 20],
    };
    for number in 0..FIVE_HUNDRED {
        let mut opened_cell = Opened {
            body: bodies[number],
            recognised: None,
        };
        opened_cell.recognised = opener.take_off(&mut opened_cell.body);
        let effects = circuit.forward(alloc, rules, &opened_cell, RELAY)?;
        if effects.edge.is_some() {
            report.cells = report.cells.saturating_add(1);
            report.last_bytes = first_of(&opened_cell.body);
        }
    }
    Ok(report)
}

/// Has a circuit with this pad key package DATA of 498 bytes, by hundreds: SENDMEs come behind each.
pub fn package(alloc: Global, pad: Option<[u8; 16]>, count: u32) -> Result<Report, AllocError> {
    let rules = rules(alloc)?;
    let mut circuit = fresh(pad, &rules);
    let mut cells = 0u64;
    let mut last_bytes = [0; 20];
    if let Some(key) = join(&mut circuit, alloc, &rules)? {
        for _hundred in 0..count / 100 {
            let batch_report = package_all(&mut circuit, alloc, key, &[7; 498])?;
            acknowledge(&mut circuit, alloc, &rules)?;
            cells = cells.saturating_add(batch_report.cells);
            last_bytes = batch_report.last_bytes;
        }
    }
    Ok(Report { cells, last_bytes })
}

/// As many DATA with these bytes as a SENDME of the circuit is for, where the windows allow them. Each body
/// is copied out, as onto a leg.
fn package_all(
    circuit: &mut Circuit,
    alloc: Global,
    key: StreamKey,
    bytes: &[u8],
) -> Result<Report, AllocError>
    requires some { 1 ≤ length bytes.now }
    requires most { length bytes.now ≤ 498 }
    requires windows { circuit.old.windows.calls < 2 ^ 62 }
    requires places { circuit.old.places.calls < 2 ^ 62 }
    requires packaged { circuit.old.packager.padding.count < 2 ^ 62 }
    ensures windows { circuit.new.windows.calls ≤ circuit.old.windows.calls + 100 }
    ensures places { circuit.new.places.calls ≤ circuit.old.places.calls + 100 }
    ensures packaged { circuit.new.packager.padding.count ≤ circuit.old.packager.padding.count + 100 }
{
    let data = EdgeEvent::Data(Bytes::of(alloc, bytes)?);
    let mut sent_body = [0; 509];
    let mut report = Report {
        cells: 0,
        last_bytes: [0; 20],
    };
    for number in 0..HUNDRED {
        let Some(Phase::Joined) = circuit.phase(key) else {
            return Ok(report);
        };
        let None = circuit.shut(key) else {
            return Ok(report);
        };
        if let Some(body) = circuit.edge(key, &data).back {
            sent_body.copy_from_slice(&body);
            report.cells = report.cells.saturating_add(1);
        }
    }
    report.last_bytes.copy_from_slice(&sent_body[5..25]);
    Ok(report)
}

/// The SENDMEs for a hundred DATA of stream 1: two of the stream and one of the circuit.
fn acknowledge(circuit: &mut Circuit, alloc: Global, rules: &Rules) -> Result<(), AllocError>
    requires windows { circuit.old.windows.calls < 2 ^ 62 }
    requires places { circuit.old.places.calls < 2 ^ 62 }
    requires packaged { circuit.old.packager.padding.count < 2 ^ 62 }
    ensures windows { circuit.new.windows.calls ≤ circuit.old.windows.calls + 3 }
    ensures places { circuit.new.places.calls ≤ circuit.old.places.calls + 3 }
    ensures packaged { circuit.new.packager.padding.count ≤ circuit.old.packager.padding.count + 3 }
{
    let of_stream = recognised(command::SENDME, 1, &[]);
    let _first_effects = circuit.forward(alloc, rules, &of_stream, RELAY)?;
    let _second_effects = circuit.forward(alloc, rules, &of_stream, RELAY)?;
    let of_circuit = recognised(command::SENDME, 0, &[]);
    let _raise_effects = circuit.forward(alloc, rules, &of_circuit, RELAY)?;
    Ok(())
}
