// Streams of a circuit that are connected, and the bytes that their edge reports.

ghost use Rattle.std.specs.Prelude.{◌+◌, ◌<◌, ◌≤◌, ◌^◌};

use super::*;
use stream_edge::Phase;
use tr_io::edges::EdgeEvent;
use tr_io::names::StreamKey;

// The stream with this StreamID, begun and connected.
pub(super) fn connected(
    circuit: &mut Circuit,
    alloc: Global,
    rules: &Rules,
    id: u16,
) -> Result<StreamKey, Fail>
    requires windows { circuit.old.windows.calls < 2 ^ 62 }
    requires places { circuit.old.places.calls < 2 ^ 62 }
    requires packaged { circuit.old.packager.padding.count < 2 ^ 62 }
    ensures windows { circuit.new.windows.calls ≤ circuit.old.windows.calls + 2 }
    ensures places { circuit.new.places.calls ≤ circuit.old.places.calls + 2 }
    ensures packaged { circuit.new.packager.padding.count ≤ circuit.old.packager.padding.count + 2 }
{
    let begin = meant(command::BEGIN, id, b"echo.test:7\0", 0);
    let begin_effects = circuit.forward(alloc, rules, &begin, RELAY)?;
    let Some(EdgeOrder::Reach(key, _)) = begin_effects.edge else {
        return Err("no connection is ordered".into());
    };
    let Some(Phase::Reaching) = circuit.phase(key) else {
        return Err("it isn't reached for".into());
    };
    let _connect_effects = circuit.edge(key, &EdgeEvent::Connected);
    Ok(key)
}

// Has the edge report the byte 7 so many times, or until a window shuts; how many DATA were packaged.
pub(super) fn send(
    circuit: &mut Circuit,
    alloc: Global,
    key: StreamKey,
    most: u64,
) -> Result<u64, Fail>
    requires most { most < 2 ^ 16 }
    requires windows { circuit.old.windows.calls < 2 ^ 62 }
    requires places { circuit.old.places.calls < 2 ^ 62 }
    requires packaged { circuit.old.packager.padding.count < 2 ^ 62 }
    ensures windows { circuit.new.windows.calls ≤ circuit.old.windows.calls + most }
    ensures places { circuit.new.places.calls ≤ circuit.old.places.calls + most }
    ensures packaged { circuit.new.packager.padding.count ≤ circuit.old.packager.padding.count + most }
{
    for number in 0..most {
        let byte = EdgeEvent::Data(Bytes::of(alloc, &[7])?);
        let Some(Phase::Joined) = circuit.phase(key) else {
            return Ok(number);
        };
        let None = circuit.shut(key) else {
            return Ok(number);
        };
        let _data_effects = circuit.edge(key, &byte);
    }
    Ok(most)
}
