//! The circuits that do the work.

ghost use Rattle.std.specs.Prelude.{◌≡◌, ◌+◌, ◌<◌, ◌≤◌, ◌^◌};

use crate::cells::{ECHO, KEYS, RELAY, RELAY_EARLY, recognised};
use cell_codec::{Bytes, List};
use circ_relay::{Allow, Circuit, NextHop, Rules};
use relay_cell::command;
use std::alloc::{AllocError, Global};
use stream_edge::Phase;
use tr_io::edges::{EdgeEvent, EdgeOrder};
use tr_io::names::{CircNo, StreamKey};

/// echo.test, port 7, may be reached, and SENDMEs need no proof.
pub fn rules(alloc: Global) -> Result<Rules, AllocError> {
    let mut allow = List::new(alloc);
    allow.push(Allow {
        host: Bytes::of(alloc, b"echo.test")?,
        port: 7,
        to: ECHO,
    })?;
    Ok(Rules {
        allow,
        window: 1000,
        least: 0,
    })
}

/// A circuit with this pad key, of which nothing was asked yet.
pub fn fresh(pad: Option<[u8; 16]>, rules: &Rules) -> Circuit
    ensures windows { result.windows.calls ≡ 0 }
    ensures places { result.places.calls ≡ 0 }
    ensures packaged { result.packager.padding.count ≡ 0 }
{
    Circuit::new(CircNo(0), &KEYS, pad, rules)
}

/// Extends a fresh circuit by a next hop. Without one, which only a wrong cell would bring about, it
/// passes nothing on.
pub fn extend(circuit: &mut Circuit, alloc: Global, rules: &Rules) -> Result<(), AllocError>
    requires windows { circuit.old.windows.calls ≡ 0 }
    requires places { circuit.old.places.calls ≡ 0 }
    requires packaged { circuit.old.packager.padding.count ≡ 0 }
    ensures windows { circuit.new.windows.calls ≤ 2 }
    ensures places { circuit.new.places.calls ≤ 2 }
    ensures packaged { circuit.new.packager.padding.count ≤ 2 }
{
    let mut payload = [0; 32];
    payload[..12].copy_from_slice(&[1, 0, 6, 127, 0, 0, 1, 0x23, 0x29, 0, 2, 0]);
    payload[12] = 19;
    let extend = recognised(command::EXTEND2, 0, &payload);
    let _extend_effects = circuit.forward(alloc, rules, &extend, RELAY_EARLY)?;
    if circuit.next_hop() == NextHop::Dialling {
        let _link_effects = circuit.next_linked();
        let mut reply = [0; 509];
        reply[1] = 64;
        let _answer_effects = circuit.next_answered(&reply);
    }
    Ok(())
}

/// Begins and connects stream 1 of a fresh circuit; its name, or `None` where no connection was ordered.
pub fn join(
    circuit: &mut Circuit,
    alloc: Global,
    rules: &Rules,
) -> Result<Option<StreamKey>, AllocError>
    requires windows { circuit.old.windows.calls ≡ 0 }
    requires places { circuit.old.places.calls ≡ 0 }
    requires packaged { circuit.old.packager.padding.count ≡ 0 }
    ensures windows { circuit.new.windows.calls ≤ 2 }
    ensures places { circuit.new.places.calls ≤ 2 }
    ensures packaged { circuit.new.packager.padding.count ≤ 2 }
{
    let begin = recognised(command::BEGIN, 1, b"echo.test:7\0");
    let begin_effects = circuit.forward(alloc, rules, &begin, RELAY)?;
    let Some(EdgeOrder::Reach(key, _)) = begin_effects.edge else {
        return Ok(None);
    };
    let Some(Phase::Reaching) = circuit.phase(key) else {
        return Ok(None);
    };
    let _connect_effects = circuit.edge(key, &EdgeEvent::Connected);
    Ok(Some(key))
}
