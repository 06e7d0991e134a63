//! The next hop of a circuit.

ghost use Rattle.std.specs.Prelude.{◌≡◌};
ghost use Rattle.circuit_model.specs.NextHop.{hop_by, next_hop};
ghost use Rattle.plain_circuit.specs.Values.{log_of};

use crate::log::Entry;
use circuit_model::{Effects, Event, NextHop};

/// What an event makes of the next hop.
fn hop_by(event: &Event, effects: &Effects) -> Option<NextHop>
    ensures { result ≡ hop_by event.now effects.now }
{
    match event {
        Event::Linked => Some(NextHop::Waiting),
        Event::Answered(_) => Some(NextHop::There),
        _ if effects.dial.is_some() => Some(NextHop::Dialling),
        _ if effects.cut => Some(NextHop::Absent),
        _ => None,
    }
}

/// The newest entry that says something of the next hop decides.
pub fn next_hop(log: &[Entry<'_>]) -> NextHop
    ensures { result ≡ next_hop (log_of log.now) }
{
    let mut hop = NextHop::Absent;
    for entry in log {
        if let Some(next) = hop_by(entry.event, &entry.effects) {
            hop = next;
        }
    }
    hop
}
