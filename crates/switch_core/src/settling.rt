//! What one event's effects make of a circuit.
ghost use Rattle.std.specs.Prelude.{◌≡◌, ◌+◌, ◌<◌, ◌≤◌, ◌^◌};
ghost use Rattle.circ_relay.specs.Values.{effects_of};
ghost use Rattle.switch_core.specs.Settling.{back_by, closing_by, counts_by, is_packed, orders_by};

use crate::counters::Counters;
use crate::orders::Orders;
use crate::parts::MOST_BODIES;
use crate::way::Way;
use cell_codec::{command, destroy_reason};
use circ_relay::Effects;

/// The effects of a body that came home: a body that it packages waits on the way back, orders wait to be handed
/// out. The reason with which it closes the circuit, if it does; where the way back is full and takes no body more,
/// nothing changes. So many cells wait on the leg towards the client.
pub fn apply(
    effects: Effects,
    queued: usize,
    back: &mut Way,
    orders: &mut Orders,
    counters: &mut Counters,
) -> Option<u8>
    requires back { 0 < back.old.spare }
    requires orders { 0 < orders.old.spare }
    requires bodies { counters.old.bodies < 2 ^ 100 }
    requires dials { counters.old.dial_orders < 2 ^ 100 }
    ensures reason { result ≡ closing_by (is_packed queued back.old.state (effects_of effects)) (effects_of effects) }
    ensures back { back.new.state ≡ back_by (is_packed queued back.old.state (effects_of effects)) counters.old.bodies (effects_of effects)
        back.old.state }
    ensures orders { orders.new.state ≡ orders_by (is_packed queued back.old.state (effects_of effects)) counters.old.dial_orders
        (effects_of effects) orders.old.state }
    ensures counts { counters.new ≡ counts_by (is_packed queued back.old.state (effects_of effects)) (effects_of effects) counters.old }
    ensures back_spare { back.old.spare ≤ back.new.spare + 1 }
    ensures orders_spare { orders.old.spare ≤ orders.new.spare + 1 }
    ensures rooms { orders.new.rooms ≡ orders.old.rooms }
{
    let Effects {
        back: packaged,
        forth: _,
        edge,
        dial,
        cut,
        close,
    } = effects;
    if packaged.is_some() && queued.saturating_add(back.len()) >= MOST_BODIES {
        return Some(destroy_reason::RESOURCE_LIMIT);
    }
    if let Some(body) = packaged {
        back.push_reserved(counters.bodies, command::RELAY, &body);
        counters.bodies += 1;
    }
    orders.add(edge, counters.dial_orders, dial, cut);
    if dial.is_some() {
        counters.dial_orders += 1;
    }
    close
}
