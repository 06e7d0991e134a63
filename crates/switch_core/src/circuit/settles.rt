//! Forward bodies that come home.
ghost use Rattle.std.specs.Prelude.{◌≡◌, ◌+◌, ◌<◌, ◌≤◌, ◌^◌, List, length};
ghost use Rattle.circ_relay.specs.Values.{rules_of};
ghost use Rattle.circuit_model.specs.Events.{Event};
ghost use Rattle.switch_machine.specs.Calls.Take.{kept_length};
ghost use Rattle.switch_core.specs.Settling.{AreOpened, CallsGrow, HasCallsFor, RelayFits, SettlesForth};

use crate::circuit::Circuit;
use crate::counters::Counters;
use crate::settling::apply;
use circ_relay::{Circuit as RelayCircuit, Rules};
use relay_cell::Opened;

impl Circuit {
    /// The bodies of the forward claim come home as these: they act on the circuit one after another, up to the
    /// first that closes it, whose reason is given. It takes no memory.
    pub fn settle_forth(
        &mut self,
        relay: &mut RelayCircuit,
        rules: &Rules,
        counters: &mut Counters,
        opened_bodies: &[Opened],
    ) -> Option<u8>
        requires count { length opened_bodies.now ≡ kept_length self.old.forth.claim_out }
        requires most { length opened_bodies.now ≤ 32 }
        requires calls { HasCallsFor 32 relay.old }
        requires bodies { counters.old.bodies < 2 ^ 99 }
        requires dials { counters.old.dial_orders < 2 ^ 99 }
        ensures settles { (events : List Event) → RelayFits relay.old (rules_of rules.now) events self.old
            → AreOpened opened_bodies.now (rules_of rules.now) events self.old →
            SettlesForth (rules_of rules.now) events self.old self.new counters.old counters.new relay.new result }
        ensures grown { CallsGrow (length opened_bodies.now) relay.old relay.new }
        ensures counts { counters.new ≡ record counters.old { bodies = counters.new.bodies; dial_orders = counters.new.dial_orders } }
        ensures bodies { counters.new.bodies ≤ counters.old.bodies + 32 }
        ensures dials { counters.new.dial_orders ≤ counters.old.dial_orders + 32 }
        ensures taken { self.new.forth.claimed_count + length self.new.forth.waiting_bodies ≤ self.old.forth.claimed_count
            + length self.old.forth.waiting_bodies }
    {
        for number in 0..opened_bodies.len() {
            let command = self.forth.command_out(number);
            let room = self.orders.take_room();
            let effects = relay.forward_reserved(rules, &opened_bodies[number], command, room);
            let queued = self.leg.len();
            let reason = apply(effects, queued, &mut self.back, &mut self.orders, counters);
            if reason.is_some() {
                self.forth.bring_home();
                return reason;
            }
        }
        self.forth.bring_home();
        None
    }
}
