//! Dial orders that are handed out.
ghost use Rattle.std.specs.Prelude.{◌≡◌, ◌<◌, ◌^◌, [], IfSome, length, option_map};
ghost use Rattle.tr_io.specs.PortSteps.{dial_step_of};
ghost use Rattle.switch_model.specs.Names.{chan_no};
ghost use Rattle.switch_machine.specs.Machine.{counted};
ghost use Rattle.switch_machine.specs.State.{slot_at, with_slot};
ghost use Rattle.switch_machine.specs.Calls.DialOrder.{circuit_dialled, dial_order_result, dial_order_state, dialled_below, is_dialled_to, oldest_dial, order_step};
ghost use Rattle.switch_core.specs.Dialling.{open_of};

use crate::dialling::{WaitingDial, hand_out_of, older, slot_dial};
use crate::parts::Parts;
use tr_io::dials::DialOrder;
use tr_io::names::{ChanNo, CircNo, Dest};

impl Parts {
    /// The oldest dial order that waits is handed out, if one does, which is a step.
    pub fn dial_order(&mut self) -> Option<DialOrder>
        requires steps { self.old.steps < 2 ^ 62 }
        requires number { IfSome (oldest_dial self.old) (λ given. given.dial.order < 2 ^ 64) }
        ensures state { self.new ≡ dial_order_state self.old }
        ensures answer { option_map dial_step_of result ≡ dial_order_result self.old }
        ensures none_again { self.old.again ≡ [] }
    {
        match self.oldest_dial() {
            Some(dial) => {
                let circ = dial.circ;
                let order = self.order_of(dial);
                self.hand_out(circ);
                Some(order)
            }
            None => {
                self.give_nothing();
                None
            }
        }
    }

    /// The dial order with the least number of those that wait.
    fn oldest_dial(&self) -> Option<WaitingDial>
        ensures oldest { option_map open_of result ≡ oldest_dial self.now }
        ensures inside { IfSome result (λ dial. dial.circ < length self.now.circuits) }
        ensures none_again { self.now.again ≡ [] }
    {
        let mut best = None;
        for number in 0..self.circuits.len() {
            let next = slot_dial(&self.circuits[number], number);
            best = older(best, next);
        }
        best
    }

    /// An order as it is handed out, with the first channel that leads to its destination.
    fn order_of(&self, dial: WaitingDial) -> DialOrder
        requires { dial.order < 2 ^ 64 }
        ensures { dial_step_of result ≡ order_step self.now (open_of dial) }
    {
        let WaitingDial { circ, order, to } = dial;
        let over = self.channel_to(&to);
        DialOrder {
            order: order as u64,
            circ: CircNo(circ as u64),
            to,
            over,
        }
    }

    /// The first live channel that this side dialled to a destination.
    fn channel_to(&self, to: &Dest) -> Option<ChanNo>
        ensures { result ≡ option_map chan_no (dialled_below self.now.channels to.now (length self.now.channels)) }
    {
        for number in 0..self.channels.len() {
            let chan = ChanNo(number as u64);
            if self.leads_to(chan, to) {
                return Some(chan);
            }
        }
        None
    }

    /// Whether this channel is live, and this side dialled it to a destination.
    fn leads_to(&self, chan: ChanNo, to: &Dest) -> bool
        ensures { result ≡ is_dialled_to to.now (slot_at self.now.channels chan.0) }
    {
        match self.channel(chan) {
            Some(channel) => channel.leads_to(to),
            None => false,
        }
    }

    /// The open dial order of a circuit was handed out, which is a step.
    fn hand_out(&mut self, circ: usize)
        requires steps { self.old.steps < 2 ^ 62 }
        requires inside { circ < length self.old.circuits }
        ensures { self.new
            ≡ record (counted self.old) {
              circuits =
                  with_slot self.old.circuits circ (option_map circuit_dialled (slot_at self.old.circuits circ));
            } }
    {
        let slot = &mut self.circuits[circ];
        hand_out_of(slot);
        self.counters.steps += 1;
    }
}
