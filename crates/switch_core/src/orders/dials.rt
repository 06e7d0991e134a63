//! The dial order of a circuit that waits to be handed out.
ghost use Rattle.std.specs.Prelude.{◌≡◌, option_map};
ghost use Rattle.switch_machine.specs.Calls.DialOrder.{dial_out, waiting_of};
ghost use Rattle.switch_core.specs.Dialling.{open_of};

use crate::dialling::WaitingDial;
use crate::orders::Orders;
use tr_io::names::Dest;

impl Orders {
    /// The dial order of the circuit with this number, where it was never handed out.
    pub fn waiting_dial(&self, circ: usize) -> Option<WaitingDial>
        ensures { option_map open_of result ≡ waiting_of circ self.now.state.dial }
    {
        let Some(dial) = &self.dial else {
            return None;
        };
        if dial.handed_out {
            return None;
        }
        let ip = dial.to.ip;
        let port = dial.to.port;
        Some(WaitingDial {
            circ,
            order: dial.order,
            to: Dest { ip, port },
        })
    }

    /// The open dial order, if there is one, was handed out.
    pub fn hand_out_dial(&mut self)
        ensures state { self.new.state ≡ record self.old.state { dial = option_map dial_out self.old.state.dial } }
        ensures spare { self.new.spare ≡ self.old.spare }
        ensures rooms { self.new.rooms ≡ self.old.rooms }
    {
        if let Some(dial) = &mut self.dial {
            dial.handed_out = true;
        }
    }
}
