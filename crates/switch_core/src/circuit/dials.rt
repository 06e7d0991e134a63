//! The dial order of a circuit.
ghost use Rattle.std.specs.Prelude.{◌≡◌, option_map};
ghost use Rattle.switch_machine.specs.Calls.DialOrder.{circuit_dialled, waiting_of};
ghost use Rattle.switch_core.specs.Dialling.{open_of};

use crate::circuit::Circuit;
use crate::dialling::WaitingDial;

impl Circuit {
    /// The dial order of the circuit, which has this number, where it was never handed out.
    pub fn waiting_dial(&self, number: usize) -> Option<WaitingDial>
        ensures { option_map open_of result ≡ waiting_of number self.now.dial }
    {
        self.orders.waiting_dial(number)
    }

    /// The circuit's open dial order was handed out.
    pub fn hand_out_dial(&mut self)
        ensures { self.new ≡ circuit_dialled self.old }
    {
        self.orders.hand_out_dial();
    }
}
