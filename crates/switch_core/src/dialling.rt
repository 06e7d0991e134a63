//! Dial orders that wait, and which of them is handed out first.
ghost use Rattle.std.specs.Prelude.{◌≡◌, option_map};
ghost use Rattle.switch_machine.specs.Calls.DialOrder.{circuit_dialled, older, waiting_of};
ghost use Rattle.switch_machine.specs.Machine.{dial_at};
ghost use Rattle.switch_core.specs.Dialling.{open_of};

use crate::circuit::Circuit;
use tr_io::names::Dest;

/// A dial order that was never handed out.
#[derive(Drop)]
pub struct WaitingDial {
    /// The number of its circuit.
    pub circ: usize,
    /// The order's number.
    pub order: u128,
    /// The next hop.
    pub to: Dest,
}

/// The older of two.
pub fn older(best: Option<WaitingDial>, next: Option<WaitingDial>) -> Option<WaitingDial>
    ensures { option_map open_of result ≡ older (option_map open_of best) (option_map open_of next) }
{
    let Some(next) = next else {
        return best;
    };
    let Some(best) = best else {
        return Some(next);
    };
    if next.order < best.order {
        Some(next)
    } else {
        Some(best)
    }
}

/// The dial order of the circuit with this number, where it was never handed out.
pub fn slot_dial(slot: &Option<Circuit>, number: usize) -> Option<WaitingDial>
    ensures { option_map open_of result ≡ waiting_of number (dial_at slot.now) }
{
    match slot {
        Some(circuit) => circuit.waiting_dial(number),
        None => None,
    }
}

/// The open dial order of the circuit was handed out.
pub fn hand_out_of(slot: &mut Option<Circuit>)
    ensures { slot.new ≡ option_map circuit_dialled slot.old }
{
    if let Some(circuit) = slot {
        circuit.hand_out_dial();
    }
}
