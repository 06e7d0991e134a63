//! Kind 0c, `dial_order`.
ghost use Rattle.std.specs.Prelude.{◌≡◌, ◌+◌, ◌++◌, length, Some, OnOk, OnErr, option_map};
ghost use Rattle.std.specs.Int.{w16, to_be_bytes};
ghost use Rattle.tr_io.specs.PortSteps.{dial_step_of};
ghost use Rattle.tape.specs.Fronts.{FrontIs, FrontMeetsCall, RestIsShorter};
ghost use Rattle.tape.specs.Kinds.DialOrder.{dial_order_front, dial_order_bytes, over_bytes};

use crate::kinds::claim::write_two;
use crate::record::{Front, Record};
use std::alloc::AllocError;
use tr_io::dials::{DialOrder, DialStep};
use tr_io::names::{ChanNo, Dest};

/// Reads the record, which has no fields.
pub fn read(fields: &[u8]) -> Front<'_>
    ensures front { FrontIs result (dial_order_front fields.now) }
    ensures meets { FrontMeetsCall result }
    ensures shorter { RestIsShorter result (length fields.now + 1) }
{
    Front::Whole(Record::DialOrder, fields)
}

/// Appends the answer: the order that is handed out, if there is one, which is taken apart.
pub fn write_dial_order(answer: Option<DialOrder>, out: &mut Vec<u8>) -> Result<(), AllocError>
    ensures ok { OnOk result (out.new.items ≡ out.old.items ++ dial_order_bytes (option_map dial_step_of answer)) }
    ensures err { OnErr result (out.new.items ≡ out.old.items) }
{
    match answer {
        Some(order) => write_order(&step_of(order), out),
        None => out.extend_from_slice(&[0x0c, 0]),
    }
}

/// What is told of an order, which is taken apart.
fn step_of(order: DialOrder) -> DialStep
    ensures { result ≡ dial_step_of order }
{
    let DialOrder {
        order: number,
        circ,
        to,
        over,
    } = order;
    DialStep {
        order: number,
        circ,
        to,
        over,
    }
}

/// Appends the answer that is an order. Where memory is wanting for its second half, the first goes as well.
fn write_order(step: &DialStep, out: &mut Vec<u8>) -> Result<(), AllocError>
    ensures ok { OnOk result (out.new.items ≡ out.old.items ++ dial_order_bytes (Some step.now)) }
    ensures err { OnErr result (out.new.items ≡ out.old.items) }
{
    let before = out.len();
    let number = step.order.to_be_bytes();
    write_two(&[0x0c, 1], &number, &step.circ.0.to_be_bytes(), out)?;
    let written = write_next_hop(&step.to, step.over, out);
    if written.is_err() {
        out.truncate(before);
    }
    written
}

/// Appends where an order leads to, and over which channel, if one is live.
fn write_next_hop(to: &Dest, over: Option<ChanNo>, out: &mut Vec<u8>) -> Result<(), AllocError>
    ensures ok { OnOk result (out.new.items ≡ out.old.items ++ (to.now.ip ++ (to_be_bytes w16 to.now.port ++ over_bytes over))) }
    ensures err { OnErr result (out.new.items ≡ out.old.items) }
{
    match over {
        Some(chan) => {
            out.reserve(15)?;
            out.extend_from_slice(&to.ip)?;
            out.extend_from_slice(&to.port.to_be_bytes())?;
            out.extend_from_slice(&[1])?;
            out.extend_from_slice(&chan.0.to_be_bytes())
        }
        None => write_two(&to.ip, &to.port.to_be_bytes(), &[0], out),
    }
}
