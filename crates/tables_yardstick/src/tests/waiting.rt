//! `Lanes` beside two lists.
ghost use Rattle.std.specs.Prelude.{◌≡◌};
ghost use Rattle.cell_codec.specs.Cells.{IsWellFormed};

use crate::tests::drawing::below;
use crate::tests::plain_lanes::PlainLanes;
use cell_codec::command::{DESTROY, RELAY};
use cell_codec::{Body, Cell};
use out_lanes::{Destroy, Lanes};
use rand_core::SeedableRng;
use rand_xoshiro::SplitMix64;
use std::alloc::AllocError;
use std::process::Abort;
use std::test::Fail;
use tr_io::names::{ChanNo, CircNo};

/// A RELAY cell that carries a number.
fn numbered(number: u32) -> Cell
    ensures { IsWellFormed result }
{
    Cell {
        circ: number,
        command: RELAY,
        body: Body::Fixed([0; 509]),
    }
}

/// The DESTROY that a cell is, if it is one.
fn destroy_of(cell: &Cell) -> Option<Destroy> {
    if cell.command != DESTROY {
        return None;
    }
    Some(Destroy {
        id: cell.circ,
        reason: *cell.body.payload().first()?,
    })
}

/// A call for a leg, of both.
fn call_for_leg(
    rt: &impl Abort,
    lanes: &mut Lanes,
    plain: &mut PlainLanes,
    words: &mut SplitMix64,
    number: u32,
) -> Result<(), AllocError> {
    let circ = below(words, 7);
    let leg = below(words, 3) as u32;
    match below(words, 16) {
        0 => {
            lanes.drop_leg(CircNo(circ), leg);
            plain.drop_leg(circ, leg);
        }
        1 => lanes.reserve(CircNo(circ), leg, number % 9)?,
        2..=5 => {
            lanes.reserve(CircNo(circ), leg, 1)?;
            lanes.push_reserved(CircNo(circ), leg, numbered(number));
            plain.push(circ, leg, number)?;
        }
        6..=9 => {
            lanes.push(CircNo(circ), leg, numbered(number))?;
            plain.push(circ, leg, number)?;
        }
        _ => {
            let popped_number = lanes.pop(CircNo(circ), leg).map(|cell| cell.circ);
            assert_eq!(rt; popped_number, plain.pop(circ, leg));
        }
    }
    Ok(())
}

/// A call for a channel, of both.
fn call_for_channel(
    rt: &impl Abort,
    lanes: &mut Lanes,
    plain: &mut PlainLanes,
    words: &mut SplitMix64,
    reason: u8,
) -> Result<(), AllocError> {
    let chan = below(words, 5);
    let id = below(words, 20) as u32;
    match below(words, 16) {
        0 => {
            lanes.drop_lane(ChanNo(chan));
            plain.drop_lane(chan);
        }
        1..=3 => {
            lanes.undestroy(ChanNo(chan), id);
            plain.undestroy(chan, id);
        }
        4..=9 => {
            lanes.reserve_destroy(ChanNo(chan), 1 + id % 3)?;
            lanes.destroy(ChanNo(chan), id, reason);
            plain.destroy(chan, Destroy { id, reason })?;
        }
        _ => {
            let popped_cell = lanes.pop_destroy(ChanNo(chan));
            let destroy = popped_cell.as_ref().and_then(|cell| destroy_of(cell));
            assert_eq!(rt; popped_cell.is_some(), destroy.is_some());
            assert_eq!(rt; destroy, plain.pop_destroy(chan));
        }
    }
    Ok(())
}

/// Five thousand calls for legs and as many for channels.
#[test]
fn ten_thousand_calls_agree_with_lists(rt: HostRuntime) -> Result<(), Fail> {
    let mut lanes = Lanes::new(rt.alloc());
    let mut plain = PlainLanes::new(rt.alloc());
    let mut words = SplitMix64::seed_from_u64(15);
    for number in 0..5_000u32 {
        call_for_leg(&rt, &mut lanes, &mut plain, &mut words, number)?;
        call_for_channel(&rt, &mut lanes, &mut plain, &mut words, (number % 12) as u8)?;
    }
    Ok(())
}
