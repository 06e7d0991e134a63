//! What queues and lanes answer to a few calls.
ghost use Rattle.std.specs.Prelude.{◌≡◌};
ghost use Rattle.cell_codec.specs.Cells.{IsWellFormed};

use super::*;
use cell_codec::command::{DESTROY, RELAY};
use cell_codec::{Body, Cell};
use std::test::Fail;
use tr_io::names::{ChanNo, CircNo};

/// A RELAY cell that carries a number.
fn numbered(number: u32) -> Cell
    ensures { IsWellFormed result }
{
    Cell {
        circ: number,
        command: RELAY,
        body: Body::Fixed([0; 509]),
    }
}

/// The DESTROY that a cell is, if it is one.
fn destroy_of(cell: &Cell) -> Option<Destroy> {
    if cell.command != DESTROY {
        return None;
    }
    Some(Destroy {
        id: cell.circ,
        reason: *cell.body.payload().first()?,
    })
}

#[test]
fn the_oldest_leaves_first(rt: HostRuntime) -> Result<(), Fail> {
    let mut lanes = Lanes::new(rt.alloc());
    let (chan, circ) = (ChanNo(2), CircNo(5));
    lanes.push(circ, 0, numbered(1))?;
    lanes.reserve(circ, 0, 1)?;
    lanes.push_reserved(circ, 0, numbered(2));
    lanes.push(circ, 1, numbered(3))?;
    assert_eq!(rt; lanes.pop(circ, 0).map(|cell| cell.circ), Some(1));
    assert_eq!(rt; lanes.pop(circ, 0).map(|cell| cell.circ), Some(2));
    assert!(rt; lanes.pop(circ, 0).is_none());
    lanes.drop_leg(circ, 1);
    assert!(rt; lanes.pop(circ, 1).is_none());
    lanes.reserve_destroy(chan, 1)?;
    lanes.destroy(chan, 0x8000_0001, 11);
    lanes.undestroy(chan, 0x8000_0001);
    assert!(rt; lanes.pop_destroy(chan).is_none());
    lanes.reserve_destroy(chan, 1)?;
    lanes.destroy(chan, 0x8000_0002, 8);
    let cell = lanes.pop_destroy(chan).ok_or("a DESTROY")?;
    let destroy = Destroy {
        id: 0x8000_0002,
        reason: 8,
    };
    assert_eq!(rt; destroy_of(&cell), Some(destroy));
    lanes.drop_lane(chan);
    assert!(rt; lanes.pop_destroy(chan).is_none());
    Ok(())
}
