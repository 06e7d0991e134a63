ghost use Rattle.std.specs.Prelude.{All};
ghost use Rattle.cell_codec.specs.Cells.{IsWellFormed};

mod random;

use crate::{
    Body, Bytes, Cell, DecodeFault, Decoder, List, Queue, command, destroy_reason, write_cell,
    write_versions,
};
use std::alloc::AllocError;
use std::test::Fail;

#[test]
fn cells_lie_on_a_link_as_the_standard_says(rt: HostRuntime) -> Result<(), Fail> {
    let mut out = Vec::new(rt.alloc());
    let mut body = [0; 509];
    body[0] = destroy_reason::REQUESTED;
    let destroy = Cell {
        circ: 0x8000_0001,
        command: command::DESTROY,
        body: Body::Fixed(body),
    };
    write_cell(&destroy, &mut out)?;
    assert_eq!(rt; out.len(), 514);
    assert_eq!(rt; &out[..7], [0x80, 0, 0, 1, 4, 3, 0].as_slice());

    out.clear();
    let padding = Cell {
        circ: 0,
        command: command::VPADDING,
        body: Body::Var(Bytes::of(rt.alloc(), &[9, 8, 7])?),
    };
    write_cell(&padding, &mut out)?;
    assert_eq!(rt; out.as_slice(), [0, 0, 0, 0, 128, 0, 3, 9, 8, 7].as_slice());

    out.clear();
    write_versions(&[3, 4, 5], &mut out)?;
    assert_eq!(rt;
        out.as_slice(),
        [0, 0, 7, 0, 6, 0, 3, 0, 4, 0, 5].as_slice()
    );
    Ok(())
}

#[test]
fn lists_keep_their_items_in_order(rt: HostRuntime) -> Result<(), Fail> {
    let mut bytes = Bytes::with_room(rt.alloc(), 2)?;
    bytes.push(1)?;
    bytes.extend(&[2, 3])?;
    assert_eq!(rt; bytes.as_slice(), [1, 2, 3].as_slice());
    assert_eq!(rt; bytes.pop(), Some(3));
    assert_eq!(rt; (bytes.len(), bytes.is_empty()), (2, false));
    bytes.reserve(1)?;
    bytes.push_reserved(4);
    assert_eq!(rt; bytes.as_slice(), [1, 2, 4].as_slice());
    assert!(rt; Bytes::new(rt.alloc()).is_empty());

    let mut list = List::with_room(rt.alloc(), 1)?;
    list.push(5u16)?;
    list.reserve(2)?;
    list.push_reserved(6);
    list.push_reserved(7);
    assert_eq!(rt; list.pop(), Some(7));
    assert_eq!(rt; list.as_slice(), [5, 6].as_slice());
    assert_eq!(rt; (list.len(), list.is_empty()), (2, false));
    assert!(rt; List::<u16>::new(rt.alloc()).is_empty());

    let mut queue = list.into_queue();
    queue.push(8)?;
    queue.reserve(1)?;
    queue.push_reserved(9);
    assert_eq!(rt; (queue.len(), queue.first().copied()), (4, Some(5)));
    for want in [5, 6, 8, 9] {
        assert_eq!(rt; queue.take_first(), Some(want));
    }
    assert!(rt; queue.is_empty());
    assert!(rt; Queue::<u16>::new(rt.alloc()).is_empty());
    Ok(())
}

fn write_cells(cells: &[Cell], out: &mut Vec<u8>) -> Result<(), AllocError>
    requires { All IsWellFormed cells.now }
{
    for cell in cells {
        write_cell(cell, out)?;
    }
    Ok(())
}

#[test]
fn a_cell_cut_anywhere_is_the_same_cell(rt: HostRuntime) -> Result<(), Fail> {
    let mut bytes = Vec::new(rt.alloc());
    let relay = Cell {
        circ: 0x0102_0304,
        command: command::RELAY,
        body: Body::Fixed([7; 509]),
    };
    write_cell(&relay, &mut bytes)?;
    assert_eq!(rt; bytes.len(), 514);
    for cut_place in 1..514 {
        let (front, back) = bytes.split_at(cut_place);
        let mut decoder = Decoder::cells_only(rt.alloc());
        assert!(rt; decoder.feed(front)?.is_empty());
        assert_eq!(rt; decoder.finish(), Err(DecodeFault::Short));
        let mut written_bytes = Vec::new(rt.alloc());
        write_cells(decoder.feed(back)?.as_slice(), &mut written_bytes)?;
        assert_eq!(rt; written_bytes.as_slice(), bytes.as_slice());
        assert_eq!(rt; decoder.finish(), Ok(()));
    }
    Ok(())
}

#[test]
fn a_link_begins_with_versions(rt: HostRuntime) -> Result<(), Fail> {
    let mut bytes = Vec::new(rt.alloc());
    write_versions(&[4], &mut bytes)?;
    let netinfo = Cell {
        circ: 0,
        command: command::NETINFO,
        body: Body::Fixed([0; 509]),
    };
    write_cell(&netinfo, &mut bytes)?;
    let mut decoder = Decoder::starting(rt.alloc());
    let cells = decoder.feed(bytes.as_slice())?;
    let commands = cells.as_slice();
    assert_eq!(rt; commands.len(), 2);
    assert_eq!(rt;
        (commands[0].command, commands[1].command),
        (command::VERSIONS, command::NETINFO)
    );
    Ok(())
}

#[test]
fn a_link_that_begins_with_another_cell_is_refused(rt: HostRuntime) -> Result<(), Fail> {
    for (start, fault) in [
        (
            [0, 0, 3],
            DecodeFault::BadFirst {
                circ: 0,
                command: command::RELAY,
            },
        ),
        (
            [1, 2, 7],
            DecodeFault::BadFirst {
                circ: 258,
                command: command::VERSIONS,
            },
        ),
    ] {
        let mut decoder = Decoder::starting(rt.alloc());
        assert!(rt; decoder.feed(&start[..1])?.is_empty());
        assert!(rt; decoder.feed(&start[1..2])?.is_empty());
        assert_eq!(rt; decoder.finish(), Err(DecodeFault::Short));
        for _ in 0..2 {
            match decoder.feed(&start[2..]) {
                Ok(_) => assert!(rt; false),
                Err(found_fault) => assert_eq!(rt; found_fault, fault),
            }
        }
        assert_eq!(rt; decoder.finish(), Ok(()));
    }
    Ok(())
}
