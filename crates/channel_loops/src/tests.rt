//! A link's writer over a port that plays what leaves on a channel, into a slot in memory.
mod play_pass;
mod play_port;

use crate::tests::play_pass::{Find, PlayPass};
use crate::tests::play_port::{PlayPort, relay_cell};
use crate::write_session;
use cell_codec::write_cell;
use std::alloc::{AllocError, Global};
use std::cell::Cell;
use std::test::Fail;
use tr_io::answers::BackAnswer;
use tr_io::clock::StandingClock;
use tr_io::loop_end::LoopEnd;
use tr_io::memory_slot_out::MemorySlotOut;
use tr_io::names::ChanNo;
use tr_io::sink::WriteAnswer;
use tr_io::slot_out::SlotOut;
use tr_io::step::Step;

const CHAN: ChanNo = ChanNo(3);

const SESSION: u64 = 8;

/// What a writer is run on.
#[derive(Clone, Copy)]
struct Play<'a> {
    finds: &'a [Find],
    has_end: bool,
    steps_left: u32,
    failing_writes: &'a [u64],
}

/// What came of it.
#[derive(Drop)]
struct WriterOutcome {
    end: LoopEnd,
    steps: Vec<Step>,
    bytes: Vec<u8>,
    waits: u32,
}

/// Runs a writer, whose slot takes 300 bytes a write.
fn run_writer(alloc: Global, play: &Play) -> Result<WriterOutcome, AllocError> {
    let port = PlayPort {
        waits: Cell::new(0),
    };
    let mut pass = PlayPass {
        finds: play.finds.to_vec(alloc)?,
        has_end: play.has_end,
        steps: Vec::new(alloc),
        steps_left: play.steps_left,
    };
    let mut link = MemorySlotOut::new(alloc, 0, 300, play.failing_writes.to_vec(alloc)?);
    let clock = StandingClock { tick: 17 };
    let end = write_session(alloc, &mut link, SESSION, CHAN, &port, &mut pass, &clock);
    let mut bytes = Vec::new(alloc);
    for piece in link.pieces() {
        if piece.session == SESSION {
            bytes.extend_from_slice(piece.bytes.as_slice())?;
        }
    }
    let PlayPass { steps, .. } = pass;
    Ok(WriterOutcome {
        end,
        steps,
        bytes,
        waits: port.waits.get(),
    })
}

/// The bytes of two cells on a link.
fn two_cells(alloc: Global) -> Result<Vec<u8>, AllocError> {
    let mut bytes = Vec::new(alloc);
    write_cell(&relay_cell([1; 509]), &mut bytes)?;
    write_cell(&relay_cell([2; 509]), &mut bytes)?;
    Ok(bytes)
}

#[test]
fn a_writer_writes_each_cell_and_waits_where_none_leaves(rt: HostRuntime) -> Result<(), Fail> {
    let finds = [Find::Body(2), Find::Nothing, Find::Body(1)];
    let outcome = run_writer(
        rt.alloc(),
        &Play {
            finds: &finds,
            has_end: false,
            steps_left: 100,
            failing_writes: &[],
        },
    )?;
    assert_eq!(rt; outcome.end, LoopEnd::Halted);
    assert_eq!(rt; outcome.bytes.as_slice(), two_cells(rt.alloc())?.as_slice());
    assert_eq!(rt; outcome.waits, 1);
    assert!(rt;
        matches!(
            outcome.steps.as_slice(),
            [
                Step::Halted(false),
                Step::NextCell(CHAN, 17, Some(_)),
                Step::Halted(false),
                Step::NextCell(CHAN, 17, None),
                Step::Live(CHAN, true),
                Step::Halted(false),
                Step::NextCell(CHAN, 17, Some(_)),
                Step::Halted(true),
            ]
        )
    );
    Ok(())
}

#[test]
fn a_fault_in_the_second_cell_cuts_it_and_brings_the_channel_down(
    rt: HostRuntime,
) -> Result<(), Fail> {
    let finds = [Find::Body(3), Find::Body(2), Find::Body(1)];
    let outcome = run_writer(
        rt.alloc(),
        &Play {
            finds: &finds,
            has_end: false,
            steps_left: 100,
            failing_writes: &[3],
        },
    )?;
    assert_eq!(rt; outcome.end, LoopEnd::WriteFault);
    let bytes = two_cells(rt.alloc())?;
    assert_eq!(rt; Some(outcome.bytes.as_slice()), bytes.get(..814));
    assert!(rt;
        matches!(
            outcome.steps.as_slice(),
            [
                Step::Halted(false),
                Step::NextCell(CHAN, 17, Some(_)),
                Step::Halted(false),
                Step::NextCell(CHAN, 17, Some(_)),
                Step::ChannelDown(CHAN, BackAnswer::Settled),
            ]
        )
    );
    Ok(())
}

#[test]
fn a_writer_ends_with_its_channel_or_where_no_step_is_left(rt: HostRuntime) -> Result<(), Fail> {
    for (steps_left, failing_write, end, steps) in [
        (100, 9, LoopEnd::Ended, 5),
        (0, 9, LoopEnd::Spent, 0),
        (1, 9, LoopEnd::Spent, 1),
        (2, 0, LoopEnd::Spent, 2),
        (4, 9, LoopEnd::Spent, 4),
    ] {
        let outcome = run_writer(
            rt.alloc(),
            &Play {
                finds: &[Find::Body(1)],
                has_end: true,
                steps_left,
                failing_writes: &[failing_write],
            },
        )?;
        assert_eq!(rt; outcome.end, end);
        assert_eq!(rt; outcome.steps.len(), steps);
        assert_eq!(rt; outcome.waits, 0);
    }
    Ok(())
}

/// A slot that keeps which session was ended, and whether one was written to behind that.
#[derive(Drop)]
struct EndedSlot {
    session: Option<u64>,
    is_late: bool,
}

impl SlotOut for EndedSlot {
    ghost use Rattle.std.specs.Prelude.{None};

    ghost slot = { λ _. 0 };

    ghost written = { λ _. None };

    ghost faults = { λ _. 0 };

    fn write(&mut self, _session: u64, piece: &[u8]) -> WriteAnswer {
        self.is_late |= self.session.is_some();
        WriteAnswer::Took(piece.len())
    }

    fn end(&mut self, session: u64) {
        self.session = Some(session);
    }
}

#[test]
fn a_writer_ends_its_session_last(rt: HostRuntime) -> Result<(), Fail> {
    let port = PlayPort {
        waits: Cell::new(0),
    };
    for has_end in [false, true] {
        let mut pass = PlayPass {
            finds: [Find::Body(1)].to_vec(rt.alloc())?,
            has_end,
            steps: Vec::new(rt.alloc()),
            steps_left: 100,
        };
        let mut link = EndedSlot {
            session: None,
            is_late: false,
        };
        let clock = StandingClock { tick: 0 };
        let _end = write_session(
            rt.alloc(),
            &mut link,
            SESSION,
            CHAN,
            &port,
            &mut pass,
            &clock,
        );
        assert_eq!(rt; link.session, Some(SESSION));
        assert!(rt; !link.is_late);
    }
    Ok(())
}
