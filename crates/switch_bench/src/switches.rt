//! The switch that a round's cells go through, and what is done with it.

ghost use Rattle.std.specs.Prelude.{◌≡◌, ◌+◌, ◌*◌, ◌<◌, ◌≤◌, ◌^◌, IfOk, length};

use crate::cells::{Brought, CELLS, CIRC_ID};
use crate::clock::now;
use crate::section::{NOTHING, Section};
use cell_codec::command::CREATE_FAST;
use cell_codec::{Body, Cell, List};
use circ_relay::Rules;
use hop_crypto::work;
use hop_handshake::{FastHandshake, opening_of};
use std::alloc::{AllocError, Global};
use std::io;
use std::time::CpuClock;
use switch_core::Switch;
use tr_io::answers::{BackAnswer, ClaimAnswer, TakeAnswer};
use tr_io::names::{ChanNo, Side};

/// The channel on which the circuit lies.
const CHANNEL: ChanNo = ChanNo(0);

/// A switch whose streams may connect to nothing, with one channel.
fn with_channel(alloc: Global) -> Result<Switch, AllocError>
    ensures { IfOk result (λ s. s.state.steps ≤ 1) }
{
    let rules = Rules {
        allow: List::new(alloc),
        window: 1000,
        least: 1,
    };
    let mut switch = Switch::new(alloc, 0, rules)?;
    let _up = switch.channel_up(0, Side::PeerOpened);
    Ok(switch)
}

/// A switch with one circuit, whose client's half and this relay's are zeros. The reply has left.
fn with_circuit(alloc: Global) -> Result<Switch, AllocError>
    ensures { IfOk result (λ s. s.state.steps ≤ 3) }
{
    let mut switch = with_channel(alloc)?;
    let create = Cell {
        circ: CIRC_ID,
        command: CREATE_FAST,
        body: Body::Fixed([0; 509]),
    };
    let opening = opening_of(alloc, &create, &FastHandshake, &[0; 20], None)?;
    let _opened = switch.open_circuit(CHANNEL, CIRC_ID, &opening);
    let _reply = switch.next_cell(CHANNEL, 0);
    Ok(switch)
}

/// The same switch behind a round of these cells, so that its lists have room for the next round.
pub(crate) fn with_room(alloc: Global, cells: &[Brought]) -> Result<Switch, AllocError>
    requires { length cells.now ≤ 512 }
    ensures { IfOk result (λ s. s.state.steps < 2 ^ 20) }
{
    let mut switch = with_circuit(alloc)?;
    let _waiting = take_all(&mut switch, cells);
    all_home(&mut switch)?;
    let _left = leave(&mut switch, CELLS);
    Ok(switch)
}

/// Cells are taken: how many wait then.
pub(crate) fn take_all(switch: &mut Switch, cells: &[Brought]) -> u32
    requires steps { switch.old.state.steps < 2 ^ 30 }
    requires cells { length cells.now ≤ 512 }
    ensures { switch.new.state.steps ≤ switch.old.state.steps + 512 }
{
    let mut waiting_count = 0u32;
    for brought in cells {
        if switch.take(CHANNEL, &brought.cell) == TakeAnswer::Queued {
            waiting_count = waiting_count.saturating_add(1);
        }
    }
    waiting_count
}

/// A claim is worked and comes home: how many bodies it had.
fn come_home(switch: &mut Switch) -> Result<u32, AllocError>
    requires { switch.old.state.steps < 2 ^ 61 }
    ensures { switch.new.state.steps ≤ switch.old.state.steps + 2 }
{
    match switch.claim(0) {
        ClaimAnswer::Job(job) => {
            let done = work(job);
            let count = done.note().count;
            match switch.give_back(done) {
                BackAnswer::Settled => Ok(count),
                _ => Ok(0),
            }
        }
        ClaimAnswer::Nothing => Ok(0),
        ClaimAnswer::Memory => Err(AllocError),
    }
}

/// All that waits in either direction is worked and comes home: a claim for each body is more than enough.
fn all_home(switch: &mut Switch) -> Result<(), AllocError>
    requires { switch.old.state.steps < 2 ^ 30 }
    ensures { switch.new.state.steps ≤ switch.old.state.steps + 2048 }
{
    for _claim in 0..1024_u32 {
        let _count = come_home(switch)?;
    }
    Ok(())
}

/// So many cells leave; how many were there.
fn leave(switch: &mut Switch, most: u32) -> u32
    requires steps { switch.old.state.steps < 2 ^ 30 }
    requires most { most ≤ 512 }
    ensures { switch.new.state.steps ≤ switch.old.state.steps + most }
{
    let mut left_count = 0u32;
    for _cell in 0..most {
        if switch.next_cell(CHANNEL, 0).is_some() {
            left_count = left_count.saturating_add(1);
        }
    }
    left_count
}

/// Cells are taken, and each batch of them is worked and comes home: how many bodies came home.
pub(crate) fn forth(switch: &mut Switch, cells: &[Brought], batch: u32) -> Result<u32, AllocError>
    requires steps { switch.old.state.steps < 2 ^ 20 }
    requires cells { length cells.now ≤ 512 }
{
    let mut home = 0u32;
    let mut taken_count = 0u32;
    for brought in cells {
        let _answer = switch.take(CHANNEL, &brought.cell);
        taken_count = taken_count.saturating_add(1);
        if taken_count >= batch {
            home = home.saturating_add(come_home(switch)?);
            taken_count = 0;
        }
    }
    Ok(home)
}

/// Cells are taken, and each batch of them is worked and comes home. What the circuit packaged for them is worked,
/// comes home and leaves, and that alone is timed: with how many cells that left.
pub(crate) fn back(
    rt: &impl CpuClock,
    switch: &mut Switch,
    cells: &[Brought],
    batch: u32,
) -> io::Result<Section>
    requires steps { switch.old.state.steps < 2 ^ 20 }
    requires cells { length cells.now ≤ 512 }
    requires batch { batch ≤ 32 }
{
    let mut section = NOTHING;
    let mut taken_count = 0u32;
    for brought in cells {
        let _answer = switch.take(CHANNEL, &brought.cell);
        taken_count = taken_count.saturating_add(1);
        if taken_count >= batch {
            let _forth = come_home(switch)?;
            let start = now(rt)?;
            let _back = come_home(switch)?;
            let left_count = leave(switch, batch);
            let end = now(rt)?;
            section = section.with(Section::between(start, end, left_count));
            taken_count = 0;
        }
    }
    Ok(section)
}
