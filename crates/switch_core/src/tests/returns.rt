//! Jobs that come home to a switch that didn't give them out, or whose circuit is gone.
ghost use Rattle.std.specs.Prelude.{◌≡◌};

use super::{new_switch, opening_at};
use cell_codec::List;
use hop_crypto::{Cipher, Job, Sealer};
use kdf_tor::LayerKeys;
use std::alloc::{AllocError, Global};
use std::test::Fail;
use tr_io::answers::{BackAnswer, Difference, OpenAnswer, UpAnswer};
use tr_io::names::{ChanNo, CircNo, ClaimNote, Dir, Side};

/// The note of a claim of one body back, of the first circuit.
fn note(switch: u64) -> ClaimNote
    ensures dir { result.dir ≡ Dir.Back }
    ensures count { result.count ≡ 1 }
{
    ClaimNote {
        switch,
        claim: 0,
        worker: 0,
        circ: CircNo(0),
        dir: Dir::Back,
        first: 0,
        count: 1,
    }
}

/// A job of that claim, with a cipher whose keys are zeros.
fn job(alloc: Global, switch: u64) -> Result<Job, AllocError> {
    let keys = LayerKeys {
        df: [0; 20],
        db: [0; 20],
        kf: [0; 16],
        kb: [0; 16],
    };
    let mut bodies = List::with_room(alloc, 1)?;
    bodies.push_reserved([0; 509]);
    let cipher = Cipher::Back(Sealer::of(&keys));
    match Job::of(alloc, note(switch), cipher, bodies) {
        Ok(job) => Ok(job),
        Err(_) => Err(AllocError),
    }
}

#[test]
fn an_abandoned_job_of_another_switch_is_a_strangers(rt: HostRuntime) -> Result<(), Fail> {
    let mut switch = new_switch(rt.alloc())?;
    let opening = opening_at(rt.alloc(), 0x8000_0001, 5)?;
    assert_eq!(rt;
        switch.channel_up(0, Side::PeerOpened),
        UpAnswer::Up(ChanNo(0))
    );
    let open_answer = switch.open_circuit(ChanNo(0), 0x8000_0001, &opening);
    assert_eq!(rt; open_answer, OpenAnswer::Opened(CircNo(0)));
    let answer = switch.abandon(job(rt.alloc(), 1)?);
    let why = Difference::Note {
        kept: None,
        given: note(1),
    };
    assert_eq!(rt; answer, BackAnswer::Stranger(why));
    assert_eq!(rt; switch.tear_down(CircNo(0), 8), BackAnswer::Down(8));
    Ok(())
}

#[test]
fn an_abandoned_job_finds_its_circuit_gone(rt: HostRuntime) -> Result<(), Fail> {
    let mut switch = new_switch(rt.alloc())?;
    let opening = opening_at(rt.alloc(), 0x8000_0001, 5)?;
    assert_eq!(rt;
        switch.channel_up(0, Side::PeerOpened),
        UpAnswer::Up(ChanNo(0))
    );
    let open_answer = switch.open_circuit(ChanNo(0), 0x8000_0001, &opening);
    assert_eq!(rt; open_answer, OpenAnswer::Opened(CircNo(0)));
    assert_eq!(rt; switch.tear_down(CircNo(0), 8), BackAnswer::Down(8));
    assert_eq!(rt; switch.abandon(job(rt.alloc(), 0)?), BackAnswer::Gone);
    assert_eq!(rt; switch.steps(), 4);
    Ok(())
}
