//! Calls that are made again where memory was wanting. They must give the answers that they give with ample memory.
//!
//! Nothing refuses memory to a test that runs by itself. `.ci/check_memory` runs both tests once for each growth,
//! which is refused then: the first fails each time, and the second must not.

use crate::tests::bodies::refused_begin;
use crate::tests::client::Client;
use crate::tests::leaving::{destroy_leaves, end_leaves, nothing_leaves, replies_leave};
use crate::tests::opening::circ_id;
use crate::tests::switch::{CHANNEL, TestSwitch};
use cell_codec::destroy_reason;
use hop_crypto::Done;
use std::alloc::{AllocError, Global};
use std::process::Abort;
use tr_io::answers::{BackAnswer, OpenAnswer, OpenRefusal, TakeAnswer, UpAnswer};
use tr_io::names::CircNo;

/// Whether a call for which memory was wanting is made again.
#[derive(Clone, Copy, PartialEq)]
enum Patience {
    Once,
    Twice,
}

/// Makes the calls of a switch.
#[derive(Drop)]
struct Caller {
    switch: TestSwitch,
    patience: Patience,
}

impl Caller {
    fn new(alloc: Global, patience: Patience) -> Result<Caller, AllocError> {
        let switch = match (TestSwitch::new(alloc), patience) {
            (Err(_), Patience::Twice) => TestSwitch::new(alloc)?,
            (made, _) => made?,
        };
        Ok(Caller { switch, patience })
    }

    fn channel_up(&mut self, rt: &impl Abort) -> UpAnswer {
        match (self.switch.channel_up(rt), self.patience) {
            (UpAnswer::Memory, Patience::Twice) => self.switch.channel_up(rt),
            (answer, _) => answer,
        }
    }

    fn open(&mut self, rt: &impl Abort, id: u32) -> OpenAnswer {
        match (self.switch.open(rt, id), self.patience) {
            (OpenAnswer::Memory, Patience::Twice) => self.switch.open(rt, id),
            (answer, _) => answer,
        }
    }

    fn take(&mut self, rt: &impl Abort, id: u32, body: &[u8; 509]) -> TakeAnswer {
        match (self.switch.take(rt, id, body), self.patience) {
            (TakeAnswer::Memory, Patience::Twice) => self.switch.take(rt, id, body),
            (answer, _) => answer,
        }
    }

    fn claim(&mut self, rt: &impl Abort) -> Result<Option<Done>, AllocError> {
        match (self.switch.claim(rt, 0), self.patience) {
            (Err(_), Patience::Twice) => self.switch.claim(rt, 0),
            (done, _) => done,
        }
    }

    /// Two circuits are opened, and a third opening is refused, for which a DESTROY waits then.
    fn open_all(&mut self, rt: &impl Abort) {
        assert_eq!(rt; self.channel_up(rt), UpAnswer::Up(CHANNEL));
        let first = self.open(rt, circ_id(0));
        assert_eq!(rt; first, OpenAnswer::Opened(CircNo(0)));
        let second = self.open(rt, circ_id(1));
        assert_eq!(rt; second, OpenAnswer::Opened(CircNo(1)));
        let refused = self.open(rt, 1);
        assert_eq!(rt; refused, OpenAnswer::Refused(OpenRefusal::BadId));
    }

    /// The client sends a BEGIN of this stream for a name that isn't allowed.
    fn begin(&mut self, rt: &impl Abort, client: &mut Client, stream: u16) {
        let body = client.seal(rt, &refused_begin(stream));
        assert_eq!(rt; self.take(rt, client.id(), &body), TakeAnswer::Queued);
    }

    /// The claim with this number has so many bodies, and comes home.
    fn come_home(&mut self, rt: &impl Abort, number: u64, count: u32) {
        let done = self.claim(rt).expect(rt, "memory").expect(rt, "a job");
        assert_eq!(rt; (done.note().claim, done.note().count), (number, count));
        assert_eq!(rt; self.switch.give_back(rt, done), BackAnswer::Settled);
    }
}

/// The calls, and what comes of them.
fn play(rt: &(impl Abort + Alloc<A = Global>), patience: Patience) {
    let mut caller = Caller::new(rt.alloc(), patience).expect(rt, "memory");
    caller.open_all(rt);
    let mut first = Client::of(rt, 0);
    let mut second = Client::of(rt, 1);
    caller.begin(rt, &mut first, 1);
    caller.begin(rt, &mut first, 2);
    caller.begin(rt, &mut first, 3);
    caller.begin(rt, &mut second, 4);
    // Both directions of both circuits, the bodies that were numbered first before the others.
    caller.come_home(rt, 0, 3);
    caller.come_home(rt, 1, 1);
    caller.come_home(rt, 2, 3);
    caller.come_home(rt, 3, 1);
    let Caller { mut switch, .. } = caller;
    destroy_leaves(rt, &mut switch, 1, destroy_reason::PROTOCOL);
    replies_leave(rt, &mut switch);
    end_leaves(rt, &mut switch, &mut first, 1);
    end_leaves(rt, &mut switch, &mut second, 4);
    end_leaves(rt, &mut switch, &mut first, 2);
    end_leaves(rt, &mut switch, &mut first, 3);
    nothing_leaves(rt, &mut switch);
    // A call that answered that memory is wanting was no step.
    assert_eq!(rt; switch.steps(), 24);
}

#[test]
fn calls_that_are_made_once(rt: HostRuntime) {
    play(&rt, Patience::Once);
}

#[test]
fn calls_that_are_made_again_are_answered_alike(rt: HostRuntime) {
    play(&rt, Patience::Twice);
}
