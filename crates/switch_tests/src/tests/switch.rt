//! A switch under test.

use crate::tests::opening::{circ_id, opening_at};
use cell_codec::{Body, Cell, List, command};
use circ_relay::Rules;
use hop_crypto::{Done, work};
use std::alloc::{AllocError, Global};
use std::process::Abort;
use switch_core::Switch;
use tr_io::answers::{BackAnswer, ClaimAnswer, OpenAnswer, TakeAnswer, UpAnswer};
use tr_io::dials::{DialOrder, DialStep};
use tr_io::names::{ChanNo, CircNo, Side};

/// The only channel, which the peer opened.
pub const CHANNEL: ChanNo = ChanNo(0);

/// More steps than any test makes.
const MOST_STEPS: u64 = 10_000;

/// A switch with one channel. No clause says what its calls do, so that the proof of a test that makes many of
/// them has nothing to carry. A call past the last step that a test may make fails the test.
#[derive(Drop)]
pub struct TestSwitch {
    switch: Switch,
    alloc: Global,
}

impl TestSwitch {
    /// A switch without its channel, which allows no name.
    pub fn new(alloc: Global) -> Result<TestSwitch, AllocError> {
        let rules = Rules {
            allow: List::new(alloc),
            window: 1000,
            least: 1,
        };
        let switch = Switch::new(alloc, 0, rules)?;
        Ok(TestSwitch { switch, alloc })
    }

    /// A switch with its channel.
    pub fn with_channel(rt: &(impl Abort + Alloc<A = Global>)) -> TestSwitch {
        let mut switch = TestSwitch::new(rt.alloc()).expect(rt, "memory");
        assert_eq!(rt; switch.channel_up(rt), UpAnswer::Up(CHANNEL));
        switch
    }

    /// A switch with two circuits on its channel.
    pub fn with_two_circuits(rt: &(impl Abort + Alloc<A = Global>)) -> TestSwitch {
        let mut switch = TestSwitch::with_channel(rt);
        let first = switch.open(rt, circ_id(0));
        assert_eq!(rt; first, OpenAnswer::Opened(CircNo(0)));
        let second = switch.open(rt, circ_id(1));
        assert_eq!(rt; second, OpenAnswer::Opened(CircNo(1)));
        switch
    }

    /// Brings the channel up.
    pub fn channel_up(&mut self, rt: &impl Abort) -> UpAnswer {
        assert!(rt; self.switch.steps() < MOST_STEPS);
        self.switch.channel_up(0, Side::PeerOpened)
    }

    /// Opens a circuit at this CircID, by CREATE_FAST.
    pub fn open(&mut self, rt: &impl Abort, id: u32) -> OpenAnswer {
        assert!(rt; self.switch.steps() < MOST_STEPS);
        match opening_at(self.alloc, id) {
            Ok(opening) => self.switch.open_circuit(CHANNEL, id, &opening),
            Err(_) => OpenAnswer::Memory,
        }
    }

    /// Takes a RELAY cell with this body.
    pub fn take(&mut self, rt: &impl Abort, id: u32, body: &[u8; 509]) -> TakeAnswer {
        self.take_cell(rt, id, command::RELAY, body)
    }

    /// Takes a relay cell with this command and this body.
    pub fn take_cell(
        &mut self,
        rt: &impl Abort,
        id: u32,
        relay: u8,
        body: &[u8; 509],
    ) -> TakeAnswer {
        assert!(rt; self.switch.steps() < MOST_STEPS);
        assert!(rt; relay == command::RELAY || relay == command::RELAY_EARLY);
        let cell = Cell {
            circ: id,
            command: relay,
            body: Body::Fixed(*body),
        };
        self.switch.take(CHANNEL, &cell)
    }

    /// The job that a worker claims, worked, if there is one.
    pub fn claim(&mut self, rt: &impl Abort, worker: u32) -> Result<Option<Done>, AllocError> {
        assert!(rt; worker < 64);
        assert!(rt; self.switch.steps() < MOST_STEPS);
        match self.switch.claim(worker) {
            ClaimAnswer::Job(job) => Ok(Some(work(job))),
            ClaimAnswer::Nothing => Ok(None),
            ClaimAnswer::Memory => Err(AllocError),
        }
    }

    /// The job that a worker claims, worked. There is one.
    pub fn job(&mut self, rt: &impl Abort, worker: u32) -> Done {
        self.claim(rt, worker)
            .expect(rt, "memory")
            .expect(rt, "a job")
    }

    /// A worked job comes home.
    pub fn give_back(&mut self, rt: &impl Abort, done: Done) -> BackAnswer {
        assert!(rt; self.switch.steps() < MOST_STEPS);
        self.switch.give_back(done)
    }

    /// A job is claimed, worked and given back: how many bodies it had, and the answer. `None` where none is ready.
    pub fn round(&mut self, rt: &impl Abort) -> Option<(u32, BackAnswer)> {
        let done = self.claim(rt, 0).expect(rt, "memory")?;
        let count = done.note().count;
        Some((count, self.give_back(rt, done)))
    }

    /// The dial order that is handed out, if one waits.
    pub fn dial_order(&mut self, rt: &impl Abort) -> Option<DialStep> {
        assert!(rt; self.switch.steps() < MOST_STEPS);
        let DialOrder {
            order,
            circ,
            to,
            over,
        } = self.switch.dial_order()?;
        Some(DialStep {
            order,
            circ,
            to,
            over,
        })
    }

    /// Tears a circuit down for this reason.
    pub fn tear_down(&mut self, rt: &impl Abort, circ: CircNo, reason: u8) -> BackAnswer {
        assert!(rt; self.switch.steps() < MOST_STEPS);
        self.switch.tear_down(circ, reason)
    }

    /// The next cell that leaves on the channel.
    pub fn next_cell(&mut self, rt: &impl Abort) -> Option<Cell> {
        assert!(rt; self.switch.steps() < MOST_STEPS);
        self.switch.next_cell(CHANNEL, 0)
    }

    /// How many steps were made.
    pub fn steps(&self) -> u64 {
        self.switch.steps()
    }
}
