//! A port that plays a list of claims, and counts the waits. All other calls are Spent.
ghost use Rattle.std.specs.Prelude.{◌≡◌, ⊤, Some, None, []};

use crate::tests::play_pass::{Find, PlayPass};
use cell_codec::{Cell as LinkCell, List};
use hop_crypto::{Cipher, Done, Job, Sealer};
use kdf_tor::LayerKeys;
use std::alloc::Global;
use std::cell::Cell;
use tr_io::answers::{
    BackAnswer, ClaimAnswer, DialAnswer, EdgeAnswer, OpenAnswer, TakeAnswer, UpAnswer,
};
use tr_io::core_port::CorePort;
use tr_io::dials::{DialOrder, DialOutcome};
use tr_io::edges::{EdgeEvent, EdgeOrder};
use tr_io::names::{ChanNo, CircNo, ClaimNote, Dir, Side, StreamKey};
use tr_io::port_parts::PortOpening;
use tr_io::step::Step;
use tr_io::stepping::Turn;

pub(super) const KEYS: LayerKeys = LayerKeys {
    df: [1; 20],
    db: [2; 20],
    kf: [3; 16],
    kb: [4; 16],
};

/// No opening.
#[derive(Drop)]
pub(super) struct NoOpening {
    reply: LinkCell,
}

impl PortOpening for NoOpening {
    ghost reply = { λ o. o.reply };

    ghost keys = { λ _. None };

    ghost pad = { λ _. None };
}

#[derive(Drop)]
pub(super) struct PlayPort {
    pub(super) alloc: Global,
    pub(super) waits: Cell<u32>,
}

/// The job of a claim, of one body that goes back; none where memory is wanting.
fn job_of(alloc: Global, claim: u8, worker: u32) -> Option<Job> {
    let note = ClaimNote {
        switch: 9,
        claim: u64::from(claim),
        worker,
        circ: CircNo(3),
        dir: Dir::Back,
        first: u64::from(claim),
        count: 1,
    };
    let mut bodies = List::new(alloc);
    bodies.push([claim; 509]).ok()?;
    Job::of(alloc, note, Cipher::Back(Sealer::of(&KEYS)), bodies).ok()
}

impl CorePort for PlayPort {
    type Pass = PlayPass;

    type Job = Job;

    type Done = Done;

    type Opening = NoOpening;

    ghost is_own = { λ _ _. ⊤ };

    ghost mine = { λ pass. pass.steps.items };

    ghost gave = { λ _ _. ⊤ };

    ghost is_spent = { λ _. ⊤ };

    fn channel_up(&self, _pass: &mut PlayPass, _slot: u32, _side: Side) -> Turn<UpAnswer> {
        Turn::Spent
    }

    fn channel_down(&self, _pass: &mut PlayPass, _chan: ChanNo) -> Turn<BackAnswer> {
        Turn::Spent
    }

    fn open_circuit(
        &self,
        _pass: &mut PlayPass,
        _chan: ChanNo,
        _id: u32,
        _opening: &NoOpening,
    ) -> Turn<OpenAnswer> {
        Turn::Spent
    }

    fn take(&self, _pass: &mut PlayPass, _chan: ChanNo, _cell: &LinkCell) -> Turn<TakeAnswer> {
        Turn::Spent
    }

    fn claim(&self, pass: &mut PlayPass, worker: u32) -> Turn<ClaimAnswer<Job>> {
        match pass.finds.pop() {
            Some(Find::Body(claim)) => match job_of(self.alloc, claim, worker) {
                Some(job) => {
                    if pass.keep(Step::Claim(worker, Some(job.note()))) {
                        Turn::Did(ClaimAnswer::Job(job))
                    } else {
                        job.apart();
                        Turn::Spent
                    }
                }
                None => Turn::Did(ClaimAnswer::Memory),
            },
            Some(Find::NoMemory) => Turn::Did(ClaimAnswer::Memory),
            _ => {
                if pass.keep(Step::Claim(worker, None)) {
                    Turn::Did(ClaimAnswer::Nothing)
                } else {
                    Turn::Spent
                }
            }
        }
    }

    fn give_back(&self, pass: &mut PlayPass, done: Done) -> Turn<BackAnswer> {
        let note = done.note();
        let parts = done.apart();
        if pass.keep(Step::GiveBack(note, None, BackAnswer::Settled)) {
            let _push = pass.returns.push(parts);
            Turn::Did(BackAnswer::Settled)
        } else {
            Turn::Spent
        }
    }

    fn abandon(&self, _pass: &mut PlayPass, job: Job) -> Turn<BackAnswer> {
        job.apart();
        Turn::Spent
    }

    fn next_cell(&self, _pass: &mut PlayPass, _chan: ChanNo, _tick: u64) -> Turn<Option<LinkCell>> {
        Turn::Spent
    }

    fn edge_in(
        &self,
        _pass: &mut PlayPass,
        _key: StreamKey,
        _event: &EdgeEvent,
    ) -> Turn<EdgeAnswer> {
        Turn::Spent
    }

    fn edge_out(&self, _pass: &mut PlayPass, _slot: u32) -> Turn<Option<EdgeOrder>> {
        Turn::Spent
    }

    fn drained(&self, _pass: &mut PlayPass, _key: StreamKey) -> Turn<EdgeAnswer> {
        Turn::Spent
    }

    fn dial_order(&self, _pass: &mut PlayPass) -> Turn<Option<DialOrder>> {
        Turn::Spent
    }

    fn dial_done(
        &self,
        _pass: &mut PlayPass,
        order: DialOrder,
        _outcome: DialOutcome,
    ) -> Turn<DialAnswer> {
        let DialOrder {
            order: _,
            circ: _,
            to: _,
            over: _,
        } = order;
        Turn::Spent
    }

    fn tear_down(&self, _pass: &mut PlayPass, _circ: CircNo, _reason: u8) -> Turn<BackAnswer> {
        Turn::Spent
    }

    fn live(&self, _pass: &mut PlayPass, _chan: ChanNo) -> Turn<bool> {
        Turn::Spent
    }

    fn halt(&self, _pass: &mut PlayPass, _of: u32) -> Turn<()> {
        Turn::Spent
    }

    fn halted(&self, pass: &mut PlayPass) -> Turn<bool> {
        let is_halted = pass.finds.is_empty();
        if pass.keep(Step::Halted(is_halted)) {
            Turn::Did(is_halted)
        } else {
            Turn::Spent
        }
    }

    fn wait(&self, _pass: &PlayPass) {
        self.waits.set(self.waits.get().saturating_add(1));
    }
}
