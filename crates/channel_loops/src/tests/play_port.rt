//! A port that plays what leaves on a channel, and counts the waits. All other calls are Spent.
ghost use Rattle.std.specs.Prelude.{◌≡◌, ⊤, None};
ghost use Rattle.cell_codec.specs.declared.cell.Body.TheVariants.{Fixed};
ghost use Rattle.cell_codec.specs.Cells.{IsWellFormed};

use crate::tests::play_pass::{Find, PlayPass};
use cell_codec::{Body, Cell as LinkCell, command};
use std::cell::Cell;
use tr_io::answers::{
    BackAnswer, ClaimAnswer, DialAnswer, EdgeAnswer, OpenAnswer, TakeAnswer, UpAnswer,
};
use tr_io::core_port::CorePort;
use tr_io::dials::{DialOrder, DialOutcome};
use tr_io::edges::{EdgeEvent, EdgeOrder};
use tr_io::names::{ChanNo, CircNo, ClaimNote, Side, StreamKey};
use tr_io::port_parts::{PortDone, PortJob, PortOpening};
use tr_io::step::Step;
use tr_io::stepping::Turn;

/// No opening, and no job.
#[derive(Drop)]
pub(super) struct Nought {
    reply: LinkCell,
    note: ClaimNote,
}

impl PortOpening for Nought {
    ghost reply = { λ o. o.reply };

    ghost keys = { λ _. None };

    ghost pad = { λ _. None };
}

impl PortJob for Nought {
    ghost note = { λ o. o.note };
}

impl PortDone<Nought> for Nought {
    ghost note = { λ o. o.note };

    ghost is_of = { λ _ _. ⊤ };
}

#[derive(Drop)]
pub(super) struct PlayPort {
    pub(super) waits: Cell<u32>,
}

/// A RELAY cell on CircID 5.
pub(super) fn relay_cell(body: [u8; 509]) -> LinkCell
    ensures cell { result ≡ record { circ = 5; command = 3; body = Fixed body } }
    ensures well_formed { IsWellFormed result }
{
    LinkCell {
        circ: 5,
        command: command::RELAY,
        body: Body::Fixed(body),
    }
}

impl CorePort for PlayPort {
    type Pass = PlayPass;

    type Job = Nought;

    type Done = Nought;

    type Opening = Nought;

    ghost is_own = { λ _ _. ⊤ };

    ghost mine = { λ pass. pass.steps.items };

    ghost gave = { λ _ _. ⊤ };

    ghost is_spent = { λ _. ⊤ };

    fn channel_up(&self, _pass: &mut PlayPass, _slot: u32, _side: Side) -> Turn<UpAnswer> {
        Turn::Spent
    }

    fn channel_down(&self, pass: &mut PlayPass, chan: ChanNo) -> Turn<BackAnswer> {
        if pass.keep(Step::ChannelDown(chan, BackAnswer::Settled)) {
            Turn::Did(BackAnswer::Settled)
        } else {
            Turn::Spent
        }
    }

    fn open_circuit(
        &self,
        _pass: &mut PlayPass,
        _chan: ChanNo,
        _id: u32,
        _opening: &Nought,
    ) -> Turn<OpenAnswer> {
        Turn::Spent
    }

    fn take(&self, _pass: &mut PlayPass, _chan: ChanNo, _cell: &LinkCell) -> Turn<TakeAnswer> {
        Turn::Spent
    }

    fn claim(&self, _pass: &mut PlayPass, _worker: u32) -> Turn<ClaimAnswer<Nought>> {
        Turn::Spent
    }

    fn give_back(&self, _pass: &mut PlayPass, _done: Nought) -> Turn<BackAnswer> {
        Turn::Spent
    }

    fn abandon(&self, _pass: &mut PlayPass, _job: Nought) -> Turn<BackAnswer> {
        Turn::Spent
    }

    fn next_cell(&self, pass: &mut PlayPass, chan: ChanNo, tick: u64) -> Turn<Option<LinkCell>> {
        if let Some(Find::Body(byte)) = pass.finds.pop() {
            let body = [byte; 509];
            if pass.keep(Step::NextCell(chan, tick, Some(relay_cell(body)))) {
                return Turn::Did(Some(relay_cell(body)));
            }
            return Turn::Spent;
        }
        if pass.keep(Step::NextCell(chan, tick, None)) {
            Turn::Did(None)
        } else {
            Turn::Spent
        }
    }

    fn edge_in(
        &self,
        _pass: &mut PlayPass,
        _key: StreamKey,
        _event: &EdgeEvent,
    ) -> Turn<EdgeAnswer> {
        Turn::Spent
    }

    fn edge_out(&self, _pass: &mut PlayPass, _slot: u32) -> Turn<Option<EdgeOrder>> {
        Turn::Spent
    }

    fn drained(&self, _pass: &mut PlayPass, _key: StreamKey) -> Turn<EdgeAnswer> {
        Turn::Spent
    }

    fn dial_order(&self, _pass: &mut PlayPass) -> Turn<Option<DialOrder>> {
        Turn::Spent
    }

    fn dial_done(
        &self,
        _pass: &mut PlayPass,
        order: DialOrder,
        _outcome: DialOutcome,
    ) -> Turn<DialAnswer> {
        let DialOrder {
            order: _,
            circ: _,
            to: _,
            over: _,
        } = order;
        Turn::Spent
    }

    fn tear_down(&self, _pass: &mut PlayPass, _circ: CircNo, _reason: u8) -> Turn<BackAnswer> {
        Turn::Spent
    }

    fn live(&self, pass: &mut PlayPass, chan: ChanNo) -> Turn<bool> {
        let is_live = !pass.finds.is_empty() || !pass.has_end;
        if pass.keep(Step::Live(chan, is_live)) {
            Turn::Did(is_live)
        } else {
            Turn::Spent
        }
    }

    fn halt(&self, _pass: &mut PlayPass, _of: u32) -> Turn<()> {
        Turn::Spent
    }

    fn halted(&self, pass: &mut PlayPass) -> Turn<bool> {
        let is_halted = pass.finds.is_empty() && !pass.has_end;
        if pass.keep(Step::Halted(is_halted)) {
            Turn::Did(is_halted)
        } else {
            Turn::Spent
        }
    }

    fn wait(&self, _pass: &PlayPass) {
        self.waits.set(self.waits.get().saturating_add(1));
    }
}
