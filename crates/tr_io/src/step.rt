//! The steps of a switch's history: each call that was made, with its arguments and its answer.
//!
//! A step is never made at run time. It keeps of an argument or an answer what is determined: the
//! bytes of a list, for one, and not how many places were spare. A call that answered `Memory`
//! changed nothing and is no step.
use crate::answers::{BackAnswer, DialAnswer, EdgeAnswer, OpenAnswer, TakeAnswer, UpAnswer};
use crate::dials::{DialOutcome, DialStep};
use crate::names::{ChanNo, CircNo, ClaimNote, Dest, Side, StreamKey};
use cell_codec::Cell;
use kdf_tor::LayerKeys;

/// Some bytes.
#[derive(Drop)]
pub struct Octets {
    /// The bytes, in order.
    pub bytes: Vec<u8>,
}

/// What a history keeps of an `EdgeOrder`.
#[derive(Drop)]
pub enum OrderStep {
    /// Connect the stream to this destination.
    Reach(StreamKey, Dest),
    /// Write these bytes.
    Carry(StreamKey, Octets),
    /// Close the connection, for this reason.
    Close(StreamKey, u8),
}

/// What a history keeps of an `EdgeEvent`.
#[derive(Drop)]
pub enum EventStep {
    /// It is connected.
    Connected,
    /// It read these bytes.
    Data(Octets),
    /// It ended, for this reason.
    Ended(u8),
}

/// A step of a switch's history.
#[derive(Drop)]
pub enum Step {
    /// `channel_up`: the slot, the side that opened the connection.
    ChannelUp(u32, Side, UpAnswer),
    /// `channel_down`.
    ChannelDown(ChanNo, BackAnswer),
    /// `open_circuit`: the channel, the CircID, the opening's reply, where its handshake was good its
    /// keys, and the key of the padding, if there is one.
    OpenCircuit(ChanNo, u32, Cell, Option<LayerKeys>, Option<[u8; 16]>, OpenAnswer),
    /// `take`.
    Take(ChanNo, Cell, TakeAnswer),
    /// `claim`: the worker, and the note of the job that it was given.
    Claim(u32, Option<ClaimNote>),
    /// `give_back`: the note, and the first place at which the start state (0) or a body (from 1)
    /// differs from what the switch gave out.
    GiveBack(ClaimNote, Option<u32>, BackAnswer),
    /// `abandon`: the same.
    Abandon(ClaimNote, Option<u32>, BackAnswer),
    /// `next_cell`: the channel, the tick.
    NextCell(ChanNo, u64, Option<Cell>),
    /// `edge_in`.
    EdgeIn(StreamKey, EventStep, EdgeAnswer),
    /// `edge_out`: the slot.
    EdgeOut(u32, Option<OrderStep>),
    /// `drained`.
    Drained(StreamKey, EdgeAnswer),
    /// `dial_order`.
    DialOrder(Option<DialStep>),
    /// `dial_done`.
    DialDone(DialStep, DialOutcome, DialAnswer),
    /// `tear_down`: the circuit, the reason.
    TearDown(CircNo, u8, BackAnswer),
    /// `live`.
    Live(ChanNo, bool),
    /// `halt`: how many accepting slots there are.
    Halt(u32),
    /// `halted`.
    Halted(bool),
}
