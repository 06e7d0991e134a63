//! A note, the box that it lies in, and the steps on the box.
use tr_io::names::{ChanNo, StreamKey};

/// Which session a slot has.
#[derive(Clone, Copy, Debug, PartialEq, Eq)]
pub struct BerthNote {
    /// The number of the session.
    pub session: u64,
    /// Its channel, where it is a link.
    pub chan: Option<ChanNo>,
    /// Its stream, where it is an edge connection.
    pub key: Option<StreamKey>,
}

/// A box with room for one note.
#[derive(Drop)]
pub struct NoteBox {
    /// The note that lies in it.
    pub note: Option<BerthNote>,
}

/// A step on the box, with its answer.
#[derive(Drop)]
pub enum BoxStep {
    /// Put the note: whether it was put.
    Put(BerthNote, bool),
    /// Take a note: the one that was taken.
    Take(Option<BerthNote>),
}
