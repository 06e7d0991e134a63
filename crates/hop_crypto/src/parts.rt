// What a job and a done job are made of.

use crate::cipher::Cipher;
use cell_codec::List;
use relay_cell::Opened;
use tr_io::names::ClaimNote;

/// What a job is made of.
#[derive(Drop)]
pub struct JobParts {
    /// Which claim it is.
    pub note: ClaimNote,
    /// The direction's cipher, as it is before the first body.
    pub cipher: Cipher,
    /// The bodies that wait, in order.
    pub bodies: List<[u8; 509]>,
}

/// What a done job is made of.
#[derive(Drop)]
pub struct DoneParts {
    /// Which claim it is.
    pub note: ClaimNote,
    /// The direction's cipher before the first body.
    pub start: Cipher,
    /// The bodies that went in.
    pub input: List<[u8; 509]>,
    /// The cipher behind the last body.
    pub end: Cipher,
    /// What came out of each body. Back, nothing is recognised.
    pub output: List<Opened>,
}
