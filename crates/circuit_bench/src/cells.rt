//! The cells that the circuits are given, and what comes of them.

ghost use Rattle.std.specs.Prelude.{◌≤◌, length};

pub use cell_codec::command::{RELAY, RELAY_EARLY};
use kdf_tor::LayerKeys;
use relay_cell::{Opened, write_body};
use tr_io::names::Dest;

pub const KEYS: LayerKeys = LayerKeys {
    df: [0; 20],
    db: [0; 20],
    kf: [0; 16],
    kb: [0; 16],
};

pub const ECHO: Dest = Dest {
    ip: [127, 0, 0, 1],
    port: 7,
};

/// How many cells went by, and 20 bytes of what came of the last one.
#[derive(Clone, Copy)]
pub struct Report {
    pub cells: u64,
    pub last_bytes: [u8; 20],
}

/// A cell that was recognised.
pub fn recognised(command: u8, stream: u16, payload: &[u8]) -> Opened
    requires { length payload.now ≤ 498 }
{
    Opened {
        body: write_body(command, stream, payload),
        recognised: Some([0; 20]),
    }
}

/// The 20 bytes behind a body's head.
pub fn first_of(body: &[u8; 509]) -> [u8; 20] {
    let mut first = [0; 20];
    first.copy_from_slice(&body[11..31]);
    first
}
