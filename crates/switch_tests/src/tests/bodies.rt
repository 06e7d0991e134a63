//! Bodies that a client sends.

use relay_cell::{command, extend2_body, write_body};

/// A DROP.
pub fn drop_body() -> [u8; 509] {
    write_body(command::DROP, 0, &[])
}

/// A DROP whose Length is 499, which no relay cell has room for.
pub fn too_long() -> [u8; 509] {
    let mut body = drop_body();
    body[9..11].copy_from_slice(&[1, 0xf3]);
    body
}

/// A BEGIN of this stream for a name that isn't allowed.
pub fn refused_begin(stream: u16) -> [u8; 509] {
    write_body(command::BEGIN, stream, b"no.test:7\0")
}

/// A RESOLVE of this stream for such a name.
pub fn refused_resolve(stream: u16) -> [u8; 509] {
    write_body(command::RESOLVE, stream, b"no.test\0")
}

/// An EXTEND2 to this port of 127.0.0.1, with a CREATE_FAST handshake of zeros.
pub fn extend_to(port: u16) -> [u8; 509] {
    extend2_body(([127, 0, 0, 1], port), 0xff01, &[0; 20])
}
