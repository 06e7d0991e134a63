//! Bodies of relay cells that the writers of relay_cell don't make.

use relay_cell::{command, write_body};

/// The commands of RELAY and RELAY_EARLY cells.
pub const RELAY: u8 = 3;

pub const RELAY_EARLY: u8 = 9;

/// Where the hop behind the relay is.
pub const NEXT_HOP: ([u8; 4], u16) = ([127, 0, 0, 1], 9001);

/// The first four bytes of a digest.
pub fn first_four(digest: &[u8; 20]) -> [u8; 4] {
    let [a, b, c, d, ..] = *digest;
    [a, b, c, d]
}

/// A body whose Length is this.
pub fn with_length(body: &[u8; 509], length: u16) -> [u8; 509] {
    let mut changed_body = *body;
    changed_body[9..11].copy_from_slice(&length.to_be_bytes());
    changed_body
}

/// EXTEND2 with an empty handshake and a link specifier of each type: 2, 3, 1, one without a meaning,
/// and at last 0, the IPv4 address.
pub fn extend_by_all_specifiers() -> [u8; 509] {
    let mut payload = [0; 94];
    payload[..3].copy_from_slice(&[5, 2, 20]);
    payload[23..25].copy_from_slice(&[3, 32]);
    payload[57..59].copy_from_slice(&[1, 18]);
    payload[77..79].copy_from_slice(&[9, 3]);
    payload[82..90].copy_from_slice(&[0, 6, 127, 0, 0, 1, 0x23, 0x29]);
    write_body(command::EXTEND2, 0, &payload)
}

/// EXTEND2 that names an IPv6 address alone.
pub fn extend_without_ipv4() -> [u8; 509] {
    let mut payload = [0; 25];
    payload[..3].copy_from_slice(&[1, 1, 18]);
    write_body(command::EXTEND2, 0, &payload)
}

/// A payload of CREATED2 whose HLEN is this, with these bytes behind it.
pub fn created2(length: u16, bytes: &[u8; 509]) -> [u8; 509] {
    let mut payload = *bytes;
    payload[..2].copy_from_slice(&length.to_be_bytes());
    payload
}
