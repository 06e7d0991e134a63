//! Bodies as they are written (tor-spec, "Relay cells").

ghost use Rattle.std.specs.Prelude.{◌≡◌, ◌≤◌, ◌∷◌, ◌++◌, [], length, IsTrue};
ghost use Rattle.std.specs.Int.{w16, to_be_bytes};
ghost use Rattle.tor_spec.specs.RelayCell.{fits_length, relay_body, relay_head_bytes, with_digest, with_padding};

use crate::head::{HEAD_LEN, fields_of};

/// The zero bytes between a payload and its padding.
const GAP: usize = 4;

/// The body with this command, stream and payload: Recognized and Digest are 0, and so is the
/// padding.
#[tactic(auto, unfolding(tor_spec::specs::RelayCell::relay_body))]
pub fn write_body(command: u8, stream: u16, payload: &[u8]) -> [u8; 509]
    requires { length payload.now ≤ 498 }
    ensures { result ≡ relay_body command stream payload.now }
{
    let mut body = [0; 509];
    let end = 11 + payload.len();
    body[..11].copy_from_slice(&head_bytes(command, stream, payload.len() as u16));
    body[11..end].copy_from_slice(payload);
    body
}

#[tactic(auto, unfolding(tor_spec::specs::RelayCell::relay_head_bytes))]
fn head_bytes(command: u8, stream: u16, length: u16) -> [u8; 11]
    ensures { result ≡ relay_head_bytes command stream length }
{
    let [stream_high, stream_low] = stream.to_be_bytes();
    let [length_high, length_low] = length.to_be_bytes();
    [
        command,
        0,
        0,
        stream_high,
        stream_low,
        0,
        0,
        0,
        0,
        length_high,
        length_low,
    ]
}

/// Sets the Digest of a body, at offsets 5 to 8, and nothing else.
#[tactic(auto, unfolding(tor_spec::specs::RelayCell::with_digest))]
pub fn put_digest(body: &mut [u8; 509], first: [u8; 4])
    ensures { body.new ≡ with_digest body.old first }
{
    body[5..9].copy_from_slice(&first);
}

/// Puts the bytes of another body behind the payload and the four zero bytes that follow it: from
/// offset 15 + Length on each byte is that of `from` at its offset, and all others stay.
pub fn put_padding(body: &mut [u8; 509], from: &[u8; 509])
    requires { IsTrue (fits_length body.old) }
    ensures { body.new ≡ with_padding body.old from.now }
{
    let payload_end = HEAD_LEN + fields_of(body).length as usize;
    let start = (payload_end + GAP).min(body.len());
    body[start..].copy_from_slice(&from[start..]);
}
