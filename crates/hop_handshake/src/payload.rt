//! The payloads of the cells that answer the opening of a circuit.
ghost use Rattle.std.specs.Prelude.{◌≡◌, ◌≤◌, length};
ghost use Rattle.tor_spec.specs.CellEncoding.{fixed_payload};
ghost use Rattle.hop_handshake.specs.Payloads.{created2_payload};

use byteorder::{BigEndian, ByteOrder};

/// These fields, then zeros up to the 509 bytes of a fixed payload.
pub fn fixed_payload(fields: &[u8]) -> [u8; 509]
    requires { length fields.now ≤ 509 }
    ensures { result ≡ fixed_payload fields.now }
{
    let mut payload = [0; 509];
    payload[..fields.len()].copy_from_slice(fields);
    payload
}

/// The payload of a CREATED2 with this HDATA.
#[tactic(auto, unfolding(tor_spec::specs::Extend::handshake_reply_payload))]
pub fn created2_payload(hdata: &[u8]) -> [u8; 509]
    requires { length hdata.now ≤ 507 }
    ensures { result ≡ created2_payload hdata.now }
{
    let mut payload = [0; 509];
    BigEndian::write_u16(&mut payload, hdata.len() as u16);
    payload[2..2 + hdata.len()].copy_from_slice(hdata);
    payload
}
