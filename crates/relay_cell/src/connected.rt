//! CONNECTED: the exit has opened a stream (tor-spec, "Opening streams and transferring data").

ghost use Rattle.std.specs.Prelude.{◌≡◌, IfSome, IfNone, Some, None};
ghost use Rattle.tor_spec.specs.Connected.{connected_address, connected_payload};
ghost use Rattle.tor_spec.specs.RelayCell.{connected_command, relay_body};

use crate::body::write_body;
use crate::command;
use crate::payload::Payload;

/// The IPv4 address that the exit connected to and the seconds for which the name may be kept, or
/// `None` exactly where the payload has fewer than 8 bytes.
#[tactic(auto, unfolding(tor_spec::specs::Connected::connected_address))]
pub fn read_connected(payload: &[u8]) -> Option<([u8; 4], u32)>
    ensures some { IfSome result (λ to. connected_address payload.now ≡ Some (record { ip = to.0; ttl = to.1 })) }
    ensures none { IfNone result (connected_address payload.now ≡ None) }
{
    let (ip, rest) = payload.split_first_chunk::<4>()?;
    let ttl = rest.first_chunk::<4>()?;
    Some((*ip, u32::from_be_bytes(*ttl)))
}

/// The body of a CONNECTED to this address, whose name may be kept for so many seconds.
#[tactic(auto, using(tor_spec::proofs::Payloads::connected_payload_is_read), unfolding(tor_spec::specs::Connected::connected_payload))]
pub fn connected_body(stream: u16, ip: [u8; 4], ttl: u32) -> [u8; 509]
    ensures body { result ≡ relay_body connected_command stream (connected_payload ip ttl) }
    ensures read_back { connected_address (connected_payload ip ttl) ≡ Some (record { ip = ip; ttl = ttl }) }
{
    let mut payload = Payload::new();
    payload.put(&ip);
    payload.put(&ttl.to_be_bytes());
    write_body(command::CONNECTED, stream, payload.as_slice())
}
