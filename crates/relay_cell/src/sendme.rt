//! SENDME: a window may go on (proposal 289; tor-spec, "Flow control").

ghost use Rattle.std.specs.Prelude.{◌≡◌, [], IfSome, IfNone, Some, None};
ghost use Rattle.tor_spec.specs.RelayCell.{relay_body, sendme_command};
ghost use Rattle.tor_spec.specs.Sendme.{is_version_0, sendme_payload, sendme_proof};

use crate::body::write_body;
use crate::command;
use crate::payload::Payload;

/// Version 1, and a digest of 20 bytes.
const PREFIX: [u8; 3] = [1, 0, 20];

/// The digest by which a circuit's SENDME shows which cell it acknowledges, or `None` exactly
/// where the payload is not of version 1 with a digest of 20 bytes.
#[tactic(auto, unfolding(tor_spec::specs::Sendme::sendme_proof))]
pub fn read_proof(payload: &[u8]) -> Option<[u8; 20]>
    ensures some { IfSome result (λ proof. sendme_proof payload.now ≡ Some proof) }
    ensures none { IfNone result (sendme_proof payload.now ≡ None) }
{
    let rest = payload.strip_prefix(&PREFIX)?;
    let proof = rest.first_chunk::<20>()?;
    Some(*proof)
}

/// The body of a circuit's SENDME that acknowledges the cell with this digest.
#[tactic(auto, using(tor_spec::proofs::Payloads::sendme_payload_is_read), unfolding(tor_spec::specs::Sendme::sendme_payload))]
pub fn circuit_sendme_body(proof: &[u8; 20]) -> [u8; 509]
    ensures body { result ≡ relay_body sendme_command 0 (sendme_payload proof.now) }
    ensures read_back { sendme_proof (sendme_payload proof.now) ≡ Some proof.now }
{
    let mut payload = Payload::new();
    payload.put(&PREFIX);
    payload.put(proof);
    write_body(command::SENDME, 0, payload.as_slice())
}

/// The body of a stream's SENDME, whose payload is empty.
pub fn stream_sendme_body(stream: u16) -> [u8; 509]
    ensures { result ≡ relay_body sendme_command stream [] }
{
    write_body(command::SENDME, stream, &[])
}

/// Whether a circuit's SENDME with this payload is of version 0, which has no proof: it is empty, or
/// begins with the version.
pub fn is_version_0(payload: &[u8]) -> bool
    ensures { result ≡ is_version_0 payload.now }
{
    match payload {
        [version, ..] => *version == 0,
        [] => true,
    }
}
