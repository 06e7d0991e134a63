//! BEGIN: a client wants a stream (tor-spec, "Opening streams and transferring data").

ghost use Rattle.std.specs.Prelude.{◌≡◌, ◌≤◌, IfSome, IfNone, Some, None};
ghost use Rattle.tor_spec.specs.Begin.{IsHost, begin_payload, begin_target};
ghost use Rattle.tor_spec.specs.RelayCell.{begin_command, relay_body};
ghost use Rattle.relay_cell.specs.Begin.{target_of};

use crate::body::write_body;
use crate::command;
use crate::decimal::read_port;
use crate::payload::Payload;
use crate::text::{is_host_length, read_text, split_at_last_colon};

/// Where a client wants to be connected to.
#[derive(Clone, Copy, PartialEq, Eq, Debug)]
pub struct Begin<'a> {
    /// A name or an address of 1 to 255 bytes other than zero, as the client wrote it.
    pub host: &'a [u8],
    /// A port other than 0.
    pub port: u16,
}

/// What a BEGIN asks for, or `None` exactly where it is not `host:port` ended by a zero byte, with
/// a host of 1 to 255 bytes and a port from 1 to 65,535 in one to five digits. That zeros may lead in the
/// port, and anything may follow the zero byte, are rules of this relay.
#[tactic(auto, using(tor_spec::proofs::ReadTargets::cut_host), unfolding(tor_spec::specs::Begin::begin_target, tor_spec::specs::Begin::target_of_text, tor_spec::specs::Begin::target_of_parts))]
pub fn read_begin(payload: &[u8]) -> Option<Begin<'_>>
    ensures some { IfSome result (λ begin. begin_target payload.now ≡ Some (target_of begin)) }
    ensures none { IfNone result (begin_target payload.now ≡ None) }
{
    let text = read_text(payload)?;
    let (host, port) = split_at_last_colon(text)?;
    let port = read_port(port)?;
    if is_host_length(host.len()) {
        Some(Begin { host, port })
    } else {
        None
    }
}

/// The body of a BEGIN for this host and port.
#[tactic(auto, using(tor_spec::proofs::Begins::begin_payload_is_read), unfolding(tor_spec::specs::Begin::begin_payload))]
pub fn begin_body(stream: u16, host: &[u8], port: u16) -> [u8; 509]
    requires host { IsHost host.now }
    requires port { 1 ≤ port }
    ensures body { result ≡ relay_body begin_command stream (begin_payload host.now port) }
    ensures read_back { begin_target (begin_payload host.now port) ≡ Some (record { host = host.now; port = port }) }
{
    let mut payload = Payload::new();
    payload.put(host);
    payload.put(b":");
    payload.put_decimal(port);
    payload.put(&[0]);
    write_body(command::BEGIN, stream, payload.as_slice())
}
