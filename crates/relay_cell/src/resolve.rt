//! RESOLVE and RESOLVED: a name is looked up (tor-spec, "Remote hostname lookup").

ghost use Rattle.std.specs.Prelude.{◌≡◌, ◌<◌, ◌≤◌, IfSome, IfNone, Some, None, length};
ghost use Rattle.tor_spec.specs.Begin.{IsHost};
ghost use Rattle.tor_spec.specs.RelayCell.{relay_body, resolve_command, resolved_command};
ghost use Rattle.tor_spec.specs.Resolve.{answer_at, ip_at, resolve_host, resolve_payload, resolved_ip, resolved_payload};

use crate::body::write_body;
use crate::payload::Payload;
use crate::text::{is_host_length, read_text};
use crate::{command, resolved_type};

/// The name to be looked up, or `None` exactly where no zero byte ends it or it has not 1 to 255
/// bytes.
#[tactic(auto, unfolding(tor_spec::specs::Resolve::resolve_host))]
pub fn read_resolve(payload: &[u8]) -> Option<&[u8]>
    ensures some { IfSome result (λ host. resolve_host payload.now ≡ Some host.now) }
    ensures none { IfNone result (resolve_host payload.now ≡ None) }
{
    let host = read_text(payload)?;
    if is_host_length(host.len()) {
        Some(host)
    } else {
        None
    }
}

/// The body of a RESOLVE for this name.
#[tactic(auto, using(tor_spec::proofs::Hosts::resolve_payload_is_read), unfolding(tor_spec::specs::Resolve::resolve_payload))]
pub fn resolve_body(stream: u16, host: &[u8]) -> [u8; 509]
    requires { IsHost host.now }
    ensures body { result ≡ relay_body resolve_command stream (resolve_payload host.now) }
    ensures read_back { resolve_host (resolve_payload host.now) ≡ Some host.now }
{
    let mut payload = Payload::new();
    payload.put(host);
    payload.put(&[0]);
    write_body(command::RESOLVE, stream, payload.as_slice())
}

/// The body of a RESOLVED with one answer: its type, one of [`resolved_type`](crate::resolved_type),
/// its value, and the seconds for which it may be kept.
#[tactic(auto, unfolding(tor_spec::specs::Resolve::resolved_payload))]
pub fn resolved_body(stream: u16, kind: u8, value: &[u8], ttl: u32) -> [u8; 509]
    requires { length value.now ≤ 255 }
    ensures { result ≡ relay_body resolved_command stream (resolved_payload kind value.now ttl) }
{
    let mut payload = Payload::new();
    payload.put(&[kind, value.len() as u8]);
    payload.put(value);
    payload.put(&ttl.to_be_bytes());
    write_body(command::RESOLVED, stream, payload.as_slice())
}

/// What a RESOLVED tells of IPv4: the value of the first answer of that type, if there is one. `None`
/// exactly where the payload is not one answer or more up to its end, or an answer of that type has not 4
/// bytes. That answers of other types may have any length is a rule of this relay.
pub fn read_resolved(payload: &[u8]) -> Option<Option<[u8; 4]>>
    ensures { result ≡ resolved_ip payload.now }
{
    if payload.is_empty() {
        return None;
    }
    let mut ip = None;
    let mut rest = payload;
    while !rest.is_empty() {
        let (next_ip, tail) = read_answer(rest)?;
        ip = ip.or(next_ip);
        rest = tail;
    }
    Some(ip)
}

/// The IPv4 address in the answer at the front of the bytes, if it has one, and the bytes behind it.
#[tactic(auto, unfolding(tor_spec::specs::Resolve::answer_at, tor_spec::specs::Resolve::first_ip, tor_spec::specs::Resolve::ip_at, tor_spec::specs::Resolve::is_value_length))]
fn read_answer(bytes: &[u8]) -> Option<(Option<[u8; 4]>, &[u8])>
    ensures some { IfSome result (λ read. ip_at bytes.now ≡ Some (read.0, read.1.now)) }
    ensures shorter { IfSome result (λ read. length read.1.now < length bytes.now) }
    ensures none { IfNone result (answer_at bytes.now ≡ None) }
{
    let ([kind, size], rest) = bytes.split_first_chunk::<2>()?;
    let (value, rest) = rest.split_at_checked(usize::from(*size))?;
    let (_ttl, tail) = rest.split_first_chunk::<4>()?;
    if *kind != resolved_type::IPV4 {
        return Some((None, tail));
    }
    match value {
        [a, b, c, d] => Some((Some([*a, *b, *c, *d]), tail)),
        _ => None,
    }
}
