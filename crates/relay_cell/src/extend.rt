//! EXTEND2 and EXTENDED2: a circuit gets one more hop (tor-spec, "CREATE and CREATED cells",
//! "EXTEND and EXTENDED cells").

ghost use Rattle.std.specs.Prelude.{◌≡◌, ◌≤◌, ◌++◌, IfSome, IfNone, Some, None, length, drop, option_map};
ghost use Rattle.byteorder.specs.Endian.{big_bytes};
ghost use Rattle.tor_spec.specs.Extend.{create2_payload, destination, extend_payload, extend_request, handshake_reply, handshake_reply_payload, handshake_request};
ghost use Rattle.tor_spec.specs.RelayCell.{extend2_command, extended2_command, relay_body};
ghost use Rattle.relay_cell.specs.Extend.{address_of, extend_of};

use crate::body::write_body;
use crate::command;
use crate::payload::Payload;
use crate::specifier::Specifier;
use byteorder::{BigEndian, ByteOrder};

/// An IPv4 address and a port.
pub type Dest4 = ([u8; 4], u16);

/// What an EXTEND2 asks for.
#[derive(Clone, Copy, PartialEq, Eq, Debug)]
pub struct Extend2<'a> {
    /// The first IPv4 address among the link specifiers.
    pub to: Option<Dest4>,
    /// The type of the handshake, HTYPE.
    pub htype: u16,
    /// The client's half of the handshake, HDATA.
    pub hdata: &'a [u8],
}

/// What an EXTEND2 asks for, or `None` exactly where its link specifiers or its handshake are not
/// whole, or a specifier of a type that has a length of its own has another.
#[tactic(auto, unfolding(tor_spec::specs::Extend::extend_request, tor_spec::specs::Extend::request_behind))]
pub fn read_extend2(payload: &[u8]) -> Option<Extend2<'_>>
    ensures some { IfSome result (λ extend. extend_request payload.now ≡ Some (extend_of extend)) }
    ensures none { IfNone result (extend_request payload.now ≡ None) }
{
    let (count, rest) = payload.split_first()?;
    let (to, rest) = read_destination(*count, rest)?;
    let (htype, hdata) = read_handshake_request(rest)?;
    Some(Extend2 { to, htype, hdata })
}

/// The answer to a handshake in the payload of an EXTENDED2 or a CREATED2, or `None` exactly where
/// fewer bytes are there than its length says.
#[tactic(auto, unfolding(tor_spec::specs::Extend::handshake_reply))]
pub fn read_handshake_reply(payload: &[u8]) -> Option<&[u8]>
    ensures some { IfSome result (λ reply. handshake_reply payload.now ≡ Some reply.now) }
    ensures none { IfNone result (handshake_reply payload.now ≡ None) }
{
    let (length, rest) = payload.split_first_chunk::<2>()?;
    let (reply, _) = rest.split_at_checked(usize::from(u16::from_be_bytes(*length)))?;
    Some(reply)
}

/// The client's half of a handshake at the front of the payload, its type HTYPE and its data HDATA:
/// that of an EXTEND2 behind its link specifiers, or of a CREATE2. `None` exactly where the payload
/// ends within it.
#[tactic(auto, unfolding(tor_spec::specs::Extend::handshake_request))]
pub fn read_handshake_request(payload: &[u8]) -> Option<(u16, &[u8])>
    ensures some { IfSome result (λ request. handshake_request payload.now ≡ Some (request.0, request.1.now)) }
    ensures none { IfNone result (handshake_request payload.now ≡ None) }
{
    let (htype, rest) = payload.split_first_chunk::<2>()?;
    let hdata = read_handshake_reply(rest)?;
    Some((u16::from_be_bytes(*htype), hdata))
}

/// The first IPv4 address among so many link specifiers, and the bytes behind them.
fn read_destination(count: u8, bytes: &[u8]) -> Option<(Option<Dest4>, &[u8])>
    ensures some { IfSome result (λ read. destination count bytes.now ≡ Some (option_map address_of read.0, read.1.now)) }
    ensures none { IfNone result (destination count bytes.now ≡ None) }
{
    let mut to = None;
    let mut rest = bytes;
    for i in 0..count {
        let (specifier, tail) = Specifier::read(rest)?;
        to = to.or(specifier.address());
        rest = tail;
    }
    Some((to, rest))
}

/// The body of an EXTEND2 to this address, its only link specifier, with this handshake.
#[tactic(auto, unfolding(tor_spec::specs::Extend::extend_payload, tor_spec::specs::Extend::handshake_reply_payload))]
pub fn extend2_body(to: Dest4, htype: u16, hdata: &[u8]) -> [u8; 509]
    requires { length hdata.now ≤ 485 }
    ensures { result ≡ relay_body extend2_command 0 (extend_payload (address_of to) htype hdata.now) }
{
    let (ip, port) = to;
    let mut payload = Payload::new();
    payload.put(&[1, 0, 6]);
    payload.put(&ip);
    payload.put(&port.to_be_bytes());
    payload.put(&htype.to_be_bytes());
    payload.put(&(hdata.len() as u16).to_be_bytes());
    payload.put(hdata);
    write_body(command::EXTEND2, 0, payload.as_slice())
}

/// The payload of a CREATE2 with this handshake.
pub fn create2_payload(htype: u16, hdata: &[u8]) -> [u8; 509]
    requires { length hdata.now ≤ 505 }
    ensures { result ≡ create2_payload htype hdata.now }
{
    let mut payload = [0; 509];
    write_handshake_head(&mut payload, htype, hdata.len() as u16);
    payload[4..4 + hdata.len()].copy_from_slice(hdata);
    payload
}

/// Writes the type of a handshake and the length of its data at the front.
fn write_handshake_head(out: &mut [u8], htype: u16, hlen: u16)
    requires { 4 ≤ length out.old }
    ensures { out.new ≡ (big_bytes 2 htype ++ big_bytes 2 hlen) ++ drop 4 out.old }
{
    BigEndian::write_u16(out, htype);
    BigEndian::write_u16(&mut out[2..], hlen);
}

/// The body of an EXTENDED2 with this answer to a handshake.
#[tactic(auto, using(tor_spec::proofs::Payloads::handshake_reply_is_read), unfolding(tor_spec::specs::Extend::handshake_reply_payload))]
pub fn extended2_body(hdata: &[u8]) -> [u8; 509]
    requires { length hdata.now ≤ 496 }
    ensures body { result ≡ relay_body extended2_command 0 (handshake_reply_payload hdata.now) }
    ensures read_back { handshake_reply (handshake_reply_payload hdata.now) ≡ Some hdata.now }
{
    let mut payload = Payload::new();
    payload.put(&(hdata.len() as u16).to_be_bytes());
    payload.put(hdata);
    write_body(command::EXTENDED2, 0, payload.as_slice())
}
