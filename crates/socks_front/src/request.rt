//! The request (RFC 1928, sections 4 and 5).

ghost use Rattle.std.specs.Prelude.{◌≡◌, length};
ghost use Rattle.std.specs.List.{list_any};
ghost use Rattle.tor_spec.specs.Text.{is_zero_byte};
ghost use Rattle.socks_front.specs.Answering.{IsShortUntilEnd, host_text, outcome_of};
ghost use Rattle.socks_front.specs.Reading.{address_outcome, command_outcome, ipv4_outcome, name_outcome, name_bytes_outcome, port_outcome, request_outcome};

use crate::command::SocksCommand;
use crate::fault::SocksFault;
use crate::host::Host;
use crate::progress::{Progress, SocksRequest};
use crate::reply::{IPV4, NAME, VERSION};

/// What the bytes behind the greeting come to.
pub fn read_request(bytes: &[u8]) -> Progress<'_>
    ensures outcome { outcome_of result ≡ request_outcome bytes.now }
    ensures short { IsShortUntilEnd (outcome_of result) (length bytes.now) 261 }
{
    match bytes {
        [] => Progress::Greeting,
        [VERSION, rest @ ..] => read_command(rest),
        [version, ..] => Progress::Fault(SocksFault::Version(*version)),
    }
}

/// What the bytes behind the request's version come to.
fn read_command(bytes: &[u8]) -> Progress<'_>
    ensures outcome { outcome_of result ≡ command_outcome bytes.now }
    ensures short { IsShortUntilEnd (outcome_of result) (length bytes.now) 260 }
{
    match bytes {
        [] => Progress::Nothing,
        [number, rest @ ..] => match SocksCommand::of(*number) {
            Some(command) => read_address(command, rest),
            None => Progress::Fault(SocksFault::Command(*number)),
        },
    }
}

/// What the bytes behind the command come to. The first of them is reserved, and isn't looked at.
fn read_address(command: SocksCommand, bytes: &[u8]) -> Progress<'_>
    ensures outcome { outcome_of result ≡ address_outcome command bytes.now }
    ensures short { IsShortUntilEnd (outcome_of result) (length bytes.now) 259 }
{
    match bytes {
        [] | [_] => Progress::Nothing,
        [_, IPV4, rest @ ..] => read_ip(command, rest),
        [_, NAME, rest @ ..] => read_name(command, rest),
        [_, kind, ..] => Progress::Fault(SocksFault::Kind(*kind)),
    }
}

/// What the bytes from an IPv4 address on come to.
#[tactic(auto, unfolding(crate::specs::Reading::ipv4_outcome))]
fn read_ip(command: SocksCommand, bytes: &[u8]) -> Progress<'_>
    ensures outcome { outcome_of result ≡ ipv4_outcome command bytes.now }
    ensures short { IsShortUntilEnd (outcome_of result) (length bytes.now) 5 }
{
    match bytes.split_first_chunk::<4>() {
        None => Progress::Nothing,
        Some((ip, port)) => read_port(command, Host::Ip(*ip), port),
    }
}

/// What the bytes from a name's length on come to.
fn read_name(command: SocksCommand, bytes: &[u8]) -> Progress<'_>
    ensures outcome { outcome_of result ≡ name_outcome command bytes.now }
    ensures short { IsShortUntilEnd (outcome_of result) (length bytes.now) 257 }
{
    match bytes {
        [] => Progress::Nothing,
        [size, rest @ ..] => read_name_bytes(command, *size, rest),
    }
}

/// What the bytes of a name, which has so many, and those behind it come to.
#[tactic(auto, unfolding(crate::specs::Reading::name_bytes_outcome))]
fn read_name_bytes(command: SocksCommand, size: u8, bytes: &[u8]) -> Progress<'_>
    ensures outcome { outcome_of result ≡ name_bytes_outcome command size bytes.now }
    ensures short { IsShortUntilEnd (outcome_of result) (length bytes.now) 256 }
{
    let end = bytes.len().min(usize::from(size));
    let (name, port) = bytes.split_at(end);
    if size == 0 || has_zero(name) {
        return Progress::Fault(SocksFault::Host);
    }
    if name.len() < usize::from(size) {
        return Progress::Nothing;
    }
    read_port(command, Host::Name(name), port)
}

fn has_zero(name: &[u8]) -> bool
    ensures { result ≡ list_any is_zero_byte name.now }
{
    name.iter().any(|byte| *byte == 0)
}

/// What the bytes of the port come to.
fn read_port<'a>(command: SocksCommand, host: Host<'a>, bytes: &[u8]) -> Progress<'a>
    ensures outcome { outcome_of result ≡ port_outcome command (host_text host.entry) bytes.now }
    ensures short { IsShortUntilEnd (outcome_of result) (length bytes.now) 1 }
{
    let [high, low, ..] = bytes else {
        return Progress::Nothing;
    };
    let port = u16::from_be_bytes([*high, *low]);
    let request = SocksRequest {
        command,
        host,
        port,
    };
    match command {
        SocksCommand::Connect => {
            if port == 0 {
                Progress::Fault(SocksFault::Host)
            } else {
                Progress::Request(request)
            }
        }
        SocksCommand::Resolve => Progress::Request(request),
    }
}
