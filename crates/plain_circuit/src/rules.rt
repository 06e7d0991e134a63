//! What the relay's operator allows: which names a client may be connected to, and where each leads.

ghost use Rattle.std.specs.Prelude.{◌≡◌, find, map, option_map};
ghost use Rattle.circuit_model.specs.Rules.{allows, has_host, allowed_address, resolved_address};
ghost use Rattle.plain_circuit.specs.Values.{allow_of, rules_of};

use tor_spec::Address;

/// One allowed name: host and port, and the address that a stream to it is connected to.
#[derive(Drop)]
pub struct Allow {
    pub host: Vec<u8>,
    pub port: u16,
    pub to: Address,
}

#[derive(Drop)]
pub struct Rules {
    pub allow: Vec<Allow>,
    /// How many DATA a circuit may package before its first SENDME.
    pub window: u32,
    /// The least version of a circuit's SENDME that is accepted.
    pub least: u8,
}

/// Whether a line has this host, ASCII letters compared without case.
fn has_host(host: &[u8], line: &Allow) -> bool
    ensures { result ≡ has_host host.now (allow_of line.now) }
{
    line.host.as_slice().eq_ignore_ascii_case(host)
}

fn allows(host: &[u8], port: u16, line: &Allow) -> bool
    ensures { result ≡ allows (record { host = host.now; port = port }) (allow_of line.now) }
{
    has_host(host, line) && line.port == port
}

/// The address of the first of these lines that has this host and port.
fn allowed_among(lines: &[Allow], host: &[u8], port: u16) -> Option<Address>
    ensures { result
        ≡ option_map (λ line. line.to) (find (allows (record { host = host.now; port = port })) (map allow_of lines.now)) }
{
    let (line, rest) = lines.split_first()?;
    if allows(host, port, line) {
        Some(line.to)
    } else {
        allowed_among(rest, host, port)
    }
}

/// The address of the first of these lines that has this host.
fn resolved_among(lines: &[Allow], host: &[u8]) -> Option<Address>
    ensures { result ≡ option_map (λ line. line.to) (find (has_host host.now) (map allow_of lines.now)) }
{
    let (line, rest) = lines.split_first()?;
    if has_host(host, line) {
        Some(line.to)
    } else {
        resolved_among(rest, host)
    }
}

/// Where a stream to this host and port leads.
#[tactic(auto, unfolding(circuit_model::specs::Rules::allowed_address))]
pub fn allowed_address(rules: &Rules, host: &[u8], port: u16) -> Option<Address>
    ensures { result ≡ allowed_address (rules_of rules.now) (record { host = host.now; port = port }) }
{
    allowed_among(&rules.allow, host, port)
}

/// What a host name resolves to.
#[tactic(auto, unfolding(circuit_model::specs::Rules::resolved_address))]
pub fn resolved_address(rules: &Rules, host: &[u8]) -> Option<Address>
    ensures { result ≡ resolved_address (rules_of rules.now) host.now }
{
    resolved_among(&rules.allow, host)
}
