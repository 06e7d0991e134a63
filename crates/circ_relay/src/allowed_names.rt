// Which names a stream may reach, and where each leads.

ghost use Rattle.std.specs.Prelude.{◌≡◌, find, map, option_map};
ghost use Rattle.circuit_model.specs.Rules.{allows, has_host, allowed_address, resolved_address};
ghost use Rattle.circ_relay.specs.Values.{address_of, allow_of, rules_of};

use crate::rules::{Allow, Rules};
use tr_io::names::Dest;

impl Allow {
    fn has_host(&self, host: &[u8]) -> bool
        ensures { result ≡ has_host host.now (allow_of self.now) }
    {
        self.host.as_slice().eq_ignore_ascii_case(host)
    }

    fn allows(&self, host: &[u8], port: u16) -> bool
        ensures { result ≡ allows (record { host = host.now; port = port }) (allow_of self.now) }
    {
        self.has_host(host) && self.port == port
    }
}

impl Rules {
    /// Where a stream to this host and port leads, if it is allowed.
    #[tactic(auto, unfolding(circuit_model::specs::Rules::allowed_address))]
    pub fn allowed(&self, host: &[u8], port: u16) -> Option<Dest>
        ensures { option_map address_of result ≡ allowed_address (rules_of self.now) (record { host = host.now; port = port }) }
    {
        allowed_among(self.allow.as_slice(), host, port)
    }

    /// What a host name resolves to: the address of the first line that has it, at any port.
    #[tactic(auto, unfolding(circuit_model::specs::Rules::resolved_address))]
    pub fn resolved(&self, host: &[u8]) -> Option<Dest>
        ensures { option_map address_of result ≡ resolved_address (rules_of self.now) host.now }
    {
        resolved_among(self.allow.as_slice(), host)
    }
}

fn allowed_among(lines: &[Allow], host: &[u8], port: u16) -> Option<Dest>
    ensures { option_map address_of result
        ≡ option_map (λ line. line.to) (find (allows (record { host = host.now; port = port })) (map allow_of lines.now)) }
{
    let (line, rest) = lines.split_first()?;
    if line.allows(host, port) {
        Some(line.to)
    } else {
        allowed_among(rest, host, port)
    }
}

fn resolved_among(lines: &[Allow], host: &[u8]) -> Option<Dest>
    ensures { option_map address_of result ≡ option_map (λ line. line.to) (find (has_host host.now) (map allow_of lines.now)) }
{
    let (line, rest) = lines.split_first()?;
    if line.has_host(host) {
        Some(line.to)
    } else {
        resolved_among(rest, host)
    }
}
