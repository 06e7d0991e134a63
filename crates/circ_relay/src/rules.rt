// What the operator of a relay allows.

ghost use Rattle.std.specs.Prelude.{◌≤◌};
ghost use Rattle.tor_spec.specs.CircuitWindow.{circuit_start, least_start};

use cell_codec::{Bytes, List};
use tr_io::names::Dest;

/// A name that a stream may reach, and where it leads.
#[derive(Drop)]
pub struct Allow {
    /// The host name, 1 to 255 bytes. ASCII letters are compared without case.
    pub host: Bytes,
    /// The port.
    pub port: u16,
    /// Where a stream to this host and port is connected.
    pub to: Dest,
}

/// The rules of a relay.
#[derive(Drop)]
pub struct Rules {
    /// The names that a stream may reach. The first line that fits counts.
    pub allow: List<Allow>,
    /// How many DATA cells a circuit may package before its first SENDME, 100 to 1000 (tor-spec,
    /// "Circuit-level flow control").
    pub window: u32,
    /// The least version of a circuit's SENDME that is accepted, 0 or 1 (proposal 289).
    pub least: u8,
    ghost window_within: { (least_start ≤ window) × (window ≤ circuit_start) },
    ghost least_within: { least ≤ 1 },
}
