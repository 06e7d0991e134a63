ghost use Rattle.std.specs.Prelude.{◌≤◌};
ghost use Rattle.tor_spec.specs.CircuitWindow.{circuit_start, least_start};

use crate::allowed_name::AllowedName;
use cell_codec::List;
use tr_io::names::Dest;

/// The settings of a relay.
#[derive(Drop)]
pub struct Settings {
    /// Where the relay listens for links.
    pub listen: Dest,
    /// How many links that peers open it serves at a time, 1 to 64.
    pub accept_slots: u32,
    /// How many links that it opens itself it serves at a time, 0 to 63.
    pub dial_slots: u32,
    /// How many connections of streams it serves at a time, 0 to 256.
    pub edge_slots: u32,
    /// How many crypto workers it has, 1 to 64.
    pub workers: u32,
    /// How many links each accepting slot serves before the relay ends, at most 2^31 - 1; 0 where it doesn't end
    /// by itself.
    pub accepts: u32,
    /// The names that a stream may reach, at most 1,000. No two have the same host and port.
    pub allow: List<AllowedName>,
    /// How many DATA cells a circuit may package before its first SENDME, 100 to 1000 (tor-spec,
    /// "Circuit-level flow control").
    pub circuit_window: u32,
    /// The least version of a circuit's SENDME that is accepted, 0 or 1 (proposal 289).
    pub sendme_least: u8,
    ghost window_within: { (least_start ≤ circuit_window) × (circuit_window ≤ circuit_start) },
    ghost least_within: { sendme_least ≤ 1 },
}
