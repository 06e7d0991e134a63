//! What a circuit is opened under: rules for both programs.

ghost use Rattle.std.specs.Prelude.{◌≤◌};

use cell_codec::{Bytes, List};
use std::alloc::{AllocError, Global};
use tor_spec::Address;
use tr_io::names::Dest;

/// Host, port, and the IPv4 address and port that they lead to. The second line's host is the first's
/// in other letters.
const LINES: [(&[u8], u16, [u8; 4], u16); 3] = [
    (b"echo.test", 7, [127, 0, 0, 1], 7),
    (b"ECHO.test", 80, [10, 0, 0, 2], 8080),
    (b"Files.Test", 443, [10, 0, 0, 3], 443),
];

/// Where the circuit's window begins, the least SENDME version that is accepted, and whether bodies are
/// padded.
#[derive(Clone, Copy)]
pub struct CircuitSettings {
    pub window: u32,
    pub least: u8,
    pub is_padded: bool,
    ghost window_within: { (100 ≤ window) × (window ≤ 1000) },
    ghost least_within: { least ≤ 1 },
}

/// The standard's window, each SENDME with its proof, and no padding.
pub const STANDARD: CircuitSettings = CircuitSettings {
    window: 1000,
    least: 1,
    is_padded: false,
};

impl CircuitSettings {
    /// The settings of this seed.
    pub fn of(seed: u64) -> CircuitSettings {
        let is_padded = seed % 2 == 1;
        match seed % 3 {
            0 => CircuitSettings {
                window: 1000,
                least: 1,
                is_padded,
            },
            1 => CircuitSettings {
                window: 100,
                least: 0,
                is_padded,
            },
            _ => CircuitSettings {
                window: 300,
                least: 1,
                is_padded,
            },
        }
    }
}

pub fn fast_rules(
    alloc: Global,
    settings: CircuitSettings,
) -> Result<circ_relay::Rules, AllocError> {
    let mut allow = List::new(alloc);
    for (host, port, ip, to_port) in LINES {
        allow.push(circ_relay::Allow {
            host: Bytes::of(alloc, host)?,
            port,
            to: Dest { ip, port: to_port },
        })?;
    }
    Ok(circ_relay::Rules {
        allow,
        window: settings.window,
        least: settings.least,
    })
}

pub fn plain_rules(
    alloc: Global,
    settings: CircuitSettings,
) -> Result<plain_circuit::rules::Rules, AllocError> {
    let mut allow = Vec::new(alloc);
    for (host, port, ip, to_port) in LINES {
        allow.push(plain_circuit::rules::Allow {
            host: Vec::from_slice(alloc, host)?,
            port,
            to: Address { ip, port: to_port },
        })?;
    }
    Ok(plain_circuit::rules::Rules {
        allow,
        window: settings.window,
        least: settings.least,
    })
}
