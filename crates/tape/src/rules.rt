//! The rules that a tape says in front of its records.
ghost use Rattle.std.specs.Prelude.{◌≡◌, ◌≤◌};
ghost use Rattle.tor_spec.specs.CircuitWindow.{circuit_start, least_start};

/// Where the window of a circuit begins unless a tape says otherwise, which is as far as it may
/// (tor-spec, "Circuit-level flow control").
pub const STANDARD_WINDOW: u32 = 1000;

/// The least window that a circuit may begin with.
pub const LEAST_WINDOW: u32 = 100;

/// What a tape says of its switch's rules.
#[derive(Drop)]
pub struct TapeRules {
    /// How many DATA cells a circuit may package before its first SENDME, 100 to 1000.
    pub window: u32,
    /// The least version of a circuit's SENDME that is accepted, 0 or 1 (proposal 289).
    pub least: u8,
    ghost window_within: { (least_start ≤ window) × (window ≤ circuit_start) },
    ghost least_within: { least ≤ 1 },
}

impl TapeRules {
    /// The rules of a tape that says none: the standard's.
    pub fn standard() -> TapeRules
        ensures window { result.window ≡ circuit_start }
        ensures least { result.least ≡ 1 }
    {
        TapeRules {
            window: STANDARD_WINDOW,
            least: 1,
        }
    }
}

/// What a tape begins with, in front of its records.
#[derive(Drop)]
pub enum RulesFront<'a> {
    /// Rules, and the bytes behind them.
    Whole(TapeRules, &'a [u8]),
    /// Less than rules, as far as the bytes go.
    Cut,
    /// Rules that are none.
    Bad,
}
