//! What the switch counts.
ghost use Rattle.std.specs.Prelude.{◌≡◌};
ghost use Rattle.switch_core.specs.Meaning.{no_counts};

/// The counts of a whole switch.
#[derive(Clone, Copy)]
pub struct Counters {
    /// How many steps were made.
    pub steps: u64,
    /// The tick in force.
    pub tick: u64,
    /// The next body number. A step adds 33 bodies at most.
    pub bodies: u128,
    /// The next claim number.
    pub claims: u64,
    /// The next number of a dial order.
    pub dial_orders: u128,
}

impl Counters {
    /// Those of a new switch.
    pub fn new() -> Counters
        ensures { result ≡ no_counts }
    {
        Counters {
            steps: 0,
            tick: 0,
            bodies: 0,
            claims: 0,
            dial_orders: 0,
        }
    }
}
