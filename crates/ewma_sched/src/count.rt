//! A leg's count of cells.

ghost use Rattle.std.specs.Prelude.{◌≡◌, ◌-◌, ◌≤◌};
ghost use Rattle.ewma_sched.specs.Counts.{charged, halved};

/// What one cell adds to its leg's count: one cell in 16-bit fixed point.
const CELL_CHARGE: u64 = 65536;

/// A count as it was at a tick.
#[derive(Clone, Copy)]
pub(crate) struct Count {
    pub value: u64,
    pub tick: u64,
}

impl Count {
    /// The count at a later tick.
    pub(crate) fn at(self, tick: u64) -> u64
        requires { self.tick ≤ tick }
        ensures { result ≡ halved self.value (tick - self.tick) }
    {
        halved(self.value, tick - self.tick)
    }
}

/// A count after so many ticks.
#[tactic(auto, using(crate::proofs::Halving::halved_away))]
pub(crate) fn halved(count: u64, ticks: u64) -> u64
    ensures { result ≡ halved count ticks }
{
    if ticks < 64 { count >> ticks } else { 0 }
}

/// A count after one more cell.
pub(crate) fn charged(count: u64) -> u64
    ensures { result ≡ charged count }
{
    count.saturating_add(CELL_CHARGE)
}
