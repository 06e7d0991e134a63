//! What time it is.

/// A clock, which never fails. What it shows isn't told: a switch takes the greatest tick that it was
/// given.
pub trait Clock {
    /// The tick now.
    fn tick(&self) -> u64;
}

/// A clock that stands.
#[derive(Clone, Copy, Drop)]
pub struct StandingClock {
    /// The tick that it shows.
    pub tick: u64,
}

impl Clock for StandingClock {
    fn tick(&self) -> u64 {
        self.tick
    }
}
