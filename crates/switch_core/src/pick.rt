//! Which of two circuits of a channel is served first.
ghost use Rattle.std.specs.Prelude.{◌≡◌};
ghost use Rattle.switch_core.specs.Picking.{better_of};

/// A circuit that waits, by its number, and its count.
#[derive(Clone, Copy)]
pub struct WaitingLeg {
    /// The circuit's number.
    pub number: usize,
    /// Its leg's count.
    pub count: u64,
}

/// The one with the lesser count; the earlier where the counts are equal.
pub fn lesser(least: Option<WaitingLeg>, next: WaitingLeg) -> WaitingLeg
    ensures { result ≡ better_of least next }
{
    match least {
        Some(least) if least.count <= next.count => least,
        _ => next,
    }
}
