//! Which of two directions a claim gets.
ghost use Rattle.std.specs.Prelude.{◌≡◌, option_map};
ghost use Rattle.switch_machine.specs.Calls.Claim.{sooner};
ghost use Rattle.switch_core.specs.Claiming.{offer_of};

use tr_io::names::Dir;

/// A direction with a body that waits first, where no claim is out.
#[derive(Clone, Copy)]
pub struct Offering {
    /// The circuit's number.
    pub circ: usize,
    /// Which of its directions.
    pub dir: Dir,
    /// The body's number.
    pub number: u128,
}

/// The better of what was found and what this direction offers: the lesser number.
pub fn sooner(
    best: Option<Offering>,
    circ: usize,
    dir: Dir,
    offered: Option<u128>,
) -> Option<Offering>
    ensures { option_map offer_of result ≡ sooner (option_map offer_of best) (record { circ = circ; dir = dir }) offered }
{
    let Some(number) = offered else {
        return best;
    };
    match best {
        Some(best) if best.number <= number => Some(best),
        _ => Some(Offering { circ, dir, number }),
    }
}
