//! The numbers of a seed.

ghost use Rattle.std.specs.Prelude.{◌<◌};

use rand_core::Rng;
use rand_xoshiro::SplitMix64;

/// The next number below `n`.
pub fn below(words: &mut SplitMix64, n: u64) -> u64
    requires { 0 < n }
    ensures { result < n }
{
    words.next_u64() % n
}
