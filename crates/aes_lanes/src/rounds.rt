// The steps of a round (FIPS 197, 5.1). SubBytes leaves its constant out: the round keys bring it in.

ghost use Rattle.std.specs.Prelude.{ℕ, ◌<◌, List, length, ◌≡◌};
ghost use Rattle.crypto_spec.specs.Aes.{add, sub_bytes, shift_rows, mix_columns};
ghost use Rattle.aes_lanes.specs.Sliced.{IsState, masked};

use crate::planes::Planes;

/// SubBytes without its constant, and ShiftRows. Which comes first is the same; rows that are shifted
/// first are moved in place, and MixColumns then begins by what is no shuffle.
pub fn moved(state: Planes) -> Planes
    ensures { (b : ℕ) (s : List ℕ) → b < 8 → IsState state b s → IsState result b (masked (shift_rows (sub_bytes s))) }
{
    state.rows_shifted().substituted()
}

/// MixColumns.
pub fn mixed(state: Planes) -> Planes
    ensures { (b : ℕ) (s : List ℕ) → IsState state b s → IsState result b (mix_columns s) }
{
    state.columns_mixed()
}

/// AddRoundKey.
pub fn keyed(state: Planes, key: Planes) -> Planes
    ensures { (b : ℕ) (s k : List ℕ) → IsState state b s → IsState key b k → IsState result b (add s k) }
{
    state.plus(key)
}

/// A round, with the constant that SubBytes left out in the round key.
#[inline(always)]
pub fn rounded(state: Planes, key: Planes) -> Planes
    ensures { (b : ℕ) (s k : List ℕ) → b < 8 → length k ≡ 16 → IsState state b s → IsState key b (masked k) →
        IsState result b (add (mix_columns (shift_rows (sub_bytes s))) k) }
{
    keyed(mixed(moved(state)), key)
}

/// The last round, which leaves MixColumns out.
#[inline(always)]
pub fn finished(state: Planes, key: Planes) -> Planes
    ensures { (b : ℕ) (s k : List ℕ) → b < 8 → length k ≡ 16 → IsState state b s → IsState key b (masked k) →
        IsState result b (add (shift_rows (sub_bytes s)) k) }
{
    keyed(moved(state), key)
}
