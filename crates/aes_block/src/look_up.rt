// What the tables give for a byte.

ghost use Rattle.std.specs.Prelude.{◌≡◌, ◌<◌};
ghost use Rattle.std.specs.Int.{w32, to_le_bytes};
ghost use Rattle.crypto_spec.specs.Aes.{sub_byte, power_of_x};
ghost use Rattle.aes_block.specs.MatrixColumns.{first_column, second_column, third_column, fourth_column};

use crate::tables::{
    MIX_ROW_ONE, MIX_ROW_THREE, MIX_ROW_TWO, MIX_ROW_ZERO, ROUND_CONSTANTS, SUB_BYTES,
};

/// SubBytes of one byte (FIPS 197, 5.1.1).
#[tactic(auto, using(crate::proofs::LookUps::substituted))]
pub fn sub_byte(byte: u8) -> u8
    ensures { result ≡ sub_byte byte }
{
    SUB_BYTES[byte as usize]
}

/// The power of x with exponent `n` (5.2).
#[tactic(auto, using(crate::proofs::LookUps::powers))]
pub fn round_constant(n: usize) -> u8
    requires { n < 10 }
    ensures { result ≡ power_of_x n }
{
    ROUND_CONSTANTS[n]
}

/// SubBytes and MixColumns (5.1.3) of a column with this byte in row 0 and nothing in the others.
#[tactic(auto, using(crate::proofs::LookUps::mixed_row_zero))]
pub fn mix_row_zero(byte: u8) -> u32
    ensures { to_le_bytes w32 result ≡ first_column (sub_byte byte) }
{
    MIX_ROW_ZERO[byte as usize]
}

/// The same for row 1.
#[tactic(auto, using(crate::proofs::LookUps::mixed_row_one))]
pub fn mix_row_one(byte: u8) -> u32
    ensures { to_le_bytes w32 result ≡ second_column (sub_byte byte) }
{
    MIX_ROW_ONE[byte as usize]
}

/// The same for row 2.
#[tactic(auto, using(crate::proofs::LookUps::mixed_row_two))]
pub fn mix_row_two(byte: u8) -> u32
    ensures { to_le_bytes w32 result ≡ third_column (sub_byte byte) }
{
    MIX_ROW_TWO[byte as usize]
}

/// The same for row 3.
#[tactic(auto, using(crate::proofs::LookUps::mixed_row_three))]
pub fn mix_row_three(byte: u8) -> u32
    ensures { to_le_bytes w32 result ≡ fourth_column (sub_byte byte) }
{
    MIX_ROW_THREE[byte as usize]
}
