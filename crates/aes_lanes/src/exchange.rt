// Bits that two vectors exchange, lane by lane: where both vectors' bits are rows of a matrix, the parts
// of it beside the diagonal change places.

ghost use Rattle.aes_lanes.specs.Bits.{IsFirstExchanged, IsSecondExchanged};

use std::simd::prelude::*;

/// Exchanges the odd bits of `a` with the even bits of `b`.
pub fn exchange_bits(a: u8x16, b: u8x16) -> (u8x16, u8x16)
    ensures first { IsFirstExchanged 1 a b result.0 }
    ensures second { IsSecondExchanged 1 a b result.1 }
{
    let t = ((a >> u8x16::splat(1)) ^ b) & u8x16::splat(0x55);
    (a ^ (t << u8x16::splat(1)), b ^ t)
}

/// Exchanges the odd pairs of bits of `a` with the even pairs of `b`.
pub fn exchange_pairs(a: u8x16, b: u8x16) -> (u8x16, u8x16)
    ensures first { IsFirstExchanged 2 a b result.0 }
    ensures second { IsSecondExchanged 2 a b result.1 }
{
    let t = ((a >> u8x16::splat(2)) ^ b) & u8x16::splat(0x33);
    (a ^ (t << u8x16::splat(2)), b ^ t)
}

/// Exchanges the high four bits of `a` with the low four bits of `b`.
pub fn exchange_halves(a: u8x16, b: u8x16) -> (u8x16, u8x16)
    ensures first { IsFirstExchanged 4 a b result.0 }
    ensures second { IsSecondExchanged 4 a b result.1 }
{
    let t = ((a >> u8x16::splat(4)) ^ b) & u8x16::splat(0x0f);
    (a ^ (t << u8x16::splat(4)), b ^ t)
}
