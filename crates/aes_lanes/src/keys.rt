// The round keys as planes.

ghost use Rattle.std.specs.Prelude.{◌≡◌, ℕ, ◌<◌, List, length, map};
ghost use Rattle.crypto_spec.specs.Aes.{aes};
ghost use Rattle.aes_lanes.specs.Sliced.{IsState, masked};

use crate::planes::Planes;
use crate::rounds::{finished, keyed, rounded};
use crate::rows::{joined, row, sliced};
use aes_block::Schedule;
use std::marker::Model;
use std::simd::prelude::*;

/// An AES-128 key with its round keys, made ready for eight blocks at once. Contracts see the key.
#[derive(Drop)]
pub struct LaneKeys {
    key: [u8; 16],
    first: Planes,
    others: [Planes; 10],
}

impl Model for LaneKeys {
    ghost use Rattle.std.specs.Prelude.{ℕ, List};
    ghost use Rattle.aes_lanes.specs.Sliced.{IsLaneKeys};

    ghost Value = { List ℕ };

    ghost view = { λ k. k.key };

    ghost invariant = { λ k. IsLaneKeys k.key k.first k.others };
}

fn first_planes(key: &[u8]) -> Planes
    requires { length key.now ≡ 16 }
    ensures { (b : ℕ) → b < 8 → IsState result b key.now }
{
    Planes::of_key(row(key))
}

// The planes of another round key, with the constant of SubBytes.
fn other_planes(key: &[u8]) -> Planes
    requires { length key.now ≡ 16 }
    ensures { (b : ℕ) → b < 8 → IsState result b (masked key.now) }
{
    Planes::of_key(row(key) ^ u8x16::splat(0x63))
}

impl LaneKeys {
    /// The round keys of a schedule.
    pub fn of(schedule: &Schedule) -> LaneKeys
        ensures { result ≡ schedule.now }
    {
        let keys = schedule.round_keys();
        LaneKeys {
            key: *schedule.key(),
            first: first_planes(&keys[..16]),
            others: [
                other_planes(&keys[16..32]),
                other_planes(&keys[32..48]),
                other_planes(&keys[48..64]),
                other_planes(&keys[64..80]),
                other_planes(&keys[80..96]),
                other_planes(&keys[96..112]),
                other_planes(&keys[112..128]),
                other_planes(&keys[128..144]),
                other_planes(&keys[144..160]),
                other_planes(&keys[160..176]),
            ],
        }
    }

    /// The key's 16 bytes.
    pub fn key(&self) -> &[u8; 16]
        ensures { result.now ≡ self.now }
    {
        &self.key
    }

    /// The same round keys once more.
    pub fn copy(&self) -> LaneKeys
        ensures { result ≡ self.now }
    {
        LaneKeys {
            key: self.key,
            first: self.first,
            others: self.others,
        }
    }

    /// The cipher of each of eight blocks.
    pub fn encrypt8(&self, blocks: &mut [[u8; 16]; 8])
        ensures { blocks.new ≡ map (aes self.now) blocks.old }
    {
        *blocks = joined(self.passed(sliced(blocks)));
    }

    /// The cipher of the blocks that the planes hold. The rounds are a loop, whose code a processor keeps
    /// decoded: written one behind another they take longer.
    #[inline(always)]
    pub(crate) fn passed(&self, state: Planes) -> Planes
        ensures { (b : ℕ) (s : List ℕ) → b < 8 → IsState state b s → IsState result b (aes self.now s) }
    {
        let mut state = keyed(state, self.first);
        for round in 0..9 {
            state = rounded(state, self.others[round]);
        }
        finished(state, self.others[9])
    }
}
