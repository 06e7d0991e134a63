// Keystream by groups of eight blocks, and the xor of a body with it.

ghost use Rattle.std.specs.Prelude.{◌≡◌, ◌-◌, ◌*◌, ◌%◌, ◌^◌, ◌<◌, ◌≤◌, length, take, drop, bit_xor};
ghost use Rattle.std.specs.Simd.Lanes.{zip2};
ghost use Rattle.crypto_spec.specs.Keystream.{keystream_part};

use aes_lanes::LaneKeys;

/// Writes keystream over `pad`, from block `first` on.
pub fn fill(pad: &mut [u8], keys: &LaneKeys, first: u128)
    requires groups { length pad.old % 128 ≡ 0 }
    requires short { length pad.old ≤ 1152 }
    requires eighth { first % 8 ≡ 0 }
    requires room { first < 2 ^ 100 }
    ensures { pad.new ≡ keystream_part keys.now (16 * first) (length pad.old) }
{
    for group in 0..pad.len() / 128 {
        let blocks = keys.encrypt_numbers(first + 8 * group as u128);
        for k in 0..8 {
            let at = 128 * group + 16 * k;
            pad[at..at + 16].copy_from_slice(&blocks[k]);
        }
    }
}

/// Moves what lies behind the first `by` bytes to the front. No byte is read after it is written over,
/// since the groups move by one group or more.
pub fn move_down(store: &mut [u8; 1152], by: usize)
    requires some { 128 ≤ by }
    requires groups { by % 128 ≡ 0 }
    requires within { by ≤ 1152 }
    ensures long { length store.new ≡ 1152 }
    ensures moved { take (1152 - by) store.new ≡ drop by store.old }
{
    for n in 0..(1152 - by) / 128 {
        let at = 128 * n;
        let mut group = [0; 128];
        group.copy_from_slice(&store[at + by..at + by + 128]);
        store[at..at + 128].copy_from_slice(&group);
    }
}

/// Xors a body with as many bytes of keystream.
pub fn xor(body: &mut [u8; 509], pad: &[u8])
    requires { length pad.now ≡ 509 }
    ensures { body.new ≡ zip2 bit_xor body.old pad.now }
{
    for k in 0..509 {
        body[k] ^= pad[k];
    }
}
