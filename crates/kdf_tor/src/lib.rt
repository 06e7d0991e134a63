//! KDF-TOR: the keys of a hop, from what its CREATE_FAST handshake exchanged (tor-spec,
//! "KDF-TOR" and "CREATE_FAST/CREATED_FAST cells").
//!
//! The client sends 20 bytes X, the relay answers with 20 bytes Y, and both derive the same keys.
#![tactic(auto)]

ghost use Rattle.std.specs.Prelude.{◌≡◌, ◌+◌, ◌≤◌, ◌∷◌, ◌++◌, [], length, take, drop};
ghost use Rattle.sha1.specs.Sha1.{sha1};
ghost use Rattle.crypto_spec.specs.KeyDerivation.{kdf_blocks, kdf_tor};
ghost use Rattle.kdf_tor.specs.HopKeys.{hop_keys_of};

use sha1::Sha1;

#[cfg(test)]
mod tests;

/// What one layer of encryption uses: the seeds of the running digests, 20 bytes each, and the
/// keys of AES-128, 16 bytes each. `df` and `kf` serve cells that leave the client, `db` and `kb`
/// cells on their way to it (tor-spec, "Routing relay cells").
#[derive(Clone, Copy, Debug, PartialEq, Eq)]
pub struct LayerKeys {
    pub df: [u8; 20],
    pub db: [u8; 20],
    pub kf: [u8; 16],
    pub kb: [u8; 16],
}

/// All that KDF-TOR gives for a hop. The relay sends `kh` in its CREATED_FAST, and the client
/// compares it with its own.
#[derive(Clone, Copy, Debug, PartialEq, Eq)]
pub struct HopKeys {
    pub kh: [u8; 20],
    pub layer: LayerKeys,
}

/// Derives a hop's keys from the client's `x` and the relay's `y`.
#[tactic(auto, unfolding(crypto_spec::specs::KeyDerivation::kdf_tor))]
pub fn derive(x: &[u8; 20], y: &[u8; 20]) -> HopKeys
    ensures { result ≡ hop_keys_of (kdf_tor x.now y.now) }
{
    let material = key_material(x, y);
    HopKeys {
        kh: part(&material, 0),
        layer: LayerKeys {
            df: part(&material, 20),
            db: part(&material, 40),
            kf: part(&material, 60),
            kb: part(&material, 76),
        },
    }
}

// K: the hashes of X, Y and a block number, one after another.
#[tactic(auto, using(crate::proofs::KeyBlocks::one_more_block))]
fn key_material(x: &[u8; 20], y: &[u8; 20]) -> [u8; 100]
    ensures { result ≡ kdf_blocks (x.now ++ y.now) 5 }
{
    let mut material = [0; 100];
    for number in 0..5u8 {
        let at = 20 * number as usize;
        material[at..at + 20].copy_from_slice(&block(x, y, number));
    }
    material
}

fn block(x: &[u8; 20], y: &[u8; 20], number: u8) -> [u8; 20]
    ensures { result ≡ sha1 (x.now ++ y.now ++ number ∷ []) }
{
    let mut hasher = Sha1::new();
    hasher.update(x);
    hasher.update(y);
    hasher.update(&[number]);
    hasher.finalize()
}

fn part<const N: usize>(material: &[u8; 100], at: usize) -> [u8; N]
    requires { at + N ≤ length material.now }
    ensures { result ≡ take N (drop at material.now) }
{
    let mut bytes = [0; N];
    bytes.copy_from_slice(&material[at..at + N]);
    bytes
}
