// The cipher on eight blocks (FIPS 197, 5.1).

ghost use Rattle.std.specs.Prelude.{◌≡◌, map};
ghost use Rattle.crypto_spec.specs.Aes.{aes};

use crate::keys::LaneKeys;
use aes_block::Schedule;

/// The cipher of each of eight blocks.
pub fn encrypt8(schedule: &Schedule, blocks: &mut [[u8; 16]; 8])
    ensures { blocks.new ≡ map (aes schedule.now) blocks.old }
{
    LaneKeys::of(schedule).encrypt8(blocks);
}
