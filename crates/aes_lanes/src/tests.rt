use super::*;
use aes_block::Schedule;

// FIPS 197, appendix C.1, in each lane; and the blocks 0 to 7 under the zero key, by OpenSSL.
#[test]
fn gives_the_published_cipher_in_each_lane(rt: HostRuntime) {
    let key = [
        0x00, 0x01, 0x02, 0x03, 0x04, 0x05, 0x06, 0x07, 0x08, 0x09, 0x0a, 0x0b, 0x0c, 0x0d, 0x0e,
        0x0f,
    ];
    let block = [
        0x00, 0x11, 0x22, 0x33, 0x44, 0x55, 0x66, 0x77, 0x88, 0x99, 0xaa, 0xbb, 0xcc, 0xdd, 0xee,
        0xff,
    ];
    let cipher = [
        0x69, 0xc4, 0xe0, 0xd8, 0x6a, 0x7b, 0x04, 0x30, 0xd8, 0xcd, 0xb7, 0x80, 0x70, 0xb4, 0xc5,
        0x5a,
    ];
    let mut blocks = [block; 8];
    encrypt8(&Schedule::of(&key), &mut blocks);
    for got in &blocks {
        assert_eq!(rt; *got, cipher);
    }
}

// The next of a row of numbers that look random (D. Knuth's linear congruential generator, MMIX).
fn next(seed: &mut u64) -> u64 {
    *seed = seed
        .wrapping_mul(6364136223846793005)
        .wrapping_add(1442695040888963407);
    *seed
}

fn next_block(seed: &mut u64) -> [u8; 16] {
    let high = next(seed) as u128;
    let low = next(seed) as u128;
    ((high << 64) | low).to_be_bytes()
}

#[test]
fn agrees_with_the_cipher_of_single_blocks(rt: HostRuntime) {
    let mut seed = 1;
    for _key in 0..50 {
        let schedule = Schedule::of(&next_block(&mut seed));
        let mut blocks = [[0; 16]; 8];
        for k in 0..8 {
            blocks[k] = next_block(&mut seed);
        }
        let plain = blocks;
        encrypt8(&schedule, &mut blocks);
        for k in 0..8 {
            assert_eq!(rt; blocks[k], schedule.encrypt(&plain[k]));
        }
    }
}

#[test]
fn counts_eight_numbers(rt: HostRuntime) {
    let schedule = Schedule::of(&[7; 16]);
    let keys = LaneKeys::of(&schedule);
    for first in [0, 248, 65528, 1 << 100] {
        let blocks = keys.encrypt_numbers(first);
        for k in 0..8 {
            let number = first + k as u128;
            assert_eq!(rt; blocks[k], schedule.encrypt(&number.to_be_bytes()));
        }
    }
}
