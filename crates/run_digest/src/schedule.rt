//! The message schedule of SHA-1 (FIPS 180-4, 6.1.2, step 1), four words at a time.
//!
//! Word t is made of words t - 3, t - 8, t - 14 and t - 16, so of four words in a row only the last
//! needs one of the others, the first. It is made without it, and then gets that one's share.

ghost use Rattle.std.specs.Prelude.{◌≡◌, ℕ, ◌+◌, ◌*◌, ◌≤◌, List, length, map};
ghost use Rattle.std.specs.Int.{w32, rotate_left};
ghost use Rattle.sha1.specs.Sha1.{word_at};
ghost use Rattle.run_digest.specs.Words.{HasWords, four_words};

use std::simd::prelude::*;

/// Writes the 16 words of `block`, which has 64 bytes.
pub fn begin(words: &mut [u32; 80], block: &[u8])
    requires { length block.now ≡ 64 }
    ensures { HasWords block.now 16 words.new }
{
    for i in 0..16 {
        words[i] = word_of(block, i);
    }
}

/// Writes 16 words behind the 16 from `from` on.
pub fn extend(words: &mut [u32; 80], from: usize)
    requires { from + 32 ≤ 80 }
    ensures { (block : List ℕ) → HasWords block (from + 16) words.old → HasWords block (from + 32) words.new }
{
    let a = load(words, from);
    let b = load(words, from + 4);
    let c = load(words, from + 8);
    let d = load(words, from + 12);
    let e = next_four(a, b, c, d);
    let f = next_four(b, c, d, e);
    let g = next_four(c, d, e, f);
    let h = next_four(d, e, f, g);
    store(words, from + 16, e);
    store(words, from + 20, f);
    store(words, from + 24, g);
    store(words, from + 28, h);
}

// Word `i` of a block.
fn word_of(block: &[u8], i: usize) -> u32
    requires { 4 * i + 4 ≤ length block.now }
    ensures { result ≡ word_at block.now (4 * i) }
{
    let at = 4 * i;
    u32::from_be_bytes([block[at], block[at + 1], block[at + 2], block[at + 3]])
}

fn load(words: &[u32; 80], at: usize) -> u32x4
    requires { at + 4 ≤ 80 }
    ensures { (block : List ℕ) (n : ℕ) → at + 4 ≤ n → HasWords block n words.now → result ≡ four_words block at }
{
    u32x4::from_slice(&words[at..at + 4])
}

fn store(words: &mut [u32; 80], at: usize, four: u32x4)
    requires { at + 4 ≤ 80 }
    ensures { (block : List ℕ) → HasWords block at words.old → four ≡ four_words block at → HasWords block (at + 4) words.new }
{
    four.copy_to_slice(&mut words[at..at + 4]);
}

// The four words behind these sixteen.
fn next_four(a: u32x4, b: u32x4, c: u32x4, d: u32x4) -> u32x4
    ensures { (block : List ℕ) (n : ℕ) → n + 20 ≤ 80 → a ≡ four_words block n → b ≡ four_words block (n + 4) →
        c ≡ four_words block (n + 8) → d ≡ four_words block (n + 12) → result ≡ four_words block (n + 16) }
{
    let zeros = u32x4::splat(0);
    let but_first = turn(d.shuffle(zeros, [1, 2, 3, 4]) ^ c ^ a.shuffle(b, [2, 3, 4, 5]) ^ a);
    but_first ^ turn(zeros.shuffle(but_first, [0, 1, 2, 4]))
}

// Each word rotated left by one bit.
fn turn(words: u32x4) -> u32x4
    requires { length words ≡ 4 }
    ensures { result ≡ map (λ w. rotate_left w32 w 1) words }
{
    (words << u32x4::splat(1)) | (words >> u32x4::splat(31))
}
