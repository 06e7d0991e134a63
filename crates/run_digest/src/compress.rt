//! The 80 rounds that take a block into a hash value (FIPS 180-4, 6.1.2).

ghost use Rattle.std.specs.Prelude.{◌≡◌, ℕ, ◌+◌, ◌≤◌, List, length};
ghost use Rattle.sha1.specs.Sha1.{add_state, round, round_constant, round_fn, rounds, schedule};
ghost use Rattle.sha1.specs.Sha1.{compress as compressed};
ghost use Rattle.run_digest.specs.Words.{HasWords};

use crate::schedule::{begin, extend};

/// Takes `block`, which has 64 bytes, into the hash value `hash`.
pub fn compress(hash: &mut [u32; 5], block: &[u8])
    requires { length block.now ≡ 64 }
    ensures { hash.new ≡ compressed hash.old block.now }
{
    let mut words = [0; 80];
    let v = Variables {
        a: hash[0],
        b: hash[1],
        c: hash[2],
        d: hash[3],
        e: hash[4],
    };
    begin(&mut words, block);
    extend(&mut words, 0);
    let v = v.after_stage(Stage::Choose, &words);
    extend(&mut words, 16);
    let v = v.after_stage(Stage::Parity, &words);
    extend(&mut words, 32);
    let v = v.after_stage(Stage::Majority, &words);
    extend(&mut words, 48);
    let v = v.after_stage(Stage::ParityAgain, &words);
    v.add_to(hash);
}

// The working variables of the rounds.
#[derive(Clone, Copy)]
struct Variables {
    a: u32,
    b: u32,
    c: u32,
    d: u32,
    e: u32,
}

impl Variables {
    ghost use Rattle.run_digest.specs.Stage.{first_of};
    ghost use Rattle.run_digest.specs.Variables.{list_of};

    // After the 20 rounds of a stage.
    #[inline(always)]
    fn after_stage(self, stage: Stage, words: &[u32; 80]) -> Variables
        ensures { (hash block : List ℕ) → HasWords block (first_of stage + 20) words.now →
            list_of self ≡ rounds hash (schedule block 64) (first_of stage) →
            list_of result ≡ rounds hash (schedule block 64) (first_of stage + 20) }
    {
        let first = stage.first_round();
        let mut v = self;
        for five in 0..4 {
            v = v.after_five(stage, first + 5 * five, words);
        }
        v
    }

    // After five rounds of a stage, those from round t on.
    #[inline(always)]
    fn after_five(self, stage: Stage, t: usize, words: &[u32; 80]) -> Variables
        requires from { first_of stage ≤ t }
        requires to { t + 5 ≤ first_of stage + 20 }
        requires room { t + 5 ≤ 80 }
        ensures { (hash block : List ℕ) → HasWords block (t + 5) words.now → list_of self ≡ rounds hash (schedule block 64) t →
            list_of result ≡ rounds hash (schedule block 64) (t + 5) }
    {
        self.after_round(stage, words[t])
            .after_round(stage, words[t + 1])
            .after_round(stage, words[t + 2])
            .after_round(stage, words[t + 3])
            .after_round(stage, words[t + 4])
    }

    // After a round of a stage (step 3).
    #[inline(always)]
    fn after_round(self, stage: Stage, word: u32) -> Variables
        ensures { list_of result ≡ round (list_of self) (round_fn (first_of stage) self.b self.c self.d)
            (round_constant (first_of stage)) word }
    {
        let Variables { a, b, c, d, e } = self;
        let mixed = stage.mix(b, c, d);
        Variables {
            a: a.rotate_left(5)
                .wrapping_add(mixed)
                .wrapping_add(e)
                .wrapping_add(stage.constant())
                .wrapping_add(word),
            b: a,
            c: b.rotate_left(30),
            d: c,
            e: d,
        }
    }

    // Adds the variables to the hash value (step 4).
    fn add_to(self, hash: &mut [u32; 5])
        ensures { hash.new ≡ add_state hash.old (list_of self) }
    {
        hash[0] = hash[0].wrapping_add(self.a);
        hash[1] = hash[1].wrapping_add(self.b);
        hash[2] = hash[2].wrapping_add(self.c);
        hash[3] = hash[3].wrapping_add(self.d);
        hash[4] = hash[4].wrapping_add(self.e);
    }
}

// The four stages of 20 rounds each, named for the function that their rounds use.
#[derive(Clone, Copy)]
enum Stage {
    Choose,
    Parity,
    Majority,
    ParityAgain,
}

impl Stage {
    ghost use Rattle.run_digest.specs.Stage.{first_of};

    fn first_round(self) -> usize
        ensures first { result ≡ first_of self }
        ensures low { result ≤ 60 }
    {
        match self {
            Stage::Choose => 0,
            Stage::Parity => 20,
            Stage::Majority => 40,
            Stage::ParityAgain => 60,
        }
    }

    // The function of the rounds (4.1.1).
    fn mix(self, x: u32, y: u32, z: u32) -> u32
        ensures { result ≡ round_fn (first_of self) x y z }
    {
        match self {
            Stage::Choose => (x & y) ^ (!x & z),
            Stage::Majority => (x & y) ^ (x & z) ^ (y & z),
            Stage::Parity | Stage::ParityAgain => x ^ y ^ z,
        }
    }

    // The constant of the rounds (4.2.1).
    fn constant(self) -> u32
        ensures { result ≡ round_constant (first_of self) }
    {
        match self {
            Stage::Choose => 0x5a82_7999,
            Stage::Parity => 0x6ed9_eba1,
            Stage::Majority => 0x8f1b_bcdc,
            Stage::ParityAgain => 0xca62_c1d6,
        }
    }
}
