//! The random words of a slot.
ghost use Rattle.std.specs.Prelude.{◌≡◌, ℕ, ◌+◌, ◌%◌, ◌^◌, List};

/// A slot's random words, which never fails: draws of 20 bytes, numbered from 0 to 2^64 - 1 and then from
/// 0 again.
pub trait WordSlot {
    /// The draw with this number. No call changes it.
    ghost draws: { Self → ℕ → List ℕ };

    /// The number of the next draw.
    ghost next: { Self → ℕ };

    /// The next draw.
    fn twenty(&mut self) -> [u8; 20]
        ensures draw { result ≡ draws self.old (next self.old) }
        ensures draws { draws self.new ≡ draws self.old }
        ensures next { next self.new ≡ (next self.old + 1) % 2 ^ 64 };
}

/// Words that are the draws' numbers: each of the 20 bytes of draw n is n modulo 256.
#[derive(Drop)]
pub struct CountingWords {
    next: u64,
}

impl CountingWords {
    ghost use Rattle.std.specs.Prelude.{◌≡◌};

    /// The words from draw 0 on.
    pub fn new() -> CountingWords
        ensures { result.next ≡ 0 }
    {
        CountingWords { next: 0 }
    }
}

impl WordSlot for CountingWords {
    ghost use Rattle.tr_io.specs.Draws.{counting_draw};

    ghost draws = { λ _. counting_draw };

    ghost next = { λ w. w.next };

    fn twenty(&mut self) -> [u8; 20] {
        let byte = (self.next % 256) as u8;
        self.next = self.next.wrapping_add(1);
        [byte; 20]
    }
}
