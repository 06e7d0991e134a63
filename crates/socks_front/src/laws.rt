//! Laws of the reading. Each function says one and does nothing.

ghost use Rattle.std.specs.Prelude.{◌≡◌, ◌↔◌, ◌++◌, ℕ, List, true};
ghost use Rattle.tor_spec.specs.CellStream.{IsBytes};
ghost use Rattle.socks_front.specs.Reading.{Wish, is_end, outcome};
ghost use Rattle.socks_front.specs.Reading.Outcome.{Asks};
ghost use Rattle.socks_front.specs.Spelling.{SpellsWish};

/// What bytes ask for is what they spell; where they ask for nothing, they spell nothing.
pub fn requests_are_read_as_spelled()
    ensures { (bytes : List ℕ) (wish : Wish) → IsBytes bytes → SpellsWish bytes wish ↔ (outcome bytes ≡ Asks wish) }
{}

/// Behind a request or a refusal no byte changes what was read.
pub fn an_end_stays()
    ensures { (bytes more : List ℕ) → is_end (outcome bytes) ≡ true → outcome (bytes ++ more) ≡ outcome bytes }
{}
