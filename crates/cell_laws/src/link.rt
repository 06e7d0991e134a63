//! The cells on a link (tor-spec, "Cell format", "Negotiating versions").

ghost use Rattle.std.specs.Prelude.{◌≡◌, ℕ, List, [], ◌∷◌, ◌++◌};
ghost use Rattle.std.specs.List.{flat_map, concat, AllByRecursion};
ghost use Rattle.tor_spec.specs.CellEncoding.{WireCell, encoding, first_encoding};
ghost use Rattle.tor_spec.specs.CellReading.{link_open, link_start, with_piece, refusal, wrong_start};
ghost use Rattle.tor_spec.specs.CellStream.{IsBytes, IsCell, IsFirstCell, whole, whole_first};
ghost use Rattle.cell_laws.specs.Pieces.{in_pieces};
ghost use Rattle.cell_laws.specs.Prefixes.{BeginsWith, OpensWith};

/// In whatever pieces a link comes, the cells read are those of its bytes, and it is refused by the
/// piece that completes a wrong start and by each later one.
#[tactic(auto, using(crate::proofs::Links::later_pieces, crate::proofs::Links::first_pieces, crate::proofs::Links::pieces_refused))]
pub fn cuts_do_not_matter()
    ensures later { (pieces : List (List ℕ)) → (in_pieces link_open pieces).cells ≡ whole (concat pieces) }
    ensures first { (pieces : List (List ℕ)) → (in_pieces link_start pieces).cells ≡ whole_first (concat pieces) }
    ensures refusal { (pieces : List (List ℕ)) (piece : List ℕ) →
        refusal (with_piece (in_pieces link_start pieces).left piece) ≡ wrong_start (concat pieces ++ piece) }
{}

/// The cells that are read are spelled by a prefix of the bytes.
#[tactic(auto, using(crate::proofs::Links::whole_begins, crate::proofs::Links::whole_first_opens))]
pub fn read_cells_are_spelled()
    ensures later { (bytes : List ℕ) → IsBytes bytes → BeginsWith bytes (whole bytes) }
    ensures first { (bytes : List ℕ) → IsBytes bytes → OpensWith bytes (whole_first bytes) }
{}

/// The cells that a prefix spells are read, and perhaps others behind them.
#[tactic(auto, using(crate::proofs::Links::begun_is_read, crate::proofs::Links::opened_is_read))]
pub fn spelled_cells_are_read()
    ensures later { (bytes : List ℕ) (cells : List WireCell) → BeginsWith bytes cells →
        (others : List WireCell) × (whole bytes ≡ cells ++ others) }
    ensures first { (bytes : List ℕ) (cells : List WireCell) → OpensWith bytes cells →
        (others : List WireCell) × (whole_first bytes ≡ cells ++ others) }
{}

/// Cells that are written one after another are read back, those and no others.
#[tactic(auto, using(crate::proofs::Links::written_later, crate::proofs::Links::written_first))]
pub fn written_cells_are_read_back()
    ensures later { (cells : List WireCell) → AllByRecursion IsCell cells → whole (flat_map encoding cells) ≡ cells }
    ensures first { (opening : WireCell) (cells : List WireCell) → IsFirstCell opening → AllByRecursion IsCell cells →
        whole_first (first_encoding opening ++ flat_map encoding cells) ≡ opening ∷ cells }
{}

/// No cell's encoding begins another's.
#[tactic(auto, using(crate::proofs::Encodings::encodings_apart))]
pub fn encodings_differ_before_they_end()
    ensures { (c d : WireCell) (x y : List ℕ) → IsCell c → IsCell d → encoding c ++ x ≡ encoding d ++ y → (c ≡ d) × (x ≡ y) }
{}
