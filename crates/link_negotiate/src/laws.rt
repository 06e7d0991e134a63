//! Laws of the negotiation over every list of cells. Each function says one and does nothing.

ghost use Rattle.std.specs.Prelude.{◌≡◌, List, true, false};
ghost use Rattle.tor_spec.specs.CellEncoding.{WireCell};
ghost use Rattle.link_negotiate.specs.Negotiation.{opening_side, answering_side, step_answer, side_after_all};
ghost use Rattle.link_negotiate.specs.History.{answer_by_history};

/// Whatever cells came before, the answer to the next follows from their list alone: the first is to be
/// VERSIONS, and the first behind it that isn't passed over NETINFO.
pub fn answers_follow_from_the_cells_so_far()
    ensures opening { (before : List WireCell) (c : WireCell) →
        step_answer (side_after_all opening_side before) c ≡ answer_by_history true before c }
    ensures answering { (before : List WireCell) (c : WireCell) →
        step_answer (side_after_all answering_side before) c ≡ answer_by_history false before c }
{}
