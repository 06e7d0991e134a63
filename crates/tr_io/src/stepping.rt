//! A state that stands for a list of steps, and one step on it.
//!
//! A lock over such a state has a history: the list of the steps that were made under it, oldest
//! first. The history is plain data that proofs alone see.
ghost use Rattle.std.specs.Prelude.{◌≡◌, ℕ, ◌+◌, ◌<◌, ◌^◌, List, [], ◌∷◌, ◌++◌, Bool, IsTrue, not, length};

/// A state that stands for a list of steps made from a start.
pub trait Kept {
    /// A step with its arguments and its answer.
    type Step;

    /// What no step changes.
    type Start;

    /// The state stands for the steps, oldest first, from the start.
    ghost stands: { Self → Self.Start → List Self.Step → Type 0 };

    /// The steps, each with its answer, may be made from the start, one after the other.
    ghost is_legal: { Self.Start → List Self.Step → Type 0 };

    /// Does nothing. The member below it is a law.
    fn start_laws(&self);

    /// A state stands only for legal steps.
    ghost only_legal: { (s : Self) (b : Self.Start) (h : List Self.Step) → stands s b h → is_legal b h };
}

/// One step on a state.
pub trait Stepping<T: Kept> {
    /// What the step tells who makes it.
    type Answer;

    /// The step of a history that this one makes with an answer.
    ghost step_of: { Self → Self.Answer → T.Step };

    /// Whether the step counts with an answer: then it is a step of the history, and else it has
    /// changed nothing.
    ghost counts: { Self.Answer → Bool };

    /// Makes the step: whether it counts, and its answer.
    fn apply(&mut self, state: &mut T) -> (bool, Self::Answer)
        requires { (b : T.Start) × ((h : List T.Step) × (T.stands state.old b h × (length h < 2 ^ 62))) }
        ensures counted { result.0 ≡ counts result.1 }
        ensures step { IsTrue result.0 → (b : T.Start) (h : List T.Step) → T.stands state.old b h →
            T.stands state.new b (h ++ step_of self.old result.1 ∷ []) }
        ensures same { IsTrue (not result.0) → (b : T.Start) (h : List T.Step) → T.stands state.old b h →
            T.stands state.new b h };

    /// Whether others may have work to do because of this answer. A lock wakes by it those that
    /// parked: a step that says no wakes nobody, so where it is in doubt, it says yes.
    fn gives_work(&self, _answer: &Self::Answer) -> bool {
        true
    }
}

/// What a turn gives.
#[derive(Drop)]
pub enum Turn<A> {
    /// The step's answer.
    Did(A),
    /// The history has 2^62 steps, which is all that are counted. No step was made.
    Spent,
}
