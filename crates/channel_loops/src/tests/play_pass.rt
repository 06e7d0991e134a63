//! A pass that plays what leaves on a channel.
ghost use Rattle.std.specs.Prelude.{◌≡◌, ◌∷◌, [], IsTrue, not};
ghost use Rattle.tr_io.specs.PortSteps.{Adds};

use tr_io::step::Step;

/// What `next_cell` finds.
#[derive(Clone, Copy, PartialEq, Eq)]
pub(super) enum Find {
    /// A cell whose body has this byte at each place.
    Body(u8),
    /// Nothing, on a live channel.
    Nothing,
}

/// What is found, the last of the list first, and then that the relay has halted or, where `has_end` says so, that
/// the channel isn't live; the steps that were made, and how many are left.
#[derive(Drop)]
pub(super) struct PlayPass {
    pub(super) finds: Vec<Find>,
    pub(super) has_end: bool,
    pub(super) steps: Vec<Step>,
    pub(super) steps_left: u32,
}

impl PlayPass {
    /// Keeps a step; false where no more are left, or no memory.
    pub(super) fn keep(&mut self, step: Step) -> bool
        ensures kept { IsTrue result → Adds self.old.steps.items (step ∷ []) self.new.steps.items }
        ensures lost { IsTrue (not result) → self.new.steps.items ≡ self.old.steps.items }
    {
        if self.steps_left == 0 || self.steps.len() >= 1 << 62 {
            return false;
        }
        self.steps_left -= 1;
        self.steps.push(step).is_ok()
    }
}
