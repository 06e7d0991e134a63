//! A pass that plays a list of claims.
ghost use Rattle.std.specs.Prelude.{◌≡◌, ◌≤◌, ◌^◌, ◌∷◌, [], IsTrue, not, length};
ghost use Rattle.tr_io.specs.PortSteps.{Adds};

use hop_crypto::DoneParts;
use tr_io::step::Step;

/// What a claim finds.
#[derive(Clone, Copy, PartialEq, Eq)]
pub(super) enum Find {
    /// A body that goes back, of this claim.
    Body(u8),
    /// Nothing.
    Nothing,
    /// No memory.
    NoMemory,
}

/// What the claims find, the last of the list first, and then that the relay has halted; the steps that
/// were made; and what came back.
#[derive(Drop)]
pub(super) struct PlayPass {
    pub(super) finds: Vec<Find>,
    pub(super) steps: Vec<Step>,
    pub(super) returns: Vec<DoneParts>,
    pub(super) steps_left: u32,
    ghost few: { length steps.items ≤ 2 ^ 62 },
}

impl PlayPass {
    /// Keeps a step; false where no more are left, or no memory.
    pub(super) fn keep(&mut self, step: Step) -> bool
        ensures kept { IsTrue result → Adds self.old.steps.items (step ∷ []) self.new.steps.items }
        ensures lost { IsTrue (not result) → self.new.steps.items ≡ self.old.steps.items }
    {
        if self.steps_left == 0 || self.steps.len() >= 1 << 62 {
            return false;
        }
        self.steps_left -= 1;
        self.steps.push(step).is_ok()
    }
}
