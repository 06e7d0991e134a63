//! What a box stands for, and the two steps on it.
ghost use Rattle.std.specs.Prelude.{true};
ghost use Rattle.berth.specs.declared.note.BoxStep.TheVariants.{Put, Take};
ghost use Rattle.berth.specs.Notes.{StandsForSteps, AnswersAreRight};

use crate::note::{BerthNote, BoxStep, NoteBox};
use tr_io::stepping::{Kept, Stepping};

impl Kept for NoteBox {
    type Step = BoxStep;

    type Start = ();

    ghost stands = { StandsForSteps };

    ghost is_legal = { AnswersAreRight };

    fn start_laws(&self) {}

    ghost only_legal = { λ s b h p. p.1 };
}

/// Puts a note into the box, if it is empty.
#[derive(Drop)]
pub struct PutNote {
    /// The note.
    pub note: BerthNote,
}

/// Takes the note out of the box, if one lies there.
#[derive(Drop)]
pub struct TakeNote;

impl Stepping<NoteBox> for PutNote {
    type Answer = bool;

    ghost step_of = { λ s a. Put s.note a };

    ghost counts = { λ _. true };

    fn apply(&mut self, state: &mut NoteBox) -> (bool, bool) {
        if state.note.is_some() {
            return (true, false);
        }
        state.note = Some(self.note);
        (true, true)
    }
}

impl Stepping<NoteBox> for TakeNote {
    type Answer = Option<BerthNote>;

    ghost step_of = { λ _ a. Take a };

    ghost counts = { λ _. true };

    fn apply(&mut self, state: &mut NoteBox) -> (bool, Option<BerthNote>) {
        (true, state.note.take())
    }
}
