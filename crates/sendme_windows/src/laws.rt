//! The words of this crate's contracts in those of `tor_spec`. Each function says so and does nothing.

ghost use Rattle.std.specs.Prelude.{◌≡◌, ◌↔◌, IsTrue};
ghost use Rattle.tor_spec.specs.CircuitWindow.{CircuitWindow, circuit_step, may_package, most_owed};
ghost use Rattle.sendme_windows.specs.WindowsState.{WindowsState, HasCountsOf, HasRoom};

use crate::{MOST_OWED, STEP};

/// There is room for one more DATA cell exactly where the standard lets one be packaged.
pub fn room_is_the_standards()
    ensures { (state : WindowsState) (w : CircuitWindow) → HasCountsOf state w →
        HasRoom state ↔ IsTrue (may_package state.start w) }
{}

/// The step of a SENDME, and how many proofs may wait.
pub fn numbers_are_the_standards()
    ensures step { STEP ≡ circuit_step }
    ensures most_owed { MOST_OWED ≡ most_owed }
{}
