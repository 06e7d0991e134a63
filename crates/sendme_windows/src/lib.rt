//! A circuit's windows of DATA cells at one side (tor-spec, "Circuit-level flow control"), with
//! authenticated SENDMEs (proposal 289).
//!
//! `Windows` says how many DATA cells may be packaged, keeps the digests by which the other side's
//! SENDMEs prove that it read them, and says when a SENDME is due for what came from there. It takes
//! no memory.
#![tactic(auto)]

pub mod laws;
mod proof_answer;

ghost use Rattle.std.specs.Prelude.{◌≡◌, ℕ, ◌+◌, ◌^◌, ◌<◌, ◌≤◌, ◌↔◌, IsTrue, Option, Some};
ghost use Rattle.std.specs.Option.{option_map};
ghost use Rattle.tor_spec.specs.CircuitWindow.{CircuitWindow, circuit_start, least_start, fresh_window, after_packaging, after_accepting, next_owed, is_sendme_due};
ghost use Rattle.tor_spec.specs.Sendme.{needs_no_proof};
ghost use Rattle.sendme_windows.specs.WindowsState.{HasCountsOf, HasRoom, KeepsLimits};
ghost use Rattle.sendme_windows.specs.Answers.{answer_to, judged, window_after};

pub use proof_answer::ProofAnswer;
use relay_cell::{is_version_0, read_proof};
use std::marker::Model;

#[cfg(test)]
mod tests;

/// The cells by which each SENDME raises the window.
const STEP: u64 = 100;

/// The proofs that may wait at a time.
const MOST_OWED: usize = 10;

/// Both windows of a circuit at one side.
///
/// Contracts see what it was made with, the calls made, the counts, and the proofs that are owed;
/// `HasCountsOf` ties them to the cells and SENDMEs that went by.
#[derive(Drop)]
pub struct Windows {
    start: u32,
    least: u8,
    calls: u64,
    packed_count: u64,
    good_count: u64,
    accepted_count: u64,
    owed_proofs: [[u8; 20]; MOST_OWED],
    owed_count: usize,
}

impl Model for Windows {
    ghost use Rattle.sendme_windows.specs.WindowsState.{WindowsState};

    ghost Value = { WindowsState };

    ghost use Rattle.sendme_windows.specs.Counts.{state_of, InStep};

    ghost view = { state_of };

    ghost invariant = { InStep };
}

impl Windows {
    /// The windows of a circuit that was just opened: `start` DATA cells, 100 to 1000, may be packaged
    /// before the first SENDME, and SENDMEs of version `least`, 0 or 1, and above are accepted.
    #[tactic(auto, unfolding(tor_spec::specs::CircuitWindow::proofs))]
    pub fn new(start: u32, least: u8) -> Windows
        requires least_start { least_start ≤ start }
        requires most_start { start ≤ circuit_start }
        requires version { least ≤ 1 }
        ensures stands { HasCountsOf result fresh_window }
        ensures start { result.start ≡ start }
        ensures least { result.least ≡ least }
        ensures calls { result.calls ≡ 0 }
    {
        Windows {
            start,
            least,
            calls: 0,
            packed_count: 0,
            good_count: 0,
            accepted_count: 0,
            owed_proofs: [[0; 20]; MOST_OWED],
            owed_count: 0,
        }
    }

    /// Whether one more DATA cell may be packaged: as many may be as the window began with, and a SENDME's
    /// step more for each one that was good.
    pub fn may_pack(&self) -> bool
        ensures { IsTrue result ↔ HasRoom self.now }
    {
        self.packed_count < u64::from(self.start) + STEP * self.good_count
    }

    /// Counts a DATA cell that is packaged; `digest` is the running digest after it.
    pub fn packed(&mut self, digest: &[u8; 20])
        requires calls { self.old.calls < 2 ^ 63 }
        requires room { HasRoom self.old }
        ensures stands { (w : CircuitWindow) → HasCountsOf self.old w → HasCountsOf self.new (after_packaging w digest.now) }
        ensures limits { KeepsLimits self.old self.new }
        ensures calls { self.new.calls ≡ self.old.calls + 1 }
    {
        self.calls += 1;
        self.packed_count += 1;
        if self.packed_count % STEP == 0 {
            self.owed_proofs[self.owed_count] = *digest;
            self.owed_count += 1;
        }
    }

    /// Judges a SENDME of the circuit by its payload: `BadForm` exactly where it needs a proof and has none
    /// of the right form, else `NoneOwed` exactly where no proof waits, else `Wrong` exactly where it has
    /// another than the oldest.
    pub fn proof_of(&mut self, payload: &[u8]) -> ProofAnswer
        requires { self.old.calls < 2 ^ 63 }
        ensures answer { (w : CircuitWindow) → HasCountsOf self.old w → result ≡ answer_to self.old.least w payload.now }
        ensures stands { (w : CircuitWindow) → HasCountsOf self.old w → HasCountsOf self.new (window_after result w) }
        ensures limits { KeepsLimits self.old self.new }
        ensures calls { self.new.calls ≡ self.old.calls + 1 }
    {
        self.calls += 1;
        if self.least == 0 && is_version_0(payload) {
            return self.judge(None);
        }
        match read_proof(payload) {
            Some(proof) => self.judge(Some(proof)),
            None => ProofAnswer::BadForm,
        }
    }

    /// Judges a SENDME by its proof, or one that needs none.
    fn judge(&mut self, proof: Option<[u8; 20]>) -> ProofAnswer
        ensures answer { (w : CircuitWindow) → HasCountsOf self.old w → result ≡ judged (next_owed w) proof }
        ensures stands { (w : CircuitWindow) → HasCountsOf self.old w → HasCountsOf self.new (window_after result w) }
        ensures limits { KeepsLimits self.old self.new }
        ensures calls { self.new.calls ≡ self.old.calls }
    {
        if self.owed_count == 0 {
            return ProofAnswer::NoneOwed;
        }
        let owed_proof = self.owed_proofs[0];
        if let Some(proof) = proof {
            if proof != owed_proof {
                return ProofAnswer::Wrong {
                    expected: owed_proof,
                    given: proof,
                };
            }
        }
        self.owed_proofs.rotate_left(1);
        self.owed_count -= 1;
        self.good_count += 1;
        ProofAnswer::Good
    }

    /// Counts a DATA cell of the other side that is accepted, and says whether a SENDME is due for
    /// it: for each 100th one.
    pub fn accepted(&mut self) -> bool
        requires { self.old.calls < 2 ^ 63 }
        ensures due { (w : CircuitWindow) → HasCountsOf self.old w → result ≡ is_sendme_due (after_accepting w).accepted }
        ensures stands { (w : CircuitWindow) → HasCountsOf self.old w → HasCountsOf self.new (after_accepting w) }
        ensures limits { KeepsLimits self.old self.new }
        ensures calls { self.new.calls ≡ self.old.calls + 1 }
    {
        self.calls += 1;
        self.accepted_count += 1;
        self.accepted_count % STEP == 0
    }

    /// How many DATA cells were packaged.
    pub fn count(&self) -> u64
        ensures { result ≡ self.now.packed }
    {
        self.packed_count
    }
}
