//! What a circuit's SENDME is worth.

/// The answer to a SENDME of a circuit (proposal 289).
#[derive(Clone, Copy, Debug, PartialEq, Eq)]
pub enum ProofAnswer {
    /// It has the oldest proof that is owed, or needs none: it raises the window by 100 cells.
    Good,
    /// It has another proof. Nothing changed.
    Wrong {
        /// The proof that is owed.
        expected: [u8; 20],
        /// The proof that it has.
        given: [u8; 20],
    },
    /// Its form is right, and none is owed. Nothing changed.
    NoneOwed,
    /// Its payload isn't that of a circuit's SENDME of an accepted version. Nothing changed.
    BadForm,
}
