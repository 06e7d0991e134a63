//! Why a path closes.

use sendme_windows::ProofAnswer;

/// Why a path closed.
#[derive(Clone, Copy, Debug, PartialEq, Eq)]
pub enum CloseCause {
    /// A DESTROY came, with this reason (tor-spec, "Tearing down circuits").
    Destroyed(u8),
    /// A hop answered the handshake by a KH that isn't that of the keys: it doesn't have the same
    /// (tor-spec, "CREATE_FAST/CREATED_FAST cells").
    BadKeys {
        /// The KH of the client's keys.
        expected: [u8; 20],
        /// The KH that came.
        given: [u8; 20],
    },
    /// No hop's digest recognises a relay cell (tor-spec, "Routing relay cells").
    Unrecognised,
    /// A SENDME of the circuit was other than good (proposal 289).
    Proof(ProofAnswer),
    /// More DATA or SENDMEs came on this stream than its windows allow (tor-spec, "Stream-level flow
    /// control").
    Overrun(u16),
    /// A relay cell isn't of its form (tor-spec, "Relay cells").
    BadForm,
}
