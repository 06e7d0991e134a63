//! Cells on one circuit.

/// A cell on a circuit without its CircID.
#[derive(Clone, Copy, Debug, PartialEq, Eq)]
pub struct CircuitCell {
    /// The cell command.
    pub command: u8,
    /// The payload of 509 bytes.
    pub body: [u8; 509],
}
