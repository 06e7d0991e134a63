/// Bytes of a CircID.
pub const CIRC: usize = 4;

/// Bytes of the CircID of a link's first cell.
pub const FIRST_CIRC: usize = 2;

/// Bytes of a command.
pub const COMMAND: usize = 1;

/// Bytes of the length of a variable-length payload.
pub const LENGTH: usize = 2;

/// Bytes of a fixed-length payload.
pub const PAYLOAD: usize = 509;

/// The least command, beside VERSIONS, of a cell of variable length.
pub const LEAST_VARIABLE: u8 = 128;
