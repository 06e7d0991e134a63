//! Why a stream ended: the reasons in END (tor-spec, "Closing streams").

/// None of the other reasons, or none that is told.
pub const MISC: u8 = 1;

/// The name couldn't be looked up.
pub const RESOLVE_FAILED: u8 = 2;

/// The other side refused the connection.
pub const CONNECT_REFUSED: u8 = 3;

/// The exit doesn't connect there.
pub const EXIT_POLICY: u8 = 4;

/// The circuit is being torn down.
pub const DESTROY: u8 = 5;

/// The connection was closed in good order.
pub const DONE: u8 = 6;

/// The connection took too long.
pub const TIMEOUT: u8 = 7;

/// There is no way to the other side.
pub const NO_ROUTE: u8 = 8;

/// The exit saves its bandwidth.
pub const HIBERNATING: u8 = 9;

/// An error inside the exit.
pub const INTERNAL: u8 = 10;

/// The exit has no room for the stream.
pub const RESOURCE_LIMIT: u8 = 11;

/// The other side reset the connection.
pub const CONNECTION_RESET: u8 = 12;

/// The protocol was violated.
pub const TOR_PROTOCOL: u8 = 13;

/// A directory was asked for, and this relay isn't one.
pub const NOT_DIRECTORY: u8 = 14;
