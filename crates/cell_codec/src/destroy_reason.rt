//! Why a circuit ends: the reasons in DESTROY and in TRUNCATED (tor-spec, "Tearing down circuits").

/// No reason is given.
pub const NONE: u8 = 0;

/// The protocol was violated.
pub const PROTOCOL: u8 = 1;

/// An error inside the relay.
pub const INTERNAL: u8 = 2;

/// The client asked for it by TRUNCATE.
pub const REQUESTED: u8 = 3;

/// The relay saves its bandwidth.
pub const HIBERNATING: u8 = 4;

/// Memory, sockets or CircIDs are used up.
pub const RESOURCE_LIMIT: u8 = 5;

/// The next relay couldn't be reached.
pub const CONNECT_FAILED: u8 = 6;

/// The next relay isn't the one that was asked for.
pub const OR_IDENTITY: u8 = 7;

/// The channel that carried the circuit ended.
pub const CHANNEL_CLOSED: u8 = 8;

/// The circuit is too old.
pub const FINISHED: u8 = 9;

/// The circuit took too long to build.
pub const TIMEOUT: u8 = 10;

/// The circuit was ended by DESTROY.
pub const DESTROYED: u8 = 11;

/// The onion service isn't known.
pub const NO_SUCH_SERVICE: u8 = 12;
