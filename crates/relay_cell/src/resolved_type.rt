//! The types of the answers in RESOLVED (tor-spec, "Remote hostname lookup").

/// A host name.
pub const HOST_NAME: u8 = 0x00;

/// An IPv4 address, of 4 bytes.
pub const IPV4: u8 = 0x04;

/// An IPv6 address, of 16 bytes.
pub const IPV6: u8 = 0x06;

/// An error that may pass.
pub const TRANSIENT_ERROR: u8 = 0xf0;

/// An error that will last.
pub const LASTING_ERROR: u8 = 0xf1;
