//! The commands of cells (tor-spec, "Cell format").

/// Padding of a link, of fixed length.
pub const PADDING: u8 = 0;

/// Asks for a circuit, by the old handshake.
pub const CREATE: u8 = 1;

/// Answers CREATE.
pub const CREATED: u8 = 2;

/// Carries a relay cell.
pub const RELAY: u8 = 3;

/// Ends a circuit.
pub const DESTROY: u8 = 4;

/// Asks for a circuit without public keys.
pub const CREATE_FAST: u8 = 5;

/// Answers CREATE_FAST.
pub const CREATED_FAST: u8 = 6;

/// Lists the link protocols that the sender speaks.
pub const VERSIONS: u8 = 7;

/// Tells time and addresses, and ends a link's negotiation.
pub const NETINFO: u8 = 8;

/// Carries a relay cell that may extend its circuit.
pub const RELAY_EARLY: u8 = 9;

/// Asks for a circuit, by a handshake of the named type.
pub const CREATE2: u8 = 10;

/// Answers CREATE2.
pub const CREATED2: u8 = 11;

/// Asks for another padding of the link; link protocol 5 brought it.
pub const PADDING_NEGOTIATE: u8 = 12;

/// Padding of a link, of variable length.
pub const VPADDING: u8 = 128;

/// Certificates of the side that accepted the connection.
pub const CERTS: u8 = 129;

/// Asks the other side to authenticate itself.
pub const AUTH_CHALLENGE: u8 = 130;

/// Answers AUTH_CHALLENGE.
pub const AUTHENTICATE: u8 = 131;

/// Kept free by the standard for clients that are to show that they may connect.
pub const AUTHORIZE: u8 = 132;
