//! Where a TCP connection leads.

/// An IPv4 address and a port.
#[derive(Clone, Copy, Debug, PartialEq, Eq)]
pub struct Address {
    /// The four bytes of the address.
    pub ip: [u8; 4],
    /// The port.
    pub port: u16,
}
