use cell_codec::Bytes;
use tr_io::names::Dest;

/// A name that a stream may reach, and where it leads.
#[derive(Drop)]
pub struct AllowedName {
    /// The host name, 1 to 255 bytes other than zero. ASCII letters are compared without case.
    pub host: Bytes,
    /// The port, other than 0.
    pub port: u16,
    /// Where a stream to this host and port is connected.
    pub to: Dest,
}
