use cell_codec::Bytes;

/// What a client asks for.
#[derive(Drop)]
pub enum SocksWant {
    /// A connection.
    Connect {
        /// A name of 1 to 255 bytes other than zero, as the client wrote it, or an IPv4 address as a text
        /// with dots.
        host: Bytes,
        /// A port other than 0.
        port: u16,
    },
    /// The address of a host.
    Resolve {
        /// As that of a connection.
        host: Bytes,
    },
}
