use crate::fault::SocksFault;
use crate::want::SocksWant;

/// What is answered to a client's byte.
#[derive(Drop)]
pub enum SocksAnswer {
    /// A further byte is awaited.
    More,
    /// The greeting has ended. These bytes, which choose "no authentication required", are to be said,
    /// and the request is awaited.
    Say([u8; 2]),
    /// The request has ended. No further byte is awaited.
    Want(SocksWant),
    /// The client is refused. No further byte is awaited.
    Refused(SocksFault),
    /// There was no memory, and the byte was not taken.
    Memory,
}
