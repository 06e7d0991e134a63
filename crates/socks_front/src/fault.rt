ghost use Rattle.std.specs.Prelude.{◌≡◌};

use crate::reply::{
    COMMAND_NOT_SUPPORTED, GENERAL_FAILURE, KIND_NOT_SUPPORTED, NO_ACCEPTABLE_METHOD, VERSION,
    reply_bytes,
};

/// Why a client is refused.
#[derive(Clone, Copy, Debug, PartialEq, Eq)]
pub enum SocksFault {
    /// A greeting or a request begins with this byte in place of 5.
    Version(u8),
    /// The greeting doesn't offer to go without authentication.
    NoMethod,
    /// The request has this command, which is neither CONNECT nor RESOLVE.
    Command(u8),
    /// The request has this type of address, which is neither that of IPv4 nor that of a name.
    Kind(u8),
    /// The name is empty or has a zero byte, or a connection to port 0 is asked for.
    Host,
}

/// What a client is told at a refusal.
#[derive(Clone, Copy, Debug, PartialEq, Eq)]
pub enum SocksRefusal {
    /// Nothing.
    Silence,
    /// That no method is acceptable, in place of a method (RFC 1928, section 3).
    Method([u8; 2]),
    /// A reply (RFC 1928, section 6).
    Reply([u8; 10]),
}

impl SocksFault {
    ghost use Rattle.socks_front.specs.Messages.{refusal_bytes};
    ghost use Rattle.socks_front.specs.Refusing.{told_bytes};

    /// What the client is told: nothing where its version is another one, `05 ff` where no method is
    /// acceptable, and else a reply with code 07 (command), 08 (type of address) or 01, whose address and
    /// port are zero.
    #[tactic(auto, unfolding(crate::specs::Messages::refusal_bytes))]
    pub fn refusal(self) -> SocksRefusal
        ensures { told_bytes result ≡ refusal_bytes self }
    {
        let code = match self {
            SocksFault::Version(_) => return SocksRefusal::Silence,
            SocksFault::NoMethod => return SocksRefusal::Method([VERSION, NO_ACCEPTABLE_METHOD]),
            SocksFault::Command(_) => COMMAND_NOT_SUPPORTED,
            SocksFault::Kind(_) => KIND_NOT_SUPPORTED,
            SocksFault::Host => GENERAL_FAILURE,
        };
        SocksRefusal::Reply(reply_bytes(code, [0; 4], 0))
    }
}

impl SocksRefusal {
    ghost use Rattle.socks_front.specs.Refusing.{told_bytes};

    /// The bytes that the client is told.
    pub fn as_slice(&self) -> &[u8]
        ensures { result.now ≡ told_bytes self.now }
    {
        match self {
            SocksRefusal::Silence => &[],
            SocksRefusal::Method(bytes) => bytes.as_slice(),
            SocksRefusal::Reply(bytes) => bytes.as_slice(),
        }
    }
}
