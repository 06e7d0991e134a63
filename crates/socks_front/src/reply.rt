//! Replies (RFC 1928, sections 3 and 6).

ghost use Rattle.std.specs.Prelude.{◌≡◌};
ghost use Rattle.socks_front.specs.Messages.{reply};

/// The version of SOCKS, the first byte of each message.
pub const VERSION: u8 = 5;

/// The type of an IPv4 address.
pub const IPV4: u8 = 0x01;

/// The type of a name.
pub const NAME: u8 = 0x03;

/// The method "no authentication required".
pub const NO_AUTHENTICATION: u8 = 0x00;

/// In place of a method: none of those that are offered is acceptable.
pub const NO_ACCEPTABLE_METHOD: u8 = 0xff;

/// The reply "general SOCKS server failure".
pub const GENERAL_FAILURE: u8 = 0x01;

/// The reply "command not supported".
pub const COMMAND_NOT_SUPPORTED: u8 = 0x07;

/// The reply "address type not supported".
pub const KIND_NOT_SUPPORTED: u8 = 0x08;

/// The reply with this code, IPv4 address and port.
#[tactic(auto, unfolding(crate::specs::Messages::reply))]
pub fn reply_bytes(code: u8, ip: [u8; 4], port: u16) -> [u8; 10]
    ensures { result ≡ reply code ip port }
{
    let [high, low] = port.to_be_bytes();
    let mut bytes = [VERSION, code, 0, IPV4, 0, 0, 0, 0, high, low];
    bytes[4..8].copy_from_slice(&ip);
    bytes
}
