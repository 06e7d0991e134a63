ghost use Rattle.std.specs.Prelude.{◌≡◌};

/// The commands that are known (RFC 1928, section 4; Tor's extensions of SOCKS).
#[derive(Clone, Copy)]
pub enum SocksCommand {
    /// A connection.
    Connect,
    /// The address of a host.
    Resolve,
}

const CONNECT: u8 = 0x01;

const RESOLVE: u8 = 0xf0;

impl SocksCommand {
    ghost use Rattle.socks_front.specs.Reading.{command_of};

    /// The command with this number, if it is known.
    pub fn of(number: u8) -> Option<SocksCommand>
        ensures { result ≡ command_of number }
    {
        match number {
            CONNECT => Some(SocksCommand::Connect),
            RESOLVE => Some(SocksCommand::Resolve),
            _ => None,
        }
    }
}
