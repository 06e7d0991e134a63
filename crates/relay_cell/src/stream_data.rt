//! DATA: bytes of a stream (tor-spec, "Opening streams and transferring data").

ghost use Rattle.std.specs.Prelude.{◌≡◌, ◌≤◌, length};
ghost use Rattle.tor_spec.specs.RelayCell.{data_command, relay_body};

use crate::body::write_body;
use crate::command;

/// The body of a DATA with these bytes.
pub fn data_body(stream: u16, payload: &[u8]) -> [u8; 509]
    requires { length payload.now ≤ 498 }
    ensures { result ≡ relay_body data_command stream payload.now }
{
    write_body(command::DATA, stream, payload)
}
