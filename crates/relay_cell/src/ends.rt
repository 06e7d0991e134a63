//! END: a stream is over. TRUNCATE and TRUNCATED: a circuit is cut (tor-spec, "Closing streams",
//! "Tearing down circuits").

ghost use Rattle.std.specs.Prelude.{◌≡◌, ◌∷◌, []};
ghost use Rattle.tor_spec.specs.Ends.{end_reason};
ghost use Rattle.tor_spec.specs.RelayCell.{end_command, relay_body, truncate_command, truncated_command};

use crate::body::write_body;
use crate::{command, stream_end};

/// Why a stream ended: the first byte of an END, as one of [`stream_end`](crate::stream_end), or MISC
/// where there is none.
#[tactic(auto, unfolding(tor_spec::specs::Ends::end_reason))]
pub fn end_reason(payload: &[u8]) -> u8
    ensures { result ≡ end_reason payload.now }
{
    match payload {
        [reason, ..] => *reason,
        [] => stream_end::MISC,
    }
}

/// The body of an END with this reason, one of [`stream_end`](crate::stream_end).
pub fn end_body(stream: u16, reason: u8) -> [u8; 509]
    ensures { result ≡ relay_body end_command stream (reason ∷ []) }
{
    write_body(command::END, stream, &[reason])
}

/// The body of a TRUNCATE with this reason.
pub fn truncate_body(reason: u8) -> [u8; 509]
    ensures { result ≡ relay_body truncate_command 0 (reason ∷ []) }
{
    write_body(command::TRUNCATE, 0, &[reason])
}

/// The body of a TRUNCATED with this reason.
pub fn truncated_body(reason: u8) -> [u8; 509]
    ensures { result ≡ relay_body truncated_command 0 (reason ∷ []) }
{
    write_body(command::TRUNCATED, 0, &[reason])
}
