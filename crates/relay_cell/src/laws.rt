//! Laws of the definitions in `tor_spec`: what is read is what the grammar spells, and what is
//! written is read back. Each function says one and does nothing.

ghost use Rattle.std.specs.Prelude.{◌≡◌, ◌↔◌, ◌<◌, ◌≤◌, ◌^◌, ◌+◌, ◌-◌, ◌++◌, ℕ, List, Some, length, slice_index, drop, min, replicate, IsTrue};
ghost use Rattle.tor_spec.specs.Begin.{SpellsTarget, begin_target};
ghost use Rattle.tor_spec.specs.Extend.{Address, extend_payload, extend_request};
ghost use Rattle.tor_spec.specs.Reasons.{end_misc, end_exit_policy, end_destroy, end_resource_limit, end_tor_protocol, end_not_directory, resolved_ipv4, resolved_lasting_error};
ghost use Rattle.tor_spec.specs.RelayCell.{begin_command, data_command, end_command, connected_command, sendme_command, truncate_command, truncated_command, drop_command, resolve_command, resolved_command, begin_dir_command, extend2_command, extended2_command};
ghost use Rattle.tor_spec.specs.RelayCell.{fits_length, payload_of, relay_body, relay_head, relay_head_bytes, unsealed_head, with_digest, with_padding};
ghost use Rattle.tor_spec.specs.Resolve.{SpellsHost, resolve_host};

use crate::command::{
    BEGIN, BEGIN_DIR, CONNECTED, DATA, DROP, END, EXTEND2, EXTENDED2, RESOLVE, RESOLVED, SENDME,
    TRUNCATE, TRUNCATED,
};
use crate::resolved_type::{IPV4, LASTING_ERROR};
use crate::stream_end::{DESTROY, EXIT_POLICY, MISC, NOT_DIRECTORY, RESOURCE_LIMIT, TOR_PROTOCOL};

/// The relay commands have the standard's numbers.
pub fn commands_are_the_standards()
    ensures begin { BEGIN ≡ begin_command }
    ensures data { DATA ≡ data_command }
    ensures end { END ≡ end_command }
    ensures connected { CONNECTED ≡ connected_command }
    ensures sendme { SENDME ≡ sendme_command }
    ensures truncate { TRUNCATE ≡ truncate_command }
    ensures truncated { TRUNCATED ≡ truncated_command }
    ensures drop { DROP ≡ drop_command }
    ensures resolve { RESOLVE ≡ resolve_command }
    ensures resolved { RESOLVED ≡ resolved_command }
    ensures begin_dir { BEGIN_DIR ≡ begin_dir_command }
    ensures extend2 { EXTEND2 ≡ extend2_command }
    ensures extended2 { EXTENDED2 ≡ extended2_command }
{}

/// So have the reasons in END and the types of answers in RESOLVED that this relay writes.
pub fn reasons_are_the_standards()
    ensures misc { MISC ≡ end_misc }
    ensures exit_policy { EXIT_POLICY ≡ end_exit_policy }
    ensures destroy { DESTROY ≡ end_destroy }
    ensures resource_limit { RESOURCE_LIMIT ≡ end_resource_limit }
    ensures tor_protocol { TOR_PROTOCOL ≡ end_tor_protocol }
    ensures not_directory { NOT_DIRECTORY ≡ end_not_directory }
    ensures ipv4 { IPV4 ≡ resolved_ipv4 }
    ensures lasting_error { LASTING_ERROR ≡ resolved_lasting_error }
{}

/// What is read from a BEGIN is the target that it spells; where nothing is read, it spells none.
pub fn targets_are_read_as_spelled()
    ensures { (payload host : List ℕ) (port : ℕ) →
        SpellsTarget payload host port ↔ (begin_target payload ≡ Some (record { host = host; port = port })) }
{}

/// What is read from a RESOLVE is the host that it spells; where nothing is read, it spells none.
pub fn hosts_are_read_as_spelled()
    ensures { (payload host : List ℕ) → SpellsHost payload host ↔ (resolve_host payload ≡ Some host) }
{}

/// An EXTEND2 that is written is read back.
pub fn extends_are_read_back()
    ensures { (to : Address) (htype : ℕ) (hdata : List ℕ) →
        length to.ip ≡ 4 → to.port < 2 ^ 16 → htype < 2 ^ 16 → length hdata ≤ 485 →
        extend_request (extend_payload to htype hdata)
        ≡ Some (record { to = Some to; handshake_type = htype; handshake = hdata }) }
{}

/// The head and the payload of a body are those that it was written with.
pub fn bodies_are_read_back()
    ensures head { (command stream : ℕ) (payload : List ℕ) → stream < 2 ^ 16 → length payload ≤ 498 →
        relay_head (relay_body command stream payload) ≡ unsealed_head command stream (length payload) }
    ensures fits { (command stream : ℕ) (payload : List ℕ) → stream < 2 ^ 16 → length payload ≤ 498 →
        IsTrue (fits_length (relay_body command stream payload)) }
    ensures payload { (command stream : ℕ) (payload : List ℕ) → stream < 2 ^ 16 → length payload ≤ 498 →
        payload_of (relay_body command stream payload) ≡ payload }
{}

/// A digest that is put into a body changes nothing else that is read from it.
pub fn digests_change_the_digest_alone()
    ensures head { (body digest : List ℕ) → length body ≡ 509 → length digest ≡ 4 →
        relay_head (with_digest body digest) ≡ record (relay_head body) { digest = digest } }
    ensures payload { (body digest : List ℕ) → length body ≡ 509 → length digest ≡ 4 →
        payload_of (with_digest body digest) ≡ payload_of body }
{}

/// A body that is padded reads as before. From offset 15 + Length on its bytes are those of the body that
/// it is padded from, and all others stay.
pub fn padding_changes_the_padding_alone()
    ensures head { (body from : List ℕ) → length body ≡ 509 → relay_head (with_padding body from) ≡ relay_head body }
    ensures payload { (body from : List ℕ) → length body ≡ 509 → IsTrue (fits_length body) →
        payload_of (with_padding body from) ≡ payload_of body }
    ensures long { (body from : List ℕ) → length body ≡ 509 → length from ≡ 509 → length (with_padding body from) ≡ 509 }
    ensures before { (body from : List ℕ) (offset : ℕ) → length body ≡ 509 → offset < 509 →
        offset < 15 + (relay_head body).length → slice_index (with_padding body from) offset ≡ slice_index body offset }
    ensures behind { (body from : List ℕ) (offset : ℕ) → length body ≡ 509 → length from ≡ 509 →
        15 + (relay_head body).length ≤ offset → slice_index (with_padding body from) offset ≡ slice_index from offset }
{}

/// In a body that was written and then padded, up to four zero bytes follow the payload, and the padding
/// follows them.
pub fn zero_bytes_part_payload_and_padding()
    ensures { (command stream : ℕ) (payload from : List ℕ) → stream < 2 ^ 16 → length payload ≤ 498 →
        with_padding (relay_body command stream payload) from
        ≡ relay_head_bytes command stream (length payload) ++ payload ++ replicate (min 4 (498 - length payload)) 0
        ++ drop (15 + length payload) from }
{}
