//! The numbers of commands and reasons are those that the standard's words have in `tor_spec`. Each
//! function says so and does nothing.

ghost use Rattle.std.specs.Prelude.{◌≡◌};
ghost use Rattle.tor_spec.specs.CellCommands.{padding_command, create_command, created_command, relay_command, destroy_command, create_fast_command, created_fast_command, versions_command, netinfo_command, relay_early_command, create2_command, created2_command, padding_negotiate_command, vpadding_command, certs_command, auth_challenge_command, authenticate_command, authorize_command};
ghost use Rattle.tor_spec.specs.Reasons.{destroy_protocol, destroy_internal, destroy_requested, destroy_resource_limit, destroy_connect_failed, destroy_channel_closed, destroy_destroyed};

use crate::command::{
    AUTH_CHALLENGE, AUTHENTICATE, AUTHORIZE, CERTS, CREATE, CREATE_FAST, CREATE2, CREATED,
    CREATED_FAST, CREATED2, DESTROY, NETINFO, PADDING, PADDING_NEGOTIATE, RELAY, RELAY_EARLY,
    VERSIONS, VPADDING,
};
use crate::destroy_reason::{
    CHANNEL_CLOSED, CONNECT_FAILED, DESTROYED, INTERNAL, PROTOCOL, REQUESTED, RESOURCE_LIMIT,
};

/// The commands of cells.
pub fn commands_are_the_standards()
    ensures padding { PADDING ≡ padding_command }
    ensures create { CREATE ≡ create_command }
    ensures created { CREATED ≡ created_command }
    ensures relay { RELAY ≡ relay_command }
    ensures destroy { DESTROY ≡ destroy_command }
    ensures create_fast { CREATE_FAST ≡ create_fast_command }
    ensures created_fast { CREATED_FAST ≡ created_fast_command }
    ensures versions { VERSIONS ≡ versions_command }
    ensures netinfo { NETINFO ≡ netinfo_command }
    ensures relay_early { RELAY_EARLY ≡ relay_early_command }
    ensures create2 { CREATE2 ≡ create2_command }
    ensures created2 { CREATED2 ≡ created2_command }
    ensures padding_negotiate { PADDING_NEGOTIATE ≡ padding_negotiate_command }
    ensures vpadding { VPADDING ≡ vpadding_command }
    ensures certs { CERTS ≡ certs_command }
    ensures auth_challenge { AUTH_CHALLENGE ≡ auth_challenge_command }
    ensures authenticate { AUTHENTICATE ≡ authenticate_command }
    ensures authorize { AUTHORIZE ≡ authorize_command }
{}

/// The reasons in DESTROY that this relay writes.
pub fn destroy_reasons_are_the_standards()
    ensures protocol { PROTOCOL ≡ destroy_protocol }
    ensures internal { INTERNAL ≡ destroy_internal }
    ensures requested { REQUESTED ≡ destroy_requested }
    ensures resource_limit { RESOURCE_LIMIT ≡ destroy_resource_limit }
    ensures connect_failed { CONNECT_FAILED ≡ destroy_connect_failed }
    ensures channel_closed { CHANNEL_CLOSED ≡ destroy_channel_closed }
    ensures destroyed { DESTROYED ≡ destroy_destroyed }
{}
