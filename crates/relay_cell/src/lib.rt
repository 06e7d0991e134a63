//! Relay cells and their payloads (tor-spec, "Relay cells").
//!
//! A relay cell's body is 509 bytes under layers of encryption. Once they are off, it has a head
//! and a payload whose grammar depends on the command. This crate reads and writes them; it takes
//! no memory. Each contract says that a reader answers exactly what `tor_spec` defines, and `None`
//! exactly outside the grammar; and that a writer gives the body that `tor_spec` defines. Where a reader
//! accepts more than a writer gives, as zeros in front of a port or bytes behind a payload, that is a rule of
//! this relay.
#![tactic(auto)]

mod begin;
mod body;
pub mod command;
mod connected;
pub mod decimal;
mod ends;
mod extend;
mod head;
pub mod laws;
mod payload;
mod resolve;
pub mod resolved_type;
mod sendme;
mod specifier;
mod stream_data;
pub mod stream_end;
mod text;

pub use begin::{Begin, begin_body, read_begin};
pub use body::{put_digest, put_padding, write_body};
pub use connected::{connected_body, read_connected};
pub use ends::{end_body, end_reason, truncate_body, truncated_body};
pub use extend::{
    Dest4, Extend2, create2_payload, extend2_body, extended2_body, read_extend2,
    read_handshake_reply, read_handshake_request,
};
pub use head::{Opened, RelayHead, payload_of, read_head};
pub use resolve::{read_resolve, read_resolved, resolve_body, resolved_body};
pub use sendme::{circuit_sendme_body, is_version_0, read_proof, stream_sendme_body};
pub use stream_data::data_body;

#[cfg(test)]
mod tests;
