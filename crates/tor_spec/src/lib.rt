//! What tor-spec says of bytes on a link: cells, VERSIONS and NETINFO, and the grammars of
//! relay cells and their payloads. The definitions stand in `specs/`, on lists of bytes;
//! contracts of the code crates cite them.
#![tactic(auto)]

mod address;

pub use address::Address;
