//! What a program of this machine says to the SOCKS front, version 5 (RFC 1928), and what it is told.
//!
//! `Socks` takes a client's bytes one by one: the greeting (section 3) and then one request (sections
//! 4 and 5). It answers each byte by all of them so far: what to say, what the client asks for, or why it
//! is refused. `reply_bytes` is the reply to a request (section 6).
//!
//! Of the standard are the messages' bytes and the codes of replies. Beside CONNECT the command RESOLVE
//! is known, whose number F0 is that of Tor's extensions of SOCKS. Rules of this front are that it asks for
//! no authentication, that it knows IPv4 addresses and names alone, that a name with a zero byte and a
//! connection to port 0 are refused, and which replies have the zero address and port.
#![tactic(auto)]

mod answer;
mod command;
mod decimal;
mod fault;
mod greeting;
mod host;
pub mod laws;
mod progress;
mod reply;
mod request;
mod socks;
mod want;

pub use answer::SocksAnswer;
pub use fault::{SocksFault, SocksRefusal};
pub use reply::reply_bytes;
pub use socks::Socks;
pub use want::SocksWant;

#[cfg(test)]
mod tests;
