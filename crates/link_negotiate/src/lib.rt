//! How a link is opened (tor-spec, "Negotiating and initializing channels"): VERSIONS and then
//! NETINFO, by either side.
//!
//! `Negotiation` answers each cell that comes until the link is ready: which cells to send, the
//! version that was agreed on, or why the link is refused.
//!
//! Of the standard are VERSIONS first, the highest version that both sides speak, and NETINFO last.
//! Rules of this relay are that only PADDING, VPADDING, CERTS, AUTH_CHALLENGE, AUTHENTICATE and, from
//! link protocol 5 on, PADDING_NEGOTIATE may come between the two, where they are passed over; that its
//! NETINFO tells nothing; that CircIDs aren't looked at; and what is answered behind the end.
#![tactic(auto)]

mod answer;
mod arrival;
mod greeting;
pub mod laws;
mod negotiation;
mod netinfo;
mod phase;
mod reading;
mod versions;

pub use answer::LinkAnswer;
pub use cell_codec::LinkFault;
pub use negotiation::Negotiation;
pub use versions::OUR_VERSIONS;

#[cfg(test)]
mod tests;
