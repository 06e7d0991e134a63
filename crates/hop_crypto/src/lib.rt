//! One hop's layer of encryption (tor-spec, "Routing relay cells"), and the jobs that carry it to a
//! crypto worker and back.
//!
//! Forth, away from the client, an `Opener` takes the relay's layer off and tells which bodies are
//! meant for the relay. Back, towards the client, a `Sealer` puts the layer on. A `Job` holds one
//! direction's cipher and the bodies that wait for it; `work` makes a `Done` of it, whose type keeps
//! that output and end state are what the standard gives for start state and input, and that the next
//! 1,024 bytes of keystream are made ahead.
//!
//! Only `Job::of` takes memory.
#![tactic(auto)]

mod cipher;
mod job;
mod opener;
mod parts;
mod port;
mod ready;
mod sealer;
#[cfg(test)]
mod tests;

pub use cipher::Cipher;
pub use job::{Done, Job, work};
pub use opener::Opener;
pub use parts::{DoneParts, JobParts};
pub use sealer::Sealer;
