//! Worked examples of one circuit.

mod client;
mod deeds;
mod messages;
mod windows;
