//! A circuit's log: each event with the message that it brought and what it had the relay do.

use circuit_model::{Effects, Event, Message};

/// An entry of the log.
#[derive(Drop)]
pub struct Entry<'a> {
    pub event: &'a Event,
    pub message: Option<Message>,
    pub effects: Effects,
}
