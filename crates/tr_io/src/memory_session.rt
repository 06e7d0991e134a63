//! One session in memory.
ghost use Rattle.std.specs.Prelude.{◌≡◌, ◌≤◌, [], length};

use crate::names::Dest;
use std::alloc::Global;

/// What the peer of a session sends, and where what is said to it will stand.
#[derive(Drop)]
pub struct Script {
    pub(crate) bytes: Vec<u8>,
    pub(crate) greeting: Vec<u8>,
    ghost silent: { greeting.items ≡ [] },
}

impl Script {
    /// A peer that sends these bytes.
    pub fn sends(alloc: Global, bytes: Vec<u8>) -> Script
        ensures { result.bytes.items ≡ bytes.items }
    {
        Script {
            bytes,
            greeting: Vec::new(alloc),
        }
    }
}

/// A session in memory: the peer's bytes, how many of them were read, and what was said.
#[derive(Drop)]
pub struct MemorySession {
    pub(crate) number: u64,
    pub(crate) to: Option<Dest>,
    pub(crate) bytes: Vec<u8>,
    pub(crate) read_count: usize,
    pub(crate) greeting: Vec<u8>,
    ghost within: { read_count ≤ length bytes.items },
}
