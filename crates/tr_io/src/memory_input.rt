//! One session's input in memory.
ghost use Rattle.std.specs.Prelude.{◌≤◌, length};

/// The peer's bytes of one session, and how many of them were read.
#[derive(Drop)]
pub struct MemoryInput {
    pub(crate) bytes: Vec<u8>,
    pub(crate) read_count: usize,
    ghost within: { read_count ≤ length bytes.items },
}
