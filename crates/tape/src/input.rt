//! Reads a tape's bytes from a source.
ghost use Rattle.std.specs.Prelude.{◌≤◌, ◌^◌, ℕ, List, IfOk, OnErr, length};
ghost use Rattle.tape.specs.Input.{EndCause, IsRead, IsTape};

use std::alloc::{AllocError, Global};
use tr_io::source::{ReadAnswer, Source};

/// How many bytes a tape may have: 2^28.
pub const MOST_BYTES: usize = 0x1000_0000;

/// How many bytes are read at once.
const CHUNK: usize = 4096;

/// How the reading of a tape ended.
#[derive(Clone, Copy)]
pub enum Ending {
    /// At the end of the source.
    End,
    /// At a fault of the source.
    Fault,
    /// At the limit: there is at least one byte more than a tape may have.
    Limit,
}

/// A tape's bytes, and how their reading ended.
#[derive(Drop)]
pub struct Input {
    /// The bytes read, at most `MOST_BYTES`.
    pub bytes: Vec<u8>,
    /// How the reading ended.
    pub ending: Ending,
    ghost short: { length bytes.items ≤ 2 ^ 28 },
}

/// Reads a tape's bytes, up to the source's end, a fault or the limit.
pub fn read_tape<S: Source>(alloc: Global, source: &mut S) -> Result<Input, AllocError>
    ensures counted { S.faults source.old ≤ S.faults source.new }
    ensures cause { IfOk result (λ input. EndCause input.ending (S.faults source.old) (S.faults source.new)) }
    ensures read { OnErr result ((bytes : List ℕ) × IsRead (S.rest source.old) bytes (S.rest source.new)) }
    ensures tape { IfOk result (λ input. IsTape input.ending (S.rest source.old) input.bytes.items (S.rest source.new)) }
{
    let mut bytes = Vec::new(alloc);
    let mut chunk = [0; CHUNK];
    while bytes.len() <= MOST_BYTES {
        let room = CHUNK.min(MOST_BYTES + 1 - bytes.len());
        match source.read(&mut chunk[..room]) {
            ReadAnswer::Got(count) => bytes.extend_from_slice(&chunk[..count])?,
            ReadAnswer::End => {
                return Ok(Input {
                    bytes,
                    ending: Ending::End,
                });
            }
            ReadAnswer::Failed => {
                return Ok(Input {
                    bytes,
                    ending: Ending::Fault,
                });
            }
        }
    }
    bytes.truncate(MOST_BYTES);
    Ok(Input {
        bytes,
        ending: Ending::Limit,
    })
}
