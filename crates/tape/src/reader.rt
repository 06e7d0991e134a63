//! Reads the records of a tape from bytes.
ghost use Rattle.std.specs.Prelude.{◌≡◌, ◌++◌, ℕ, List, length, IfOk};
ghost use Rattle.tape.specs.declared.record.Record.{Record as RecordValue};
ghost use Rattle.tape.specs.Fronts.{record_and, FrontIs, FrontMeetsCall, RestIsShorter};
ghost use Rattle.tape.specs.Records.{front_of};
ghost use Rattle.tape.specs.Spelling.{spelling, FitsFields};

use crate::kinds::{
    channel_up, claim, dial_order, next_cell, open_circuit, returns, take, tear_down,
};
use crate::record::Front;
use std::alloc::{AllocError, Global};

/// Reads the record at the front of the bytes: whatever spells one is read as it, and what is read
/// as one spells it. Only a cell of variable length takes memory.
pub fn read_front(alloc: Global, bytes: &[u8]) -> Result<Front<'_>, AllocError>
    ensures front { IfOk result (λ front. FrontIs front (front_of bytes.now)) }
    ensures read { IfOk result (λ front. (r : RecordValue) (rest : List ℕ) → FitsFields r → bytes.now ≡ spelling r ++ rest
        → FrontIs front (record_and r rest)) }
    ensures spelled { IfOk result (λ front. (r : RecordValue) (rest : List ℕ) → FrontIs front (record_and r rest)
        → bytes.now ≡ spelling r ++ rest) }
    ensures meets { IfOk result FrontMeetsCall }
    ensures shorter { IfOk result (λ front. RestIsShorter front (length bytes.now)) }
{
    front(alloc, bytes)
}

/// The record at the front of the bytes, by its kind.
#[tactic(auto, unfolding(crate::specs::Records::front_of))]
fn front(alloc: Global, bytes: &[u8]) -> Result<Front<'_>, AllocError>
    ensures front { IfOk result (λ front. FrontIs front (front_of bytes.now)) }
    ensures meets { IfOk result FrontMeetsCall }
    ensures shorter { IfOk result (λ front. RestIsShorter front (length bytes.now)) }
{
    let Some((kind, fields)) = bytes.split_first() else {
        return Ok(Front::Cut);
    };
    Ok(match *kind {
        0x01 => channel_up::read(fields),
        0x03 => open_circuit::read(fields),
        0x04 => take::read(alloc, fields)?,
        0x05 => claim::read(fields),
        0x06 => returns::read_give_back(fields),
        0x07 => returns::read_abandon(fields),
        0x08 => next_cell::read(fields),
        0x0c => dial_order::read(fields),
        0x0e => tear_down::read(fields),
        0x0f => open_circuit::read_padded(fields),
        0x02 | 0x09..=0x0b | 0x0d => Front::NotBuilt(*kind),
        _ => Front::Bad,
    })
}
