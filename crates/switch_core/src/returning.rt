//! Jobs that come home, compared with what the switch gave out.
ghost use Rattle.std.specs.Prelude.{◌≡◌, ◌≤◌, ◌↔◌, [], IsTrue, Some, length};
ghost use Rattle.switch_model.specs.Answers.GiveBack.{is_note};
ghost use Rattle.switch_machine.specs.State.{slot_at};
ghost use Rattle.switch_core.specs.Returning.{start_out, bodies_out, IsBodyDifference, IsPlace, content_refusal, refusal_on};

use crate::circuit::Circuit;
use crate::parts::Parts;
use crate::relay::Relay;
use hop_crypto::Cipher;
use tr_io::answers::{BackAnswer, Difference};
use tr_io::names::{ClaimNote, Dir};

/// The first place at which a return differs from what is out in its direction: 0 is the start state,
/// 1 the first body.
pub fn first_difference(
    parts: &Parts,
    relays: &Vec<Option<Relay>>,
    note: ClaimNote,
    start: &Cipher,
    bodies: &[[u8; 509]],
) -> Option<u32>
    requires { length bodies.now ≤ 32 }
    ensures { IsPlace relays.now.items parts.now note start.now bodies.now result }
{
    if !has_start(relays, note, start) {
        return Some(0);
    }
    match parts.different_body(note, bodies) {
        Some(number) => Some(number + 1),
        None => None,
    }
}

/// Whether this is the start state of the claim that is out.
fn has_start(relays: &Vec<Option<Relay>>, note: ClaimNote, start: &Cipher) -> bool
    ensures { IsTrue result ↔ (Some start.now ≡ start_out (slot_at relays.now.items note.circ.0) note.dir) }
{
    if note.circ.0 >= relays.len() as u64 {
        return false;
    }
    is_start(&relays[note.circ.0 as usize], note.dir, start)
}

/// Whether this is a relay's cipher of a direction.
fn is_start(slot: &Option<Relay>, dir: Dir, start: &Cipher) -> bool
    ensures { IsTrue result ↔ (Some start.now ≡ start_out slot.now dir) }
{
    let Some(relay) = slot else {
        return false;
    };
    match dir {
        Dir::Forth => start.same(&relay.forth),
        Dir::Back => start.same(&relay.back),
    }
}

/// The number of the first body that differs from those of the claim that is out.
pub fn slot_difference(slot: &Option<Circuit>, dir: Dir, bodies: &[[u8; 509]]) -> Option<u32>
    requires { length bodies.now ≤ 32 }
    ensures { IsBodyDifference (bodies_out slot.now dir) bodies.now result }
{
    match slot {
        Some(circuit) => circuit.different_body(dir, bodies),
        None => difference_from_none(bodies),
    }
}

/// The same where no body is out.
pub fn difference_from_none(bodies: &[[u8; 509]]) -> Option<u32>
    ensures { IsBodyDifference [] bodies.now result }
{
    if bodies.is_empty() { None } else { Some(0) }
}

/// What a return is refused with by its circuit, if it is.
pub fn slot_refusal(
    slot: &Option<Circuit>,
    note: ClaimNote,
    place: Option<u32>,
) -> Option<BackAnswer>
    ensures { result ≡ refusal_on note place slot.now }
{
    let Some(circuit) = slot else {
        return Some(BackAnswer::Gone);
    };
    let kept = circuit.note_out(note.dir);
    if !is_note(note, kept) {
        return Some(BackAnswer::Stranger(Difference::Note { kept, given: note }));
    }
    content_refusal(note, place)
}

/// Whether a note is the one that is kept.
fn is_note(note: ClaimNote, kept: Option<ClaimNote>) -> bool
    ensures { result ≡ is_note note kept }
{
    match kept {
        Some(kept) => kept == note,
        None => false,
    }
}

/// What a return is refused with by its contents, if it is.
fn content_refusal(note: ClaimNote, place: Option<u32>) -> Option<BackAnswer>
    ensures { result ≡ content_refusal note place }
{
    match place {
        Some(place) => Some(BackAnswer::Stranger(Difference::Content { note, place })),
        None => None,
    }
}
