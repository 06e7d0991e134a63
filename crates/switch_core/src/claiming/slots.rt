//! Claims of a circuit by its number, which may be gone.
ghost use Rattle.std.specs.Prelude.{◌≡◌, ◌+◌, ◌<◌, ◌^◌, IfOk, IfSome, OnOk, OnErr, option_map, length};
ghost use Rattle.switch_machine.specs.Calls.Claim.{offered_by, way_at};
ghost use Rattle.switch_core.specs.Claiming.{MayClaim, note_bodies, with_claim};

use crate::circuit::Circuit;
use cell_codec::List;
use std::alloc::{AllocError, Global};
use tr_io::names::{ClaimNote, Dir};

/// The number of the body that a direction offers to a claim.
pub fn slot_offer(slot: &Option<Circuit>, dir: Dir) -> Option<u128>
    ensures { result ≡ offered_by (way_at slot.now dir) }
{
    match slot {
        Some(circuit) => circuit.way(dir).offer(),
        None => None,
    }
}

/// A copy of the payloads of the bodies that a claim takes out.
pub fn slot_bodies(
    slot: &Option<Circuit>,
    alloc: Global,
    note: ClaimNote,
) -> Result<List<[u8; 509]>, AllocError>
    requires { MayClaim slot.now note }
    ensures { IfOk result (λ bodies. bodies.items ≡ note_bodies note slot.now) }
{
    match slot {
        Some(circuit) => circuit.way(note.dir).first_bodies(alloc, note.count),
        None => Ok(List::new(alloc)),
    }
}

/// The bodies of a claim go out with it.
pub fn give_out_of(slot: &mut Option<Circuit>, note: ClaimNote) -> Result<(), AllocError>
    requires claim { MayClaim slot.old note }
    requires fits { IfSome slot.old (λ x. x.forth.claimed_count + length x.forth.waiting_bodies < 2 ^ 64) }
    ensures ok { OnOk result (slot.new ≡ option_map (with_claim note) slot.old) }
    ensures err { OnErr result (slot.new ≡ slot.old) }
{
    match slot {
        Some(circuit) => circuit.give_out(note),
        None => Ok(()),
    }
}
