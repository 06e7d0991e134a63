//! A channel's way out.
ghost use Rattle.std.specs.Prelude.{◌≡◌, ◌≤◌, ◌^◌, ◌+◌, ℕ, [], IsTrue, not, OnOk, OnErr, take, vec_len, vec_capacity};
ghost use Rattle.cell_codec.specs.Cells.{wire_cell, IsWellFormed};
ghost use Rattle.tor_spec.specs.CellEncoding.{encoding};
ghost use Rattle.tr_io.specs.Faults.{Rose};
ghost use Rattle.tr_io.specs.Pieces.{WroteAll};

use cell_codec::{Cell, write_cell};
use std::alloc::{AllocError, Global};
use tr_io::names::ChanNo;
use tr_io::sink::WriteAnswer;
use tr_io::slot_out::SlotOut;

/// The most bytes that a cell has on a link: 7 and a payload of 65,535 (tor-spec, "Cell format").
const MOST: usize = 65_542;

/// A channel, the session that it is written to, and the bytes of the cell that is written.
#[derive(Drop)]
pub(crate) struct Line {
    pub(crate) session: u64,
    pub(crate) chan: ChanNo,
    bytes: Vec<u8>,
}

impl Line {
    pub(crate) fn new(alloc: Global, session: u64, chan: ChanNo) -> Line
        ensures { (result.session ≡ session) × (result.chan ≡ chan) }
    {
        Line {
            session,
            chan,
            bytes: Vec::new(alloc),
        }
    }

    // Takes the room for a cell, once for all: no later call of it finds too little.
    pub(crate) fn reserve(&mut self) -> Result<(), AllocError>
        ensures same { (self.new.session ≡ self.old.session) × (self.new.chan ≡ self.old.chan) }
        ensures room { OnOk result ((self.new.bytes.items ≡ []) × (65542 ≤ vec_capacity self.new.bytes)) }
    {
        self.bytes.clear();
        self.bytes.reserve(MOST)
    }

    // Writes a cell; false where the half failed, which then wrote a front of it.
    #[tactic(auto, using(crate::proofs::Sizes::encoding_fits))]
    pub(crate) fn write<K: SlotOut>(&mut self, link: &mut K, cell: &Cell) -> bool
        requires room { (self.old.bytes.items ≡ []) × (65542 ≤ vec_capacity self.old.bytes) }
        requires cell { IsWellFormed cell.now }
        ensures same { (self.new.session ≡ self.old.session) × (self.new.chan ≡ self.old.chan) }
        ensures slot { K.slot link.new ≡ K.slot link.old }
        ensures all { IsTrue result → WroteAll self.old.session (encoding (wire_cell cell.now)) (K.written link.old) (K.written link.new) }
        ensures part { IsTrue (not result)
            → (n : ℕ) × WroteAll self.old.session (take n (encoding (wire_cell cell.now))) (K.written link.old)
            (K.written link.new) }
        ensures counted { K.faults link.old ≤ K.faults link.new }
        ensures cause { IsTrue (not result) → Rose (K.faults link.old) (K.faults link.new) }
    {
        match write_cell(cell, &mut self.bytes) {
            Ok(()) => write_piece(link, self.session, self.bytes.as_slice()),
            Err(_) => unreachable!(),
        }
    }
}

// Writes all of a piece, unless the half fails: then a front of it is written.
fn write_piece<K: SlotOut>(link: &mut K, session: u64, piece: &[u8]) -> bool
    ensures slot { K.slot link.new ≡ K.slot link.old }
    ensures all { IsTrue result → WroteAll session piece.now (K.written link.old) (K.written link.new) }
    ensures part { IsTrue (not result) → (n : ℕ) × WroteAll session (take n piece.now) (K.written link.old) (K.written link.new) }
    ensures counted { K.faults link.old ≤ K.faults link.new }
    ensures cause { IsTrue (not result) → Rose (K.faults link.old) (K.faults link.new) }
{
    let mut bytes_left = piece;
    while !bytes_left.is_empty() {
        match link.write(session, bytes_left) {
            WriteAnswer::Took(count) => bytes_left = &bytes_left[count..],
            WriteAnswer::Failed => return false,
        }
    }
    true
}
