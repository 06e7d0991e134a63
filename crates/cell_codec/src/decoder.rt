ghost use Rattle.std.specs.Prelude.{◌≡◌, ◌≢◌, ◌++◌, [], List, map, All, IfOk, IfErr, OnOk, OnErr, Err, Some, None, ◌↔◌, true};
ghost use Rattle.tor_spec.specs.CellReading.{link_start, link_open, with_piece, reading, refusal};
ghost use Rattle.cell_codec.specs.Cells.{wire_cell, IsWellFormed};

use crate::cell::{Cell, DecodeFault};
use crate::list::List;
use crate::sizes::start_of_other_link;
use crate::stream::{feed_open, feed_opening};
use std::alloc::Global;
use std::marker::Model;

/// What a decoder waits for.
#[derive(Clone, Copy)]
pub enum Stage {
    /// The cell that opens the link.
    Opening,
    /// A later cell.
    Open,
    /// Nothing: the link began with this CircID and command.
    Refused(u16, u8),
}

/// Reads a link's bytes as cells, in whatever pieces they come.
///
/// Contracts see what is left unread: the bytes behind the last cell that has ended, and whether
/// the link's first cell is still to end.
#[derive(Drop)]
pub struct Decoder {
    alloc: Global,
    stage: Stage,
    rest: Vec<u8>,
}

impl Model for Decoder {
    ghost use Rattle.tor_spec.specs.CellReading.{Unread};
    ghost use Rattle.cell_codec.specs.Decoding.{unread_of, IsSettled};

    ghost Value = { Unread };

    ghost view = { λ d. unread_of d.stage d.rest.items };

    ghost invariant = { λ d. IsSettled d.stage d.rest.items };
}

impl Decoder {
    ghost use Rattle.cell_codec.specs.Decoding.{TellsRefusal, IsUnfinished};
    ghost use Rattle.cell_codec.specs.declared.cell.DecodeFault.TheVariants.{Short, Memory};

    /// A decoder of a whole link, whose first cell is VERSIONS with a CircID of 2 bytes.
    pub fn starting(alloc: Global) -> Decoder
        ensures { result ≡ link_start }
    {
        Decoder {
            alloc,
            stage: Stage::Opening,
            rest: Vec::new(alloc),
        }
    }

    /// A decoder of cells with CircIDs of 4 bytes alone.
    pub fn cells_only(alloc: Global) -> Decoder
        ensures { result ≡ link_open }
    {
        Decoder {
            alloc,
            stage: Stage::Open,
            rest: Vec::new(alloc),
        }
    }

    /// Takes the next piece of the link and gives the cells that end in it, in order.
    ///
    /// `BadFirst` comes once three bytes show that the link doesn't begin with VERSIONS on CircID
    /// 0, and at every later call. A refused link takes no memory. After `Memory` the piece was not taken.
    pub fn feed(&mut self, piece: &[u8]) -> Result<List<Cell>, DecodeFault>
        ensures cells { IfOk result (λ cells. map wire_cell cells.items ≡ (reading (with_piece self.old piece.now)).cells) }
        ensures well_formed { IfOk result (λ cells. All IsWellFormed cells.items) }
        ensures accepted { OnOk result (refusal (with_piece self.old piece.now) ≡ None) }
        ensures refused { IfErr result (λ fault. TellsRefusal fault (with_piece self.old piece.now)) }

        // What is left unread, unless the piece was not taken.
        ensures unread { result ≢ Err Memory → self.new ≡ (reading (with_piece self.old piece.now)).left }
        ensures memory { result ≡ Err Memory → self.new ≡ self.old }
    {
        match self.stage {
            Stage::Refused(circ, command) => Err(DecodeFault::BadFirst { circ, command }),
            Stage::Open => Ok(feed_open(self.alloc, &mut self.rest, piece)?),
            Stage::Opening => {
                let start = start_of_other_link(self.rest.as_slice(), piece);
                if let Some((circ, command)) = start {
                    self.stage = Stage::Refused(circ, command);
                    self.rest.clear();
                    return Err(DecodeFault::BadFirst { circ, command });
                }
                match feed_opening(self.alloc, &mut self.rest, piece)? {
                    Some(cells) => {
                        self.stage = Stage::Open;
                        Ok(cells)
                    }
                    None => Ok(List::new(self.alloc)),
                }
            }
        }
    }

    /// Says that the link has ended: `Short` where bytes of an unfinished cell are left.
    pub fn finish(&self) -> Result<(), DecodeFault>
        ensures short { (result ≡ Err Short) ↔ IsUnfinished self.now }
        ensures only { IfErr result (λ fault. fault ≡ Short) }
    {
        if self.rest.is_empty() {
            Ok(())
        } else {
            Err(DecodeFault::Short)
        }
    }
}
