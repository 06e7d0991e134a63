//! A DESTROY that waits.
ghost use Rattle.std.specs.Prelude.{◌≡◌};
ghost use Rattle.cell_codec.specs.Cells.{IsWellFormed};
ghost use Rattle.out_lanes.specs.Destroys.{destroy_cell};

use cell_codec::command::DESTROY;
use cell_codec::{Body, Cell};

/// A DESTROY that waits to leave on a channel.
#[derive(Clone, Copy, Debug, PartialEq, Eq)]
pub struct Destroy {
    /// The CircID.
    pub id: u32,
    /// Why the circuit ends.
    pub reason: u8,
}

impl Destroy {
    /// The cell that it is.
    pub(crate) fn cell(self) -> Cell
        ensures cell { result ≡ destroy_cell self }
        ensures well_formed { IsWellFormed result }
    {
        let mut payload = [0; 509];
        payload[0] = self.reason;
        Cell {
            circ: self.id,
            command: DESTROY,
            body: Body::Fixed(payload),
        }
    }
}
