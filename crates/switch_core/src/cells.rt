//! Cells that the switch makes.
ghost use Rattle.std.specs.Prelude.{◌≡◌, ◌-◌, ◌∷◌, ◌++◌, ◌≤◌, [], length, replicate};
ghost use Rattle.cell_codec.specs.Cells.{IsWellFormed};
ghost use Rattle.circuit_model.specs.Sent.{destroy};
ghost use Rattle.switch_model.specs.Answers.NextCell.{cell_at};

use cell_codec::{Body, Cell, command};

/// These bytes, then zeros up to the 509 bytes of a fixed payload.
pub fn padded(fields: &[u8]) -> [u8; 509]
    requires { length fields.now ≤ 509 }
    ensures { result ≡ fields.now ++ replicate (509 - length fields.now) 0 }
{
    let mut payload = [0; 509];
    payload[..fields.len()].copy_from_slice(fields);
    payload
}

/// The DESTROY cell (tor-spec, "Tearing down circuits") with this reason.
pub fn destroy_cell(id: u32, reason: u8) -> Cell
    ensures cell { result ≡ cell_at id (destroy reason) }
    ensures well_formed { IsWellFormed result }
{
    Cell {
        circ: id,
        command: command::DESTROY,
        body: Body::Fixed(padded(&[reason])),
    }
}
