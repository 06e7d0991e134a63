ghost use Rattle.std.specs.Prelude.{◌≡◌, ◌++◌, ◌+◌, ◌≤◌, length, OnOk, OnErr, IsOk, vec_len, vec_capacity};
ghost use Rattle.tor_spec.specs.CellEncoding.{encoding, first_encoding};
ghost use Rattle.tor_spec.specs.Versions.{versions_cell};
ghost use Rattle.cell_codec.specs.Cells.{wire_cell, IsWellFormed};

use crate::cell::{Body, Cell};
use crate::command;
use crate::layout::{CIRC, COMMAND, FIRST_CIRC, LENGTH};
use std::alloc::AllocError;

/// Adds the cell to `out` as it lies on a link (tor-spec, "Cell format"): 514 bytes for a cell of
/// fixed length, 7 and the payload for one of variable length.
///
/// Without memory `out` keeps its bytes. With room for the cell it can't fail.
pub fn write_cell(cell: &Cell, out: &mut Vec<u8>) -> Result<(), AllocError>
    requires { IsWellFormed cell.now }
    ensures ok { OnOk result (out.new.items ≡ out.old.items ++ encoding (wire_cell cell.now)) }
    ensures err { OnErr result (out.new.items ≡ out.old.items) }
    ensures room { vec_len out.old + length (encoding (wire_cell cell.now)) ≤ vec_capacity out.old → IsOk result }
{
    match &cell.body {
        Body::Fixed(payload) => {
            let payload_bytes = payload.as_slice();
            out.reserve(CIRC + COMMAND + payload_bytes.len())?;
            out.extend_from_slice(&cell.circ.to_be_bytes())?;
            out.push_reserved(cell.command);
            out.extend_from_slice(payload_bytes)
        }
        Body::Var(payload) => {
            let payload = payload.as_slice();
            out.reserve(CIRC + COMMAND + LENGTH + payload.len())?;
            out.extend_from_slice(&cell.circ.to_be_bytes())?;
            out.push_reserved(cell.command);
            out.extend_from_slice(&(payload.len() as u16).to_be_bytes())?;
            out.extend_from_slice(payload)
        }
    }
}

/// Adds VERSIONS with this list to `out` as the first cell of a link, whose CircID has 2 bytes
/// (tor-spec, "Negotiating versions"). At most 100 versions are taken.
///
/// Without memory `out` keeps its bytes. With room for the cell it can't fail.
#[tactic(auto, using(tor_spec::proofs::VersionsLength::length_versions_payload))]
pub fn write_versions(versions: &[u16], out: &mut Vec<u8>) -> Result<(), AllocError>
    requires { length versions.now ≤ 100 }
    ensures ok { OnOk result (out.new.items ≡ out.old.items ++ first_encoding (versions_cell versions.now)) }
    ensures err { OnErr result (out.new.items ≡ out.old.items) }
    ensures room { vec_len out.old + length (first_encoding (versions_cell versions.now)) ≤ vec_capacity out.old → IsOk result }
{
    let size = 2 * versions.len();
    out.reserve(FIRST_CIRC + COMMAND + LENGTH + size)?;
    out.extend_from_slice(&0u16.to_be_bytes())?;
    out.push_reserved(command::VERSIONS);
    out.extend_from_slice(&(size as u16).to_be_bytes())?;
    for version in versions {
        out.extend_from_slice(&version.to_be_bytes())?;
    }
    Ok(())
}
