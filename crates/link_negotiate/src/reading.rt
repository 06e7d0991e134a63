ghost use Rattle.std.specs.Prelude.{◌≡◌};
ghost use Rattle.cell_codec.specs.Cells.{wire_cell};
ghost use Rattle.link_negotiate.specs.Negotiation.{link_version, arrival};

use crate::arrival::Arrival;
use crate::netinfo::has_form;
use crate::versions::{PADDING_NEGOTIATION, highest_common};
use cell_codec::{Cell, LinkFault, command};

/// The highest version that both sides speak, if the cell is VERSIONS and lists one.
pub fn read_versions(cell: &Cell) -> Result<u16, LinkFault>
    ensures { result ≡ link_version (wire_cell cell.now) }
{
    if cell.command != command::VERSIONS {
        return Err(LinkFault::Unexpected(cell.command));
    }
    let payload = cell.body.payload();
    if payload.len() % 2 != 0 {
        return Err(LinkFault::OddVersions);
    }
    highest_common(payload).ok_or(LinkFault::NoCommonVersion)
}

/// What the cell is where NETINFO is awaited and this version was agreed on. Which cells are passed over
/// is a rule of this relay.
pub fn read_arrival(cell: &Cell, version: u16) -> Arrival
    ensures { result ≡ arrival version (wire_cell cell.now) }
{
    match cell.command {
        command::NETINFO => {
            if has_form(cell.body.payload()) {
                Arrival::Netinfo
            } else {
                Arrival::Fault(LinkFault::BadNetinfo)
            }
        }
        command::PADDING | command::VPADDING => Arrival::InBetween,
        command::CERTS | command::AUTH_CHALLENGE | command::AUTHENTICATE => Arrival::InBetween,
        command::PADDING_NEGOTIATE if version >= PADDING_NEGOTIATION => Arrival::InBetween,
        other => Arrival::Fault(LinkFault::Unexpected(other)),
    }
}
