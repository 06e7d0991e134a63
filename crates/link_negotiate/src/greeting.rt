ghost use Rattle.std.specs.Prelude.{◌≡◌, [], ◌∷◌, map, All, IfOk};
ghost use Rattle.tor_spec.specs.Versions.{versions_cell};
ghost use Rattle.tor_spec.specs.Netinfo.{silent_netinfo};
ghost use Rattle.cell_codec.specs.Cells.{wire_cell, IsWellFormed};
ghost use Rattle.link_negotiate.specs.Negotiation.{our_versions};

use crate::versions::OUR_VERSIONS;
use cell_codec::{Body, Bytes, Cell, List, command};
use std::alloc::{AllocError, Global};

/// The NETINFO that is sent: time 0, the other side's address as 0.0.0.0, and no address of ours. That
/// it tells nothing is a rule of this relay.
pub fn own_netinfo() -> Cell
    ensures cell { wire_cell result ≡ silent_netinfo }
    ensures well_formed { IsWellFormed result }
{
    let mut payload = [0; 509];
    payload[4] = 4;
    payload[5] = 4;
    Cell {
        circ: 0,
        command: command::NETINFO,
        body: Body::Fixed(payload),
    }
}

/// VERSIONS with our list.
fn own_versions(alloc: Global) -> Result<Cell, AllocError>
    ensures cell { IfOk result (λ c. wire_cell c ≡ versions_cell our_versions) }
    ensures well_formed { IfOk result IsWellFormed }
{
    let mut payload = Bytes::new(alloc);
    for version in OUR_VERSIONS {
        payload.extend(&version.to_be_bytes())?;
    }
    Ok(Cell {
        circ: 0,
        command: command::VERSIONS,
        body: Body::Var(payload),
    })
}

/// What the answering side sends: VERSIONS and NETINFO.
pub fn greeting(alloc: Global) -> Result<List<Cell>, AllocError>
    ensures cells { IfOk result (λ l. map wire_cell l.items ≡ versions_cell our_versions ∷ silent_netinfo ∷ []) }
    ensures well_formed { IfOk result (λ l. All IsWellFormed l.items) }
{
    let mut cells = List::with_room(alloc, 2)?;
    cells.push(own_versions(alloc)?)?;
    cells.push(own_netinfo())?;
    Ok(cells)
}
