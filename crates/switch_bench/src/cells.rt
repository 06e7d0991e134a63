//! The cells that a client sends, sealed before the time is taken.

ghost use Rattle.std.specs.Prelude.{◌≡◌, ◌+◌, ◌*◌, ◌≤◌, ◌<◌, ◌^◌, IfOk, length};
ghost use Rattle.cell_codec.specs.Cells.{IsWellFormed};

use cell_codec::command::RELAY;
use cell_codec::{Body, Cell};
use hop_crypto::Sealer;
use kdf_tor::{LayerKeys, derive};
use relay_cell::put_digest;
use run_digest::Running;
use std::alloc::{AllocError, Global};

/// How many cells a round has: a number that 1, 8 and 32 divide.
pub(crate) const CELLS: u32 = 512;

/// The CircID of the circuit.
pub(crate) const CIRC_ID: u32 = 0x8000_0001;

/// A cell that a link brings.
#[derive(Drop)]
pub(crate) struct Brought {
    pub cell: Cell,
    ghost formed: { IsWellFormed cell },
}

/// The cells of a round that isn't timed, and of the next, which is.
#[derive(Drop)]
pub(crate) struct Rounds {
    pub untimed: Vec<Brought>,
    pub timed: Vec<Brought>,
    ghost few_untimed: { length untimed.items ≤ 512 },
    ghost few_timed: { length timed.items ≤ 512 },
}

/// The keys of a circuit whose client's half and this relay's are zeros.
pub(crate) fn circuit_keys() -> LayerKeys {
    derive(&[0; 20], &[0; 20]).layer
}

/// Two rounds of cells, each with this body, as the client of the circuit seals them for the relay.
pub(crate) fn sealed_rounds(alloc: Global, plain: &[u8; 509]) -> Result<Rounds, AllocError> {
    let keys = circuit_keys();
    let mut running = Running::seeded(&keys.df);
    // The client puts on what the relay takes off.
    let mut layer = Sealer::of(&LayerKeys {
        df: keys.db,
        db: keys.df,
        kf: keys.kb,
        kb: keys.kf,
    });
    let untimed = sealed_round(alloc, &mut running, &mut layer, plain)?;
    let timed = sealed_round(alloc, &mut running, &mut layer, plain)?;
    Ok(Rounds { untimed, timed })
}

/// The next round's cells.
fn sealed_round(
    alloc: Global,
    running: &mut Running,
    layer: &mut Sealer,
    plain: &[u8; 509],
) -> Result<Vec<Brought>, AllocError>
    requires { layer.old.position < 2 ^ 90 }
    ensures count { IfOk result (λ cells. length cells.items ≤ 512) }
    ensures place { IfOk result (λ _. layer.new.position ≤ layer.old.position + 509 * 512) }
{
    let mut cells = Vec::new(alloc);
    for _cell in 0..CELLS {
        cells.push(sealed(running, layer, plain))?;
    }
    Ok(cells)
}

/// The next cell.
fn sealed(running: &mut Running, layer: &mut Sealer, plain: &[u8; 509]) -> Brought
    requires { layer.old.position < 2 ^ 100 }
    ensures { layer.new.position ≡ layer.old.position + 509 }
{
    running.absorb(plain);
    let [a, b, c, d, ..] = running.digest();
    let mut body = *plain;
    put_digest(&mut body, [a, b, c, d]);
    layer.put_on(&mut body);
    let cell = Cell {
        circ: CIRC_ID,
        command: RELAY,
        body: Body::Fixed(body),
    };
    Brought { cell }
}
