//! What a cell that asks for a circuit comes to.
ghost use Rattle.std.specs.Prelude.{◌≡◌, ℕ, ◌≤◌, Some, None, false, take, IfOk, OnErr, IfSome, IfNone, IsSome, IsTrue};
ghost use Rattle.cell_codec.specs.Cells.{is_var, payload_of, IsWellFormed};
ghost use Rattle.tor_spec.specs.CellCommands.{asks_for_circuit, opens_circuit};
ghost use Rattle.tor_spec.specs.Extend.{handshake_request};
ghost use Rattle.hop_handshake.specs.Answers.{answer_of};
ghost use Rattle.hop_handshake.specs.Opening.{refusal, fast_opening, answered_opening, create2_opening, opening_under, IsPutToHandshake};

use crate::command::{CREATE_FAST, CREATE2, CREATED_FAST, CREATED2, DESTROY};
use crate::fast::fast_answer;
use crate::handshake::{AnswerFault, Answered, Handshake};
use crate::payload::{created2_payload, fixed_payload};
use cell_codec::{Body, Cell};
use kdf_tor::LayerKeys;
use relay_cell::read_handshake_request;
use std::alloc::{AllocError, Global};

/// The most bytes that a handshake's answer may have: EXTENDED2 has room for no more behind HLEN.
const MOST_REPLY: usize = 496;

/// DESTROY's reason PROTOCOL (tor-spec, "Tearing down circuits").
const PROTOCOL: u8 = 1;

/// The opening of a circuit.
#[derive(Drop)]
pub struct Opening {
    /// The cell that answers, on the CircID of the cell that asks: CREATED_FAST or CREATED2, or
    /// DESTROY where the opening is refused.
    pub reply: Cell,
    /// The keys of the circuit, or `None` where the opening is refused.
    pub keys: Option<LayerKeys>,
    /// The key of the padding of this relay's bodies, 16 bytes, or `None` where it is zero.
    pub pad: Option<[u8; 16]>,
}

/// The opening that a CREATE, CREATE_FAST or CREATE2 (commands 1, 5 and 10) asks for, under the
/// handshake `hs` and the relay's 20 random bytes `y`. `pad` goes along as it is.
///
/// CREATE_FAST is answered by CREATED_FAST (6) with Y and KH (tor-spec, "CREATE_FAST/CREATED_FAST
/// cells"), CREATE2 by CREATED2 (11) with the handshake's answer (tor-spec, "CREATE and CREATED
/// cells"). Refused, by DESTROY (4) with reason 1 and without keys, are CREATE, a CREATE2 whose HLEN
/// is above 505, a bad handshake, and an answer of more than 496 bytes. Bytes behind X or HDATA aren't
/// looked at.
///
/// # Errors
///
/// [`AllocError`] where the handshake wants memory for its answer; a CREATE2 with the whole of the
/// client's half alone is put to it.
#[tactic(auto, unfolding(crate::specs::Opening::opening_under))]
pub fn opening_of<H: Handshake>(
    alloc: Global,
    cell: &Cell,
    hs: &H,
    y: &[u8; 20],
    pad: Option<[u8; 16]>,
) -> Result<Opening, AllocError>
    requires fixed { is_var cell.now.body ≡ false }
    requires command { IsTrue (asks_for_circuit cell.now.command) }
    ensures opening { IfOk result (λ o. o ≡ opening_under (H.answer_to hs.now) y.now pad cell.now) }
    ensures memory { OnErr result (IsPutToHandshake cell.now) }
    ensures circuit { IfOk result (λ o. o.reply.circ ≡ cell.now.circ) }
    ensures reply_is_fixed { IfOk result (λ o. is_var o.reply.body ≡ false) }
    ensures well_formed { IfOk result (λ o. IsWellFormed o.reply) }
    ensures opens { IfOk result (λ o. IfSome o.keys (λ _. IsTrue (opens_circuit o.reply.command))) }
    ensures refuses { IfOk result (λ o. IfNone o.keys (o ≡ refusal pad cell.now.circ)) }
{
    let Body::Fixed(payload) = &cell.body else {
        unreachable!()
    };
    match cell.command {
        CREATE_FAST => Ok(fast_opening(cell.circ, payload, y, pad)),
        CREATE2 => create2_opening(alloc, cell.circ, payload, hs, y, pad),
        _ => Ok(refusal(cell.circ, pad)),
    }
}

/// The opening that a CREATE_FAST with this payload asks for.
fn fast_opening(circuit: u32, payload: &[u8; 509], y: &[u8; 20], pad: Option<[u8; 16]>) -> Opening
    ensures { result ≡ fast_opening pad circuit (take 20 payload.now) y.now }
{
    let mut x = [0; 20];
    x.copy_from_slice(&payload[..20]);
    let answer = fast_answer(&x, y);
    Opening {
        reply: Cell {
            circ: circuit,
            command: CREATED_FAST,
            body: Body::Fixed(fixed_payload(&answer.reply)),
        },
        keys: Some(answer.keys),
        pad,
    }
}

/// The opening that a CREATE2 with this payload asks for.
fn create2_opening<H: Handshake>(
    alloc: Global,
    circuit: u32,
    payload: &[u8; 509],
    hs: &H,
    y: &[u8; 20],
    pad: Option<[u8; 16]>,
) -> Result<Opening, AllocError>
    ensures opening { IfOk result (λ o.
        o ≡ create2_opening (H.answer_to hs.now) y.now pad circuit payload.now) }
    ensures memory { OnErr result (IsSome (handshake_request payload.now)) }
{
    let Some((htype, hdata)) = read_handshake_request(payload) else {
        return Ok(refusal(circuit, pad));
    };
    match hs.answer(alloc, htype, hdata, y) {
        Ok(answer) => Ok(answered_opening(circuit, &answer, pad)),
        Err(AnswerFault::BadHandshake) => Ok(refusal(circuit, pad)),
        Err(AnswerFault::Memory) => Err(AllocError),
    }
}

/// CREATED2 with this answer, or a refusal where it is too long.
fn answered_opening(circuit: u32, answer: &Answered, pad: Option<[u8; 16]>) -> Opening
    ensures { result ≡ answered_opening pad circuit (Some (answer_of answer.now)) }
{
    let reply = answer.reply.as_slice();
    if reply.len() > MOST_REPLY {
        return refusal(circuit, pad);
    }
    Opening {
        reply: Cell {
            circ: circuit,
            command: CREATED2,
            body: Body::Fixed(created2_payload(reply)),
        },
        keys: Some(answer.keys),
        pad,
    }
}

/// DESTROY with reason 1, and no keys.
fn refusal(circuit: u32, pad: Option<[u8; 16]>) -> Opening
    ensures { result ≡ refusal pad circuit }
{
    Opening {
        reply: Cell {
            circ: circuit,
            command: DESTROY,
            body: Body::Fixed(fixed_payload(&[PROTOCOL])),
        },
        keys: None,
        pad,
    }
}
