//! The handshake of CREATE_FAST (tor-spec, "CREATE_FAST/CREATED_FAST cells").
ghost use Rattle.std.specs.Prelude.{◌≡◌, Some, None, IfOk, IsErrOf, ◌↔◌};
ghost use Rattle.hop_handshake.specs.Answers.{answer_of};
ghost use Rattle.hop_handshake.specs.Fast.{fast_answer, fast_rule};

use crate::handshake::{AnswerFault, Answered, Handshake};
use cell_codec::Bytes;
use kdf_tor::{LayerKeys, derive};
use std::alloc::Global;

/// The HTYPE under which EXTEND2 and CREATE2 carry the handshake.
const FAST_TYPE: u16 = 0xff01;

/// The relay's half of the handshake, Y and KH, and the circuit's keys.
#[derive(Clone, Copy)]
pub struct FastAnswer {
    pub reply: [u8; 40],
    pub keys: LayerKeys,
}

/// The answer to the client's X under the relay's Y.
pub fn fast_answer(x: &[u8; 20], y: &[u8; 20]) -> FastAnswer
    ensures reply { result.reply ≡ (fast_answer x.now y.now).reply }
    ensures keys { result.keys ≡ (fast_answer x.now y.now).keys }
{
    let hop = derive(x, y);
    let mut reply = [0; 40];
    reply[..20].copy_from_slice(y);
    reply[20..].copy_from_slice(&hop.kh);
    FastAnswer {
        reply,
        keys: hop.layer,
    }
}

/// The handshake of CREATE_FAST in EXTEND2 and CREATE2, under HTYPE hex FF01, to which the standard
/// gives no meaning. HDATA is X, 20 bytes; the answer is Y and KH (tor-spec,
/// "CREATE_FAST/CREATED_FAST cells", "KDF-TOR"). It gives no secrecy: who reads X and Y has the keys.
#[derive(Clone, Copy, Debug, PartialEq, Eq)]
pub struct FastHandshake;

impl Handshake for FastHandshake {
    ghost answer_to = { λ _. fast_rule };

    /// Y and KH, and the keys of X and Y.
    ///
    /// # Errors
    ///
    /// [`AnswerFault::BadHandshake`] exactly where the type isn't hex FF01 or X hasn't 20 bytes;
    /// [`AnswerFault::Memory`] where there is no memory for the reply.
    #[tactic(auto, unfolding(crate::specs::Fast::fast_rule))]
    fn answer(
        &self,
        alloc: Global,
        htype: u16,
        hdata: &[u8],
        y: &[u8; 20],
    ) -> Result<Answered, AnswerFault>
        ensures answered { IfOk result (λ a. fast_rule htype hdata.now y.now ≡ Some (answer_of a)) }
        ensures bad { IsErrOf result AnswerFault.BadHandshake ↔ (fast_rule htype hdata.now y.now ≡ None) }
    {
        if htype != FAST_TYPE || hdata.len() != 20 {
            return Err(AnswerFault::BadHandshake);
        }
        let mut x = [0; 20];
        x.copy_from_slice(hdata);
        let answer = fast_answer(&x, y);
        Ok(Answered {
            reply: Bytes::of(alloc, &answer.reply)?,
            keys: answer.keys,
        })
    }
}
