//! Handshakes, as a relay answers them.
ghost use Rattle.std.specs.Prelude.{◌≡◌, Some, None, IfOk, IsErrOf};
ghost use Rattle.hop_handshake.specs.Answers.{AnswerRule, answer_of};

use cell_codec::Bytes;
use kdf_tor::LayerKeys;
use std::alloc::{AllocError, Global};

/// The answer to a good handshake.
#[derive(Drop)]
pub struct Answered {
    /// The relay's half of the handshake: HDATA of CREATED2 and EXTENDED2.
    pub reply: Bytes,
    /// The keys that both sides have from it.
    pub keys: LayerKeys,
}

/// Why a handshake wasn't answered.
#[derive(Clone, Copy, Debug, PartialEq, Eq)]
pub enum AnswerFault {
    /// The client's half is of a type that isn't answered, or isn't of the form of its type.
    BadHandshake,
    /// There was no memory.
    Memory,
}

impl From<AllocError> for AnswerFault {
    ghost use Rattle.hop_handshake.specs.declared.handshake.AnswerFault.TheVariants.{Memory};

    ghost from_gives = { λ _ fault. fault ≡ Memory };

    fn from(_: AllocError) -> AnswerFault {
        AnswerFault::Memory
    }
}

/// How a relay answers handshakes (tor-spec, "CREATE and CREATED cells"). A handshake tells for each
/// client's half and each Y what it answers, or that the client's half is bad.
pub trait Handshake {
    /// What it answers to the type and the data of the client's half under Y, or `None` where they
    /// are bad.
    ghost answer_to: { Self → AnswerRule };

    /// Answers the client's half, the type `htype` and the data `hdata`, under the relay's 20 random
    /// bytes `y`.
    ///
    /// # Errors
    ///
    /// [`AnswerFault::BadHandshake`] only where the client's half is bad; [`AnswerFault::Memory`]
    /// where there is no memory for the reply.
    fn answer(
        &self,
        alloc: Global,
        htype: u16,
        hdata: &[u8],
        y: &[u8; 20],
    ) -> Result<Answered, AnswerFault>
        ensures answered { IfOk result (λ a.
            answer_to self.now htype hdata.now y.now ≡ Some (answer_of a)) }
        ensures bad { IsErrOf result AnswerFault.BadHandshake →
            answer_to self.now htype hdata.now y.now ≡ None };
}
