ghost use Rattle.std.specs.Prelude.{◌≡◌, ◌≢◌, ◌++◌, ◌∷◌, [], length, false, IfOk};
ghost use Rattle.socks_front.specs.Answering.{IsAnswer, IsShortUntilEnd, outcome_of, wish_of_request, wish_of_want};
ghost use Rattle.socks_front.specs.Reading.{is_end, outcome};

use crate::answer::SocksAnswer;
use crate::command::SocksCommand;
use crate::greeting::read_bytes;
use crate::progress::{Progress, SocksRequest};
use crate::reply::{NO_AUTHENTICATION, VERSION};
use crate::want::SocksWant;
use std::alloc::{AllocError, Global};
use std::marker::Model;

/// The bytes of the longest greeting and the longest request: 2 and 255 methods; 4, a name's length, 255
/// bytes of a name, and a port.
const MOST: usize = 519;

/// What a client has said so far. Contracts see its bytes, from the first on: each that was taken, and no
/// other.
#[derive(Drop)]
pub struct Socks {
    alloc: Global,
    bytes: [u8; 519],
    len: usize,
}

impl Model for Socks {
    ghost use Rattle.std.specs.Prelude.{ℕ, List, take, ◌≤◌};
    ghost use Rattle.socks_front.specs.Answering.{IsShortUntilEnd};
    ghost use Rattle.socks_front.specs.Reading.{outcome};

    ghost Value = { List ℕ };

    ghost view = { λ s. take s.len s.bytes };

    ghost invariant = { λ s. (s.len ≤ 519) × IsShortUntilEnd (outcome (take s.len s.bytes)) s.len 518 };
}

impl Socks {
    ghost use Rattle.socks_front.specs.declared.answer.SocksAnswer.TheVariants.{Memory};

    /// A client that has said nothing.
    pub fn new(alloc: Global) -> Socks
        ensures { result ≡ [] }
    {
        Socks {
            alloc,
            bytes: [0; MOST],
            len: 0,
        }
    }

    /// Whether no further byte is awaited: a `Want` or a `Refused` was answered.
    pub fn done(&self) -> bool
        ensures { result ≡ is_end (outcome self.now) }
    {
        ends(read_bytes(&self.bytes[..self.len]))
    }

    /// Takes the client's next byte and answers by all of them. After `Memory`, which comes at the last
    /// byte of a request alone, the byte was not taken.
    pub fn step(&mut self, byte: u8) -> SocksAnswer
        requires { is_end (outcome self.old) ≡ false }
        ensures answer { IsAnswer result (outcome (self.old ++ byte ∷ [])) }
        ensures taken { result ≢ Memory → self.new ≡ self.old ++ byte ∷ [] }
        ensures memory { result ≡ Memory → self.new ≡ self.old }
    {
        let len = self.len;
        self.bytes[len] = byte;
        self.len = len + 1;
        match answer_to(self.alloc, &self.bytes[..self.len]) {
            SocksAnswer::Memory => {
                self.len = len;
                SocksAnswer::Memory
            }
            answer => answer,
        }
    }
}

fn ends(progress: Progress<'_>) -> bool
    ensures { result ≡ is_end (outcome_of progress.entry) }
{
    match progress {
        Progress::Nothing | Progress::Greeting => false,
        Progress::Request(_) | Progress::Fault(_) => true,
    }
}

/// The answer to the last of these bytes.
fn answer_to(alloc: Global, bytes: &[u8]) -> SocksAnswer
    ensures answer { IsAnswer result (outcome bytes.now) }
    ensures short { IsShortUntilEnd (outcome bytes.now) (length bytes.now) 518 }
{
    match read_bytes(bytes) {
        Progress::Nothing => SocksAnswer::More,
        Progress::Greeting => SocksAnswer::Say([VERSION, NO_AUTHENTICATION]),
        Progress::Request(request) => match want_of(alloc, request) {
            Ok(want) => SocksAnswer::Want(want),
            Err(_) => SocksAnswer::Memory,
        },
        Progress::Fault(fault) => SocksAnswer::Refused(fault),
    }
}

/// What a whole request asks for, with its host as a text.
fn want_of(alloc: Global, request: SocksRequest<'_>) -> Result<SocksWant, AllocError>
    ensures { IfOk result (λ want. wish_of_want want ≡ wish_of_request request.entry) }
{
    let host = request.host.text(alloc)?;
    Ok(match request.command {
        SocksCommand::Connect => SocksWant::Connect {
            host,
            port: request.port,
        },
        SocksCommand::Resolve => SocksWant::Resolve { host },
    })
}
