//! How a program ends.
ghost use Rattle.std.specs.Prelude.{◌≡◌, ◌≤◌, ◌++◌, length};
ghost use Rattle.std.specs.Fmt.{decimal};
ghost use Rattle.tr_io.specs.Statuses.{status_number, status_text, phrase_text};

use crate::phrase::Phrase;

/// How a program ended: its exit status, and what it says on standard error.
#[derive(Clone, Copy, Debug, PartialEq, Eq)]
pub enum Status {
    /// All was done.
    Done,
    /// The command line is no line of the program's grammar.
    Usage,
    /// The settings break this rule first.
    Settings(u8),
    /// Reading failed.
    ReadFault,
    /// Writing failed.
    WriteFault,
    /// The bytes from this place on, counted from 0, begin no record of a tape, or end inside one.
    BadTape(u64),
    /// A record of this kind isn't built.
    NotBuilt(u8),
    /// The input is longer than its limit.
    TooLong,
    /// A slot couldn't be paired, dialled, read or written.
    DoorFault,
    /// A thread couldn't be started.
    CrewFault,
    /// Memory is wanting.
    Memory,
    /// The link's negotiation was refused, with this cause.
    LinkRefused(u8),
    /// The client's circuit closed, with this cause.
    CircuitClosed(u8),
    /// The stream ended with this reason (tor-spec, "Closing streams").
    StreamEnded(u8),
}

impl Status {
    /// The program's exit status: 0 to 13, in the order of the variants.
    pub fn number(self) -> u8
        ensures { result ≡ status_number self }
    {
        match self {
            Status::Done => 0,
            Status::Usage => 1,
            Status::Settings(_) => 2,
            Status::ReadFault => 3,
            Status::WriteFault => 4,
            Status::BadTape(_) => 5,
            Status::NotBuilt(_) => 6,
            Status::TooLong => 7,
            Status::DoorFault => 8,
            Status::CrewFault => 9,
            Status::Memory => 10,
            Status::LinkRefused(_) => 11,
            Status::CircuitClosed(_) => 12,
            Status::StreamEnded(_) => 13,
        }
    }

    /// What a program says of its end on standard error, behind its name; nothing where all was
    /// done. A program adds its usage text, on a line of its own, behind `usage`.
    pub fn phrase(self) -> Phrase
        ensures { phrase_text result ≡ status_text self }
    {
        match self {
            Status::Done => words(""),
            Status::Usage => words("usage"),
            Status::Settings(rule) => numbered("settings rule ", u64::from(rule), ""),
            Status::ReadFault => words("read fault"),
            Status::WriteFault => words("write fault"),
            Status::BadTape(place) => numbered("bad tape at ", place, ""),
            Status::NotBuilt(kind) => numbered("kind ", u64::from(kind), " not built"),
            Status::TooLong => words("too long"),
            Status::DoorFault => words("door fault"),
            Status::CrewFault => words("crew fault"),
            Status::Memory => words("out of memory"),
            Status::LinkRefused(cause) => numbered("link refused ", u64::from(cause), ""),
            Status::CircuitClosed(cause) => numbered("circuit closed ", u64::from(cause), ""),
            Status::StreamEnded(reason) => numbered("stream ended ", u64::from(reason), ""),
        }
    }
}

/// Words without a number.
fn words(front: &'static str) -> Phrase
    requires { length front.now ≤ 20 }
    ensures { phrase_text result ≡ front.now }
{
    Phrase {
        front,
        number: None,
        tail: "",
    }
}

/// Words round a number.
fn numbered(front: &'static str, number: u64, tail: &'static str) -> Phrase
    requires front { length front.now ≤ 20 }
    requires tail { length tail.now ≤ 20 }
    ensures { phrase_text result ≡ front.now ++ (decimal number ++ tail.now) }
{
    Phrase {
        front,
        number: Some(number),
        tail,
    }
}
