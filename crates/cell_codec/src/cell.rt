ghost use Rattle.std.specs.Prelude.{◌≡◌};

use crate::byte_list::Bytes;
use std::alloc::AllocError;

/// A cell's payload.
#[derive(Drop)]
pub enum Body {
    /// The 509 bytes of a fixed-length cell.
    Fixed([u8; 509]),
    /// The payload of a variable-length cell, at most 65,535 bytes.
    Var(Bytes),
}

impl Body {
    ghost use Rattle.cell_codec.specs.Cells.{payload_of};

    /// The payload's bytes.
    pub fn payload(&self) -> &[u8]
        ensures { result.now ≡ payload_of self.now }
    {
        match self {
            Body::Fixed(payload) => payload.as_slice(),
            Body::Var(payload) => payload.as_slice(),
        }
    }
}

/// A cell of a link (tor-spec, "Cell format"). It is well formed where its body is variable
/// exactly where its command is (VERSIONS, and 128 and above) and isn't too long.
#[derive(Drop)]
pub struct Cell {
    /// The CircID. 0 is for the link itself.
    pub circ: u32,
    /// What the cell is, as one of [`command`](crate::command).
    pub command: u8,
    /// The payload.
    pub body: Body,
}

/// Why a decoder gave no cells.
#[derive(Clone, Copy, Debug, PartialEq, Eq)]
pub enum DecodeFault {
    /// A link begins with VERSIONS on CircID 0 (2 bytes), and this one began otherwise.
    BadFirst {
        /// The CircID that stands there.
        circ: u16,
        /// The command that stands there.
        command: u8,
    },
    /// The bytes ended inside a cell.
    Short,
    /// There was no memory.
    Memory,
}

impl From<AllocError> for DecodeFault {
    ghost use Rattle.cell_codec.specs.declared.cell.DecodeFault.TheVariants.{Memory};

    ghost from_gives = { λ _ fault. fault ≡ Memory };

    fn from(_: AllocError) -> DecodeFault {
        DecodeFault::Memory
    }
}

/// Why a link was refused before it was open (tor-spec, "Negotiating and initializing channels").
#[derive(Clone, Copy, Debug, PartialEq, Eq)]
pub enum LinkFault {
    /// The payload of VERSIONS has an odd number of bytes.
    OddVersions,
    /// VERSIONS lists no version of ours.
    NoCommonVersion,
    /// A cell with this command may not stand here.
    Unexpected(u8),
    /// The payload of NETINFO isn't of its form.
    BadNetinfo,
}
