//! How a loop of the relay ends.
use cell_codec::LinkFault;

/// How a loop of the relay ended.
#[derive(Clone, Copy, Debug, PartialEq, Eq)]
pub enum LoopEnd {
    /// All accepting slots have ended.
    Halted,
    /// No step is left: the history is full.
    Spent,
    /// What it served came to its end.
    Ended,
    /// A read failed, and the count of faults rose.
    ReadFault,
    /// A write failed, and the count of faults rose.
    WriteFault,
    /// The link was refused before it was open, and why.
    Refused(LinkFault),
    /// The link's first cell isn't VERSIONS.
    BadFirst,
    /// So many channels are live as there may be.
    Full,
    /// Memory is wanting.
    Memory,
}
