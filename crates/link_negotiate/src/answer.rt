use cell_codec::{Cell, LinkFault, List};

/// What a side answers to a cell while a link is being opened.
#[derive(Drop)]
pub enum LinkAnswer {
    /// These cells are to be sent. The first is VERSIONS, which `write_versions` writes.
    Send(List<Cell>),
    /// The link is open with this version; the cell, if any, is to be sent first.
    Ready(u16, Option<Cell>),
    /// The cell asks for nothing.
    PassedOver,
    /// The link is refused.
    Refused(LinkFault),
    /// There was no memory, and the cell was not taken.
    Memory,
}
