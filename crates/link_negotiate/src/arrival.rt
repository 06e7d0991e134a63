use cell_codec::LinkFault;

/// What a cell is to a side that awaits NETINFO.
#[derive(Clone, Copy)]
pub enum Arrival {
    /// NETINFO in its form.
    Netinfo,
    /// A cell that may come between VERSIONS and NETINFO, and is passed over.
    InBetween,
    /// A cell that may not stand here, or NETINFO outside its form.
    Fault(LinkFault),
}
