use cell_codec::LinkFault;

/// Where a negotiation stands.
#[derive(Clone, Copy)]
pub enum LinkPhase {
    /// VERSIONS is awaited.
    AwaitsVersions,
    /// NETINFO is awaited; this version was agreed on.
    AwaitsNetinfo(u16),
    /// The link is open.
    Open,
    /// The link is refused.
    Refused(LinkFault),
}
