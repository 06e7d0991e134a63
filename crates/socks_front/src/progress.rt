use crate::command::SocksCommand;
use crate::fault::SocksFault;
use crate::host::Host;

/// What a whole request asks for.
#[derive(Clone, Copy)]
pub struct SocksRequest<'a> {
    pub command: SocksCommand,
    pub host: Host<'a>,
    pub port: u16,
}

/// What the bytes so far come to.
#[derive(Clone, Copy)]
pub enum Progress<'a> {
    /// No message has ended with the last byte, and none is refused.
    Nothing,
    /// The greeting has just ended.
    Greeting,
    /// The request has ended.
    Request(SocksRequest<'a>),
    /// A byte is refused.
    Fault(SocksFault),
}
