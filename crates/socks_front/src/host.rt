ghost use Rattle.std.specs.Prelude.{◌≡◌, IfOk};

use crate::decimal::dotted_text;
use cell_codec::Bytes;
use std::alloc::{AllocError, Global};

/// A host in a request (RFC 1928, section 5).
#[derive(Clone, Copy)]
pub enum Host<'a> {
    /// An IPv4 address.
    Ip([u8; 4]),
    /// A name.
    Name(&'a [u8]),
}

impl<'a> Host<'a> {
    ghost use Rattle.socks_front.specs.Answering.{host_text};

    /// The host as a text.
    pub fn text(self, alloc: Global) -> Result<Bytes, AllocError>
        ensures { IfOk result (λ text. text.items ≡ host_text self.entry) }
    {
        match self {
            Host::Ip(ip) => dotted_text(alloc, ip),
            Host::Name(name) => Bytes::of(alloc, name),
        }
    }
}
