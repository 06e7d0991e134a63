ghost use Rattle.std.specs.Prelude.{◌≡◌, ◌+◌, ◌≤◌, ◌++◌, length, OnOk, OnErr, IfOk, IsOk};

use crate::list::List;
use std::alloc::{AllocError, Global};

/// A list of bytes.
pub type Bytes = List<u8>;

impl List<u8> {
    /// A copy of `bytes`.
    pub fn of(alloc: Global, bytes: &[u8]) -> Result<List<u8>, AllocError>
        ensures { IfOk result (λ b. b.items ≡ bytes.now) }
    {
        Ok(List {
            items: Vec::from_slice(alloc, bytes)?,
        })
    }

    /// Adds all of `bytes` at the end. With enough spare places it can't fail.
    pub fn extend(&mut self, bytes: &[u8]) -> Result<(), AllocError>
        ensures ok { OnOk result (self.new.items ≡ self.old.items ++ bytes.now) }
        ensures spare { OnOk result (self.old.spare ≤ self.new.spare + length bytes.now) }
        ensures err { OnErr result (self.new ≡ self.old) }
        ensures room { length bytes.now ≤ self.old.spare → IsOk result }
    {
        self.items.reserve(bytes.len())?;
        self.items.extend_from_slice(bytes)
    }
}
