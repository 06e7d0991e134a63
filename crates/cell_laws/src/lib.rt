//! What the definitions of `tor_spec` by which bytes are read mean: what is read is what the bytes
//! spell by the standard's grammar, what they spell is read, and what is written is read back.
//!
//! On a link no cell's encoding begins another's, so a prefix of the bytes spells a list of cells in one
//! way only; the reading gives the longest such list, in whatever pieces the bytes come.
//!
//! Each function says laws and does nothing. Where a law asks that its bytes are numbers below 256, the
//! bytes of the code always are.
#![tactic(auto)]

pub mod link;
pub mod opening;
pub mod relay;
