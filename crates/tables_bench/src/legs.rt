//! The legs that calls are made for.

use crate::request::Request;
use std::alloc::{AllocError, Global};
use tr_io::names::{ChanNo, CircNo};

/// How many calls of each kind a round makes.
pub(crate) const CALLS: u32 = 512;

/// A circuit's leg towards the previous hop.
#[derive(Clone, Copy)]
pub(crate) struct BenchLeg {
    pub chan: ChanNo,
    pub id: u32,
    pub circ: CircNo,
}

/// The legs that the calls of a round are made for, one after another.
pub(crate) fn legs_of(alloc: Global, request: Request) -> Result<Vec<BenchLeg>, AllocError> {
    let mut legs = Vec::new(alloc);
    for call in 0..CALLS {
        let circuit = call % request.circuits;
        legs.push(BenchLeg {
            chan: ChanNo(u64::from(circuit % request.channels)),
            id: circuit,
            circ: CircNo(u64::from(circuit)),
        })?;
    }
    Ok(legs)
}
