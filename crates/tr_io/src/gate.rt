//! A point that a worker passes.

/// Where a worker passes on its way: a test's gate may keep it there for a while, and the relay's does
/// nothing. It changes nothing that a proof sees.
pub trait Gate {
    /// The worker is at a point: 0 between its claim and its work, 1 between its work and its return.
    fn pass(&self, worker: u32, point: u32);
}

/// A gate that is always open.
#[derive(Clone, Copy, Drop)]
pub struct OpenGate;

impl Gate for OpenGate {
    fn pass(&self, _worker: u32, _point: u32) {}
}
