ghost use Rattle.std.specs.Prelude.{◌≤◌};
ghost use Rattle.tor_spec.specs.CircuitWindow.{circuit_start, least_start};

/// The numbers of the settings.
#[derive(Clone, Copy)]
pub(crate) struct Numbers {
    pub(crate) accept_slots: u32,
    pub(crate) dial_slots: u32,
    pub(crate) edge_slots: u32,
    pub(crate) workers: u32,
    pub(crate) accepts: u32,
    pub(crate) circuit_window: u32,
    pub(crate) sendme_least: u32,
    ghost slots_within: { (accept_slots ≤ 64) × (dial_slots ≤ 63) },
    ghost window_within: { (least_start ≤ circuit_window) × (circuit_window ≤ circuit_start) },
    ghost least_within: { sendme_least ≤ 1 },
}
