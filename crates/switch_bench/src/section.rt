//! What was timed.

/// How long something took, in nanoseconds of the processor, and how many cells went through.
#[derive(Clone, Copy)]
pub(crate) struct Section {
    pub nanoseconds: u64,
    pub cells: u64,
}

/// Nothing yet.
pub(crate) const NOTHING: Section = Section {
    nanoseconds: 0,
    cells: 0,
};

impl Section {
    /// From `start` to `end`, with so many cells.
    pub(crate) fn between(start: u64, end: u64, cells: u32) -> Section {
        Section {
            nanoseconds: end.saturating_sub(start),
            cells: u64::from(cells),
        }
    }

    /// Both together.
    pub(crate) fn with(self, more: Section) -> Section {
        Section {
            nanoseconds: self.nanoseconds.saturating_add(more.nanoseconds),
            cells: self.cells.saturating_add(more.cells),
        }
    }
}
