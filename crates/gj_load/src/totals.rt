//! What came of a workload.

/// What came of a workload: its numbers, in the order in which they are told.
#[derive(Clone, Copy, Debug, PartialEq, Eq)]
pub struct Totals {
    /// The interactions that were accepted.
    pub accepted: u64,
    /// The batches in which they were posted.
    pub batches: u64,
    /// The length of the history.
    pub length: u64,
    /// The first place of its window.
    pub base: u64,
    /// The interactions of its window.
    pub window: u64,
    /// The visits of all walks.
    pub visits: u64,
    /// The best post of the last walk and its visits, where it visited one.
    pub best: Option<(u64, u64)>,
}
