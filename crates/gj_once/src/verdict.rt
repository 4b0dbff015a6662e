//! What a producer's number says of its batch.

use gj_base::Receipt;

/// What is noted of a producer: the number of its last batch that entered the history, and the places that it took. The
/// number is 0 where none did.
#[derive(Clone, Copy, Debug, PartialEq, Eq)]
pub struct LastBatch {
    pub number: u64,
    pub receipt: Receipt,
}

/// What a producer's number says of its batch.
#[derive(Clone, Copy, Debug, PartialEq, Eq)]
pub enum Verdict {
    /// It is the next one.
    Fresh,
    /// It is the last one again, which took these places.
    Repeat { receipt: Receipt },
    /// It comes before the last one, which has this number.
    Old { last: u64 },
    /// Some number between the last one's, which is this, and its own is missing.
    Skipped { last: u64 },
}
