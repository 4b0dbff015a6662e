//! Why a look or a post is refused.
use gj_base::Receipt;

/// Why a look is refused. The seat is as before, but for its number of refused looks, which rose.
#[derive(Clone, Copy, Debug, Drop, PartialEq, Eq)]
pub enum NoLook {
    /// The copies gave no reader, as once the writer is gone. `left_right` states no cause.
    Refused,
    /// What is shown has the length `shown`, and the seat saw, or was told of in a post, a longer history.
    Short { seen: u64, shown: u64 },
}

/// Why a post is refused. But for `KeptUnseen` nothing was accepted.
#[derive(Clone, Copy, Debug, Drop, PartialEq, Eq)]
pub enum PostError {
    /// No memory was found before the keeper was asked, or the keeper found none.
    Memory,
    /// The batch is kept and in the history, and no memory was found to show it. It is owed: the next post shows it.
    KeptUnseen {
        receipt: Receipt,
    },
    /// A call of the keeper failed; its count of faults rose.
    Store,
    /// The history would pass `HISTORY_END`. It has this length.
    Full {
        length: u64,
    },
    /// The look of the post was refused.
    NoLook(NoLook),
    /// The seat saw more than is published, or posted another number of interactions than the history has of it. `seen`
    /// is the length that it saw, `shown` the published one, `posted` the seat's number and `counted` the history's.
    Apart {
        seen: u64,
        shown: u64,
        posted: u64,
        counted: u64,
    },
}

/// Why a noted batch is not in the history, or not known to be shown. But for `Post(KeptUnseen)` nothing was accepted.
#[derive(Clone, Copy, Debug, Drop, PartialEq, Eq)]
pub enum NotedError {
    /// It was refused as a batch without a number. Where it had entered before, this is `NoLook` or `Apart`.
    Post(PostError),
    /// It had entered at these places, and no memory was found to show what is owed, which may be this batch.
    RepeatUnseen { receipt: Receipt },
    /// It comes before the last one of its producer that entered, which has this number.
    Old { last: u64 },
    /// Some number between the last one's of its producer, which is this, and its own is missing.
    Skipped { last: u64 },
}
