//! Replies.

use crate::edge::EdgeList;
use gj_base::{Conf, ItemList};
use gj_proof::RankedList;
use gj_request::Name;
use gj_similar::ScoreList;

/// How many interactions of each kind a window has.
#[derive(Clone, Copy, Debug, PartialEq, Eq)]
pub struct KindCounts {
    pub click: u64,
    pub favorite: u64,
    pub retweet: u64,
    pub reply: u64,
    pub tweet: u64,
}

/// A reply or a refusal. `length` is the length of the history that was looked at, or after the batch for `Posted`.
#[derive(Drop)]
pub enum Reply {
    /// The batch stands in the history from this place on.
    Posted {
        from: u64,
        length: u64,
    },
    /// The batch entered the history before, at this place, by the same number of its producer. `length` is where it ended.
    Repeated {
        from: u64,
        length: u64,
    },
    /// The producer's last batch has this number, which is above the batch's.
    Old {
        last: u64,
    },
    /// The producer's last batch has this number, and one between it and the batch's is missing.
    Skipped {
        last: u64,
    },
    /// The batch would pass the length that no history passes.
    Full {
        length: u64,
    },
    /// The history is shorter than the ask's `since`.
    Behind {
        length: u64,
    },
    /// The store failed, and the batch is not in the history.
    Store,
    /// The writer and the published history do not agree.
    Apart {
        seen: u64,
        shown: u64,
        posted: u64,
        counted: u64,
    },
    /// The posts of a walk by their visits, the first first.
    Walk {
        length: u64,
        results: RankedList,
    },
    /// The posts of a subgraph by their units, the first first.
    Subgraph {
        length: u64,
        results: RankedList,
    },
    /// The posts that share users with a post, the first first.
    Similar {
        length: u64,
        results: ScoreList,
    },
    /// The posts of a count by their weights, the first first.
    Count {
        length: u64,
        results: RankedList,
    },
    /// A user's degree over all kinds and moments, and the latest interactions, newest first.
    User {
        length: u64,
        id: u64,
        degree: u64,
        recent: EdgeList,
    },
    /// A post's degree over all kinds and moments, and the latest interactions, newest first.
    Post {
        length: u64,
        id: u64,
        degree: u64,
        recent: EdgeList,
    },
    /// Where the window begins, how much it may hold, and what it has of each kind, at all moments.
    Stats {
        length: u64,
        base: u64,
        conf: Conf,
        kinds: KindCounts,
    },
    /// The interactions from a place on, all or the first 1000.
    Log {
        length: u64,
        from: u64,
        items: ItemList,
    },
    /// The place lies before the window, which begins at `base`.
    Gone {
        length: u64,
        base: u64,
    },
    /// The place lies after the history.
    Ahead {
        length: u64,
    },
    /// The body has no reading as JSON.
    BadJson,
    /// The field is missing or has the wrong form, or no field has the name.
    BadField(Name),
    /// The field is out of its range.
    BadRange(Name),
    /// No route has the path.
    NoRoute,
    /// The path's route takes GET alone.
    OnlyGet,
    /// The path's route takes POST alone.
    OnlyPost,
    /// The head is no request head.
    BadHead,
    /// The head does not end within its limit.
    HeadLong,
    /// A field is named `Transfer-Encoding`.
    Coded,
    /// `Content-Length` is given twice, or is no number.
    BadLength,
    /// The stated length is above the largest.
    BodyLong,
}
