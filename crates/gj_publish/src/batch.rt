//! What changes a copy: the items of one post, or a compaction.
ghost use Rattle.std.specs.Prelude.{◌≡◌, []};
ghost use Rattle.gj_base.specs.History.{entries_by, extend};

use gj_base::{Item, List};
use gj_log::{Front, Opening, Posting};
use std::alloc::Global;
use std::marker::Model;

/// The items of one seat, between the history before them and after them. Contracts see these four.
#[derive(Drop)]
pub struct Batch<J: Opening> {
    posting: Posting,
    compacts: bool,
    before: Front<J>,
    after: Front<J>,
}

impl<J: Opening> Model for Batch<J> {
    ghost use Rattle.std.specs.Prelude.{◌≡◌};
    ghost use Rattle.gj_base.specs.History.{entries_by, extend};
    ghost use Rattle.gj_publish.specs.Posted.{BatchView};

    ghost Value = { BatchView };

    ghost view = { λ b. record { by = b.posting.by; items = b.posting.items; before = b.before; after = b.after } };

    ghost invariant = { λ b. b.after ≡ extend b.before (entries_by b.posting.by b.posting.items) };
}

impl<J: Opening> Batch<J> {
    /// The batch of a posting, which leads from one front to the other.
    pub fn new(posting: Posting, before: Front<J>, after: Front<J>) -> Batch<J>
        requires { after ≡ extend before (entries_by posting.by posting.items) }
        ensures { (result.by ≡ posting.by) × (result.items ≡ posting.items) × (result.before ≡ before) × (result.after ≡ after) }
    {
        Batch {
            posting,
            compacts: false,
            before,
            after,
        }
    }

    /// One that adds nothing, and compacts.
    pub fn compacting(alloc: Global, at: &Front<J>) -> Batch<J>
        ensures { (result.items ≡ []) × (result.before ≡ at.now) × (result.after ≡ at.now) }
    {
        Batch {
            posting: Posting {
                by: 0,
                items: List::new(alloc),
            },
            compacts: true,
            before: at.again(),
            after: at.again(),
        }
    }

    /// The items, oldest first.
    pub fn items(&self) -> &[Item]
        ensures { result.now ≡ self.now.items }
    {
        self.posting.items.as_slice()
    }

    /// Whether it asks the copy to compact itself.
    pub fn compacts(&self) -> bool {
        self.compacts
    }

    /// The history before it.
    pub fn before(&self) -> &Front<J>
        ensures { result.now ≡ self.now.before }
    {
        &self.before
    }

    /// The history after it.
    pub fn after(&self) -> Front<J>
        ensures result { result ≡ self.now.after }
        ensures adds { result ≡ extend self.now.before (entries_by self.now.by self.now.items) }
    {
        self.after.again()
    }
}
