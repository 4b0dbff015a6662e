//! Who writes the history.
ghost use Rattle.std.specs.Prelude.{◌≡◌, ◌+◌, ◌≤◌, ◌^◌, ◌++◌, true, false, [], length, IfSome};
ghost use Rattle.gj_base.specs.History.{Begins, entries_by, extend, length_of};
ghost use Rattle.gj_keep.specs.Rows.{opened};

use crate::front::Front;
use crate::law::{Add, Posting};
use crate::naming::Opening;
use crate::pages::{BlankBook, Pages};
use gj_base::KeptItem;
use std::marker::Model;
use std::snapshot::Snapshot;

/// The accepted history, with the right to add to it. Contracts see it, what it began with, and whether there is room
/// for a batch.
#[derive(Drop)]
pub struct Scribe<J: Opening> {
    until: u64,
    pages: Pages<J>,
}

impl<J: Opening> Model for Scribe<J> {
    ghost use Rattle.std.specs.Prelude.{◌≡◌, ◌<◌, ◌≤◌, ◌^◌, length};
    ghost use Rattle.gj_base.specs.History.{length_of};
    ghost use Rattle.gj_log.specs.Entered.{ScribeView, first_lot, history_of};

    ghost Value = { ScribeView };

    ghost view = { λ s. record { opening = first_lot s.pages.0; history = history_of s.pages.0; ready = s.pages.1 } };

    ghost invariant = { λ s. (s.until ≡ length_of (history_of s.pages.0)) × (s.until ≤ 2 ^ 48) × (0 < length s.pages.0) };
}

impl<J: Opening> Scribe<J> {
    /// The history of the kept rows, which has this length. `None` is want of memory.
    pub fn begin(book: BlankBook, rows: &Snapshot<Vec<KeptItem>>, length: u64) -> Option<Scribe<J>>
        requires book { book ≡ J.book }
        requires length { (length ≡ length_of (opened rows.now.value.items)) × (length ≤ 2 ^ 48) }
        ensures { IfSome result (λ s. s ≡ record { opening = opened rows.now.value.items; history = opened rows.now.value.items; ready = false }) }
    {
        let mut pages: Pages<J> = book.named::<J>()?;
        if !pages.reserve() {
            return None;
        }
        pages.add::<Snapshot<Vec<KeptItem>>, Add>(rows);
        Some(Scribe {
            until: length,
            pages,
        })
    }

    /// The length of the history.
    pub fn length(&self) -> u64
        ensures exact { result ≡ length_of self.now.history }
        ensures in_range { result ≤ 2 ^ 48 }
    {
        self.until
    }

    /// The history as a front.
    pub fn front(&self) -> Front<J>
        ensures { result ≡ self.now.history }
    {
        Front::of(self.pages.seen(), self.until)
    }

    /// Makes room for a batch, and says whether there is room. It takes no memory.
    pub fn reserve(&mut self) -> bool
        ensures same { (self.new.opening ≡ self.old.opening) × (self.new.history ≡ self.old.history) }
        ensures ready { self.new.ready ≡ result }
    {
        self.pages.reserve()
    }

    /// Adds a batch. It takes no memory.
    pub fn enter(&mut self, posting: &Posting)
        requires ready { self.old.ready ≡ true }
        requires room { length_of self.old.history + length posting.now.items ≤ 2 ^ 48 }
        ensures added { self.new.history ≡ extend self.old.history (entries_by posting.now.by posting.now.items) }
        ensures same { self.new.opening ≡ self.old.opening }
        ensures spent { self.new.ready ≡ false }
    {
        self.pages.add::<Posting, Add>(posting);
        self.until += posting.items.len() as u64;
    }

    /// Confirms that the history begins with a front, as each front of its opening does.
    pub fn confirm(&mut self, front: &Front<J>)
        ensures same { self.new ≡ self.old }
        ensures begins { Begins front.now self.new.history }
    {
        self.pages.confirm(front.token());
    }
}
