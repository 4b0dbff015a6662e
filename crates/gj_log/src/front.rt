//! Beginnings of the history.
ghost use Rattle.std.specs.Prelude.{◌≡◌, ◌≢◌, ◌+◌, ◌<◌, ◌≤◌, ◌^◌, length, MatchBool};
ghost use Rattle.gj_base.specs.History.{Begins, length_of};
ghost use Rattle.gj_log.specs.Entered.{history_of};

use crate::law::Law;
use crate::naming::Opening;
use gj_base::Entry;
use logbook::Seen;
use std::marker::{Model, PhantomData};

/// A beginning of the history that an opening accepted, at least what it began with. Contracts see it as that history;
/// in memory it is a length.
#[derive(Drop)]
pub struct Front<J: Opening> {
    until: u64,
    seen: Seen<(u64, [Entry; 0]), u64, Law>,
    of: PhantomData<J>,
}

impl<J: Opening> Model for Front<J> {
    ghost use Rattle.std.specs.Prelude.{◌≡◌, ◌<◌, ◌≤◌, ◌^◌, length};
    ghost use Rattle.gj_base.specs.declared.history.History.{History};
    ghost use Rattle.gj_base.specs.History.{length_of};
    ghost use Rattle.gj_log.specs.Entered.{history_of};

    ghost Value = { History };

    ghost view = { λ f. history_of f.seen.log };

    ghost invariant = { λ f. (f.until ≡ length_of (history_of f.seen.log)) × (f.seen.book ≡ J.book) × (f.until ≤ 2 ^ 48) × (0 < length f.seen.log) };
}

impl<J: Opening> Front<J> {
    /// The length of the history that it is.
    pub fn length(&self) -> u64
        ensures exact { result ≡ length_of self.now }
        ensures in_range { result ≤ 2 ^ 48 }
    {
        self.until
    }

    /// The same front once more.
    pub fn again(&self) -> Front<J>
        ensures { result ≡ self.now }
    {
        Front {
            until: self.until,
            seen: self.seen.again(),
            of: PhantomData,
        }
    }

    /// Whether it begins the other: of two fronts of one opening the shorter begins the longer.
    pub fn begins(&self, other: &Front<J>) -> bool
        ensures { MatchBool result (Begins self.now other.now) (length_of other.now < length_of self.now) }
    {
        let mut both = self.seen.again();
        both.learn(&other.seen);
        if self.until <= other.until {
            true
        } else {
            false
        }
    }

    /// Whether the two are one: two fronts of one opening that have one length are.
    pub fn same(&self, other: &Front<J>) -> bool
        ensures { MatchBool result (self.now ≡ other.now) (length_of self.now ≢ length_of other.now) }
    {
        let mut both = self.seen.again();
        both.learn(&other.seen);
        if self.until == other.until {
            true
        } else {
            false
        }
    }

    pub(crate) fn of(seen: &Seen<(u64, [Entry; 0]), u64, Law>, until: u64) -> Front<J>
        requires book { seen.now.book ≡ J.book }
        requires until { (until ≡ length_of (history_of seen.now.log)) × (until ≤ 2 ^ 48) }
        requires some { 0 < length seen.now.log }
        ensures { result ≡ history_of seen.now.log }
    {
        Front {
            until,
            seen: seen.again(),
            of: PhantomData,
        }
    }

    // What was seen, as a token.
    pub(crate) fn token(&self) -> &Seen<(u64, [Entry; 0]), u64, Law>
        ensures seen { (result.now.book ≡ J.book) × (history_of result.now.log ≡ self.now) }
        ensures some { 0 < length result.now.log }
    {
        &self.seen
    }
}
