//! The rule of the history's book, and the steps that its word takes.
use gj_base::{Entry, Item, KeptItem, List};
use logbook::{Gain, Plain, Play, Rule};
use std::snapshot::Snapshot;

/// What one seat posts at once.
#[derive(Drop)]
pub struct Posting {
    pub by: u32,
    pub items: List<Item>,
}

/// The rule of the book. Its log has lots: a first place, which the first lot alone needs, and entries of the history.
pub struct Law;

impl Rule<(u64, [Entry; 0]), u64> for Law {
    ghost use Rattle.std.specs.Prelude.{[]};
    ghost use base.Fml.{ftrue};
    ghost use Rattle.gj_log.specs.Rules.{IsKept};

    ghost holds = { λ cells log. IsKept cells log };

    ghost first = { [] };

    ghost hinted = { λ n log. Unit {0} };

    ghost shows = { λ log. [] };

    ghost keeps = { λ names log. ftrue };

    ghost moves = { λ ask before after answer. Unit {0} };
}

/// What callers trade in a step: nothing.
pub struct Nothing;

impl Gain<(u64, [Entry; 0]), u64> for Nothing {
    ghost use base.Fml.{ftrue};

    ghost after = { λ names about answer. ftrue };
}

/// A step that makes room for a lot.
pub struct Reserve;

impl Play<(u64, [Entry; 0]), u64> for Reserve {
    ghost use Rattle.gj_log.specs.Rules.{Reserves};

    ghost then = { Reserves };
}

impl Plain<(), (u64, [Entry; 0]), u64> for Reserve {
    ghost use Rattle.std.specs.Prelude.{None, []};

    ghost ask = { λ p. (0, []) };

    ghost state = { λ p. None };
}

/// A step that changes nothing, and finds that no lot lies beyond what was seen.
pub struct Confirm;

impl Play<(u64, [Entry; 0]), u64> for Confirm {
    ghost use Rattle.gj_log.specs.Rules.{Confirms};

    ghost then = { Confirms };
}

/// A step that adds a lot.
pub struct Add;

impl Play<(u64, [Entry; 0]), u64> for Add {
    ghost use Rattle.gj_log.specs.Rules.{Adds};

    ghost then = { Adds };
}

// The lot of a batch.
impl Plain<Posting, (u64, [Entry; 0]), u64> for Add {
    ghost use Rattle.std.specs.Prelude.{None};
    ghost use Rattle.gj_base.specs.History.{entries_by};

    ghost ask = { λ p. (0, entries_by p.by p.items) };

    ghost state = { λ p. None };
}

// The lot of the rows that were kept.
impl Plain<Snapshot<Vec<KeptItem>>, (u64, [Entry; 0]), u64> for Add {
    ghost use Rattle.std.specs.Prelude.{None};
    ghost use Rattle.gj_keep.specs.Rows.{opened};

    ghost ask = { λ rows. ((opened rows.value.items).first, (opened rows.value.items).entries) };

    ghost state = { λ rows. None };
}
