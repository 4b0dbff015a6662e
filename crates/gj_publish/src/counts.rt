//! The numbers of a seat that bound its refusals and its repeats.
ghost use Rattle.std.specs.Prelude.{◌≡◌};
ghost use Rattle.gj_publish.specs.Seats.{no_numbers, looked, not_looked, not_stored, not_fitted, not_met, after_verdict};

use gj_once::Verdict;
use std::marker::Model;

/// How often a seat looked, was refused a look, was refused a post by each cause, and had a noted batch judged each way. A
/// number at the last value of a u64 stays. Contracts alone see them.
#[derive(Drop)]
pub struct Counts {
    looks: u64,
    refused: u64,
    store: u64,
    full: u64,
    apart: u64,
    judged_fresh: u64,
    judged_repeat: u64,
    judged_old: u64,
    judged_skipped: u64,
}

impl Model for Counts {
    ghost use Rattle.gj_publish.specs.Seats.{Numbers};

    ghost Value = { Numbers };

    ghost view = { λ c. record { looks = c.looks; refused = c.refused; store = c.store; full = c.full; apart = c.apart; judged_fresh = c.judged_fresh; judged_repeat = c.judged_repeat; judged_old = c.judged_old; judged_skipped = c.judged_skipped } };
}

impl Counts {
    /// All are 0.
    pub fn new() -> Counts
        ensures { result ≡ no_numbers }
    {
        Counts {
            looks: 0,
            refused: 0,
            store: 0,
            full: 0,
            apart: 0,
            judged_fresh: 0,
            judged_repeat: 0,
            judged_old: 0,
            judged_skipped: 0,
        }
    }

    /// The seat looked.
    pub fn look(&mut self)
        ensures { self.new ≡ looked self.old }
    {
        self.looks = self.looks.saturating_add(1);
    }

    /// A look was refused.
    pub fn refuse_look(&mut self)
        ensures { self.new ≡ not_looked self.old }
    {
        self.refused = self.refused.saturating_add(1);
    }

    /// A post was refused by a fault of the keeper.
    pub fn refuse_store(&mut self)
        ensures { self.new ≡ not_stored self.old }
    {
        self.store = self.store.saturating_add(1);
    }

    /// A post was refused by a full history.
    pub fn refuse_full(&mut self)
        ensures { self.new ≡ not_fitted self.old }
    {
        self.full = self.full.saturating_add(1);
    }

    /// A post was refused since seat and writer do not fit.
    pub fn refuse_apart(&mut self)
        ensures { self.new ≡ not_met self.old }
    {
        self.apart = self.apart.saturating_add(1);
    }

    /// A noted batch was judged so.
    pub fn judge(&mut self, verdict: Verdict)
        ensures { self.new ≡ after_verdict verdict self.old }
    {
        match verdict {
            Verdict::Fresh => self.judged_fresh = self.judged_fresh.saturating_add(1),
            Verdict::Repeat { receipt: _ } => {
                self.judged_repeat = self.judged_repeat.saturating_add(1);
            }
            Verdict::Old { last: _ } => self.judged_old = self.judged_old.saturating_add(1),
            Verdict::Skipped { last: _ } => {
                self.judged_skipped = self.judged_skipped.saturating_add(1);
            }
        }
    }
}
