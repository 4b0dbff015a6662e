//! The last batch of each producer.
ghost use Rattle.std.specs.Prelude.{◌≡◌, ◌≢◌, ◌<◌, ◌≤◌, ◌↔◌, ◌+◌, ℕ, IfOk};
ghost use Rattle.gj_base.specs.declared.item.Receipt.{Receipt};
ghost use Rattle.gj_once.specs.Judging.{judged, last_of, no_batch, nothing_noted, noting};

use crate::verdict::{LastBatch, Verdict};
use gj_base::{MAX_PRODUCER, Memory, Receipt};
use std::alloc::Global;
use std::marker::Model;

/// Nothing is noted of a producer.
const NO_BATCH: LastBatch = LastBatch {
    number: 0,
    receipt: Receipt { from: 0, to: 0 },
};

/// What was noted last of each producer, 1 to `MAX_PRODUCER`. Contracts see it as a list, in which producer 1 comes first.
#[derive(Debug, Drop)]
pub struct Once {
    lasts: Vec<LastBatch>,
}

impl Model for Once {
    ghost use Rattle.std.specs.Prelude.{◌≡◌, List, length};
    ghost use Rattle.gj_once.specs.declared.verdict.LastBatch.{LastBatch};

    ghost Value = { List LastBatch };

    ghost view = { λ o. o.lasts.items };

    ghost invariant = { λ o. length o.lasts.items ≡ 1024 };
}

impl Once {
    /// Nothing is noted. It takes all memory that it will use.
    pub fn new(alloc: Global) -> Result<Once, Memory>
        ensures exact { IfOk result (λ once. once ≡ nothing_noted) }
        ensures each { IfOk result (λ once. (producer : ℕ) → last_of once producer ≡ no_batch) }
    {
        match vec![in alloc; NO_BATCH; MAX_PRODUCER as usize] {
            Ok(lasts) => Ok(Once { lasts }),
            Err(_) => Err(Memory),
        }
    }

    /// What the number says of its producer's batch. It takes no memory, and the same time at any producer and number.
    #[tactic(auto, unfolding(crate::specs::Judging::judged))]
    pub fn judge(&self, producer: u32, number: u64) -> Verdict
        requires low { 1 ≤ producer }
        requires high { producer ≤ MAX_PRODUCER }
        requires numbered { 0 < number }
        ensures exact { result ≡ judged self.now producer number }
        ensures fresh { (result ≡ Verdict.Fresh) ↔ (number ≡ (last_of self.now producer).number + 1) }
        ensures repeat { (r : Receipt) → (result ≡ Verdict.Repeat r) ↔ ((number ≡ (last_of self.now producer).number) × (r ≡ (last_of self.now producer).receipt)) }
        ensures old { (last : ℕ) → (result ≡ Verdict.Old last) ↔ ((number < last) × (last ≡ (last_of self.now producer).number)) }
        ensures skipped { (last : ℕ) → (result ≡ Verdict.Skipped last) ↔ ((last + 1 < number) × (last ≡ (last_of self.now producer).number)) }
    {
        let LastBatch {
            number: last,
            receipt,
        } = self.lasts[(producer - 1) as usize];
        if number - 1 == last {
            Verdict::Fresh
        } else if number == last {
            Verdict::Repeat { receipt }
        } else if number < last {
            Verdict::Old { last }
        } else {
            Verdict::Skipped { last }
        }
    }

    /// Notes that a fresh batch took these places. It takes no memory, and the same time at any producer.
    pub fn note(&mut self, producer: u32, number: u64, receipt: Receipt)
        requires low { 1 ≤ producer }
        requires high { producer ≤ MAX_PRODUCER }
        requires fresh { judged self.old producer number ≡ Verdict.Fresh }
        ensures exact { self.new ≡ noting self.old producer number receipt }
        ensures its { last_of self.new producer ≡ record { number = number; receipt = receipt } }
        ensures others { (other : ℕ) → 1 ≤ other → other ≢ producer → last_of self.new other ≡ last_of self.old other }
    {
        self.lasts[(producer - 1) as usize] = LastBatch { number, receipt };
    }
}
