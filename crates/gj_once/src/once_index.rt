//! An index with the last batch of each producer.
ghost use Rattle.std.specs.Prelude.{◌≡◌, ◌+◌, ◌^◌, ◌<◌, ◌≤◌, ℕ, length};
ghost use Rattle.gj_base.specs.History.{end_of};
ghost use Rattle.gj_once.specs.Judging.{last_of};

use crate::noted_index::{Noted, NotedIndex, OnceError};
use crate::once::Once;
use crate::verdict::Verdict;
use gj_base::{Index, IndexError, Item, NotedItems, Receipt};

/// An index that takes a numbered batch once, by what is noted beside it.
#[derive(Drop)]
pub struct OnceIndex<I: Index> {
    index: I,
    once: Once,
    ghost within: { (producer : ℕ) → (last_of once producer).receipt.to ≤ end_of (I.viewed index) },
}

impl<I: Index> OnceIndex<I> {
    /// The index, beside which this is noted. It takes no memory.
    pub fn new(index: I, once: Once) -> OnceIndex<I>
        requires within { (producer : ℕ) → (last_of once producer).receipt.to ≤ end_of (I.viewed index) }
        ensures index { result.index ≡ index }
        ensures once { result.once ≡ once }
    {
        OnceIndex { index, once }
    }

    /// The index, without what was noted. It takes no memory.
    pub fn into_index(self) -> I
        ensures exact { result ≡ self.index }
    {
        let OnceIndex { index, once: _ } = self;
        index
    }
}

impl<I: Index> Index for OnceIndex<I> {
    type View = I::View;

    ghost use Rattle.std.specs.Prelude.{IfOk, IfErr, OnOk, OnErr, IsErrOf, IsTrue};
    ghost use Rattle.gj_base.specs.declared.history.History.{History};
    ghost use Rattle.gj_base.specs.declared.index.IndexError.TheVariants as why;
    ghost use Rattle.gj_base.specs.Causes.{faults_posted};
    ghost use Rattle.gj_base.specs.History.{conf_of, extend, entries_by, more};

    ghost viewed = { λ x. I.viewed x.index };

    ghost faults = { λ x. I.faults x.index };

    ghost steady = { λ x. I.steady x.index };

    ghost keeps = { λ x h. I.keeps x.index h };

    ghost is_window = { λ x. I.is_window x.index };

    ghost stands = { λ x h keeps. I.stands x.index h keeps };

    fn post_items(&mut self, items: &[Item]) -> Result<Receipt, IndexError>
        requires some { 0 < length items.now }
        requires few { length items.now ≤ 4096 }
        ensures ok { (h : History) (seat : ℕ) → I.keeps self.old.index h → OnOk result (I.keeps self.new.index (extend h (entries_by seat items.now))) }
        ensures receipt { IfOk result (λ r. (r.from ≡ end_of (I.viewed self.old.index)) × (r.to ≡ end_of (I.viewed self.old.index) + length items.now)) }
        ensures in_range { IfOk result (λ r. r.to ≤ 2 ^ 48) }

        ensures full { IfErr result (λ e. (n : ℕ) → e ≡ why.Full n → (n ≡ end_of (I.viewed self.old.index)) × (2 ^ 48 < end_of (I.viewed self.old.index) + length items.now)) }
        ensures room { 2 ^ 48 < end_of (I.viewed self.old.index) + length items.now → IsErrOf result (why.Full (end_of (I.viewed self.old.index))) }
        ensures count { I.faults self.new.index ≡ faults_posted (I.faults self.old.index) result }
        ensures later { I.faults self.old.index ≤ I.faults self.new.index }
        ensures steady { IsTrue (I.steady self.old.index) → (IsErrOf result why.Store → ⊥) × IsTrue (I.steady self.new.index) }

        ensures err { (h : History) → I.keeps self.old.index h → OnErr result (I.keeps self.new.index h) }
        ensures shows { OnOk result (I.viewed self.new.index ≡ more (I.viewed self.old.index) items.now) }
        ensures stays { OnErr result (I.viewed self.new.index ≡ I.viewed self.old.index) }
        ensures conf { conf_of (I.viewed self.new.index) ≡ conf_of (I.viewed self.old.index) }
        ensures noted { self.new.once ≡ self.old.once }
    {
        self.index.post_items(items)
    }

    fn view(&self) -> &I::View {
        self.index.view()
    }
}

impl<I: Index> NotedIndex for OnceIndex<I> {
    ghost use Rattle.gj_once.specs.OnceLaws.{within_each};

    ghost noted = { λ x. x.once };

    ghost within = { λ x. x.within };

    ghost within_kept = { λ x h producer keeps. within_each (I.viewed x.index) h x.once producer (I.is_window x.index) (I.stands x.index h keeps) (x.within producer) };

    fn post_plain(&mut self, items: &[Item]) -> Result<Receipt, IndexError> {
        self.post_items(items)
    }

    fn post_noted(&mut self, asked: &NotedItems) -> Result<Noted, OnceError> {
        match self.once.judge(asked.producer, asked.number) {
            Verdict::Fresh => match self.index.post_items(asked.items.as_slice()) {
                Ok(receipt) => {
                    self.once.note(asked.producer, asked.number, receipt);
                    Ok(Noted::New(receipt))
                }
                Err(why) => Err(OnceError::Index(why)),
            },
            Verdict::Repeat { receipt } => Ok(Noted::Repeated(receipt)),
            Verdict::Old { last } => Err(OnceError::Old { last }),
            Verdict::Skipped { last } => Err(OnceError::Skipped { last }),
        }
    }
}
