//! A book of what is accepted, which a keeper keeps.
ghost use Rattle.std.specs.Prelude.{◌≡◌, ◌⊎◌, ℕ, ◌+◌, ◌++◌, ◌^◌, ◌<◌, ◌≤◌, All, length, OnOk, OnErr, IfOk, IfErr, IsErr, IsErrOf, IsTrue};
ghost use Rattle.gj_base.specs.declared.history.History.{History};
ghost use Rattle.gj_base.specs.declared.index.IndexError.TheVariants.{Full, Store};
ghost use Rattle.gj_base.specs.declared.keeper.KeepError.TheVariants.{Failed};
ghost use Rattle.gj_base.specs.Causes.{faults_after, faults_posted};
ghost use Rattle.gj_base.specs.History.{extend, entries_by};
ghost use Rattle.gj_base.specs.Kept.{with_rows, placed};
ghost use Rattle.gj_keep.specs.Books.{BookKeeps, Keeps, trimmed};

use gj_base::{Conf, HISTORY_END, IndexError, Item, KeepError, Keeper, Receipt};
use std::marker::Model;

/// A keeper, with the first place that it keeps and the length of the history.
#[derive(Drop)]
pub struct Book<K: Keeper> {
    pub(crate) keeper: K,
    pub(crate) conf: Conf,
    pub(crate) first: u64,
    pub(crate) length: u64,
}

impl<K: Keeper> Model for Book<K> {
    ghost use Rattle.gj_keep.specs.Books.{BookView, IsBook};

    ghost Value = { BookView };

    ghost view = { λ b. record { conf = b.conf; first = b.first; length = b.length; kept = K.kept b.keeper; faults = K.faults b.keeper; steady = K.steady b.keeper } };

    ghost invariant = { λ b. IsBook b.conf b.first b.length (K.kept b.keeper) };
}

impl<K: Keeper> Book<K> {
    /// The length of the history.
    pub fn length(&self) -> u64
        ensures exact { result ≡ self.now.length }
        ensures in_range { result ≤ 2 ^ 48 }
    {
        self.length
    }

    /// The configuration under which it was opened.
    pub fn conf(&self) -> Conf
        ensures { result ≡ self.now.conf }
    {
        self.conf
    }

    /// The keeper, which keeps what the book kept. It may be opened again, whatever call failed last.
    pub fn into_keeper(self) -> K
        ensures same { (K.kept result ≡ self.kept) × (K.faults result ≡ self.faults) × (K.steady result ≡ self.steady) }
        ensures keeps { (h : History) → BookKeeps self h → Keeps self.conf (K.kept result) h }
    {
        let Book {
            keeper,
            conf: _,
            first: _,
            length: _,
        } = self;
        keeper
    }

    /// Drops what is in no window.
    fn trim(&mut self) -> Result<(), KeepError>
        ensures keeps { (h : History) → BookKeeps self.old h → BookKeeps self.new h }
        ensures ok { IsTrue self.old.kept.tells → OnOk result (self.new.kept ≡ with_rows self.old.kept (trimmed self.old.conf self.old.length self.old.kept.rows)) }
        ensures err { OnErr result (self.new.kept ≡ self.old.kept) }
        ensures same { (self.new.length ≡ self.old.length) × (self.new.conf ≡ self.old.conf) }
        ensures kind { (self.new.kept.tells ≡ self.old.kept.tells) × (self.new.kept.bare ≡ self.old.kept.bare) }
        ensures count { self.new.faults ≡ faults_after self.old.faults result }
        ensures later { self.old.faults ≤ self.new.faults }
        ensures steady { IsTrue self.old.steady → (IsErrOf result Failed → ⊥) × IsTrue self.new.steady }
    {
        let at = self.conf.base(self.length);
        if at <= self.first {
            return Ok(());
        }
        self.keeper.trim(at)?;
        self.first = at;
        Ok(())
    }

    /// Puts the items behind the rows.
    fn append(&mut self, items: &[Item]) -> Result<(), KeepError>
        requires room { self.old.length + length items.now ≤ 2 ^ 48 }
        ensures ok { (h : History) (by : ℕ) → BookKeeps self.old h → OnOk result (BookKeeps self.new (extend h (entries_by by items.now))) }
        ensures rows { IsTrue self.old.kept.tells → OnOk result (self.new.kept ≡ with_rows self.old.kept (self.old.kept.rows ++ placed self.old.length items.now)) }
        ensures err { (h : History) → BookKeeps self.old h → OnErr result (BookKeeps self.new h) }
        ensures rows_err { OnErr result (self.new.kept ≡ self.old.kept) }
        ensures length { OnOk result (self.new.length ≡ self.old.length + length items.now) }
        ensures length_err { OnErr result (self.new.length ≡ self.old.length) }
        ensures same { self.new.conf ≡ self.old.conf }
        ensures kind { (self.new.kept.tells ≡ self.old.kept.tells) × (self.new.kept.bare ≡ self.old.kept.bare) }
        ensures count { self.new.faults ≡ faults_after self.old.faults result }
        ensures later { self.old.faults ≤ self.new.faults }
        ensures steady { IsTrue self.old.steady → (IsErrOf result Failed → ⊥) × IsTrue self.new.steady }
    {
        let _room = self.conf.room();
        numbers_in(items);
        self.keeper.append(self.length, items)?;
        self.length += items.len() as u64;
        Ok(())
    }

    /// Keeps the items at the end of the history. Rows that are in no window are dropped first; where that fails,
    /// nothing is kept.
    pub fn keep(&mut self, items: &[Item]) -> Result<Receipt, IndexError>
        requires few { length items.now ≤ 4096 }
        ensures ok { (h : History) (by : ℕ) → BookKeeps self.old h → OnOk result (BookKeeps self.new (extend h (entries_by by items.now))) }
        ensures receipt { IfOk result (λ r. (r.from ≡ self.old.length) × (r.to ≡ self.old.length + length items.now)) }
        ensures length { OnOk result (self.new.length ≡ self.old.length + length items.now) }
        ensures err { (h : History) → BookKeeps self.old h → OnErr result (BookKeeps self.new h) }
        ensures length_err { OnErr result (self.new.length ≡ self.old.length) }
        ensures full { IfErr result (λ why. (n : ℕ) → why ≡ Full n → (n ≡ self.old.length) × (2 ^ 48 < self.old.length + length items.now) × (self.new ≡ self.old)) }
        ensures room { 2 ^ 48 < self.old.length + length items.now → IsErrOf result (Full self.old.length) }
        ensures count { self.new.faults ≡ faults_posted self.old.faults result }
        ensures later { self.old.faults ≤ self.new.faults }
        ensures steady { IsTrue self.old.steady → (IsErrOf result Store → ⊥) × IsTrue self.new.steady }
        ensures same { self.new.conf ≡ self.old.conf }

        // What the store holds: the rows that a window may need, and behind them the batch.
        ensures rows { IsTrue self.old.kept.tells
            → OnOk result (self.new.kept ≡ with_rows self.old.kept (trimmed self.old.conf self.old.length self.old.kept.rows ++ placed self.old.length items.now)) }
        ensures rows_err { IsTrue self.old.kept.tells
            → OnErr result ((self.new.kept ≡ self.old.kept) ⊎ (self.new.kept ≡ with_rows self.old.kept (trimmed self.old.conf self.old.length self.old.kept.rows))) }
        ensures kind { (self.new.kept.tells ≡ self.old.kept.tells) × (self.new.kept.bare ≡ self.old.kept.bare) }
    {
        let count = items.len() as u64;
        let from = self.length;
        if count > HISTORY_END - from {
            return Err(IndexError::Full { length: from });
        }
        if let Err(why) = self.trim() {
            return refused(why);
        }
        if let Err(why) = self.append(items) {
            return refused(why);
        }
        Ok(Receipt {
            from,
            to: from + count,
        })
    }
}

/// What the type of an item says of its numbers, for proofs alone.
fn numbers_of(item: &Item)
    ensures { (item.now.user < 2 ^ 63) × (item.now.post < 2 ^ 63) × (item.now.at < 2 ^ 63) }
{
    let _user = &item.user;
}

/// The same of each item.
fn numbers_in(items: &[Item])
    ensures { All (λ x. (x.user < 2 ^ 63) × (x.post < 2 ^ 63) × (x.at < 2 ^ 63)) items.now }
{
    for item in items {
        numbers_of(item);
    }
}

/// The answer where the keeper refuses.
fn refused(why: KeepError) -> Result<Receipt, IndexError>
    ensures err { IsErr result }
    ensures count { (n : ℕ) → faults_posted n result ≡ faults_after {T = Unit {0}} n (Err why) }
    ensures full { IfErr result (λ e. (n : ℕ) → e ≡ Full n → ⊥) }
    ensures store { IsErrOf result Store → why ≡ Failed }
{
    match why {
        KeepError::Failed => Err(IndexError::Store),
        KeepError::Memory => Err(IndexError::Memory),
    }
}
