//! What takes a numbered batch once.
ghost use Rattle.std.specs.Prelude.{◌≡◌, ◌+◌, ◌^◌, ◌<◌, ◌≤◌, length};

use crate::verdict::LastBatch;
use gj_base::{Index, IndexError, Item, NotedItems, Receipt};

/// How a numbered batch is in the history.
#[derive(Clone, Copy, Debug, PartialEq, Eq)]
pub enum Noted {
    /// It entered at these places.
    New(Receipt),
    /// It had entered at these places before.
    Repeated(Receipt),
}

/// Why a numbered batch is not in the history, or not known to be.
#[derive(Clone, Copy, Debug, Drop, PartialEq, Eq)]
pub enum OnceError {
    /// It was the next one of its producer, and the index refused it.
    Index(IndexError),
    /// It comes before the last one of its producer that entered, which has this number.
    Old { last: u64 },
    /// Some number between the last one's of its producer, which is this, and its own is missing.
    Skipped { last: u64 },
}

/// An index that notes the last batch of each producer, and takes none twice.
pub trait NotedIndex: Index {
    ghost use Rattle.std.specs.Prelude.{ℕ, List, IfOk, IfErr, OnOk, OnErr, IsErrOf, IsTrue};
    ghost use Rattle.gj_base.specs.declared.history.History.{History};
    ghost use Rattle.gj_base.specs.declared.index.IndexError.TheVariants.{Full, Store};
    ghost use Rattle.gj_base.specs.Asks.{IsNotedBatch};
    ghost use Rattle.gj_base.specs.Causes.{faults_posted};
    ghost use Rattle.gj_base.specs.History.{conf_of, end_of, extend, entries_by, length_of, more};
    ghost use Rattle.gj_once.specs.declared.noted_index.OnceError.TheVariants as refused;
    ghost use Rattle.gj_once.specs.declared.verdict.LastBatch.{LastBatch};
    ghost use Rattle.gj_once.specs.declared.verdict.Verdict.TheVariants.{Fresh};
    ghost use Rattle.gj_once.specs.Judging.{judged, last_of, noting};
    ghost use Rattle.gj_once.specs.NotedPosts.{Answers, IfNew, OnNew, OnOther, faults_noted};

    // What it noted last of each producer.
    ghost noted: { Self → List LastBatch };

    /// Posts a batch without a number, as `post_items` does, and leaves what is noted.
    fn post_plain(&mut self, items: &[Item]) -> Result<Receipt, IndexError>
        requires some { 0 < length items.now }
        requires few { length items.now ≤ 4096 }
        ensures ok { (h : History) (seat : ℕ) → Self.keeps self.old h → OnOk result (Self.keeps self.new (extend h (entries_by seat items.now))) }
        ensures receipt { IfOk result (λ r. (r.from ≡ end_of (Self.viewed self.old)) × (r.to ≡ end_of (Self.viewed self.old) + length items.now)) }
        ensures in_range { IfOk result (λ r. r.to ≤ 2 ^ 48) }

        ensures full { IfErr result (λ why. (n : ℕ) → why ≡ Full n → (n ≡ end_of (Self.viewed self.old)) × (2 ^ 48 < end_of (Self.viewed self.old) + length items.now)) }
        ensures room { 2 ^ 48 < end_of (Self.viewed self.old) + length items.now → IsErrOf result (Full (end_of (Self.viewed self.old))) }
        ensures count { Self.faults self.new ≡ faults_posted (Self.faults self.old) result }
        ensures later { Self.faults self.old ≤ Self.faults self.new }
        ensures steady { IsTrue (Self.steady self.old) → (IsErrOf result Store → ⊥) × IsTrue (Self.steady self.new) }

        ensures err { (h : History) → Self.keeps self.old h → OnErr result (Self.keeps self.new h) }
        ensures shows { OnOk result (Self.viewed self.new ≡ more (Self.viewed self.old) items.now) }
        ensures stays { OnErr result (Self.viewed self.new ≡ Self.viewed self.old) }
        ensures conf { conf_of (Self.viewed self.new) ≡ conf_of (Self.viewed self.old) }
        ensures noted { noted self.new ≡ noted self.old };

    /// Posts the batch if its number is the next one of its producer, and notes it if it enters. It enters whole, or not
    /// at all. `by` of the new entries may be any seat.
    fn post_noted(&mut self, asked: &NotedItems) -> Result<Noted, OnceError>
        ensures is_batch { IsNotedBatch asked.now }
        ensures exact { Answers (judged (noted self.old) asked.now.producer asked.now.number) result }

        // A fresh batch is posted as one without a number.
        ensures ok { (h : History) (seat : ℕ) → Self.keeps self.old h → OnNew result (Self.keeps self.new (extend h (entries_by seat asked.now.items))) }
        ensures receipt { IfNew result (λ r. (r.from ≡ end_of (Self.viewed self.old)) × (r.to ≡ end_of (Self.viewed self.old) + length asked.now.items)) }
        ensures in_range { IfNew result (λ r. r.to ≤ 2 ^ 48) }
        ensures shows { OnNew result (Self.viewed self.new ≡ more (Self.viewed self.old) asked.now.items) }
        ensures full { IfErr result (λ why. (n : ℕ) → why ≡ refused.Index (Full n) → (n ≡ end_of (Self.viewed self.old)) × (2 ^ 48 < end_of (Self.viewed self.old) + length asked.now.items)) }
        ensures room { judged (noted self.old) asked.now.producer asked.now.number ≡ Fresh → 2 ^ 48 < end_of (Self.viewed self.old) + length asked.now.items
            → IsErrOf result (refused.Index (Full (end_of (Self.viewed self.old)))) }
        ensures count { Self.faults self.new ≡ faults_noted (Self.faults self.old) result }
        ensures later { Self.faults self.old ≤ Self.faults self.new }
        ensures steady { IsTrue (Self.steady self.old) → (IsErrOf result (refused.Index Store) → ⊥) × IsTrue (Self.steady self.new) }
        ensures conf { conf_of (Self.viewed self.new) ≡ conf_of (Self.viewed self.old) }

        // What entered is noted.
        ensures noted { IfNew result (λ r. noted self.new ≡ noting (noted self.old) asked.now.producer asked.now.number r) }

        // Every other answer leaves everything.
        ensures keeps { (h : History) → Self.keeps self.old h → OnOther result (Self.keeps self.new h) }
        ensures stays { OnOther result (Self.viewed self.new ≡ Self.viewed self.old) }
        ensures others { OnOther result (noted self.new ≡ noted self.old) };

    ghost within: { (x : Self) (producer : ℕ) → (last_of (noted x) producer).receipt.to ≤ end_of (Self.viewed x) };

    ghost within_kept: { (x : Self) (h : History) (producer : ℕ) → Self.keeps x h → (last_of (noted x) producer).receipt.to ≤ length_of h };
}
