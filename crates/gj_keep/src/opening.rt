//! Opening a book over a keeper.
ghost use Rattle.std.specs.Prelude.{◌≡◌, ℕ, ◌<◌, ◌≤◌, [], length, slice_index_or, Option, false, IfOk, IfErr, OnOk, OnErr, IsTrue, MatchResult};
ghost use Rattle.gj_base.specs.declared.history.History.{History};
ghost use Rattle.gj_base.specs.declared.keeper.KeptConf.{KeptConf};
ghost use Rattle.gj_base.specs.declared.keeper.KeepError.TheVariants.{Failed};
ghost use Rattle.gj_base.specs.Causes.{Rose, faults_after};
ghost use Rattle.gj_base.specs.History.{StandsFor};
ghost use Rattle.gj_keep.specs.declared.opening.OpenError.{OpenError};
ghost use Rattle.gj_keep.specs.declared.opening.OpenError.TheVariants.{Store, ConfDiffers, KeptRow, Place};
ghost use Rattle.gj_keep.specs.Books.{BookKeeps, Keeps, asked, suits, told_rows};
ghost use Rattle.gj_keep.specs.Openings.{IsBadRow, IsPrepared, IsLeft, MayRefuse, Shows, due, faults_at};
ghost use Rattle.gj_keep.specs.Rows.{opened, good};

use crate::book::Book;
use crate::filling::graphs_of;
use crate::reading::{bad_row, first_of};
use gj_base::{Conf, Graph, Grow, KeepError, Keeper, KeptConf, KeptItem, STORE_VERSION};
use std::alloc::Global;
use std::snapshot::Snapshot;

/// Why an opening is refused.
#[derive(Clone, Copy, Debug, Drop, PartialEq, Eq)]
pub enum OpenError {
    /// No memory was found.
    Memory,
    /// A call of the store failed; the keeper's count of faults rose.
    Store,
    /// A configuration is kept whose version is neither 1 nor 2, or whose capacity or segments aren't the asked ones.
    ConfDiffers { kept: KeptConf, asked: KeptConf },
    /// The row with this index is the first bad one: it is no interaction at the next place of a history.
    KeptRow { row: u64 },
    /// No place for a reader was granted. Opening a book never asks for one.
    Place,
}

/// A refused opening, with the keeper.
#[derive(Drop)]
pub struct OpenRefused<K> {
    pub keeper: K,
    pub why: OpenError,
}

/// The configuration as a store keeps it.
fn asked_by(conf: Conf) -> KeptConf
    ensures { result ≡ asked conf }
{
    KeptConf {
        version: STORE_VERSION,
        capacity: u64::from(conf.capacity()),
        segments: u64::from(conf.segments()),
    }
}

/// Why an opening is refused where the keeper refuses a call.
fn refusal(why: KeepError) -> OpenError
    ensures count { (n : ℕ) → faults_at result n ≡ faults_after {T = Unit {0}} n (Err why) }
    ensures may { (refusal : Option OpenError) → MayRefuse refusal result }
    ensures store { result ≡ Store → why ≡ Failed }
{
    match why {
        KeepError::Failed => OpenError::Store,
        KeepError::Memory => OpenError::Memory,
    }
}

/// Whether a store with this configuration may be opened.
fn may_open(kept: KeptConf, asked: KeptConf) -> bool
    requires { asked.version ≡ 2 }
    ensures { result ≡ suits (record { capacity = asked.capacity; segments = asked.segments }) (Some kept) }
{
    (kept.version == 1 || kept.version == STORE_VERSION)
        && kept.capacity == asked.capacity
        && kept.segments == asked.segments
}

/// Gives the store the asked configuration, where it has none, or brings it to the newest version.
fn prepare<K: Keeper>(keeper: &mut K, conf: Conf) -> Result<(), OpenError>
    ensures ok { OnOk result (IsPrepared conf (K.kept keeper.old) (K.kept keeper.new)) }
    ensures suited { IsTrue (K.kept keeper.old).tells → OnOk result (IsTrue (suits conf (K.kept keeper.old).conf)) }
    ensures err { OnErr result (K.kept keeper.new ≡ K.kept keeper.old) }
    ensures refused { IsTrue (K.kept keeper.old).tells → IfErr result (λ why. MayRefuse (due conf (K.kept keeper.old)) why) }
    ensures bare_refused { IsTrue (K.kept keeper.old).bare → IfErr result (λ why. MayRefuse None why) }
    ensures differs { IfErr result (λ why. (old now : KeptConf) → why ≡ ConfDiffers old now → (suits conf (Some old) ≡ false) × (now ≡ asked conf)) }
    ensures others { IfErr result (λ why. (why ≡ Place → ⊥) × ((row : ℕ) → why ≡ KeptRow row → ⊥)) }
    ensures count { MatchResult result (λ _. K.faults keeper.new ≡ K.faults keeper.old) (λ why. K.faults keeper.new ≡ faults_at why (K.faults keeper.old)) }
    ensures later { K.faults keeper.old ≤ K.faults keeper.new }
    ensures steady { IsTrue (K.steady keeper.old) → IfErr result (λ why. why ≡ Store → ⊥) × IsTrue (K.steady keeper.new) }
{
    let asked = asked_by(conf);
    let done = match keeper.conf() {
        Err(why) => return Err(refusal(why)),
        Ok(None) => keeper.set_conf(asked),
        Ok(Some(kept)) if may_open(kept, asked) => keeper.migrate(),
        Ok(Some(kept)) => return Err(OpenError::ConfDiffers { kept, asked }),
    };
    match done {
        Err(why) => Err(refusal(why)),
        Ok(()) => Ok(()),
    }
}

/// The rows of the store, which are good, once it is prepared.
fn read_rows<K: Keeper>(
    alloc: Global,
    conf: Conf,
    keeper: &mut K,
) -> Result<Vec<KeptItem>, OpenError>
    ensures good { IfOk result (λ rows. IsTrue (good conf rows.items)) }
    ensures told { IsTrue (K.kept keeper.old).tells → IfOk result (λ rows. rows.items ≡ told_rows (K.kept keeper.old)) }
    ensures bare { IsTrue (K.kept keeper.old).bare → IfOk result (λ rows. rows.items ≡ []) }
    ensures suited { IsTrue (K.kept keeper.old).tells → OnOk result (IsTrue (suits conf (K.kept keeper.old).conf)) }
    ensures ok { OnOk result (IsPrepared conf (K.kept keeper.old) (K.kept keeper.new)) }
    ensures err { OnErr result (IsLeft conf (K.kept keeper.old) (K.kept keeper.new)) }
    ensures differs { IfErr result (λ why. (old now : KeptConf) → why ≡ ConfDiffers old now
        → (suits conf (Some old) ≡ false) × (now ≡ asked conf) × (K.kept keeper.new ≡ K.kept keeper.old)) }
    ensures bad { IfErr result (λ why. (row : ℕ) → why ≡ KeptRow row → IsBadRow conf row) }
    ensures refused { IsTrue (K.kept keeper.old).tells → IfErr result (λ why. MayRefuse (due conf (K.kept keeper.old)) why) }
    ensures bare_refused { IsTrue (K.kept keeper.old).bare → IfErr result (λ why. MayRefuse None why) }
    ensures place { IfErr result (λ why. why ≡ Place → ⊥) }
    ensures count { MatchResult result (λ _. K.faults keeper.new ≡ K.faults keeper.old) (λ why. K.faults keeper.new ≡ faults_at why (K.faults keeper.old)) }
    ensures later { K.faults keeper.old ≤ K.faults keeper.new }
    ensures steady { IsTrue (K.steady keeper.old) → IfErr result (λ why. why ≡ Store → ⊥) × IsTrue (K.steady keeper.new) }
{
    if let Err(why) = prepare(keeper, conf) {
        return Err(why);
    }
    let rows = match keeper.rows(alloc) {
        Err(why) => return Err(refusal(why)),
        Ok(rows) => rows,
    };
    if let Some(row) = bad_row(conf, &rows) {
        return Err(OpenError::KeptRow { row });
    }
    Ok(rows)
}

impl<K: Keeper> Book<K> {
    /// The book of what the keeper keeps, so many equal graphs of its window, and the rows that were read, for
    /// contracts alone. A store without a configuration gets the asked one, and a store of version 1 is migrated. It
    /// takes memory for the rows and the graphs.
    pub fn open_book<W: Grow + Drop>(
        alloc: Global,
        conf: Conf,
        keeper: K,
        copies: u32,
    ) -> Result<(Book<K>, Vec<W>, Snapshot<Vec<KeptItem>>), OpenRefused<K>>
        requires { (1 ≤ copies) × (copies ≤ 2) }

        // The history is that of the rows that were read, which are good.
        ensures keeps { IfOk result (λ r. BookKeeps r.0 (opened r.2.value.items)) }
        ensures copies { IfOk result (λ r. length r.1.items ≡ copies) }
        ensures graphs { IfOk result (λ r. (i : ℕ) (d : _) → i < copies → Shows (W.shown (slice_index_or r.1.items i d)) conf (opened r.2.value.items)) }
        ensures conf { IfOk result (λ r. r.0.conf ≡ conf) }
        ensures good { IfOk result (λ r. IsTrue (good conf r.2.value.items)) }
        ensures told { IsTrue (K.kept keeper).tells → IfOk result (λ r. r.2.value.items ≡ told_rows (K.kept keeper)) }
        ensures bare { IsTrue (K.kept keeper).bare → IfOk result (λ r. r.2.value.items ≡ []) }
        ensures kept { IfOk result (λ r. IsPrepared conf (K.kept keeper) r.0.kept) }

        // A refusal comes exactly where it is due, but for Memory and Store.
        ensures ok { IsTrue (K.kept keeper).tells → OnOk result (due conf (K.kept keeper) ≡ None) }
        ensures refused { IsTrue (K.kept keeper).tells → IfErr result (λ r. MayRefuse (due conf (K.kept keeper)) r.why) }
        ensures bare_refused { IsTrue (K.kept keeper).bare → IfErr result (λ r. MayRefuse None r.why) }
        ensures place { IfErr result (λ r. r.why ≡ Place → ⊥) }
        ensures count { MatchResult result (λ r. r.0.faults ≡ K.faults keeper) (λ r. K.faults r.keeper ≡ faults_at r.why (K.faults keeper)) }
        ensures steady { IsTrue (K.steady keeper) → MatchResult result (λ r. IsTrue r.0.steady) (λ r. (r.why ≡ Store → ⊥) × IsTrue (K.steady r.keeper)) }
        ensures cause { IfErr result (λ r. (K.faults keeper ≤ K.faults r.keeper) × (r.why ≡ Store → Rose (K.faults keeper) (K.faults r.keeper))) }

        // What a refusal leaves.
        ensures err { IfErr result (λ r. IsLeft conf (K.kept keeper) (K.kept r.keeper)) }
        ensures differs { IfErr result (λ r. (old now : KeptConf) → r.why ≡ ConfDiffers old now
            → (suits conf (Some old) ≡ false) × (now ≡ asked conf) × (K.kept r.keeper ≡ K.kept keeper)) }
        ensures bad { IfErr result (λ r. (row : ℕ) → r.why ≡ KeptRow row → IsBadRow conf row) }

        // Whatever call failed last before, a kept history is opened again, and a refusal leaves it kept.
        ensures again { (h : History) → IsTrue (K.kept keeper).tells → Keeps conf (K.kept keeper) h
            → IfOk result (λ r. BookKeeps r.0 h × ((i : ℕ) (d : _) → i < copies → StandsFor (W.shown (slice_index_or r.1.items i d)) h)) }
        ensures again_err { (h : History) → IsTrue (K.kept keeper).tells → Keeps conf (K.kept keeper) h
            → IfErr result (λ r. Keeps conf (K.kept r.keeper) h × MayRefuse None r.why) }
    {
        let _room = conf.room();
        let mut keeper = keeper;
        let rows = match read_rows(alloc, conf, &mut keeper) {
            Err(why) => return Err(OpenRefused { keeper, why }),
            Ok(rows) => rows,
        };
        match graphs_of(alloc, conf, &rows, copies) {
            Err(_) => Err(OpenRefused {
                keeper,
                why: OpenError::Memory,
            }),
            Ok(graphs) => {
                let first = first_of(&rows);
                let book = Book {
                    keeper,
                    conf,
                    first,
                    length: first + rows.len() as u64,
                };
                Ok((book, graphs, Snapshot::of(&rows)))
            }
        }
    }
}
