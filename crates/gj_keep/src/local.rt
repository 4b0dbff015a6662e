//! An index of one book and one graph.
ghost use Rattle.std.specs.Prelude.{◌≡◌, ◌+◌, ◌/◌, ◌^◌, ◌≤◌, ℕ, nat_lt, length, slice_index_or, false, None, IfOk, IfErr, OnOk, IsTrue, MatchResult};
ghost use Rattle.gj_base.specs.History.{end_of, conf_of, more, empty_history};

use crate::book::Book;
use crate::opening::OpenRefused;
use gj_base::{Conf, Graph, Grow, Index, IndexError, Item, Keeper, Receipt, add_all};
use std::alloc::Global;

/// A book and a graph of its window. What is posted is kept first, and shown then.
#[derive(Drop)]
pub struct Local<K: Keeper, W: Grow> {
    book: Book<K>,
    graph: W,
    ghost shows_all: { end_of (W.shown graph) ≡ book.length },
    ghost configured: { conf_of (W.shown graph) ≡ book.conf },
}

impl<K: Keeper, W: Grow + Drop> Local<K, W> {
    ghost use Rattle.std.specs.Prelude.{List};
    ghost use Rattle.gj_base.specs.declared.history.History.{History};
    ghost use Rattle.gj_base.specs.declared.keeper.KeptConf.{KeptConf};
    ghost use Rattle.gj_base.specs.declared.keeper.KeptItem.{KeptItem};
    ghost use Rattle.gj_keep.specs.declared.opening.OpenError.TheVariants.{ConfDiffers, KeptRow, Place, Store};
    ghost use Rattle.gj_keep.specs.Books.{Keeps, asked, suits, told_rows};
    ghost use Rattle.gj_keep.specs.Locals.{LocalKeeps};
    ghost use Rattle.gj_keep.specs.Openings.{IsBadRow, IsLeft, IsPrepared, MayRefuse, due, faults_at};
    ghost use Rattle.gj_keep.specs.Rows.{good, opened};

    /// The index of what the keeper keeps. It takes memory for the rows and the graph.
    pub fn open_local(alloc: Global, conf: Conf, keeper: K) -> Result<Local<K, W>, OpenRefused<K>>
        ensures keeps { IfOk result (λ l. (rows : List KeptItem) × IsTrue (good conf rows) × LocalKeeps (W.shown l.graph) l.book (opened rows)) }
        ensures told { IsTrue (K.kept keeper).tells → IfOk result (λ l. LocalKeeps (W.shown l.graph) l.book (opened (told_rows (K.kept keeper)))) }
        ensures bare { IsTrue (K.kept keeper).bare → IfOk result (λ l. LocalKeeps (W.shown l.graph) l.book (empty_history 0)) }
        ensures conf { IfOk result (λ l. (l.book.conf ≡ conf) × (conf_of (W.shown l.graph) ≡ conf)) }
        ensures kept { IfOk result (λ l. IsPrepared conf (K.kept keeper) l.book.kept) }

        ensures ok { IsTrue (K.kept keeper).tells → OnOk result (due conf (K.kept keeper) ≡ None) }
        ensures refused { IsTrue (K.kept keeper).tells → IfErr result (λ r. MayRefuse (due conf (K.kept keeper)) r.why) }
        ensures bare_refused { IsTrue (K.kept keeper).bare → IfErr result (λ r. MayRefuse None r.why) }
        ensures place { IfErr result (λ r. r.why ≡ Place → ⊥) }
        ensures count { MatchResult result (λ l. l.book.faults ≡ K.faults keeper) (λ r. K.faults r.keeper ≡ faults_at r.why (K.faults keeper)) }

        ensures steady { IsTrue (K.steady keeper) → MatchResult result (λ l. IsTrue l.book.steady) (λ r. (r.why ≡ Store → ⊥) × IsTrue (K.steady r.keeper)) }

        ensures err { IfErr result (λ r. IsLeft conf (K.kept keeper) (K.kept r.keeper)) }
        ensures differs { IfErr result (λ r. (old now : KeptConf) → r.why ≡ ConfDiffers old now
            → (suits conf (Some old) ≡ false) × (now ≡ asked conf) × (K.kept r.keeper ≡ K.kept keeper)) }
        ensures bad { IfErr result (λ r. (row : ℕ) → r.why ≡ KeptRow row → IsBadRow conf row) }

        // Whatever call failed last before, a kept history is opened again, and a refusal leaves it kept.
        ensures again { (h : History) → IsTrue (K.kept keeper).tells → Keeps conf (K.kept keeper) h
            → IfOk result (λ l. LocalKeeps (W.shown l.graph) l.book h) }
        ensures again_err { (h : History) → IsTrue (K.kept keeper).tells → Keeps conf (K.kept keeper) h
            → IfErr result (λ r. Keeps conf (K.kept r.keeper) h × MayRefuse None r.why) }
    {
        let (book, graphs, _) = Book::open_book(alloc, conf, keeper, 1)?;
        let graph = only(graphs);
        Ok(Local { book, graph })
    }

    /// Keeps full segments of the graph in a shorter form.
    pub fn compact(&mut self)
        ensures shown { W.shown self.new.graph ≡ W.shown self.old.graph }
        ensures kept { self.new.book ≡ self.old.book }
    {
        self.graph.compact();
    }

    /// The keeper, which keeps what the index kept. It may be opened again, whatever call failed last.
    pub fn into_keeper(self) -> K
        ensures same { (K.kept result ≡ self.book.kept) × (K.faults result ≡ self.book.faults) × (K.steady result ≡ self.book.steady) }
        ensures keeps { (h : History) → LocalKeeps (W.shown self.graph) self.book h → Keeps self.book.conf (K.kept result) h }
    {
        let Local { book, graph: _ } = self;
        book.into_keeper()
    }
}

/// The one graph.
fn only<W: Drop>(graphs: Vec<W>) -> W
    requires { length graphs.items ≡ 1 }
    ensures { (d : _) → slice_index_or graphs.items 0 d ≡ result }
{
    let mut graphs = graphs;
    match graphs.pop() {
        Some(graph) => graph,
        None => unreachable!(),
    }
}

/// Whether a batch filled a segment: a multiple of the capacity lies above its first place, and not above the place
/// after its last.
fn fills(conf: Conf, receipt: Receipt) -> bool
    ensures { result ≡ nat_lt (receipt.from / conf.capacity) (receipt.to / conf.capacity) }
{
    let capacity = u64::from(conf.capacity());
    receipt.from / capacity < receipt.to / capacity
}

/// Adds the items, and keeps full segments in a shorter form where that is asked.
fn grow<W: Grow>(graph: &mut W, items: &[Item], shorter: bool)
    requires { end_of (W.shown graph.old) + length items.now ≤ 2 ^ 48 }
    ensures { W.shown graph.new ≡ more (W.shown graph.old) items.now }
{
    add_all(graph, items);
    if shorter {
        graph.compact();
    }
}

impl<K: Keeper, W: Grow> Index for Local<K, W> {
    type View = W;

    ghost use Rattle.gj_keep.specs.Locals.{LocalKeeps};

    ghost viewed = { λ l. W.shown l.graph };

    ghost faults = { λ l. l.book.faults };

    ghost steady = { λ l. l.book.steady };

    ghost keeps = { λ l h. LocalKeeps (W.shown l.graph) l.book h };

    ghost is_window = { λ l. W.is_window l.graph };

    ghost stands = { λ l h keeps. keeps.0 };

    fn post_items(&mut self, items: &[Item]) -> Result<Receipt, IndexError> {
        let receipt = self.book.keep(items)?;
        let shorter = fills(self.book.conf(), receipt);
        grow(&mut self.graph, items, shorter);
        Ok(receipt)
    }

    fn view(&self) -> &W {
        &self.graph
    }
}
