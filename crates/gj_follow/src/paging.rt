//! The pages of a graph.
ghost use Rattle.std.specs.Prelude.{◌≡◌, ◌<◌, ◌≤◌, ◌↔◌, ℕ, IfOk, IsErrOf};
ghost use Rattle.gj_base.specs.declared.history.History.{History};
ghost use Rattle.gj_base.specs.History.{StandsFor, end_of};
ghost use Rattle.gj_follow.specs.Follows.{IsOf};
ghost use Rattle.gj_follow.specs.Pages.{items_from, page_from};

use crate::page::{MAX_PAGE, Page};
use gj_base::{Graph, ItemList, Memory};
use std::alloc::Global;

/// Why there is no page.
#[derive(Clone, Copy, Debug, Drop, PartialEq, Eq)]
pub enum PageError {
    /// The place lies before the window, which begins at `base`. The history has `length` interactions.
    Gone { length: u64, base: u64 },
    /// The place lies after the history, which has `length` interactions.
    Ahead { length: u64 },
    /// No memory was found for the page's list.
    Memory,
}

impl From<Memory> for PageError {
    ghost use Rattle.std.specs.Prelude.{◌≡◌};
    ghost use Rattle.gj_follow.specs.declared.paging.PageError.TheVariants as errors;

    ghost from_gives = { λ _ why. why ≡ errors.Memory };

    fn from(_none: Memory) -> PageError {
        PageError::Memory
    }
}

/// The interactions from a place on, all or the first `MAX_PAGE`. The list's memory is taken before the first is read.
fn items_from<G: Graph>(alloc: Global, graph: &G, from: u64) -> Result<ItemList, Memory>
    requires from_base { (G.shown graph.now).first ≤ from }
    requires to_end { from ≤ end_of (G.shown graph.now) }
    ensures exact { IfOk result (λ items. items ≡ items_from (G.shown graph.now) from) }
{
    let end = graph.length().min(from + MAX_PAGE);
    let mut items = ItemList::with_capacity(alloc, (end - from) as usize)?;
    let mut place = from;
    while place < end {
        items.push(graph.item(place))?;
        place += 1;
    }
    Ok(items)
}

/// The page of what the graph shows that begins at a place: all interactions from there on, or the first `MAX_PAGE`. It
/// takes memory for the page's list, and none for an error.
pub fn page_of<G: Graph>(alloc: Global, graph: &G, from: u64) -> Result<Page, PageError>
    ensures ok { IfOk result (λ page. page ≡ page_from (G.shown graph.now) from) }
    ensures of_history { (h : History) → StandsFor (G.shown graph.now) h → IfOk result (IsOf h) }

    ensures gone { (n b : ℕ) → IsErrOf result (PageError.Gone n b) ↔ ((from < (G.shown graph.now).first) × (n ≡ end_of (G.shown graph.now)) × (b ≡ (G.shown graph.now).first)) }
    ensures ahead { (n : ℕ) → IsErrOf result (PageError.Ahead n) ↔ ((end_of (G.shown graph.now) < from) × (n ≡ end_of (G.shown graph.now))) }
{
    let length = graph.length();
    let base = graph.base();
    if from < base {
        return Err(PageError::Gone { length, base });
    }
    if length < from {
        return Err(PageError::Ahead { length });
    }
    let items = items_from(alloc, graph, from)?;
    Ok(Page {
        length,
        from,
        items,
    })
}
