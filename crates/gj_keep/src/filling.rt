//! Filling graphs with the interactions of good rows.
ghost use Rattle.std.specs.Prelude.{◌≡◌, ◌∷◌, [], ◌++◌, ℕ, ◌<◌, length, map, slice_index_or, IfOk, IsTrue};
ghost use Rattle.gj_base.specs.History.{more, empty_shown};
ghost use Rattle.gj_keep.specs.Rows.{first_place, item_of, is_in_range, good, opened};
ghost use Rattle.gj_keep.specs.Openings.{Shows};

use crate::reading::first_of;
use gj_base::{Conf, Graph, Grow, Item, KeptItem, Kind, Memory};
use std::alloc::Global;

/// The interaction of a row.
fn item_in(row: &KeptItem) -> Item
    requires { IsTrue (is_in_range row.now) }
    ensures { result ≡ item_of row.now }
{
    let kind = match row.kind {
        0 => Kind::Click,
        1 => Kind::Favorite,
        2 => Kind::Retweet,
        3 => Kind::Reply,
        _ => Kind::Tweet,
    };
    Item {
        user: row.user,
        post: row.post,
        kind,
        at: row.moment,
    }
}

/// Puts the interactions of good rows into an empty graph, which begins where they do.
fn fill<W: Grow>(graph: &mut W, conf: Conf, rows: &[KeptItem])
    requires empty { W.shown graph.old ≡ empty_shown conf (first_place rows.now) }
    requires good { IsTrue (good conf rows.now) }
    ensures { W.shown graph.new ≡ more (W.shown graph.old) (map item_of rows.now) }
{
    for row in rows {
        graph.add(item_in(row));
    }
}

/// A graph of the rows.
fn graph_of<W: Grow + Drop>(alloc: Global, conf: Conf, rows: &[KeptItem]) -> Result<W, Memory>
    requires good { IsTrue (good conf rows.now) }
    ensures { IfOk result (λ g. Shows (W.shown g) conf (opened rows.now)) }
{
    let mut graph = W::make(alloc, conf, first_of(rows))?;
    fill(&mut graph, conf, rows);
    Ok(graph)
}

/// Puts the graph behind the others.
fn push<W: Grow + Drop>(graphs: &mut Vec<W>, graph: W) -> Result<(), Memory>
    ensures { IfOk result (λ _. graphs.new.items ≡ graphs.old.items ++ graph ∷ []) }
{
    match graphs.push(graph) {
        Ok(()) => Ok(()),
        Err(_) => Err(Memory),
    }
}

/// So many graphs of the rows.
pub(crate) fn graphs_of<W: Grow + Drop>(
    alloc: Global,
    conf: Conf,
    rows: &[KeptItem],
    copies: u32,
) -> Result<Vec<W>, Memory>
    requires good { IsTrue (good conf rows.now) }
    ensures copies { IfOk result (λ graphs. length graphs.items ≡ copies) }
    ensures each { IfOk result (λ graphs. (i : ℕ) (d : _) → i < copies → Shows (W.shown (slice_index_or graphs.items i d)) conf (opened rows.now)) }
{
    let mut graphs = Vec::new(alloc);
    for _made in 0..copies {
        let graph = graph_of(alloc, conf, rows)?;
        push(&mut graphs, graph)?;
    }
    Ok(graphs)
}
