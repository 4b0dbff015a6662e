//! An index for tests, whose store fails some posts.
use gj_base::{Calls, Failed, Graph, HISTORY_END, Index, IndexError, Item, ListGraph, Receipt};

/// A plain graph, and the calls of its store.
#[derive(Drop)]
pub(crate) struct Shaky {
    graph: ListGraph,
    store: Calls,
}

impl Shaky {
    /// The store fails the posts of these numbers, from 1.
    pub(crate) fn new(graph: ListGraph, fails: Vec<u64>) -> Shaky {
        Shaky {
            graph,
            store: Calls::new(fails),
        }
    }
}

impl Index for Shaky {
    type View = ListGraph;

    ghost use Rattle.std.specs.Prelude.{false};
    ghost use Rattle.gj_base.specs.History.{StandsFor};
    ghost use Rattle.gj_base.specs.ListGraphs.{shown_by};

    ghost viewed = { λ x. shown_by x.graph };

    ghost faults = { λ x. x.store.faults };

    ghost steady = { λ _. false };

    ghost keeps = { λ x h. StandsFor (shown_by x.graph) h };

    ghost is_window = { λ x. x.graph.window };

    ghost stands = { λ x h stands_for. stands_for };

    fn post_items(&mut self, items: &[Item]) -> Result<Receipt, IndexError> {
        if items.len() as u64 <= HISTORY_END - self.graph.length() {
            match self.store.count() {
                Ok(()) => {}
                Err(Failed) => return Err(IndexError::Store),
            }
        }
        self.graph.post_items(items)
    }

    fn view(&self) -> &ListGraph {
        &self.graph
    }
}
