//! A copy takes in batches.
ghost use Rattle.std.specs.Prelude.{◌≡◌, ◌+◌, ◌≤◌, ◌^◌, length};
ghost use Rattle.gj_base.specs.History.{end_of, more};

use super::Pane;
use crate::batch::Batch;
use gj_base::{Graph, Grow, History, add_all};
use gj_log::Opening;
use left_right::Absorb;
use std::alloc::AllocError;

// Adds the items of a batch, and compacts where it asks for it.
fn take<W: Grow, J: Opening>(graph: &mut W, batch: &Batch<J>)
    requires { end_of (W.shown graph.old) + length batch.now.items ≤ 2 ^ 48 }
    ensures { W.shown graph.new ≡ more (W.shown graph.old) batch.now.items }
{
    add_all(graph, batch.items());
    if batch.compacts() {
        graph.compact();
    }
}

impl<W: Grow, J: Opening> Absorb<Batch<J>> for Pane<W, J> {
    type State = History;

    ghost use Rattle.gj_publish.specs.Posted.{posted};

    ghost state = { λ p. p };

    ghost applied = { posted };

    ghost never_fails = { Unit {0} };

    fn absorb_first(
        &mut self,
        operation: &Batch<J>,
        _other: &Pane<W, J>,
    ) -> Result<(), AllocError> {
        if self.front.same(operation.before()) {
            let after = operation.after();
            let _ = after.length();
            take(&mut self.graph, operation);
            self.front = after;
        }
        Ok(())
    }
}
