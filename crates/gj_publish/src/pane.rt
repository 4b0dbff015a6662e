//! The value of which there are two copies.
use gj_base::Grow;
use gj_log::{Front, Opening};
use std::marker::Model;

mod absorbs;
mod first;

pub use first::first_pane;

/// A copy: a graph, with the beginning of the history that it stands for. Contracts see that beginning.
#[derive(Drop)]
pub struct Pane<W: Grow, J: Opening> {
    pub(crate) graph: W,
    pub(crate) front: Front<J>,
}

impl<W: Grow, J: Opening> Model for Pane<W, J> {
    ghost use Rattle.std.specs.Prelude.{◌≡◌};
    ghost use Rattle.gj_base.specs.declared.history.History.{History};
    ghost use Rattle.gj_base.specs.History.{StandsFor, conf_of};

    ghost Value = { History };

    ghost view = { λ p. p.front };

    ghost invariant = { λ p. StandsFor (W.shown p.graph) p.front × (conf_of (W.shown p.graph) ≡ J.conf) };
}
