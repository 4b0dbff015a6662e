//! A copy before anything is posted.
ghost use Rattle.std.specs.Prelude.{◌≡◌};
ghost use Rattle.gj_base.specs.History.{StandsFor, conf_of};

use super::Pane;
use gj_base::{Graph, Grow};
use gj_log::{Front, Opening};

/// The copy of a graph that stands for the front.
pub fn first_pane<W: Grow, J: Opening>(graph: W, front: Front<J>) -> Pane<W, J>
    requires stands { StandsFor (W.shown graph) front }
    requires conf { conf_of (W.shown graph) ≡ J.conf }
    ensures { result ≡ front }
{
    Pane { graph, front }
}
