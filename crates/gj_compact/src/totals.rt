//! How many interactions there are in all: those of some kinds are counted once.
ghost use Rattle.std.specs.Prelude.{◌≡◌, ◌<◌, ◌≤◌, map, count_by, length};
ghost use Rattle.gj_base.specs.Ends.{passes};
ghost use Rattle.gj_compact.specs.Sums.{AreCounts, edge_kind};
ghost use Rattle.gj_compact.specs.Turns.{plain};

use crate::counts::{Counts, NO_COUNTS};
use crate::edge::Edge;
use gj_base::Mask;

/// How many of the interactions have each kind.
pub fn count_all(edges: &[Edge]) -> Counts
    requires { length edges.now < 4294967295 }
    ensures { AreCounts result (map edge_kind edges.now) }
{
    let mut counts = NO_COUNTS;
    for edge in edges {
        counts = counts.more(edge.kind);
    }
    counts
}

/// How many of the interactions the mask lets through. They are looked at only under a least moment.
pub fn total_in(counts: Counts, edges: &[Edge], mask: Mask) -> usize
    requires { AreCounts counts (map edge_kind edges.now) }
    ensures exact { result ≡ count_by (passes mask) (map plain edges.now) }
    ensures in_range { result ≤ length edges.now }
{
    if mask.not_before() == 0 {
        return counts.of(mask);
    }
    edges.iter().filter(|x| mask.lets(x.kind, x.at)).count()
}
