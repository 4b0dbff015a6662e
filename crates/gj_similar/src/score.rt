//! How similar a post is.

use gj_base::List;
use std::cmp::Ordering;
use std::marker::Model;

/// A post with its number of co-visits, 1 to 50000, and its eligible degree, 1 to below 2^32. The better score comes first:
/// the larger `co * co / degree`, then the lower post, the larger `co` and the lower `degree`.
#[derive(Clone, Copy, Debug, PartialEq, Eq)]
pub struct Score {
    pub co: u64,
    pub degree: u64,
    pub post: u64,
}

impl Model for Score {
    ghost use Rattle.std.specs.Prelude.{◌<◌, ◌≤◌, ◌^◌};
    ghost use Rattle.gj_similar.specs.Scored.{Scored};

    ghost Value = { Scored };

    ghost view = { λ s. record { co = s.co; degree = s.degree; post = s.post } };

    ghost invariant = { λ s. (1 ≤ s.co) × (s.co ≤ 50000) × (1 ≤ s.degree) × (s.degree < 2 ^ 32) };

    ghost inverse = { λ s. record { co = s.co; degree = s.degree; post = s.post } };
}

impl Ord for Score {
    ghost use Rattle.std.proofs.Common.{rules};
    ghost use Rattle.std.specs.Cmp.Rules.{comparing};
    ghost use Rattle.gj_similar.specs.Scored.{score_cmp};
    ghost use Rattle.gj_similar.specs.ScoreOrder.{score_total, score_ties};

    ghost cmp = { score_cmp };

    ghost total = { score_total };

    ghost matches_partial_cmp = { Prim.search (comparing, rules) };

    ghost matches_eq = { score_ties };

    fn cmp(&self, other: &Score) -> Ordering {
        let ours = u128::from(self.co) * u128::from(self.co) * u128::from(other.degree);
        let theirs = u128::from(other.co) * u128::from(other.co) * u128::from(self.degree);
        theirs
            .cmp(&ours)
            .then(self.post.cmp(&other.post))
            .then(other.co.cmp(&self.co))
            .then(self.degree.cmp(&other.degree))
    }
}

impl PartialOrd for Score {
    ghost use Rattle.std.specs.Ordering.{as_partial_cmp};
    ghost use Rattle.gj_similar.specs.Scored.{score_cmp};
    ghost use Rattle.gj_similar.specs.ScoreOrder.{score_partial};

    ghost partial_cmp = { as_partial_cmp score_cmp };

    ghost laws = { score_partial };

    fn partial_cmp(&self, other: &Score) -> Option<Ordering> {
        Some(self.cmp(other))
    }
}

/// Scores, the best first.
pub type ScoreList = List<Score>;
