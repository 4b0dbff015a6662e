//! The law of rankings.
ghost use Rattle.std.specs.Prelude.{ℕ, Bool, IsTrue, List, map};
ghost use Rattle.gj_base.specs.declared.item.Item.{Item};
ghost use Rattle.gj_base.specs.Asks.{are_distinct};
ghost use Rattle.gj_proof.specs.Ranking.{ranked_of};
ghost use Rattle.gj_proof.specs.Laws.{IsRanking, pair_of, posts_of};

/// The ranking of pairs in which no post stands twice is ordered by the rule, has no post twice, and nothing that was
/// left out comes before something that is in. It does nothing; its contract is the law.
pub fn ranking_law()
    ensures { (items : List Item) (seeds : List ℕ) (pairs : List (ℕ × ℕ)) (hide : Bool) (top : ℕ) → IsTrue (are_distinct (posts_of pairs))
        → IsRanking items seeds pairs hide top (map pair_of (ranked_of items seeds pairs hide top)) }
{}
