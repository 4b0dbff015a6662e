//! The order of a ranking.
ghost use Rattle.std.specs.Prelude.{◌≡◌, ◌<◌, map, All, IfOk};
ghost use Rattle.gj_proof.specs.Ranking.{ranked_of, unexplained};

use crate::across::hidden_posts;
use crate::best::best_of;
use crate::ranked::{Ranked, RankedList};
use gj_base::{Graph, IdList, List, Memory};
use std::alloc::Global;
use std::collections::BTreeMap;

/// The first `top` posts of the map, larger numbers first and then lower posts, with empty proofs. Where `hide` is set, a
/// post is left out if a seed user has an interaction of any kind with it.
pub fn rank<G: Graph>(
    alloc: Global,
    graph: &G,
    seeds: &IdList,
    scores: &BTreeMap<u64, u64>,
    hide: bool,
    top: u32,
) -> Result<RankedList, Memory>
    requires { All (λ pair. 0 < pair.1) scores.now.entries }
    ensures { IfOk result (λ ranking. ranking ≡ ranked_of (G.shown graph.now).items seeds.now scores.now.entries hide top) }
{
    let hidden = hidden_posts(alloc, graph, seeds, hide)?;
    let best = best_of(alloc, scores, &hidden, top as usize)?;
    unexplained(alloc, best.as_slice())
}

/// These pairs, with empty proofs.
fn unexplained(alloc: Global, best: &[(u64, u64)]) -> Result<RankedList, Memory>
    ensures { IfOk result (λ ranking. ranking ≡ map unexplained best.now) }
{
    let mut ranking = List::new(alloc);
    for pair in best {
        ranking.push(Ranked {
            id: pair.0,
            number: pair.1,
            proof: List::new(alloc),
        })?;
    }
    Ok(ranking)
}
