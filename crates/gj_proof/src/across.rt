//! The vertices across from some vertices.
ghost use Rattle.std.specs.Prelude.{◌≡◌, ◌||◌, ◌&&◌, ℕ, IfOk, OnOk};
ghost use Rattle.std.specs.Prelude.{nat_eq, ◌==◌};
ghost use Rattle.std.specs.HashSet.{contains};
ghost use Rattle.gj_base.specs.Ends.{ends, leads_to};
ghost use Rattle.gj_proof.specs.Ranking.{is_known, meets};

use gj_base::{Graph, IdList, Mask, Memory, Side};
use std::alloc::Global;
use std::collections::HashSet;

fn add(set: &mut HashSet<u64>, v: u64) -> Result<(), Memory>
    ensures { OnOk result ((q : ℕ) → contains nat_eq set.new q ≡ (contains nat_eq set.old q || (v == q))) }
{
    match set.insert(v) {
        Ok(_) => Ok(()),
        Err(_) => Err(Memory),
    }
}

/// Puts the vertices at the ends of a vertex into the set: two calls of the graph and one of the set an end.
pub fn add_ends<G: Graph>(
    graph: &G,
    side: Side,
    id: u64,
    mask: Mask,
    set: &mut HashSet<u64>,
) -> Result<(), Memory>
    ensures { OnOk result ((v : ℕ) → contains nat_eq set.new v ≡ (contains nat_eq set.old v || leads_to (ends (G.shown graph.now).items side id mask) v)) }
{
    for i in 0..graph.count(side, id, mask) {
        let (end, _kind) = graph.edge(side, id, mask, i);
        add(set, end)?;
    }
    Ok(())
}

/// The posts that a seed user knows, where they are to be hidden.
#[tactic(auto, unfolding(crate::specs::Ranking::is_known))]
pub fn hidden_posts<G: Graph>(
    alloc: Global,
    graph: &G,
    seeds: &IdList,
    hide: bool,
) -> Result<HashSet<u64>, Memory>
    ensures { IfOk result (λ set. (post : ℕ) → contains nat_eq set post ≡ (hide && is_known (G.shown graph.now).items seeds.now post)) }
{
    let mut posts = HashSet::new(alloc);
    if hide {
        add_known(graph, seeds.as_slice(), Mask::all(), &mut posts)?;
    }
    Ok(posts)
}

/// Puts the posts with which a seed user has an eligible interaction into the set.
fn add_known<G: Graph>(
    graph: &G,
    seeds: &[u64],
    mask: Mask,
    posts: &mut HashSet<u64>,
) -> Result<(), Memory>
    ensures { OnOk result ((post : ℕ) → contains nat_eq posts.new post ≡ (contains nat_eq posts.old post || meets (G.shown graph.now).items seeds.now mask post)) }
{
    for seed in seeds {
        add_ends(graph, Side::User, *seed, mask, posts)?;
    }
    Ok(())
}
