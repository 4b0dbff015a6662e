//! The weights of posts.
ghost use Rattle.std.specs.Prelude.{◌≡◌, ◌<◌, ◌≤◌, ◌==◌, nat_lt, ℕ, if◌then◌else◌, zip, length, ◌*◌, All, IsTrue, IfOk, OnOk};
ghost use Rattle.gj_base.specs.declared.side.Side.TheVariants as sides;
ghost use Rattle.gj_base.specs.Asks.{are_weights};
ghost use Rattle.gj_base.specs.Ends.{ends};
ghost use Rattle.gj_base.specs.Tally.{with_number};
ghost use Rattle.gj_count.specs.Sums.{sums_at, with_end, with_ends, weight_in, AreWithin, AreSums, AreWeights};
ghost use Rattle.gj_count.specs.Weights.{weights_of};

use crate::post_sums::PostSums;
use gj_base::{CountAsk, Graph, Kind, KindLeast, MAX_SEEDS, MAX_WEIGHT, Mask, Memory, Side, Tally};
use std::alloc::Global;
use std::collections::HashMap;

/// The weights of posts.
pub type Weights = Tally;

/// The sums of the posts that the seeds lead to.
type Sums = HashMap<u64, PostSums>;

/// Adds an end of the seed of this turn, which has this weight.
fn add_end(sums: &mut Sums, post: u64, kind: Kind, turn: u64, weight: u64) -> Result<(), Memory>
    requires turn { turn ≤ 1000 }
    requires weight { weight ≤ 1000000 }
    requires within { (p : ℕ) → AreWithin turn (sums_at sums.old p) }
    ensures within { OnOk result ((p : ℕ) → AreWithin turn (sums_at sums.new p)) }
    ensures sums { OnOk result ((p : ℕ) → sums_at sums.new p ≡ (if post == p then with_end turn weight (sums_at sums.old p) kind else sums_at sums.old p)) }
{
    let Ok(entry) = sums.entry(post) else {
        return Err(Memory);
    };
    let of_post = entry.or_insert(PostSums::new());
    *of_post = of_post.with_end(kind, turn, weight);
    Ok(())
}

/// Adds the ends of the seed of this turn, which has this weight.
fn add_seed<G: Graph>(
    graph: &G,
    mask: Mask,
    sums: &mut Sums,
    seed: u64,
    turn: u64,
    weight: u64,
) -> Result<(), Memory>
    requires turn { turn ≤ 1000 }
    requires weight { weight ≤ 1000000 }
    requires within { (p : ℕ) → AreWithin turn (sums_at sums.old p) }
    ensures within { OnOk result ((p : ℕ) → AreWithin turn (sums_at sums.new p)) }
    ensures sums { OnOk result ((p : ℕ) → sums_at sums.new p ≡ with_ends (ends (G.shown graph.now).items sides.User seed mask) turn weight p (sums_at sums.old p)) }
{
    for i in 0..graph.count(Side::User, seed, mask) {
        let (post, kind) = graph.edge(Side::User, seed, mask, i);
        add_end(sums, post, kind, turn, weight)?;
    }
    Ok(())
}

/// The sums of the posts that the seeds lead to.
#[tactic(auto, using(crate::proofs::SumLemmas::weight_in_range))]
fn sums_of<G: Graph>(
    alloc: Global,
    graph: &G,
    mask: Mask,
    seeds: &[u64],
    weights: &[u64],
) -> Result<Sums, Memory>
    requires few { length seeds.now ≤ 1000 }
    requires as_many { length weights.now ≡ length seeds.now }
    requires weights { IsTrue (are_weights weights.now) }
    ensures within { IfOk result (λ sums. (p : ℕ) → AreWithin 1000 (sums_at sums p)) }
    ensures exact { IfOk result (λ sums. (p : ℕ) → AreSums (G.shown graph.now).items mask seeds.now (zip seeds.now weights.now) p (sums_at sums p)) }
{
    let mut sums = HashMap::new(alloc);
    for i in 0..seeds.len() {
        let turn = i as u64 + 1;
        add_seed(graph, mask, &mut sums, seeds[i], turn, weights[i])?;
    }
    Ok(sums)
}

/// Puts the post's weight, where it has the least support and any weight.
fn put_weight(
    weights: &mut Weights,
    post: u64,
    sums: PostSums,
    least: KindLeast,
) -> Result<(), Memory>
    ensures { OnOk result (weights.new ≡ (if nat_lt 0 (weight_in least sums) then with_number weights.old post (weight_in least sums) else weights.old)) }
{
    if sums.has_least(least) && sums.weight.total > 0 {
        weights.put(post, sums.weight.total)?;
    }
    Ok(())
}

/// The weights of posts that have these sums.
fn weights_in(alloc: Global, sums: &Sums, least: KindLeast) -> Result<Weights, Memory>
    ensures { IfOk result (AreWeights least (sums_at sums.now)) }
{
    let mut weights = Tally::new(alloc);
    for (post, of_post) in sums {
        put_weight(&mut weights, *post, *of_post, least)?;
    }
    Ok(weights)
}

/// The weights of the posts of the graph's window: of each post that enough of the ask's seeds interacted with, kind by
/// kind, the sum of the weights of the seeds that did. It calls the graph once a seed and once for each of its ends, and
/// takes memory for each distinct post among them.
pub fn count_second<G: Graph>(alloc: Global, graph: &G, ask: &CountAsk) -> Result<Weights, Memory>
    ensures exact { IfOk result (λ weights. weights ≡ weights_of (G.shown graph.now).items ask.now) }
    ensures in_range { IfOk result (λ weights. All (λ pair. pair.1 ≤ MAX_SEEDS * MAX_WEIGHT) weights) }
{
    let sums = sums_of(
        alloc,
        graph,
        ask.mask,
        ask.seeds.as_slice(),
        ask.weights.as_slice(),
    )?;
    weights_in(alloc, &sums, ask.least)
}
