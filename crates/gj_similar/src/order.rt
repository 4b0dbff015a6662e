//! The best scores of shared posts.
ghost use Rattle.std.specs.Prelude.{◌≡◌, ◌<◌, ◌≤◌, length, take, All, IsTrue, IfOk, OnOk};
ghost use Rattle.std.specs.declared.cmp.Ordering.TheVariants.{Greater};
ghost use Rattle.std.specs.BTreeSet.{insert_key, btree_set_len};
ghost use Rattle.std.specs.List.Sorted.{IsStrictlySortedBy};
ghost use Rattle.gj_base.specs.Ends.{ends};
ghost use Rattle.gj_similar.specs.Scored.{score_cmp};
ghost use Rattle.gj_similar.specs.Similar.{score_at, best_scores, AreScorable};

use crate::score::{Score, ScoreList};
use crate::steps::Shared;
use gj_base::{Graph, Mask, Memory, Side};
use std::alloc::Global;
use std::cmp::Ordering;
use std::collections::BTreeSet;

/// The score of a post with so many co-visits.
fn score_of<G: Graph>(graph: &G, mask: Mask, post: u64, co: u64) -> Score
    requires some { 0 < co }
    requires few { co ≤ 50000 }
    requires any { 0 < length (ends (G.shown graph.now).items Side.Post post mask) }
    ensures { result ≡ score_at (G.shown graph.now).items mask (post, co) }
{
    let degree = graph.count(Side::Post, post, mask);
    Score { co, degree, post }
}

/// Whether the score comes after the last of these, and so after all. Where there are none, it says no.
fn is_after_all(best: &BTreeSet<Score>, score: &Score) -> bool
    ensures { IsTrue result → All (λ one. score_cmp score.now one ≡ Greater) best.now.keys }
{
    match best.last() {
        Some(last) => score.cmp(last) == Ordering::Greater,
        None => false,
    }
}

/// Puts the score in its place, and drops the last one where there are more than `top`. A score that comes after `top`
/// others is dropped at once.
fn keep_best(best: &mut BTreeSet<Score>, score: Score, top: usize) -> Result<(), Memory>
    requires { btree_set_len best.old ≤ top }
    ensures { OnOk result (best.new.keys ≡ take top (insert_key score_cmp best.old.keys score)) }
{
    if best.len() == top && is_after_all(best, &score) {
        return Ok(());
    }
    if best.insert(score).is_err() {
        return Err(Memory);
    }
    if best.len() > top {
        let _ = best.pop_last();
    }
    Ok(())
}

/// The scores as a list.
fn list_of(alloc: Global, best: &BTreeSet<Score>) -> Result<ScoreList, Memory>
    ensures exact { IfOk result (λ scores. scores ≡ best.now.keys) }
    ensures ordered { IfOk result (λ scores. IsStrictlySortedBy score_cmp scores) }
{
    let mut scores = ScoreList::new(alloc);
    for score in best.iter() {
        scores.push(*score)?;
    }
    Ok(scores)
}

/// The first `top` scores of the shared posts, the best first. It asks the graph once a post, and takes memory for `top`
/// scores. What `similar` answers under the same graph and mask may be handed in.
pub fn order_scores<G: Graph>(
    alloc: Global,
    graph: &G,
    shared: &Shared,
    mask: Mask,
    top: u32,
) -> Result<ScoreList, Memory>
    requires { AreScorable (G.shown graph.now).items mask shared.now }
    ensures ok { IfOk result (λ scores. scores ≡ best_scores (G.shown graph.now).items mask top shared.now) }
    ensures ordered { IfOk result (λ scores. IsStrictlySortedBy score_cmp scores) }
{
    let mut best = BTreeSet::new(alloc);
    for (post, co) in shared.pairs() {
        let score = score_of(graph, mask, *post, *co);
        keep_best(&mut best, score, top as usize)?;
    }
    list_of(alloc, &best)
}
