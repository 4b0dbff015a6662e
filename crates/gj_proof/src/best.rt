//! The best pairs of a post and its number, at most so many.
ghost use Rattle.std.specs.Prelude.{◌≡◌, ◌<◌, ◌≤◌, ◌++◌, ◌∷◌, [], not, nat_eq, if◌then◌else◌, take, drop, filter, length, vec_len, IfOk, OnOk};
ghost use Rattle.std.specs.HashSet.{contains};
ghost use Rattle.gj_proof.specs.Ranking.{comes_before, placed, by_rank, AreByRank};

use gj_base::Memory;
use std::alloc::Global;
use std::collections::{BTreeMap, HashSet};

/// A post and its number come before another.
fn comes_before(one: (u64, u64), other: (u64, u64)) -> bool
    ensures { result ≡ comes_before one other }
{
    one.1 > other.1 || (one.1 == other.1 && one.0 < other.0)
}

/// Where the pair has its place, sought from the last one on, since most pairs are not among the best.
fn place_of(best: &[(u64, u64)], pair: (u64, u64)) -> usize
    requires { AreByRank best.now }
    ensures in_range { result ≤ length best.now }
    ensures exact { placed best.now pair ≡ take result best.now ++ pair ∷ drop result best.now }
{
    let mut at = best.len();
    while at > 0 {
        if comes_before(best[at - 1], pair) {
            return at;
        }
        at -= 1;
    }
    at
}

/// Puts the pair in its place, where that is among the first `top`.
fn place(best: &mut Vec<(u64, u64)>, pair: (u64, u64), top: usize) -> Result<(), Memory>
    requires ordered { AreByRank best.old.items }
    requires few { vec_len best.old ≤ top }
    ensures ok { OnOk result (best.new.items ≡ take top (placed best.old.items pair)) }
    ensures few { OnOk result (vec_len best.new ≤ top) }
{
    let at = place_of(best.as_slice(), pair);
    if at >= top {
        return Ok(());
    }
    best.truncate(top - 1);
    match best.insert(at, pair) {
        Ok(()) => Ok(()),
        Err(_) => Err(Memory),
    }
}

/// Puts the pair in its place, unless its post is hidden.
fn consider(
    best: &mut Vec<(u64, u64)>,
    hidden: &HashSet<u64>,
    pair: (u64, u64),
    top: usize,
) -> Result<(), Memory>
    requires ordered { AreByRank best.old.items }
    requires few { vec_len best.old ≤ top }
    ensures ok { OnOk result (best.new.items ≡ (if contains nat_eq hidden.now pair.0 then best.old.items else take top (placed best.old.items pair))) }
    ensures few { OnOk result (vec_len best.new ≤ top) }
{
    if hidden.contains(&pair.0) {
        return Ok(());
    }
    place(best, pair, top)
}

/// The first of the map's pairs by rank, without the hidden posts. Each pair is compared with the last of the best; only
/// one that comes before it is put in, at the cost of `top` steps.
pub fn best_of(
    alloc: Global,
    scores: &BTreeMap<u64, u64>,
    hidden: &HashSet<u64>,
    top: usize,
) -> Result<Vec<(u64, u64)>, Memory>
    ensures { IfOk result (λ best. best.items ≡ take top (by_rank (filter (λ pair. not (contains nat_eq hidden.now pair.0)) scores.now.entries))) }
{
    let mut best = Vec::new(alloc);
    for (post, number) in scores {
        consider(&mut best, hidden, (*post, *number), top)?;
    }
    Ok(best)
}
