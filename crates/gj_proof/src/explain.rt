//! The seed users that explain a post.
ghost use Rattle.std.specs.Prelude.{◌≡◌, ℕ, nat_eq, map, IfOk};
ghost use Rattle.std.specs.Option.{ForSome};
ghost use Rattle.std.specs.HashSet.{contains};
ghost use Rattle.gj_base.specs.Ends.{ends, leads_to};
ghost use Rattle.gj_base.specs.declared.side.Side.TheVariants.{Post};
ghost use Rattle.gj_proof.specs.Proofs.{ascending, first_users, proof_of};
ghost use Rattle.gj_proof.specs.Ranking.{explained_by, explained_of};

use crate::across::add_ends;
use crate::ranked::{Ranked, RankedList};
use gj_base::{Graph, IdList, List, Mask, Memory, Side};
use std::alloc::Global;
use std::collections::{BTreeSet, HashSet};

/// Up to so many seed users are asked for one by one, since a pass over the ends of a vertex costs much less than a set of
/// them.
const FEW_SEEDS: usize = 8;

/// The distinct seed users that have an eligible interaction with the post, ascending: the first `most` of them. It looks
/// at the ends of the post once, or for each seed user at those of the post or of the user, whichever are fewer.
pub fn proofs<G: Graph>(
    alloc: Global,
    graph: &G,
    seeds: &IdList,
    post: u64,
    mask: Mask,
    most: u32,
) -> Result<IdList, Memory>
    ensures { IfOk result (λ proof. proof ≡ proof_of (G.shown graph.now).items seeds.now post mask most) }
{
    let ordered = ascending(alloc, seeds.as_slice())?;
    let few = ends_of(graph, &ordered, mask);
    proof_among(alloc, graph, &ordered, few, post, mask, most)
}

/// The same ranking, in which each post has its proof. It looks at the ends of each post once, or for each seed user at
/// those of the post or of the user, whichever are fewer.
pub fn explained<G: Graph>(
    alloc: Global,
    graph: &G,
    seeds: &IdList,
    ranking: RankedList,
    mask: Mask,
    most: u32,
) -> Result<RankedList, Memory>
    ensures { IfOk result (λ explained. explained ≡ explained_of (G.shown graph.now).items seeds.now ranking mask most) }
{
    let ordered = ascending(alloc, seeds.as_slice())?;
    let few = ends_of(graph, &ordered, mask);
    explained_each(alloc, graph, &ordered, few, ranking.as_slice(), mask, most)
}

/// The same ranking, in which each post has the first `most` of the ordered seed users that explain it.
fn explained_each<G: Graph>(
    alloc: Global,
    graph: &G,
    ordered: &BTreeSet<u64>,
    few: u64,
    ranking: &[Ranked],
    mask: Mask,
    most: u32,
) -> Result<RankedList, Memory>
    ensures { IfOk result (λ explained. explained ≡ map (explained_by (G.shown graph.now).items ordered.now.keys mask most) ranking.now) }
{
    let mut explained = List::new(alloc);
    for ranked in ranking {
        let proof = proof_among(alloc, graph, ordered, few, ranked.id, mask, most)?;
        explained.push(Ranked {
            id: ranked.id,
            number: ranked.number,
            proof,
        })?;
    }
    Ok(explained)
}

/// The identifiers in ascending order, each once.
fn ascending(alloc: Global, ids: &[u64]) -> Result<BTreeSet<u64>, Memory>
    ensures { IfOk result (λ ordered. ordered.keys ≡ ascending ids.now) }
{
    let mut ordered = BTreeSet::new(alloc);
    for id in ids {
        match ordered.insert(*id) {
            Ok(_) => {}
            Err(_) => return Err(Memory),
        }
    }
    Ok(ordered)
}

/// How many ends the seed users have together, or none where they are few: a number to choose by, of which nothing else
/// depends.
fn ends_of<G: Graph>(graph: &G, seeds: &BTreeSet<u64>, mask: Mask) -> u64 {
    if seeds.len() <= FEW_SEEDS {
        return 0;
    }
    let mut ends: u64 = 0;
    for seed in seeds {
        ends = ends.saturating_add(graph.count(Side::User, *seed, mask));
    }
    ends
}

/// The users at the ends of the post, unless the post has `few` ends or more.
fn users_of<G: Graph>(
    alloc: Global,
    graph: &G,
    few: u64,
    post: u64,
    mask: Mask,
) -> Result<Option<HashSet<u64>>, Memory>
    ensures { IfOk result (λ users. ForSome users (λ set. (user : ℕ) → contains nat_eq set user ≡ leads_to (ends (G.shown graph.now).items Post post mask) user)) }
{
    if graph.count(Side::Post, post, mask) >= few {
        return Ok(None);
    }
    let mut users = HashSet::new(alloc);
    add_ends(graph, Side::Post, post, mask, &mut users)?;
    Ok(Some(users))
}

/// Whether the seed user has an eligible interaction with the post, looked for among the fewer ends.
fn is_between<G: Graph>(graph: &G, seed: u64, post: u64, mask: Mask) -> bool
    ensures { result ≡ leads_to (ends (G.shown graph.now).items Post post mask) seed }
{
    if graph.count(Side::User, seed, mask) < graph.count(Side::Post, post, mask) {
        graph.has_end(Side::User, seed, mask, post)
    } else {
        graph.has_end(Side::Post, post, mask, seed)
    }
}

/// Whether the seed user has an eligible interaction with the post, whose users stand in the set if there is one.
fn explains<G: Graph>(
    graph: &G,
    users: &Option<HashSet<u64>>,
    seed: u64,
    post: u64,
    mask: Mask,
) -> bool
    requires { ForSome users.now (λ set. (user : ℕ) → contains nat_eq set user ≡ leads_to (ends (G.shown graph.now).items Post post mask) user) }
    ensures { result ≡ leads_to (ends (G.shown graph.now).items Post post mask) seed }
{
    match users {
        Some(set) => set.contains(&seed),
        None => is_between(graph, seed, post, mask),
    }
}

/// The first `most` of the ordered seed users that explain the post.
fn proof_among<G: Graph>(
    alloc: Global,
    graph: &G,
    ordered: &BTreeSet<u64>,
    few: u64,
    post: u64,
    mask: Mask,
    most: u32,
) -> Result<IdList, Memory>
    ensures { IfOk result (λ proof. proof ≡ first_users (G.shown graph.now).items ordered.now.keys post mask most) }
{
    let users = users_of(alloc, graph, few, post, mask)?;
    picked(alloc, graph, ordered, &users, post, mask, most)
}

/// The same, where the post's users are known or not.
fn picked<G: Graph>(
    alloc: Global,
    graph: &G,
    ordered: &BTreeSet<u64>,
    users: &Option<HashSet<u64>>,
    post: u64,
    mask: Mask,
    most: u32,
) -> Result<IdList, Memory>
    requires { ForSome users.now (λ set. (user : ℕ) → contains nat_eq set user ≡ leads_to (ends (G.shown graph.now).items Post post mask) user) }
    ensures { IfOk result (λ proof. proof ≡ first_users (G.shown graph.now).items ordered.now.keys post mask most) }
{
    let mut proof = List::new(alloc);
    for seed in ordered {
        if proof.len() >= most as usize {
            break;
        }
        if explains(graph, users, *seed, post, mask) {
            proof.push(*seed)?;
        }
    }
    Ok(proof)
}
