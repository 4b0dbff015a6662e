//! The masses of the posts.
ghost use Rattle.std.specs.Prelude.{◌≡◌, ◌-◌, ◌*◌, ◌<◌, ◌≤◌, ◌++◌, ◌∷◌, ℕ, [], fold, length, nat_eq, replicate, ◌==◌, if◌then◌else◌, IfOk, OnOk};
ghost use Rattle.std.specs.HashSet.{contains};
ghost use Rattle.gj_base.specs.Edges.{stands_in, edges_of};
ghost use Rattle.gj_base.specs.Tally.{sum_of};
ghost use Rattle.gj_subgraph.specs.Masses.{users_of, posts_of, vertices, starting, spread, with_mass, total_after, masses_of};
ghost use Rattle.gj_subgraph.specs.Numbers.{AreNumbered, units_in};
ghost use Rattle.gj_subgraph.specs.Regrouped.{HaveSameEdges};

use crate::lists::{post_edges, user_edges};
use crate::number::{numbered, push, with_room};
use crate::relaid::relaid_units;
use crate::step::half_step;
use crate::vertices::Vertices;
use gj_base::{Graph, Mask, Memory, Side, SubAsk, Tally};
use std::alloc::Global;
use std::collections::HashSet;

/// The units of each post that has any.
pub type Masses = Tally;

/// An edge that is found by its vertex costs as much as this many interactions of a scan.
const COST: u64 = 16;

/// The units of the posts, after one half step to them, and for each further iteration one to the users and one back. The
/// sum of the units is the same after each half step: in the end each seed user's 2^20 units stand at posts.
///
/// Where the seeds have few edges it looks at these, and for a second iteration at all ends of their posts; else it asks the
/// graph for the edges of all seeds at once, which is one pass over the window. Each half step looks at each edge three
/// times.
pub fn subgraph<G: Graph>(alloc: Global, graph: &G, ask: &SubAsk) -> Result<Masses, Memory>
    ensures exact { IfOk result (λ masses. masses ≡ masses_of (G.shown graph.now).items ask.now) }
    ensures sum { IfOk result (λ masses. sum_of masses ≡ 1048576 * length (vertices (users_of (edges_of (G.shown graph.now).items ask.now.seeds ask.now.mask)))) }
    ensures in_range { IfOk result (λ masses. sum_of masses ≤ 1048576000) }
    ensures kept { let edges = edges_of (G.shown graph.now).items ask.now.seeds ask.now.mask in
        OnOk result ((n : ℕ) → total_after n (users_of edges) (posts_of edges) (starting (users_of edges)) ≡ 1048576 * length (vertices (users_of edges))) }
{
    let few = are_few(graph, ask.seeds.as_slice(), ask.mask);
    let found = gather(alloc, graph, ask, few)?;
    Ok(found)
}

/// The masses, by the edges of the seeds where these are few, and else by a scan.
fn gather<G: Graph>(alloc: Global, graph: &G, ask: &SubAsk, few: bool) -> Result<Masses, Memory>
    ensures { IfOk result (λ masses. masses ≡ masses_of (G.shown graph.now).items ask.now) }
{
    if few {
        by_lists(alloc, graph, ask)
    } else {
        by_scan(alloc, graph, ask)
    }
}

/// Whether the seeds have few edges beside the window.
fn are_few<G: Graph>(graph: &G, seeds: &[u64], mask: Mask) -> bool {
    let mut edges: u64 = 0;
    for seed in seeds {
        edges = edges.saturating_add(graph.count(Side::User, *seed, mask));
    }
    edges.saturating_mul(COST) < graph.length() - graph.base()
}

/// The masses, by the edges of the seeds.
fn by_lists<G: Graph>(alloc: Global, graph: &G, ask: &SubAsk) -> Result<Masses, Memory>
    ensures { IfOk result (λ masses. masses ≡ masses_of (G.shown graph.now).items ask.now) }
{
    let seeds = ask.seeds.as_slice();
    let (edges, set) = user_edges(alloc, graph, seeds, ask.mask)?;
    let users = numbered(alloc, edges.near)?;
    let posts = numbered(alloc, edges.far)?;
    let units = listed_units(
        alloc,
        graph,
        seeds,
        ask.mask,
        &set,
        &users,
        &posts,
        ask.iterations,
    )?;
    let found = masses(alloc, &posts, units.as_slice())?;
    Ok(found)
}

/// The units at the posts after the last half step, where the edges lie by users. Those of the posts are looked up where a
/// half step goes back.
fn listed_units<G: Graph>(
    alloc: Global,
    graph: &G,
    seeds: &[u64],
    mask: Mask,
    set: &HashSet<u64>,
    users: &Vertices,
    posts: &Vertices,
    iterations: u32,
) -> Result<Vec<u32>, Memory>
    requires users { AreNumbered users.now }
    requires posts { AreNumbered posts.now }
    requires set { (user : ℕ) → contains nat_eq set.now user ≡ stands_in seeds.now user }
    requires same { let edges = edges_of (G.shown graph.now).items seeds.now mask in
        HaveSameEdges users.now.side.items posts.now.side.items (users_of edges) (posts_of edges) }
    requires few { length users.now.names.items ≤ 1000 }
    requires some { 0 < iterations }
    ensures len { IfOk result (λ units. length units.items ≡ length posts.now.names.items) }
    ensures exact { let edges = edges_of (G.shown graph.now).items seeds.now mask in
        IfOk result (λ units. units_in posts.now.names.items units.items ≡ spread (2 * iterations - 1) (users_of edges) (posts_of edges) (starting (users_of edges))) }
{
    if iterations == 1 {
        let units = units_of(alloc, users, posts, 1)?;
        return Ok(units);
    }
    let back = post_edges(alloc, graph, posts.names.as_slice(), mask, set)?;
    let back_posts = numbered(alloc, back.near)?;
    let back_users = numbered(alloc, back.far)?;
    let units = relaid_units(alloc, users, posts, &back_posts, &back_users, iterations)?;
    Ok(units)
}

/// The masses, by the edges that a scan of the window gives.
fn by_scan<G: Graph>(alloc: Global, graph: &G, ask: &SubAsk) -> Result<Masses, Memory>
    ensures { IfOk result (λ masses. masses ≡ masses_of (G.shown graph.now).items ask.now) }
{
    let (users, posts) = edges(alloc, graph, ask.seeds.as_slice(), ask.mask)?;
    let users = numbered(alloc, users)?;
    let posts = numbered(alloc, posts)?;
    let units = units_of(alloc, &users, &posts, ask.iterations)?;
    let found = masses(alloc, &posts, units.as_slice())?;
    Ok(found)
}

/// The users and the posts of the subgraph's edges, edge by edge.
fn edges<G: Graph>(
    alloc: Global,
    graph: &G,
    seeds: &[u64],
    mask: Mask,
) -> Result<(Vec<u64>, Vec<u64>), Memory>
    ensures users { IfOk result (λ r. r.0.items ≡ users_of (edges_of (G.shown graph.now).items seeds.now mask)) }
    ensures posts { IfOk result (λ r. r.1.items ≡ posts_of (edges_of (G.shown graph.now).items seeds.now mask)) }
{
    let found = graph.edges_of(alloc, seeds, mask)?;
    let mut users = with_room(alloc, found.len())?;
    let mut posts = with_room(alloc, found.len())?;
    for edge in &found {
        push(&mut users, edge.user)?;
        push(&mut posts, edge.post)?;
    }
    Ok((users, posts))
}

/// The units at the posts after the last half step.
fn units_of(
    alloc: Global,
    users: &Vertices,
    posts: &Vertices,
    iterations: u32,
) -> Result<Vec<u32>, Memory>
    requires users { AreNumbered users.now }
    requires posts { AreNumbered posts.now }
    requires edges { length users.now.side.items ≡ length posts.now.side.items }
    requires few { length users.now.names.items ≤ 1000 }
    requires some { 0 < iterations }
    ensures len { IfOk result (λ units. length units.items ≡ length posts.now.names.items) }
    ensures exact { IfOk result (λ units. units_in posts.now.names.items units.items
        ≡ spread (2 * iterations - 1) users.now.side.items posts.now.side.items (starting users.now.side.items)) }
{
    let start = started(alloc, users.names.len())?;
    let mut units = half_step(alloc, users, posts, start.as_slice())?;
    for _i in 1..iterations {
        let back = half_step(alloc, posts, users, units.as_slice())?;
        units = half_step(alloc, users, posts, back.as_slice())?;
    }
    Ok(units)
}

/// The units of so many users at the start.
pub fn started(alloc: Global, n: usize) -> Result<Vec<u32>, Memory>
    ensures len { IfOk result (λ v. length v.items ≡ n) }
    ensures exact { IfOk result (λ v. v.items ≡ replicate n 1048576) }
{
    match vec![in alloc; 1_048_576; n] {
        Ok(v) => Ok(v),
        Err(_) => Err(Memory),
    }
}

/// Puts the post with its units behind the other pairs, where it has any.
fn put_mass(pairs: &mut Vec<(u64, u64)>, post: u64, units: u32) -> Result<(), Memory>
    ensures { OnOk result (pairs.new.items ≡ (if units == 0 then pairs.old.items else pairs.old.items ++ (post, units) ∷ [])) }
{
    if units == 0 {
        return Ok(());
    }
    push(pairs, (post, u64::from(units)))
}

/// The posts that have units, with these.
fn masses(alloc: Global, posts: &Vertices, units: &[u32]) -> Result<Masses, Memory>
    requires posts { AreNumbered posts.now }
    requires len { length units.now ≡ length posts.now.names.items }
    ensures { IfOk result (λ masses. masses ≡ fold (with_mass (units_in posts.now.names.items units.now)) [] posts.now.names.items) }
{
    let names = posts.names.as_slice();
    let mut pairs = with_room(alloc, names.len())?;
    for u in 0..names.len() {
        put_mass(&mut pairs, names[u], units[u])?;
    }
    Tally::of_pairs(alloc, pairs)
}
