//! The edges of a few seeds, by the ends of their vertices.
ghost use Rattle.std.specs.Prelude.{◌≡◌, ℕ, ◌==◌, ◌≤◌, ◌||◌, ◌++◌, ◌∷◌, [], filter, nat_eq, length, if◌then◌else◌, IfOk, OnOk};
ghost use Rattle.std.specs.HashSet.{contains};
ghost use Rattle.gj_base.specs.declared.side.Side.TheVariants as sides;
ghost use Rattle.gj_base.specs.Edges.{stands_in, edges_of};
ghost use Rattle.gj_subgraph.specs.Masses.{count_of, users_of, posts_of};
ghost use Rattle.gj_subgraph.specs.Regrouped.{far_at, ends_at, HaveSameEdges};

use crate::number::push;
use gj_base::{Graph, Mask, Memory, Side};
use std::alloc::Global;
use std::collections::HashSet;

/// Edges: of each its vertex on a side, and its vertex across.
#[derive(Drop)]
pub struct Edges {
    pub near: Vec<u64>,
    pub far: Vec<u64>,
}

impl Edges {
    fn new(alloc: Global) -> Edges
        ensures near { result.near.items ≡ [] }
        ensures far { result.far.items ≡ [] }
    {
        Edges {
            near: Vec::new(alloc),
            far: Vec::new(alloc),
        }
    }

    /// Puts an edge behind the others.
    fn push(&mut self, near: u64, far: u64) -> Result<(), Memory>
        ensures near { OnOk result (self.new.near.items ≡ self.old.near.items ++ near ∷ []) }
        ensures far { OnOk result (self.new.far.items ≡ self.old.far.items ++ far ∷ []) }
    {
        push(&mut self.near, near)?;
        push(&mut self.far, far)
    }
}

/// Puts the eligible interactions of a user behind the other edges.
fn add_ends<G: Graph>(graph: &G, user: u64, mask: Mask, edges: &mut Edges) -> Result<(), Memory>
    requires lined { length edges.old.near.items ≡ length edges.old.far.items }
    ensures lined { OnOk result (length edges.new.near.items ≡ length edges.new.far.items) }
    ensures ends { OnOk result ((u : ℕ) → far_at edges.new.near.items edges.new.far.items u
        ≡ far_at edges.old.near.items edges.old.far.items u ++ (if user == u then ends_at (G.shown graph.now).items sides.User user mask else [])) }
{
    for i in 0..graph.count(Side::User, user, mask) {
        let (post, _kind) = graph.edge(Side::User, user, mask, i);
        edges.push(user, post)?;
    }
    Ok(())
}

/// Puts an edge of a post behind the others, where it leads to a seed.
fn keep_end(post: u64, user: u64, seeds: &HashSet<u64>, edges: &mut Edges) -> Result<(), Memory>
    ensures near { OnOk result (edges.new.near.items ≡ (if contains nat_eq seeds.now user then edges.old.near.items ++ post ∷ [] else edges.old.near.items)) }
    ensures far { OnOk result (edges.new.far.items ≡ (if contains nat_eq seeds.now user then edges.old.far.items ++ user ∷ [] else edges.old.far.items)) }
{
    if seeds.contains(&user) {
        edges.push(post, user)?;
    }
    Ok(())
}

/// Puts the eligible interactions of a post with seeds behind the other edges.
fn add_seed_ends<G: Graph>(
    graph: &G,
    post: u64,
    mask: Mask,
    seeds: &HashSet<u64>,
    edges: &mut Edges,
) -> Result<(), Memory>
    requires lined { length edges.old.near.items ≡ length edges.old.far.items }
    ensures lined { OnOk result (length edges.new.near.items ≡ length edges.new.far.items) }
    ensures ends { OnOk result ((p : ℕ) → far_at edges.new.near.items edges.new.far.items p
        ≡ far_at edges.old.near.items edges.old.far.items p
        ++ (if post == p then filter (contains nat_eq seeds.now) (ends_at (G.shown graph.now).items sides.Post post mask) else [])) }
{
    for i in 0..graph.count(Side::Post, post, mask) {
        let (user, _kind) = graph.edge(Side::Post, post, mask, i);
        keep_end(post, user, seeds, edges)?;
    }
    Ok(())
}

/// Puts the seed into the set.
fn add_seed(set: &mut HashSet<u64>, seed: u64) -> Result<(), Memory>
    ensures { OnOk result ((user : ℕ) → contains nat_eq set.new user ≡ (contains nat_eq set.old user || (seed == user))) }
{
    match set.insert(seed) {
        Ok(_) => Ok(()),
        Err(_) => Err(Memory),
    }
}

/// Puts the eligible interactions of a seed behind the other edges, unless the seed came before.
fn take_seed<G: Graph>(
    graph: &G,
    seed: u64,
    mask: Mask,
    set: &mut HashSet<u64>,
    edges: &mut Edges,
) -> Result<(), Memory>
    requires lined { length edges.old.near.items ≡ length edges.old.far.items }
    ensures lined { OnOk result (length edges.new.near.items ≡ length edges.new.far.items) }
    ensures set { OnOk result ((user : ℕ) → contains nat_eq set.new user ≡ (contains nat_eq set.old user || (seed == user))) }
    ensures ends { OnOk result ((u : ℕ) → far_at edges.new.near.items edges.new.far.items u
        ≡ (if contains nat_eq set.old seed then far_at edges.old.near.items edges.old.far.items u
        else far_at edges.old.near.items edges.old.far.items u ++ (if seed == u then ends_at (G.shown graph.now).items sides.User seed mask else []))) }
{
    if !set.contains(&seed) {
        add_ends(graph, seed, mask, edges)?;
    }
    add_seed(set, seed)
}

/// The edges of the subgraph, seed by seed, and the seeds as a set: one call of the graph a seed, and one an edge.
pub fn user_edges<G: Graph>(
    alloc: Global,
    graph: &G,
    seeds: &[u64],
    mask: Mask,
) -> Result<(Edges, HashSet<u64>), Memory>
    ensures set { IfOk result (λ r. (user : ℕ) → contains nat_eq r.1 user ≡ stands_in seeds.now user) }
    ensures same { let edges = edges_of (G.shown graph.now).items seeds.now mask in
        IfOk result (λ r. HaveSameEdges r.0.near.items r.0.far.items (users_of edges) (posts_of edges)) }
{
    let mut set = HashSet::new(alloc);
    let mut edges = Edges::new(alloc);
    for seed in seeds {
        take_seed(graph, *seed, mask, &mut set, &mut edges)?;
    }
    Ok((edges, set))
}

/// The edges of the subgraph, post by post: one call of the graph a post, and one for each of its ends.
pub fn post_edges<G: Graph>(
    alloc: Global,
    graph: &G,
    posts: &[u64],
    mask: Mask,
    seeds: &HashSet<u64>,
) -> Result<Edges, Memory>
    requires { (v : ℕ) → count_of posts.now v ≤ 1 }
    ensures lined { IfOk result (λ edges. length edges.near.items ≡ length edges.far.items) }
    ensures ends { IfOk result (λ edges. (p : ℕ) → far_at edges.near.items edges.far.items p
        ≡ (if stands_in posts.now p then filter (contains nat_eq seeds.now) (ends_at (G.shown graph.now).items sides.Post p mask) else [])) }
{
    let mut edges = Edges::new(alloc);
    for post in posts {
        add_seed_ends(graph, *post, mask, seeds, &mut edges)?;
    }
    Ok(edges)
}
