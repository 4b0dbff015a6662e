ghost use Rattle.std.specs.Prelude.{◌≡◌, ◌∷◌, [], IfOk};
ghost use Rattle.gj_base.specs.Asks.{AreSeeds};

use gj_base::{Conf, Graph, Grow, IdList, Item, Kind, ListGraph, Mask, Memory, SubAsk};
use gj_subgraph::subgraph;
use std::alloc::Global;
use std::process::Abort;
use std::test::Fail;

fn add(rt: &impl Abort, graph: &mut ListGraph, user: u64, post: u64, kind: Kind) {
    let item = Item::make(user, post, kind, 0).expect(rt, "an interaction");
    assert!(rt; graph.length() < 256);
    graph.add(item);
}

// The graph of the edges, behind so many of a user who is no seed.
fn graph_of(
    rt: &impl Abort,
    alloc: Global,
    others: u64,
    edges: &[(u64, u64, Kind)],
) -> Result<ListGraph, Memory> {
    let conf = Conf::make(256, 1).expect(rt, "256 and 1 are in range");
    let mut graph = ListGraph::make(alloc, conf, 0)?;
    for i in 0..others {
        add(rt, &mut graph, 9, 10 + i % 3, Kind::Click);
    }
    for (user, post, kind) in edges {
        add(rt, &mut graph, *user, *post, *kind);
    }
    Ok(graph)
}

fn user_one(alloc: Global) -> Result<IdList, Memory>
    ensures { IfOk result (λ seeds. seeds ≡ 1 ∷ []) }
{
    let mut seeds = IdList::new(alloc);
    seeds.push(1)?;
    Ok(seeds)
}

fn two_and_one(alloc: Global) -> Result<IdList, Memory>
    ensures { IfOk result (λ seeds. seeds ≡ 2 ∷ 1 ∷ []) }
{
    let mut seeds = IdList::new(alloc);
    seeds.push(2)?;
    seeds.push(1)?;
    Ok(seeds)
}

fn check(
    rt: &(impl Abort + AllocGlobal),
    edges: &[(u64, u64, Kind)],
    seeds: IdList,
    iterations: u32,
    mask: Mask,
    expected: &[(u64, u64)],
) -> Result<(), Memory>
    requires { AreSeeds seeds }
{
    let ask = SubAsk {
        seeds,
        iterations: iterations.clamp(1, 20),
        mask,
        top: 100,
        proof: 10,
        since: 0,
    };
    // A scan of the window, and the ends of the vertices where the edges are few beside it.
    for others in [0, 200] {
        let graph = graph_of(rt, rt.alloc(), others, edges)?;
        let masses = subgraph(rt.alloc(), &graph, &ask)?;
        assert_eq!(rt; masses.pairs().count(), expected.len());
        for (post, units) in expected {
            assert_eq!(rt; masses.get(*post), *units, "post {post}");
        }
    }
    Ok(())
}

#[test]
fn two_seed_users_share_a_post(rt: HostRuntime) -> Result<(), Fail> {
    let edges = [
        (1, 10, Kind::Click),
        (1, 20, Kind::Click),
        (2, 20, Kind::Click),
    ];
    let all = Mask::all();
    let once = [(10, 524_288), (20, 1_572_864)];
    let twice = [(10, 655_360), (20, 1_441_792)];
    check(&rt, &edges, two_and_one(rt.alloc())?, 1, all, &once)?;
    check(&rt, &edges, two_and_one(rt.alloc())?, 2, all, &twice)?;
    Ok(())
}

#[test]
fn the_remainder_goes_to_the_first_edges(rt: HostRuntime) -> Result<(), Fail> {
    let edges = [
        (1, 10, Kind::Click),
        (1, 20, Kind::Click),
        (3, 30, Kind::Click),
        (1, 10, Kind::Reply),
    ];
    let all = [(10, 699_051), (20, 349_525)];
    let clicked = [(10, 524_288), (20, 524_288)];
    check(&rt, &edges, user_one(rt.alloc())?, 1, Mask::all(), &all)?;
    check(&rt, &edges, two_and_one(rt.alloc())?, 1, Mask::all(), &all)?;
    let click = Mask::one(Kind::Click);
    check(&rt, &edges, user_one(rt.alloc())?, 1, click, &clicked)?;
    let tweet = Mask::one(Kind::Tweet);
    check(&rt, &edges, user_one(rt.alloc())?, 20, tweet, &[])?;
    Ok(())
}
