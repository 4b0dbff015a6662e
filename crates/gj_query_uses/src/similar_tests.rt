ghost use Rattle.std.specs.Prelude.{◌≡◌, ◌<◌, ◌≤◌, length};

use gj_base::{Conf, Grow, Item, Kind, ListGraph, Mask, Memory, SimAsk, add_all};
use gj_similar::{Score, ScoreList, State, order_scores, similar};
use rand_core::SeedableRng;
use rand_pcg::Lcg128Xsl64;
use std::alloc::Global;
use std::process::Abort;
use std::test::Fail;

/// A list graph that has seen these.
fn graph_of(rt: &impl Abort, alloc: Global, items: &[Item]) -> Result<ListGraph, Memory>
    requires { length items.now ≤ 100 }
{
    let conf = Conf::make(16, 2).expect(rt, "16 and 2 are in range");
    let mut graph = ListGraph::make(alloc, conf, 0)?;
    add_all(&mut graph, items);
    Ok(graph)
}

/// The scores of post 10 by the words of a seed.
fn scores_of(
    alloc: Global,
    graph: &ListGraph,
    steps: u32,
    seed: u64,
    mask: Mask,
    top: u32,
) -> Result<ScoreList, Memory> {
    let ask = SimAsk {
        post: 10,
        steps: steps.clamp(1, 100_000),
        seed,
        mask,
        top: top.clamp(1, 100),
        since: 0,
    };
    let mut generator = Lcg128Xsl64::seed_from_u64(seed);
    let shared = similar(alloc, graph, &ask, &mut generator)?;
    order_scores(alloc, graph, &shared, ask.mask, top)
}

fn item(user: u64, post: u64, kind: Kind) -> Item
    requires user { user < 100 }
    requires post { post < 100 }
{
    Item {
        user,
        post,
        kind,
        at: 0,
    }
}

fn score(co: u64, degree: u64, post: u64) -> Score
    requires co_low { 0 < co }
    requires co_high { co < 100 }
    requires degree_low { 0 < degree }
    requires degree_high { degree < 100 }
{
    Score { co, degree, post }
}

#[test]
fn the_post_itself_is_not_shared(rt: HostRuntime) -> Result<(), Fail> {
    let alone = graph_of(&rt, rt.alloc(), &[item(1, 10, Kind::Favorite)])?;
    let none = scores_of(rt.alloc(), &alone, 4, 0, Mask::all(), 100)?;
    assert_eq!(rt; none.len(), 0);
    let items = [item(1, 10, Kind::Click), item(1, 20, Kind::Click)];
    let both = graph_of(&rt, rt.alloc(), &items)?;
    let back = scores_of(rt.alloc(), &both, 2, 0, Mask::all(), 100)?;
    assert_eq!(rt; back.len(), 0, "the second word picks post 10");
    let on = scores_of(rt.alloc(), &both, 2, 5, Mask::all(), 100)?;
    assert_eq!(rt; on.as_slice(), [score(1, 1, 20)].as_slice());
    Ok(())
}

/// The scores were worked out by another program.
#[test]
fn scores_come_by_their_fractions(rt: HostRuntime) -> Result<(), Fail> {
    let items = [
        item(1, 10, Kind::Click),
        item(2, 20, Kind::Favorite),
        item(1, 20, Kind::Click),
        item(2, 20, Kind::Reply),
        item(1, 10, Kind::Favorite),
        item(2, 30, Kind::Click),
        item(1, 30, Kind::Tweet),
        item(2, 10, Kind::Retweet),
    ];
    let graph = graph_of(&rt, rt.alloc(), &items)?;
    let some = Mask::one(Kind::Click).with(Kind::Retweet);
    for (seed, mask, first, second) in [
        (3, Mask::all(), score(5, 2, 30), score(6, 3, 20)),
        (7, Mask::all(), score(7, 3, 20), score(4, 2, 30)),
        (7, some, score(5, 1, 20), score(3, 1, 30)),
        (22, some, score(6, 1, 20), score(6, 1, 30)),
    ] {
        let scores = scores_of(rt.alloc(), &graph, 40, seed, mask, 2)?;
        assert_eq!(rt;
            scores.as_slice(),
            [first, second].as_slice(),
            "seed {seed}"
        );
        let best = scores_of(rt.alloc(), &graph, 40, seed, mask, 1)?;
        assert_eq!(rt; best.as_slice(), [first].as_slice(), "seed {seed}, top 1");
    }
    Ok(())
}

#[test]
fn ties_go_to_the_lower_post_and_the_larger_co(rt: HostRuntime) {
    for (first, second) in [
        (score(1, 1, 20), score(2, 4, 30)),
        (score(2, 4, 20), score(1, 1, 20)),
        (score(3, 4, 90), score(2, 2, 10)),
    ] {
        assert!(rt; first < second, "{first:?} before {second:?}");
        assert!(rt; second > first, "{second:?} after {first:?}");
    }
    assert_ne!(rt; State::Post, State::User(1));
}
