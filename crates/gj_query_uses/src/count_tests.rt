//! Posts by the weights of the seeds, counted.
ghost use Rattle.std.specs.Prelude.{◌≡◌, ◌∷◌, [], IfOk};

use gj_base::{
    Conf, CountAsk, Graph, Grow, IdList, Item, Kind, KindLeast, ListGraph, Mask, Memory,
};
use gj_count::{Weights, count_second};
use std::alloc::Global;
use std::process::Abort;
use std::test::Fail;

const NO_LEAST: KindLeast = KindLeast {
    click: 0,
    favorite: 0,
    retweet: 0,
    reply: 0,
    tweet: 0,
};

const CLICKED_BY_TWO: KindLeast = KindLeast {
    click: 2,
    ..NO_LEAST
};

const CLICKED_AND_TWEETED: KindLeast = KindLeast {
    click: 1,
    tweet: 1,
    ..NO_LEAST
};

fn three(alloc: Global, a: u64, b: u64, c: u64) -> Result<IdList, Memory>
    ensures { IfOk result (λ list. list ≡ a ∷ b ∷ c ∷ []) }
{
    let mut list = IdList::new(alloc);
    list.push(a)?;
    list.push(b)?;
    list.push(c)?;
    Ok(list)
}

/// The seeds 2, 1 and 4 with the weights 5, 3 and 11.
fn ask_of(alloc: Global, mask: Mask, least: KindLeast) -> Result<CountAsk, Memory> {
    Ok(CountAsk {
        seeds: three(alloc, 2, 1, 4)?,
        weights: three(alloc, 5, 3, 11)?,
        mask,
        least,
        top: 100,
        proof: 10,
        since: 0,
    })
}

fn add(rt: &impl Abort, graph: &mut ListGraph, user: u64, post: u64, kind: Kind, at: u64) {
    let item = Item::make(user, post, kind, at).expect(rt, "an interaction");
    assert!(rt; graph.length() < 256);
    graph.add(item);
}

fn new_graph(rt: &impl Abort, alloc: Global) -> Result<ListGraph, Memory> {
    let conf = Conf::make(16, 2).expect(rt, "16 and 2 are in range");
    ListGraph::make(alloc, conf, 0)
}

fn check(rt: &impl Abort, weights: &Weights, expected: &[(u64, u64)]) {
    assert_eq!(rt; weights.pairs().count(), expected.len());
    for (post, weight) in expected {
        assert_eq!(rt; weights.get(*post), *weight, "post {post}");
    }
}

#[test]
fn a_seed_counts_once(rt: HostRuntime) -> Result<(), Fail> {
    let mut graph = new_graph(&rt, rt.alloc())?;
    add(&rt, &mut graph, 1, 10, Kind::Click, 0);
    add(&rt, &mut graph, 1, 20, Kind::Click, 0);
    add(&rt, &mut graph, 2, 20, Kind::Click, 0);
    let any = ask_of(rt.alloc(), Mask::all(), NO_LEAST)?;
    let clicked = ask_of(rt.alloc(), Mask::all(), CLICKED_BY_TWO)?;
    for _ in 0..2 {
        let weights = count_second(rt.alloc(), &graph, &any)?;
        check(&rt, &weights, &[(10, 3), (20, 8)]);
        let weights = count_second(rt.alloc(), &graph, &clicked)?;
        check(&rt, &weights, &[(20, 8)]);
        add(&rt, &mut graph, 1, 10, Kind::Click, 0);
    }
    Ok(())
}

/// How many seeds have an eligible interaction of one of the kinds with the post, and the sum of their weights.
fn met(graph: &ListGraph, ask: &CountAsk, post: u64, kinds: Mask) -> (u32, u64) {
    let mut seeds: u32 = 0;
    let mut sum: u64 = 0;
    for i in 0..ask.seeds.len() {
        let seed = *ask.seeds.get(i);
        let mut is_met = false;
        for place in graph.base()..graph.length() {
            let x = graph.item(place);
            if x.user == seed && x.post == post && kinds.has(x.kind) {
                is_met = is_met || ask.mask.lets(x.kind, x.at);
            }
        }
        if is_met && i < ask.weights.len() {
            seeds = seeds.saturating_add(1);
            sum = sum.saturating_add(*ask.weights.get(i));
        }
    }
    (seeds, sum)
}

/// The weight of a post, counted post by post; 0 where the least support is wanting.
fn plain_weight(graph: &ListGraph, ask: &CountAsk, post: u64) -> u64 {
    let least = ask.least;
    for (kind, least) in [
        (Kind::Click, least.click),
        (Kind::Favorite, least.favorite),
        (Kind::Retweet, least.retweet),
        (Kind::Reply, least.reply),
        (Kind::Tweet, least.tweet),
    ] {
        let (support, _sum) = met(graph, ask, post, Mask::one(kind));
        if support < least {
            return 0;
        }
    }
    let (_seeds, sum) = met(graph, ask, post, Mask::all());
    sum
}

fn next(state: &mut u64, below: u64) -> u64 {
    *state = state
        .wrapping_mul(6_364_136_223_846_793_005)
        .wrapping_add(1_442_695_040_888_963_407);
    (*state >> 33) % below.max(1)
}

/// The graph after 40 interactions of few users with few posts.
fn drawn_graph(rt: &impl Abort, alloc: Global, state: &mut u64) -> Result<ListGraph, Memory> {
    let mut graph = new_graph(rt, alloc)?;
    for _ in 0..40 {
        let user = next(state, 6);
        let post = next(state, 8);
        let kind = Kind::from_number(next(state, 5)).unwrap_or(Kind::Click);
        add(rt, &mut graph, user, post, kind, next(state, 4));
    }
    Ok(graph)
}

#[test]
fn weights_are_those_counted_post_by_post(rt: HostRuntime) -> Result<(), Fail> {
    let mut state = 7;
    for _ in 0..50 {
        let graph = drawn_graph(&rt, rt.alloc(), &mut state)?;
        let some = Mask::one(Kind::Click).with(Kind::Tweet).from_moment(2);
        for mask in [Mask::all(), some] {
            for least in [NO_LEAST, CLICKED_BY_TWO, CLICKED_AND_TWEETED] {
                let ask = ask_of(rt.alloc(), mask, least)?;
                let weights = count_second(rt.alloc(), &graph, &ask)?;
                for post in 0..8 {
                    let expected = plain_weight(&graph, &ask, post);
                    assert_eq!(rt; weights.get(post), expected, "post {post}");
                }
                assert!(rt;
                    weights
                        .pairs()
                        .all(|(post, weight)| *post < 8 && *weight > 0)
                );
            }
        }
    }
    Ok(())
}
