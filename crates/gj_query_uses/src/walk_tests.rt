ghost use Rattle.std.specs.Prelude.{◌≡◌, ◌<◌, ◌≤◌, length, [], ◌∷◌, IfOk};
ghost use Rattle.gj_base.specs.Asks.{AreSeeds};

use gj_base::{
    Conf, Grow, IdList, Item, Kind, ListGraph, MAX_RESET, Mask, Memory, WalkAsk, add_all,
};
use gj_walk::{State, walk};
use rand_core::SeedableRng;
use rand_core::utils::NextWord;
use rand_pcg::Lcg128Xsl64;
use std::alloc::Global;
use std::process::Abort;
use std::test::Fail;

/// A list graph that has seen these.
fn graph_of(rt: &impl Abort, alloc: Global, items: &[Item]) -> Result<ListGraph, Memory>
    requires { length items.now ≤ 100 }
{
    let conf = Conf::make(16, 2).expect(rt, "16 and 2 are in range");
    let mut graph = ListGraph::make(alloc, conf, 0)?;
    add_all(&mut graph, items);
    Ok(graph)
}

/// An ask that only a walk reads.
fn ask(seeds: IdList, steps: u32, mask: Mask, reset: u32) -> WalkAsk
    requires { AreSeeds seeds }
{
    WalkAsk {
        seeds,
        steps: steps.clamp(1, 100_000),
        seed: 0,
        mask,
        reset: reset.min(MAX_RESET),
        top: 1,
        proof: 0,
        hide: false,
        since: 0,
    }
}

fn one_seed(alloc: Global, user: u64) -> Result<IdList, Memory>
    ensures { IfOk result (λ seeds. seeds ≡ user ∷ []) }
{
    let mut seeds = IdList::new(alloc);
    seeds.push(user)?;
    Ok(seeds)
}

fn item(user: u64, post: u64, kind: Kind) -> Item
    requires user { user < 100 }
    requires post { post < 100 }
{
    Item {
        user,
        post,
        kind,
        at: 0,
    }
}

#[test]
fn one_interaction_forces_every_choice(rt: HostRuntime) -> Result<(), Fail> {
    let graph = graph_of(&rt, rt.alloc(), &[item(1, 10, Kind::Favorite)])?;
    let all = Mask::all();
    let click = Mask::one(Kind::Click);
    for (steps, mask, reset, visits) in [
        (6, all, 0, 3),
        (6, all, 10_000, 2),
        (1, all, 0, 0),
        (6, click, 0, 0),
    ] {
        let ask = ask(one_seed(rt.alloc(), 1)?, steps, mask, reset);
        let mut generator = Lcg128Xsl64::seed_from_u64(0);
        let found = walk(rt.alloc(), &graph, &ask, &mut generator)?;
        assert_eq!(rt; found.get(10), visits, "{steps} steps, reset {reset}");
        assert_eq!(rt; found.pairs().count() as u64, visits.min(1));
    }
    Ok(())
}

#[test]
fn an_unknown_seed_visits_nothing_and_draws_its_words(rt: HostRuntime) -> Result<(), Fail> {
    let graph = graph_of(&rt, rt.alloc(), &[item(1, 10, Kind::Favorite)])?;
    let ask = ask(one_seed(rt.alloc(), 9)?, 6, Mask::all(), 0);
    let mut generator = Lcg128Xsl64::seed_from_u64(0);
    let found = walk(rt.alloc(), &graph, &ask, &mut generator)?;
    assert_eq!(rt; found.sum(), 0);
    let mut other = Lcg128Xsl64::seed_from_u64(0);
    for _ in 0..6 {
        let _ = other.next_word();
    }
    assert_eq!(rt; generator.next_word(), other.next_word());
    Ok(())
}

/// Three seeds, of which user 9 has no interaction; the visits were worked out by another program.
#[test]
fn several_seeds_walk_over_repeated_edges(rt: HostRuntime) -> Result<(), Fail> {
    let items = [
        item(1, 10, Kind::Click),
        item(2, 20, Kind::Favorite),
        item(1, 20, Kind::Click),
        item(2, 20, Kind::Reply),
        item(1, 10, Kind::Favorite),
        item(2, 30, Kind::Click),
        item(1, 30, Kind::Tweet),
        item(2, 10, Kind::Retweet),
    ];
    let graph = graph_of(&rt, rt.alloc(), &items)?;
    let some = Mask::one(Kind::Click).with(Kind::Retweet);
    for (seed, mask, reset, visits) in [
        (0, Mask::all(), 0, (7, 6, 7)),
        (0, some, 3000, (10, 3, 3)),
        (7, Mask::all(), 3000, (7, 6, 0)),
        (42, Mask::all(), 10_000, (2, 6, 3)),
        (42, some, 0, (12, 0, 8)),
    ] {
        let mut seeds = IdList::new(rt.alloc());
        seeds.push(2)?;
        seeds.push(1)?;
        seeds.push(9)?;
        let ask = ask(seeds, 40, mask, reset);
        let mut generator = Lcg128Xsl64::seed_from_u64(seed);
        let found = walk(rt.alloc(), &graph, &ask, &mut generator)?;
        let counts = (found.get(10), found.get(20), found.get(30));
        assert_eq!(rt; counts, visits, "seed {seed}, reset {reset}");
    }
    Ok(())
}

#[test]
fn a_state_is_a_seed_a_user_or_a_post(rt: HostRuntime) {
    assert_ne!(rt; State::User(1), State::Post(1));
    assert_ne!(rt; State::User(1), State::Seed);
}
