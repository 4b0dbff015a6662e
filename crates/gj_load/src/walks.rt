//! The walks over a workload.
ghost use Rattle.std.specs.Prelude.{◌≡◌, ◌+◌, ◌*◌, ◌<◌, ◌≤◌, IfOk};
ghost use Rattle.gj_base.specs.Tally.{sum_of};
ghost use Rattle.gj_load.specs.Totals.{walk_query, visits_in, visits_sum, best_in};

use crate::generator::user_at;
use gj_base::{Graph, IdList, Mask, Memory, WalkAsk};
use gj_proof::{Ranked, rank};
use gj_walk::walk;
use rand_core::SeedableRng;
use rand_pcg::Lcg128Xsl64;
use std::alloc::Global;

/// How many walks are made.
const WALKS: u64 = 100;

/// What came of walks: the visits of all, and the best post of the last with its visits.
#[derive(Clone, Copy, Debug)]
pub struct Walked {
    pub visits: u64,
    pub best: Option<(u64, u64)>,
}

/// What the walk of this number asks for.
fn walk_ask(alloc: Global, number: u64, count: u64, walk: u64) -> Result<WalkAsk, Memory>
    requires { (0 < count) × (count ≤ 1000000) }
    ensures { IfOk result (λ ask. ask ≡ walk_query number count walk) }
{
    let mut seeds = IdList::new(alloc);
    seeds.push(user_at(number, walk % count))?;
    Ok(WalkAsk {
        seeds,
        steps: 1000,
        seed: walk,
        mask: Mask::all(),
        reset: 0,
        top: 1,
        proof: 0,
        hide: false,
        since: 0,
    })
}

/// The first of a ranking, with its number.
fn first_of(ranking: &[Ranked]) -> Option<(u64, u64)>
    ensures { result ≡ option_map (λ r. (r.id, r.number)) (slice_get ranking.now 0) }
{
    match ranking.first() {
        None => None,
        Some(best) => Some((best.id, best.number)),
    }
}

ghost use Rattle.std.specs.Prelude.{option_map, slice_get};

/// One walk over the graph.
#[tactic(auto, unfolding(crate::specs::Totals::visits_in, crate::specs::Totals::best_in))]
fn walk_once<G: Graph>(
    alloc: Global,
    graph: &G,
    number: u64,
    count: u64,
    walk_number: u64,
) -> Result<Walked, Memory>
    requires { (0 < count) × (count ≤ 1000000) }
    ensures visits { IfOk result (λ w. w.visits ≡ sum_of (visits_in (G.shown graph.now).items number count walk_number)) }
    ensures best { IfOk result (λ w. w.best ≡ best_in (G.shown graph.now).items number count walk_number) }
    ensures in_range { IfOk result (λ w. w.visits ≤ 1000) }
{
    let ask = walk_ask(alloc, number, count, walk_number)?;
    let mut generator = Lcg128Xsl64::seed_from_u64(walk_number);
    let visits = walk(alloc, graph, &ask, &mut generator)?;
    let ranking = rank(alloc, graph, &ask.seeds, visits.as_map(), false, 1)?;
    Ok(Walked {
        visits: visits.sum(),
        best: first_of(ranking.as_slice()),
    })
}

/// All walks over the graph, of a workload of so many interactions.
pub fn walk_all<G: Graph>(
    alloc: Global,
    graph: &G,
    number: u64,
    count: u64,
) -> Result<Walked, Memory>
    requires { (0 < count) × (count ≤ 1000000) }
    ensures visits { IfOk result (λ w. w.visits ≡ visits_sum (G.shown graph.now).items number count 100) }
    ensures best { IfOk result (λ w. w.best ≡ best_in (G.shown graph.now).items number count 99) }
{
    let mut walked = Walked {
        visits: 0,
        best: None,
    };
    for walk_number in 0..WALKS {
        let once = walk_once(alloc, graph, number, count, walk_number)?;
        walked = Walked {
            visits: walked.visits + once.visits,
            best: once.best,
        };
    }
    Ok(walked)
}
