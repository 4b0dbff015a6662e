use gj_base::{Conf, Graph, Grow, IdList, Item, Kind, ListGraph, Mask, Tally};
use gj_proof::{RankedList, explained, proofs, rank};
use std::process::Abort;

fn graph_of(rt: &(impl Abort + AllocGlobal), edges: &[(u64, u64, Kind)]) -> ListGraph {
    let conf = Conf::make(16, 1).expect(rt, "a configuration");
    let Ok(mut graph) = ListGraph::make(rt.alloc(), conf, 0) else {
        panic!(rt; "no memory");
    };
    for (user, post, kind) in edges {
        let item = Item::make(*user, *post, *kind, 0).expect(rt, "an interaction");
        assert!(rt; graph.length() < 16);
        graph.add(item);
    }
    graph
}

fn ids_of(rt: &(impl Abort + AllocGlobal), ids: &[u64]) -> IdList {
    let mut list = IdList::new(rt.alloc());
    for id in ids {
        assert!(rt; list.push(*id).is_ok());
    }
    list
}

fn tally_of(rt: &(impl Abort + AllocGlobal), pairs: &[(u64, u64)]) -> Tally {
    let mut tally = Tally::new(rt.alloc());
    for (post, number) in pairs {
        assert!(rt; *number > 0);
        assert!(rt; tally.put(*post, *number).is_ok());
    }
    tally
}

/// Four users and five posts, with repeats: user 2 clicked post 20 twice, and replied to post 40.
fn sample(rt: &(impl Abort + AllocGlobal)) -> ListGraph {
    graph_of(
        rt,
        &[
            (5, 10, Kind::Click),
            (2, 20, Kind::Click),
            (5, 20, Kind::Click),
            (2, 20, Kind::Click),
            (4, 20, Kind::Reply),
            (2, 40, Kind::Reply),
            (9, 30, Kind::Favorite),
            (9, 20, Kind::Click),
        ],
    )
}

fn check_ranking(rt: &(impl Abort + AllocGlobal), ranking: &RankedList, expected: &[(u64, u64)]) {
    assert_eq!(rt; ranking.len(), expected.len());
    for (ranked, pair) in ranking.as_slice().iter().zip(expected) {
        assert_eq!(rt; ranked.id, pair.0);
        assert_eq!(rt; ranked.number, pair.1);
        assert_eq!(rt; ranked.proof.len(), 0);
    }
}

#[test]
fn larger_numbers_come_first_then_lower_posts(rt: HostRuntime) {
    let graph = sample(&rt);
    let scores = tally_of(&rt, &[(40, 7), (10, 3), (30, 3), (20, 5), (50, 1)]);
    let seeds = ids_of(&rt, &[4, 5]);
    let cases: [(bool, u32, &[(u64, u64)]); 6] = [
        (false, 100, &[(40, 7), (20, 5), (10, 3), (30, 3), (50, 1)]),
        (false, 3, &[(40, 7), (20, 5), (10, 3)]),
        (false, 1, &[(40, 7)]),
        (true, 100, &[(40, 7), (30, 3), (50, 1)]),
        (true, 2, &[(40, 7), (30, 3)]),
        (true, 0, &[]),
    ];
    for (hide, top, expected) in cases {
        let Ok(ranking) = rank(rt.alloc(), &graph, &seeds, scores.as_map(), hide, top) else {
            panic!(rt; "no memory");
        };
        check_ranking(&rt, &ranking, expected);
    }
}

/// More seed users than are asked for one by one. They have 8 ends together.
const MANY: &[u64] = &[9, 4, 7, 2, 5, 1, 3, 6, 8, 10];

#[test]
fn proofs_are_the_seed_users_of_a_post(rt: HostRuntime) {
    let graph = sample(&rt);
    let click = Mask::one(Kind::Click);
    let cases: [(&[u64], u64, Mask, u32, &[u64]); 15] = [
        (&[9, 4, 7, 2, 5], 20, Mask::all(), 10, &[2, 4, 5, 9]),
        (&[9, 4, 7, 2, 5], 20, click, 10, &[2, 5, 9]),
        (&[9, 4, 7, 2, 5], 20, Mask::all(), 3, &[2, 4, 5]),
        (&[9, 4, 7, 2, 5], 20, Mask::all(), 0, &[]),
        (&[5, 4, 5], 20, Mask::all(), 10, &[4, 5]),
        (&[4], 20, Mask::all(), 10, &[4]),
        (&[7], 20, Mask::all(), 10, &[]),
        (&[2, 9], 40, Mask::all(), 1, &[2]),
        (&[2, 9], 40, click, 1, &[]),
        // Users with more ends than the post, and with fewer.
        (MANY, 20, Mask::all(), 10, &[2, 4, 5, 9]),
        (MANY, 20, click, 10, &[2, 5, 9]),
        (MANY, 20, Mask::all(), 2, &[2, 4]),
        (MANY, 40, Mask::all(), 10, &[2]),
        (MANY, 50, Mask::all(), 10, &[]),
        (
            &[18, 17, 16, 15, 4, 14, 13, 12, 11],
            20,
            Mask::all(),
            10,
            &[4],
        ),
    ];
    for (seeds, post, mask, most, expected) in cases {
        let seeds = ids_of(&rt, seeds);
        let Ok(proof) = proofs(rt.alloc(), &graph, &seeds, post, mask, most) else {
            panic!(rt; "no memory");
        };
        assert!(rt; proof.as_slice() == expected);
    }
}

#[test]
fn a_ranking_keeps_its_order_when_it_is_explained(rt: HostRuntime) {
    let graph = sample(&rt);
    let scores = tally_of(&rt, &[(20, 2), (30, 1), (40, 6)]);
    let seeds = ids_of(&rt, &[5, 2]);
    let Ok(ranking) = rank(rt.alloc(), &graph, &seeds, scores.as_map(), false, 10) else {
        panic!(rt; "no memory");
    };
    let Ok(ranking) = explained(rt.alloc(), &graph, &seeds, ranking, Mask::all(), 2) else {
        panic!(rt; "no memory");
    };
    let expected: [(u64, u64, &[u64]); 3] = [(40, 6, &[2]), (20, 2, &[2, 5]), (30, 1, &[])];
    assert_eq!(rt; ranking.len(), expected.len());
    for (ranked, (id, number, proof)) in ranking.as_slice().iter().zip(expected) {
        assert_eq!(rt; ranked.id, id);
        assert_eq!(rt; ranked.number, number);
        assert!(rt; ranked.proof.as_slice() == proof);
    }
}
