//! The window at its turns, and beside the plain graph.

use gj_base::{Conf, Graph, Grow, Hint, Item, Kind, ListGraph, Mask, Memory, NO_HINT, Side};
use gj_window::Window;
use std::alloc::Global;
use std::process::Abort;
use std::test::Fail;

/// An empty graph whose first place is 0.
fn empty<W: Grow>(
    rt: &impl Abort,
    alloc: Global,
    capacity: u32,
    segments: u32,
) -> Result<W, Memory> {
    let conf = Conf::make(capacity, segments).expect(rt, "both are in range");
    W::make(alloc, conf, 0)
}

fn add<W: Grow>(rt: &impl Abort, graph: &mut W, user: u64, post: u64, kind: Kind, at: u64) {
    let item = Item::make(user, post, kind, at).expect(rt, "the numbers are small");
    assert!(rt; graph.length() < 1 << 40);
    graph.add(item);
}

/// The kind with the number `i` modulo 5.
fn kind_of(rt: &impl Abort, i: u64) -> Kind {
    Kind::from_number(i % 5).expect(rt, "there are five")
}

/// So many interactions more leave these forms.
fn added(rt: &impl Abort, window: &mut Window, more: u64, forms: (u32, u32)) {
    for i in 0..more {
        add(rt, window, i, 7, Kind::Click, 0);
    }
    assert_eq!(rt; window.forms(), forms, "at {}", window.length());
}

/// A compaction leaves these forms.
fn compacted(rt: &impl Abort, window: &mut Window, forms: (u32, u32)) {
    window.compact();
    assert_eq!(rt; window.forms(), forms, "at {}", window.length());
}

#[test]
fn a_full_segment_is_laid_out_by_a_compaction(rt: HostRuntime) -> Result<(), Fail> {
    let mut window = empty(&rt, rt.alloc(), 16, 3)?;
    added(&rt, &mut window, 16, (1, 0));
    compacted(&rt, &mut window, (0, 1));
    added(&rt, &mut window, 1, (1, 1));
    added(&rt, &mut window, 16, (2, 1));
    compacted(&rt, &mut window, (1, 2));
    added(&rt, &mut window, 15, (1, 2));
    compacted(&rt, &mut window, (0, 3));
    added(&rt, &mut window, 1, (1, 2));
    Ok(())
}

#[test]
fn a_full_segment_is_laid_out_when_the_next_one_is_full(rt: HostRuntime) -> Result<(), Fail> {
    let mut window = empty(&rt, rt.alloc(), 16, 3)?;
    added(&rt, &mut window, 17, (2, 0));
    added(&rt, &mut window, 15, (1, 1));
    added(&rt, &mut window, 16, (1, 2));
    added(&rt, &mut window, 1, (2, 1));
    Ok(())
}

#[test]
fn a_window_of_one_segment_drops_it_in_either_form(rt: HostRuntime) -> Result<(), Fail> {
    let mut window = empty(&rt, rt.alloc(), 16, 1)?;
    added(&rt, &mut window, 16, (1, 0));
    added(&rt, &mut window, 1, (1, 0));
    added(&rt, &mut window, 15, (1, 0));
    compacted(&rt, &mut window, (0, 1));
    added(&rt, &mut window, 1, (1, 0));
    Ok(())
}

/// The user has so many interactions.
fn user_has(rt: &impl Abort, window: &Window, user: u64, count: u64) {
    assert_eq!(rt;
        window.count(Side::User, user, Mask::all()),
        count,
        "user {user}"
    );
}

/// So many interactions are of the kind.
fn kind_has(rt: &impl Abort, window: &Window, kind: Kind, total: u64) {
    assert_eq!(rt; window.total(Mask::one(kind)), total, "{kind:?}");
}

/// The window begins and ends there.
fn spans(rt: &impl Abort, window: &Window, base: u64, length: u64) {
    assert_eq!(rt; window.base(), base);
    assert_eq!(rt; window.length(), length);
}

/// The first 32 are the users 1 and 2, 16 each; the one after is user 3.
fn fill(rt: &impl Abort, window: &mut Window) {
    for place in 0..33u64 {
        spans(rt, window, 0, place);
        user_has(rt, window, 1, place.min(16));
        let kind = kind_of(rt, place);
        add(rt, window, place / 16 + 1, place, kind, 0);
    }
}

#[test]
fn a_segment_is_dropped_by_the_interaction_after_the_full_window(
    rt: HostRuntime,
) -> Result<(), Fail> {
    let mut window = empty(&rt, rt.alloc(), 16, 2)?;
    fill(&rt, &mut window);
    spans(&rt, &window, 16, 33);
    user_has(&rt, &window, 1, 0);
    user_has(&rt, &window, 2, 16);
    user_has(&rt, &window, 3, 1);
    kind_has(&rt, &window, Kind::Click, 3);
    kind_has(&rt, &window, Kind::Favorite, 4);
    kind_has(&rt, &window, Kind::Retweet, 4);
    kind_has(&rt, &window, Kind::Reply, 3);
    kind_has(&rt, &window, Kind::Tweet, 3);
    Ok(())
}

/// The ends of a vertex, and what three words pick of them.
fn same_ends<A: Graph, B: Graph>(
    rt: &impl Abort,
    one: &A,
    other: &B,
    side: Side,
    id: u64,
    mask: Mask,
) {
    let count = one.count(side, id, mask);
    assert!(rt;
        other.count(side, id, mask) == count,
        "{side:?} {id} {mask:?}"
    );
    for i in 0..count {
        assert_eq!(rt; other.edge(side, id, mask, i), one.edge(side, id, mask, i));
    }
    for word in [0, 1 << 63, u64::MAX] {
        let picked = one.pick_end(side, id, mask, word);
        assert_eq!(rt; other.pick_end(side, id, mask, word), picked);
        // The place of the vertex, where it has one of the first, and those of others.
        for place in [0, 1, 2, u32::MAX] {
            let (end, _hint) = other.pick_end_near(side, id, Hint { place }, mask, word);
            assert!(rt; end == picked, "{side:?} {id} near {place}");
        }
    }
}

/// Which vertices are across from a vertex.
fn same_across<A: Graph, B: Graph>(
    rt: &impl Abort,
    one: &A,
    other: &B,
    side: Side,
    id: u64,
    mask: Mask,
) {
    for end in IDS {
        let has = one.has_end(side, id, mask, end);
        assert!(rt;
            other.has_end(side, id, mask, end) == has,
            "{side:?} {id} to {end} {mask:?}"
        );
    }
}

/// All identifiers that the random items have, and one that none has. The first four begin at one slot of a small table.
const IDS: [u64; 8] = [1, 22, 56, 90, 2, 3, 4, 5];

/// All that can be read of the two, under kinds and moments.
fn same_reads<A: Graph, B: Graph>(rt: &impl Abort, one: &A, other: &B) {
    assert!(rt; other.base() == one.base());
    assert!(rt; other.length() == one.length());
    let click = Mask::one(Kind::Click);
    for mask in [Mask::all(), click.with(Kind::Tweet), click.from_moment(500)] {
        assert_eq!(rt; other.total(mask), one.total(mask), "{mask:?}");
        for id in IDS {
            same_ends(rt, one, other, Side::User, id, mask);
            same_ends(rt, one, other, Side::Post, id, mask);
            same_across(rt, one, other, Side::User, id, mask);
            same_across(rt, one, other, Side::Post, id, mask);
        }
    }
    for place in one.base()..one.length() {
        assert_eq!(rt; other.item(place), one.item(place), "{place}");
    }
}

/// The interactions of users, some of them absent or repeated, under kinds and moments.
fn same_edges<A: Graph, B: Graph>(
    rt: &(impl Abort + AllocGlobal),
    one: &A,
    other: &B,
) -> Result<(), Memory> {
    let click = Mask::one(Kind::Click);
    let late = Mask::all().from_moment(500);
    let asked: [&[u64]; 4] = [&[], &[5, 6], &[56, 5, 1, 56], &IDS];
    for mask in [Mask::all(), click.with(Kind::Tweet), late] {
        for users in asked {
            let edges = one.edges_of(rt.alloc(), users, mask)?;
            let found = other.edges_of(rt.alloc(), users, mask)?;
            assert_eq!(rt; found.len(), edges.len(), "{users:?} {mask:?}");
            for (x, y) in found.iter().zip(&edges) {
                assert_eq!(rt; *x, *y, "{users:?} {mask:?}");
            }
        }
    }
    Ok(())
}

/// The next of the words that choose items and compactions.
fn next(word: u64) -> u64 {
    word.wrapping_mul(6_364_136_223_846_793_005)
        .wrapping_add(1_442_695_040_888_963_407)
}

/// One of the first seven identifiers.
fn id_by(word: u64) -> u64 {
    IDS[(word % 7) as usize]
}

/// The same random interactions for both, `between` of them before each comparison.
fn grow_alike<A: Grow, B: Grow>(
    rt: &(impl Abort + AllocGlobal),
    one: &mut A,
    other: &mut B,
    between: u32,
) -> Result<(), Memory> {
    let mut word = 1;
    for _ in 0..8 {
        for _ in 0..between {
            word = next(word);
            let (user, post) = (id_by(word >> 60), id_by(word >> 50));
            let (kind, at) = (kind_of(rt, word >> 40), (word >> 30) % 1000);
            add(rt, one, user, post, kind, at);
            add(rt, other, user, post, kind, at);
            if (word >> 20) % 16 == 0 {
                other.compact();
            }
        }
        same_reads(rt, one, other);
        same_edges(rt, one, other)?;
    }
    Ok(())
}

#[test]
fn a_window_reads_as_the_plain_graph_does(rt: HostRuntime) -> Result<(), Fail> {
    for (segments, between) in [(1, 7), (2, 11), (3, 25), (64, 170)] {
        let mut plain: ListGraph = empty(&rt, rt.alloc(), 16, segments)?;
        let mut window: Window = empty(&rt, rt.alloc(), 16, segments)?;
        grow_alike(&rt, &mut plain, &mut window, between)?;
    }
    Ok(())
}

/// Interaction `i` is of the user `i` and the post 1000 more.
#[test]
fn vertices_come_once_and_never_again(rt: HostRuntime) -> Result<(), Fail> {
    let mut window: Window = empty(&rt, rt.alloc(), 16, 2)?;
    for i in 0..400u64 {
        add(&rt, &mut window, i, i + 1000, Kind::Tweet, 0);
        if i % 50 == 0 {
            window.compact();
        }
        assert_eq!(rt; window.count(Side::User, i, Mask::all()), 1, "{i}");
        assert_eq!(rt; window.count(Side::Post, i + 1000, Mask::all()), 1, "{i}");
        assert_eq!(rt; window.count(Side::Post, i + 967, Mask::all()), 0, "{i}");
    }
    Ok(())
}

/// Interaction `i` is of the user `i` modulo 4 and the post 10 more.
#[test]
fn an_end_that_is_laid_out_gives_the_place_of_its_vertex(rt: HostRuntime) -> Result<(), Fail> {
    let mut window: Window = empty(&rt, rt.alloc(), 16, 2)?;
    for i in 0..16u64 {
        add(&rt, &mut window, i % 4, 10 + i % 4, Kind::Click, 0);
    }
    let all = Mask::all();
    let pooled = window.pick_end_near(Side::User, 2, NO_HINT, all, 0);
    assert_eq!(rt; pooled, (Some(12), NO_HINT));
    window.compact();
    let place = Hint { place: 2 };
    for hint in [NO_HINT, place, Hint { place: 1 }] {
        let there = window.pick_end_near(Side::User, 2, hint, all, 0);
        assert_eq!(rt; there, (Some(12), place), "{hint:?}");
        let back = window.pick_end_near(Side::Post, 12, hint, all, 0);
        assert_eq!(rt; back, (Some(2), place), "{hint:?}");
    }
    Ok(())
}

/// Interaction `i` is of user 1 and post 10, of the kind `i` modulo 5.
#[test]
fn a_heavy_vertex_is_walked_by_one_kind(rt: HostRuntime) -> Result<(), Fail> {
    let mut window: Window = empty(&rt, rt.alloc(), 65_536, 1)?;
    for i in 0..65_536u64 {
        add(&rt, &mut window, 1, 10, kind_of(&rt, i), 0);
    }
    window.compact();
    let reply = Mask::one(Kind::Reply);
    assert_eq!(rt; window.total(reply), 13_107);
    let mut word = 1;
    for _ in 0..50_000u32 {
        word = next(word);
        assert_eq!(rt; window.pick_end(Side::User, 1, reply, word), Some(10));
        assert_eq!(rt; window.pick_end(Side::Post, 10, reply, word), Some(1));
    }
    Ok(())
}

/// Two of the user's interactions are laid out, and one is in a pool.
#[test]
fn an_end_is_found_in_either_form(rt: HostRuntime) -> Result<(), Fail> {
    let mut window: Window = empty(&rt, rt.alloc(), 16, 2)?;
    add(&rt, &mut window, 1, 10, Kind::Click, 5);
    add(&rt, &mut window, 1, 11, Kind::Reply, 9);
    for _ in 0..14 {
        add(&rt, &mut window, 2, 12, Kind::Click, 0);
    }
    window.compact();
    add(&rt, &mut window, 1, 13, Kind::Click, 7);
    let all = Mask::all();
    let click = Mask::one(Kind::Click);
    for (mask, posts) in [
        (all, [true, true, false, true, false]),
        (click, [true, false, false, true, false]),
        (all.from_moment(7), [false, true, false, true, false]),
        (click.from_moment(8), [false, false, false, false, false]),
    ] {
        for (i, has) in posts.iter().enumerate() {
            let post = 10 + i as u64;
            assert!(rt;
                window.has_end(Side::User, 1, mask, post) == *has,
                "{post} {mask:?}"
            );
            assert!(rt;
                window.has_end(Side::Post, post, mask, 1) == *has,
                "{post} {mask:?}"
            );
        }
    }
    Ok(())
}
