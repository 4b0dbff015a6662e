//! The cases of a segment, over the form that takes writes and the contiguous one.

ghost use Rattle.std.specs.Prelude.{◌<◌};

use gj_base::{Item, Kind, Mask, Memory, SegmentView, Side, count_in, end_in};
use gj_compact::CompactSegment;
use gj_segment::PoolSegment;
use std::alloc::Global;
use std::process::Abort;
use std::test::Fail;

fn add(rt: &impl Abort, segment: &mut PoolSegment, user: u64, post: u64, kind: Kind, at: u64) {
    let item = Item::make(user, post, kind, at).expect(rt, "the numbers are small");
    assert!(rt; !segment.is_full());
    segment.add(item);
}

/// One of the ends of a vertex, by its identifier.
fn end_at<V: SegmentView>(
    rt: &impl Abort,
    segment: &V,
    side: Side,
    id: u64,
    mask: Mask,
    i: u32,
) -> u64 {
    assert!(rt; i < count_in(segment, side, id, mask), "end {i} of {id}");
    end_in(segment, side, id, mask, i).0
}

/// The kind of the edge `i`: each fourth one is a reply.
fn kind_of(i: u32) -> Kind {
    if i % 4 == 3 { Kind::Reply } else { Kind::Click }
}

/// So many of the edges, all of which are of user 5, are eligible.
fn lets_through<V: SegmentView>(rt: &impl Abort, segment: &V, mask: Mask, eligible: u32) {
    assert_eq!(rt; count_in(segment, Side::User, 5, mask), eligible);
    assert_eq!(rt; segment.total(mask), eligible);
}

/// User 5 has `count` edges, to the posts from 100 on, two at each moment.
fn is_one_long_list<V: SegmentView>(rt: &impl Abort, segment: &V, count: u32)
    requires { 59 < count }
{
    let all = Mask::all();
    assert_eq!(rt;
        (
            segment.len(),
            segment.vertices(Side::User),
            segment.vertices(Side::Post)
        ),
        (count, 1, count)
    );
    for i in 0..count {
        let post = 100 + u64::from(i);
        assert_eq!(rt; end_at(rt, segment, Side::User, 5, all, i), post);
        assert_eq!(rt;
            end_at(rt, segment, Side::Post, post, Mask::one(kind_of(i)), 0),
            5
        );
    }
    let reply = Mask::one(Kind::Reply);
    lets_through(rt, segment, reply, 15);
    lets_through(rt, segment, all.from_moment(30), count - 60);
    lets_through(rt, segment, reply.from_moment(29), 1);
    lets_through(rt, segment, all.from_moment(32), 0);
    lets_through(rt, segment, Mask::one(Kind::Tweet), 0);
    assert_eq!(rt; end_at(rt, segment, Side::User, 5, reply, 14), 159);
    assert_eq!(rt;
        end_at(rt, segment, Side::User, 5, reply.from_moment(29), 0),
        159
    );
    assert_eq!(rt;
        end_at(rt, segment, Side::User, 5, all.from_moment(30), 1),
        161
    );
}

#[test]
fn both_forms_find_each_edge_of_a_long_list(rt: HostRuntime) -> Result<(), Fail> {
    for count in [62, 63] {
        let mut pool = PoolSegment::new(rt.alloc(), 63)?;
        let mut compact = CompactSegment::new(rt.alloc(), 63)?;
        for i in 0..count {
            add(
                &rt,
                &mut pool,
                5,
                u64::from(100 + i),
                kind_of(i),
                u64::from(i / 2),
            );
        }
        is_one_long_list(&rt, &pool, count);
        assert!(rt; pool.len() < 64);
        compact.fill_from(&pool);
        is_one_long_list(&rt, &compact, count);
    }
    Ok(())
}

/// The edge of the vertex with this index leads to the other.
fn leads_to<V: SegmentView>(rt: &impl Abort, segment: &V, side: Side, id: u64, i: u32, other: u64) {
    assert_eq!(rt; end_at(rt, segment, side, id, Mask::all(), i), other);
}

/// Users 3 and 9 share posts 30 and 31.
fn is_a_square<V: SegmentView>(rt: &impl Abort, segment: &V) {
    assert_eq!(rt; segment.number_of(Side::User, 9), Some(1));
    assert_eq!(rt; segment.number_of(Side::Post, 3), None);
    leads_to(rt, segment, Side::User, 3, 0, 30);
    leads_to(rt, segment, Side::User, 3, 1, 31);
    leads_to(rt, segment, Side::User, 3, 2, 30);
    leads_to(rt, segment, Side::Post, 30, 0, 3);
    leads_to(rt, segment, Side::Post, 30, 1, 9);
    leads_to(rt, segment, Side::Post, 30, 2, 3);
    assert_eq!(rt; segment.len(), 4);
    assert_eq!(rt; segment.item(2), (0, 1, Kind::Favorite, 8));
}

/// The pool with one more favorite.
fn like(rt: &impl Abort, pool: &mut PoolSegment, user: u64, post: u64) {
    add(rt, pool, user, post, Kind::Favorite, 8);
}

#[test]
fn repeated_edges_stay_and_nothing_stays_of_a_longer_list(rt: HostRuntime) -> Result<(), Fail> {
    let mut pool = PoolSegment::new(rt.alloc(), 16)?;
    let mut compact = CompactSegment::new(rt.alloc(), 16)?;
    for i in 0..16 {
        add(&rt, &mut pool, 9 + i % 3, 31 - i, Kind::Click, i);
    }
    assert!(rt; pool.len() < 17);
    compact.fill_from(&pool);
    leads_to(&rt, &compact, Side::User, 10, 4, 18);
    pool.clear();
    like(&rt, &mut pool, 3, 30);
    like(&rt, &mut pool, 9, 30);
    like(&rt, &mut pool, 3, 31);
    like(&rt, &mut pool, 3, 30);
    is_a_square(&rt, &pool);
    assert!(rt; pool.len() < 17);
    compact.fill_from(&pool);
    is_a_square(&rt, &compact);
    Ok(())
}

fn reply_of(rt: &impl Abort, compact: &CompactSegment, block: u32) -> u32 {
    assert!(rt; compact.vertices(Side::User) > 0);
    assert!(rt; block < 1024);
    assert!(rt; 64 * block < compact.degree(Side::User, 0));
    compact.block_count(Side::User, 0, block, Mask::one(Kind::Reply))
}

/// A full segment of one user and one post, of the five kinds in turn.
fn of_five_kinds(rt: &impl Abort, alloc: Global) -> Result<PoolSegment, Memory> {
    let mut pool = PoolSegment::new(alloc, 65536)?;
    for i in 0..65536 {
        let kind = Kind::from_number(i % 5).expect(rt, "there are five kinds");
        add(rt, &mut pool, 1, 10, kind, 0);
    }
    Ok(pool)
}

/// The same in contiguous form.
fn filled(rt: &impl Abort, alloc: Global, pool: &PoolSegment) -> Result<CompactSegment, Memory> {
    let mut compact = CompactSegment::new(alloc, 65536)?;
    assert!(rt; pool.len() < 65537);
    compact.fill_from(pool);
    Ok(compact)
}

/// The user has 13107 replies.
fn replies_are_found(rt: &impl Abort, compact: &CompactSegment) {
    let reply = Mask::one(Kind::Reply);
    assert!(rt; compact.vertices(Side::User) > 0);
    assert_eq!(rt; compact.count_of(Side::User, 0, reply), 13107);
    for i in 0..13107 {
        assert_eq!(rt; compact.nth_of(Side::User, 0, reply, i), (0, Kind::Reply));
    }
}

#[test]
fn the_replies_of_65536_edges_are_found_one_by_one(rt: HostRuntime) -> Result<(), Fail> {
    let pool = of_five_kinds(&rt, rt.alloc())?;
    let compact = filled(&rt, rt.alloc(), &pool)?;
    let reply = Mask::one(Kind::Reply);
    assert_eq!(rt; pool.total(reply), 13107);
    assert_eq!(rt; compact.total(reply), 13107);
    replies_are_found(&rt, &compact);
    assert_eq!(rt; reply_of(&rt, &compact, 0), 13);
    assert_eq!(rt; reply_of(&rt, &compact, 1), 12);
    assert_eq!(rt; reply_of(&rt, &compact, 1023), 13);
    Ok(())
}

/// The block of user 1's edges has these least and greatest moments.
fn has_bounds(rt: &impl Abort, compact: &CompactSegment, block: u32, least: u64, greatest: u64) {
    assert!(rt; compact.vertices(Side::User) > 0);
    assert!(rt; block < 1024);
    assert!(rt; 64 * block < compact.degree(Side::User, 0));
    let bounds = compact.block_moments(Side::User, 0, block);
    assert_eq!(rt; bounds, (least, greatest), "block {block}");
}

/// The moment of the edge `i`: they rise, fall and stand still.
fn moment_of(i: u64) -> u64
    requires { i < 300 }
{
    if i < 100 {
        i
    } else if i < 200 {
        200 - i
    } else {
        150
    }
}

/// User 1's edges to the posts 0 to 299.
fn dated(rt: &impl Abort, alloc: Global) -> Result<CompactSegment, Memory> {
    let mut pool = PoolSegment::new(alloc, 300)?;
    let mut compact = CompactSegment::new(alloc, 300)?;
    for i in 0..300 {
        add(rt, &mut pool, 1, i, Kind::Click, moment_of(i));
    }
    assert!(rt; pool.len() < 301);
    compact.fill_from(&pool);
    Ok(compact)
}

/// So many edges of user 1 are from the moment on.
fn counts_from(rt: &impl Abort, compact: &CompactSegment, moment: u64, eligible: u32)
    requires { moment < 300 }
{
    let mask = Mask::all().from_moment(moment);
    assert_eq!(rt; count_in(compact, Side::User, 1, mask), eligible);
}

/// The edge of user 1 with this index among those from the moment on leads to the post.
fn leads_from(rt: &impl Abort, compact: &CompactSegment, moment: u64, i: u32, post: u64)
    requires { moment < 300 }
{
    let mask = Mask::all().from_moment(moment);
    assert_eq!(rt; end_at(rt, compact, Side::User, 1, mask, i), post);
}

#[test]
fn a_block_has_the_moments_of_its_64_edges(rt: HostRuntime) -> Result<(), Fail> {
    let compact = dated(&rt, rt.alloc())?;
    has_bounds(&rt, &compact, 0, 0, 63);
    has_bounds(&rt, &compact, 1, 64, 100);
    has_bounds(&rt, &compact, 2, 9, 72);
    has_bounds(&rt, &compact, 3, 1, 150);
    has_bounds(&rt, &compact, 4, 150, 150);
    Ok(())
}

#[test]
fn edges_before_a_least_moment_are_passed_over(rt: HostRuntime) -> Result<(), Fail> {
    let compact = dated(&rt, rt.alloc())?;
    counts_from(&rt, &compact, 0, 300);
    counts_from(&rt, &compact, 1, 299);
    counts_from(&rt, &compact, 100, 101);
    counts_from(&rt, &compact, 101, 100);
    counts_from(&rt, &compact, 150, 100);
    counts_from(&rt, &compact, 151, 0);
    leads_from(&rt, &compact, 100, 0, 100);
    leads_from(&rt, &compact, 100, 1, 200);
    leads_from(&rt, &compact, 100, 57, 256);
    leads_from(&rt, &compact, 150, 99, 299);
    Ok(())
}
