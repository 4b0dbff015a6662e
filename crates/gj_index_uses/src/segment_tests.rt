//! The segment at its limits; the cases that both forms of a segment share are tested with the contiguous one.

use gj_base::{Item, Kind, Mask, SegmentView, Side, count_in};
use gj_segment::PoolSegment;
use std::process::Abort;
use std::test::Fail;

fn add(rt: &impl Abort, segment: &mut PoolSegment, user: u64, post: u64) {
    let item = Item::make(user, post, Kind::Tweet, 7).expect(rt, "the numbers are small");
    assert!(rt; !segment.is_full());
    segment.add(item);
}

#[test]
fn a_cleared_segment_numbers_other_identifiers_from_0(rt: HostRuntime) -> Result<(), Fail> {
    let mut segment = PoolSegment::new(rt.alloc(), 16)?;
    for round in 0..3 {
        let first = 100 * round;
        for i in 0..16 {
            add(&rt, &mut segment, first + i, first + i % 2);
        }
        assert!(rt; segment.is_full());
        assert_eq!(rt; segment.number_of(Side::User, first + 15), Some(15));
        assert_eq!(rt; segment.number_of(Side::Post, first + 1), Some(1));
        assert_eq!(rt; count_in(&segment, Side::Post, first + 1, Mask::all()), 8);
        segment.clear();
        assert_eq!(rt; (segment.len(), segment.vertices(Side::User)), (0, 0));
        assert_eq!(rt; segment.number_of(Side::User, first + 15), None);
    }
    Ok(())
}

#[test]
fn one_vertex_takes_all_65536_edges(rt: HostRuntime) -> Result<(), Fail> {
    let mut segment = PoolSegment::new(rt.alloc(), 65536)?;
    for i in 0..65536 {
        add(&rt, &mut segment, 1, i);
    }
    assert!(rt; segment.vertices(Side::User) > 0);
    for i in 0..65536 {
        for _ in 0..64 {
            assert!(rt; i < segment.degree(Side::User, 0));
            assert_eq!(rt; segment.edge(Side::User, 0, i).0, i);
        }
    }
    Ok(())
}
