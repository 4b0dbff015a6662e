//! How a compact segment is read.
ghost use Rattle.std.specs.Prelude.{◌≡◌};
ghost use Rattle.gj_compact.specs.Compact.{part_on};

use crate::compact_segment::CompactSegment;
use crate::part::Part;
use crate::totals::total_in;
use gj_base::{Kind, Mask, SegmentView, Side};

/// The part on a side.
#[inline]
fn part_of<'a>(side: Side, users: &'a Part, posts: &'a Part) -> &'a Part
    ensures { result.now ≡ part_on side users.now posts.now }
{
    match side {
        Side::User => users,
        Side::Post => posts,
    }
}

impl SegmentView for CompactSegment {
    ghost listed = { λ s. s.items };

    fn len(&self) -> u32 {
        self.edges.len() as u32
    }

    fn item(&self, i: u32) -> (u32, u32, Kind, u64) {
        let edge = self.edges[i as usize];
        (edge.user, edge.post, edge.kind, edge.at)
    }

    fn vertices(&self, side: Side) -> u32 {
        part_of(side, &self.users, &self.posts).ids.len()
    }

    fn id_of(&self, side: Side, v: u32) -> u64 {
        part_of(side, &self.users, &self.posts).ids.id_of(v)
    }

    fn number_of(&self, side: Side, id: u64) -> Option<u32> {
        part_of(side, &self.users, &self.posts).ids.find(id)
    }

    fn degree(&self, side: Side, v: u32) -> u32 {
        part_of(side, &self.users, &self.posts).lane.degree(v)
    }

    fn dated_edge(&self, side: Side, v: u32, i: u32) -> (u32, Kind, u64) {
        let end = part_of(side, &self.users, &self.posts).lane.get(v, i);
        (end.vertex, end.kind, end.at)
    }

    fn total(&self, mask: Mask) -> u32 {
        total_in(self.kinds, &self.edges, mask) as u32
    }

    fn count_of(&self, side: Side, v: u32, mask: Mask) -> u32 {
        if mask == Mask::all() {
            return self.degree(side, v);
        }
        let part = part_of(side, &self.users, &self.posts);
        let degree = part.lane.degree(v);
        part.lane.count(v, 0, degree, mask)
    }

    fn nth_of(&self, side: Side, v: u32, mask: Mask, i: u32) -> (u32, Kind) {
        if mask == Mask::all() {
            return self.edge(side, v, i);
        }
        let end = part_of(side, &self.users, &self.posts).lane.nth(v, mask, i);
        (end.vertex, end.kind)
    }
}

impl CompactSegment {
    ghost use Rattle.std.specs.Prelude.{◌≡◌, ◌*◌, ◌<◌, ◌≤◌, length, count_by};
    ghost use Rattle.gj_base.specs.Ends.{ends};
    ghost use Rattle.gj_base.specs.Kinds.{all_kinds};
    ghost use Rattle.gj_base.specs.Numbered.{numbered, vertices_of, dated_ends, lets_end};
    ghost use Rattle.gj_compact.specs.Blocks.{block_of, moments_of, AreBounds};

    /// How many of the interactions at the vertex, of those at the indexes from `64 * block` to `64 * block + 63`, the mask
    /// lets through.
    pub fn block_count(&self, side: Side, v: u32, block: u32, mask: Mask) -> u32
        requires vertex { v < length (vertices_of self.now.items side) }
        requires begun { 64 * block < length (ends (numbered self.now.items) side v all_kinds) }
        ensures exact { result ≡ count_by (lets_end mask) (block_of block (dated_ends (numbered self.now.items) side v)) }
        ensures in_range { result ≤ 64 }
    {
        let part = part_of(side, &self.users, &self.posts);
        let degree = part.lane.degree(v);
        let from = 64 * block;
        part.lane.count(v, from, degree.min(from + 64), mask)
    }

    /// The least and the greatest moment of the interactions at the vertex, of those at the indexes from `64 * block` to
    /// `64 * block + 63`.
    pub fn block_moments(&self, side: Side, v: u32, block: u32) -> (u64, u64)
        requires vertex { v < length (vertices_of self.now.items side) }
        requires begun { 64 * block < length (ends (numbered self.now.items) side v all_kinds) }
        ensures { AreBounds (moments_of (block_of block (dated_ends (numbered self.now.items) side v))) result.0 result.1 }
    {
        let part = part_of(side, &self.users, &self.posts);
        let degree = part.lane.degree(v);
        let from = 64 * block;
        part.lane.bounds(v, from, degree.min(from + 64))
    }
}
