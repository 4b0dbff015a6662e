//! How a pool segment is read.
ghost use Rattle.std.specs.Prelude.{◌≡◌, ◌<◌, ◌≤◌, map, count_by, length};
ghost use Rattle.gj_base.specs.Ends.{passes};
ghost use Rattle.gj_base.specs.Numbered.{dated_across};
ghost use Rattle.gj_segment.specs.Segment.{plain};
ghost use Rattle.gj_segment.specs.Sides.{half_on};

use crate::edge::Edge;
use crate::half::Half;
use crate::pool_segment::PoolSegment;
use gj_base::{Kind, Mask, SegmentView, Side};

/// The half on a side.
#[inline]
fn half_of<'a>(side: Side, users: &'a Half, posts: &'a Half) -> &'a Half
    ensures { result.now ≡ half_on side users.now posts.now }
{
    match side {
        Side::User => users,
        Side::Post => posts,
    }
}

/// Where an interaction leads from a side, with its kind and its moment.
#[inline]
fn across(side: Side, edge: Edge) -> (u32, Kind, u64)
    ensures { result ≡ dated_across side (plain edge) }
{
    match side {
        Side::User => (edge.post as u32, edge.kind, edge.at),
        Side::Post => (edge.user as u32, edge.kind, edge.at),
    }
}

/// How many of the interactions the mask lets through.
fn total_in(edges: &[Edge], mask: Mask) -> usize
    ensures exact { result ≡ count_by (passes mask) (map plain edges.now) }
    ensures in_range { result ≤ length edges.now }
{
    edges.iter().filter(|x| mask.lets(x.kind, x.at)).count()
}

impl SegmentView for PoolSegment {
    ghost listed = { λ s. s.items };

    fn len(&self) -> u32 {
        self.edges.len() as u32
    }

    fn item(&self, i: u32) -> (u32, u32, Kind, u64) {
        let edge = self.edges[i as usize];
        (edge.user as u32, edge.post as u32, edge.kind, edge.at)
    }

    fn vertices(&self, side: Side) -> u32 {
        half_of(side, &self.users, &self.posts).ids.len()
    }

    fn id_of(&self, side: Side, v: u32) -> u64 {
        half_of(side, &self.users, &self.posts).ids.id_of(v)
    }

    fn number_of(&self, side: Side, id: u64) -> Option<u32> {
        half_of(side, &self.users, &self.posts).ids.find(id)
    }

    fn degree(&self, side: Side, v: u32) -> u32 {
        half_of(side, &self.users, &self.posts).places.degree(v)
    }

    fn dated_edge(&self, side: Side, v: u32, i: u32) -> (u32, Kind, u64) {
        let place = half_of(side, &self.users, &self.posts).places.get(v, i);
        across(side, self.edges[place as usize])
    }

    fn total(&self, mask: Mask) -> u32 {
        total_in(&self.edges, mask) as u32
    }
}
