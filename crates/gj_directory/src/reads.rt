//! What is read of the sides and of the interactions.
ghost use Rattle.std.specs.Prelude.{◌≡◌, ◌<◌, ◌≤◌, IfSome, Some, length, map, filter, count_by, slice_get};
ghost use Rattle.gj_base.specs.Ends.{passes};
ghost use Rattle.gj_compact.specs.Blocks.{lets_through};
ghost use Rattle.gj_compact.specs.Lanes.{run_of};
ghost use Rattle.gj_compact.specs.Turns.{plain};
ghost use Rattle.gj_directory.specs.Showing.{half_on};

use crate::half::Half;
use gj_base::{Mask, Side};
use gj_compact::{Edge, End, Lane};

/// The half of a side.
#[inline]
pub fn half_of<'a>(side: Side, users: &'a Half, posts: &'a Half) -> &'a Half
    ensures { result.now ≡ half_on side users.now posts.now }
{
    match side {
        Side::User => users,
        Side::Post => posts,
    }
}

/// How many ends of the vertex the mask lets through: at once for all kinds and moments.
#[inline]
pub fn count_in(lane: &Lane, v: u32, mask: Mask) -> u32
    requires { v < length lane.now.runs }
    ensures { result ≡ count_by (lets_through mask) (run_of lane.now.runs v) }
{
    let degree = lane.degree(v);
    if mask == Mask::all() {
        return degree;
    }
    lane.count(v, 0, degree, mask)
}

/// One of the ends of the vertex that the mask lets through, by its index among them: at once for all kinds and moments.
#[inline]
pub fn end_in(lane: &Lane, v: u32, mask: Mask, i: u32) -> End
    requires vertex { v < length lane.now.runs }
    requires index { i < count_by (lets_through mask) (run_of lane.now.runs v) }
    ensures { slice_get (filter (lets_through mask) (run_of lane.now.runs v)) i ≡ Some result }
{
    if mask == Mask::all() {
        return lane.get(v, i);
    }
    lane.nth(v, mask, i)
}

/// The vertex of this end. Over all kinds and moments nothing else of it is read.
#[inline]
pub fn vertex_in(lane: &Lane, v: u32, mask: Mask, i: u32) -> u32
    requires vertex { v < length lane.now.runs }
    requires index { i < count_by (lets_through mask) (run_of lane.now.runs v) }
    ensures { IfSome (slice_get (filter (lets_through mask) (run_of lane.now.runs v)) i) (λ end. result ≡ end.vertex) }
{
    if mask == Mask::all() {
        return lane.vertex(v, i);
    }
    lane.nth(v, mask, i).vertex
}

/// How many of the interactions the mask lets through.
pub fn total_in(edges: &[Edge], mask: Mask) -> usize
    ensures exact { result ≡ count_by (passes mask) (map plain edges.now) }
    ensures in_range { result ≤ length edges.now }
{
    edges.iter().filter(|x| mask.lets(x.kind, x.at)).count()
}
