//! What a full segment gives to a side, and what the oldest one takes away.
ghost use Rattle.std.specs.Prelude.{◌≡◌, ℕ, ◌+◌, ◌<◌, ◌≤◌, ◌++◌, length, drop, slice_index_or};
ghost use Rattle.gj_compact.specs.Lanes.{run_of, total_of, sum_of};
ghost use Rattle.gj_compact.specs.Turns.{near, across, ends_of, AreKnown, HasRoom, BeginsWith};

use crate::edge::{Edge, End};
use crate::lane::Lane;
use gj_base::Side;

/// The number of the interaction's vertex on a side.
fn near(side: Side, edge: Edge) -> u32
    ensures { result ≡ near side edge }
{
    match side {
        Side::User => edge.user,
        Side::Post => edge.post,
    }
}

/// Where it leads from that side.
fn across(side: Side, edge: Edge) -> End
    ensures { result ≡ across side edge }
{
    match side {
        Side::User => End {
            vertex: edge.post,
            kind: edge.kind,
            at: edge.at,
        },
        Side::Post => End {
            vertex: edge.user,
            kind: edge.kind,
            at: edge.at,
        },
    }
}

/// Announces one more end for the vertex of each of these interactions.
pub fn note_all(lane: &mut Lane, side: Side, edges: &[Edge])
    requires known { AreKnown lane.old side edges.now }
    requires wide { length lane.old.fresh ≡ length lane.old.runs }
    requires few { sum_of lane.old.fresh + length edges.now ≤ 8388608 }
    ensures fresh { (v : ℕ) → v < length lane.old.runs → slice_index_or lane.new.fresh v 0 ≡ slice_index_or lane.old.fresh v 0 + length (ends_of edges.now side v) }
    ensures total { sum_of lane.new.fresh ≡ sum_of lane.old.fresh + length edges.now }
    ensures wide { length lane.new.fresh ≡ length lane.old.fresh }
    ensures runs { lane.new.runs ≡ lane.old.runs }
    ensures spare { lane.new.spare ≡ lane.old.spare }
    ensures size { lane.new.room ≡ lane.old.room }
{
    for edge in edges {
        lane.note(near(side, *edge));
    }
}

/// Puts the ends of a segment behind those of each vertex.
pub fn fill(lane: &mut Lane, side: Side, edges: &[Edge])
    requires known { AreKnown lane.old side edges.now }
    requires room { HasRoom lane.old side edges.now }
    ensures runs { (v : ℕ) → v < length lane.old.runs → run_of lane.new.runs v ≡ run_of lane.old.runs v ++ ends_of edges.now side v }
    ensures long { length lane.new.runs ≡ length lane.old.runs }
    ensures spare { (v : ℕ) → v < length lane.old.runs → slice_index_or lane.new.spare v 0 + length (ends_of edges.now side v) ≡ slice_index_or lane.old.spare v 0 }
    ensures fresh { lane.new.fresh ≡ lane.old.fresh }
    ensures size { lane.new.room ≡ lane.old.room }
    ensures total { total_of lane.new.runs ≡ total_of lane.old.runs + length edges.now }
{
    for edge in edges {
        lane.push(near(side, *edge), across(side, *edge));
    }
}

/// Takes the ends of the oldest segment from the front of each vertex.
pub fn shed(lane: &mut Lane, side: Side, edges: &[Edge])
    requires known { AreKnown lane.old side edges.now }
    requires begins { BeginsWith lane.old side edges.now }
    ensures runs { (v : ℕ) → v < length lane.old.runs → run_of lane.new.runs v ≡ drop (length (ends_of edges.now side v)) (run_of lane.old.runs v) }
    ensures long { length lane.new.runs ≡ length lane.old.runs }
    ensures fresh { lane.new.fresh ≡ lane.old.fresh }
    ensures size { lane.new.room ≡ lane.old.room }
    ensures total { total_of lane.new.runs + length edges.now ≡ total_of lane.old.runs }
{
    for edge in edges {
        lane.pop(near(side, *edge));
    }
}
