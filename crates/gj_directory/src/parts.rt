//! Interactions that lie in two slices, the first ones in the first.
ghost use Rattle.std.specs.Prelude.{◌≡◌, ℕ, ◌+◌, ◌-◌, ◌<◌, ◌≤◌, ◌++◌, length, take, drop, slice_index_or};
ghost use Rattle.gj_compact.specs.Lanes.{run_of, total_of, sum_of};
ghost use Rattle.gj_compact.specs.Turns.{ends_of, AreKnown, HasRoom, BeginsWith};

use gj_base::Side;
use gj_compact::{Edge, Lane, fill, note_all, shed};
use std::collections::VecDeque;

/// The interactions from one place up to another, as they lie.
pub fn between(edges: &VecDeque<Edge>, from: usize, to: usize) -> (&[Edge], &[Edge])
    requires order { from ≤ to }
    requires inside { to ≤ length edges.now.items }
    ensures { result.0.now ++ result.1.now ≡ take (to - from) (drop from edges.now.items) }
{
    let (front, back) = edges.as_slices();
    let cut = front.len();
    (
        &front[from.min(cut)..to.min(cut)],
        &back[from.saturating_sub(cut)..to.saturating_sub(cut)],
    )
}

/// Announces one more end for the vertex of each of these interactions.
pub fn note_parts(lane: &mut Lane, side: Side, front: &[Edge], back: &[Edge])
    requires known { AreKnown lane.old side (front.now ++ back.now) }
    requires wide { length lane.old.fresh ≡ length lane.old.runs }
    requires few { sum_of lane.old.fresh + length (front.now ++ back.now) ≤ 8388608 }
    ensures fresh { (v : ℕ) → v < length lane.old.runs → slice_index_or lane.new.fresh v 0 ≡ slice_index_or lane.old.fresh v 0 + length (ends_of (front.now ++ back.now) side v) }
    ensures total { sum_of lane.new.fresh ≡ sum_of lane.old.fresh + length (front.now ++ back.now) }
    ensures wide { length lane.new.fresh ≡ length lane.old.fresh }
    ensures runs { lane.new.runs ≡ lane.old.runs }
    ensures size { lane.new.room ≡ lane.old.room }
{
    note_all(lane, side, front);
    note_all(lane, side, back);
}

/// Puts the ends of these interactions behind those of each vertex.
pub fn fill_parts(lane: &mut Lane, side: Side, front: &[Edge], back: &[Edge])
    requires known { AreKnown lane.old side (front.now ++ back.now) }
    requires room { HasRoom lane.old side (front.now ++ back.now) }
    ensures runs { (v : ℕ) → v < length lane.old.runs → run_of lane.new.runs v ≡ run_of lane.old.runs v ++ ends_of (front.now ++ back.now) side v }
    ensures long { length lane.new.runs ≡ length lane.old.runs }
    ensures fresh { lane.new.fresh ≡ lane.old.fresh }
    ensures size { lane.new.room ≡ lane.old.room }
    ensures total { total_of lane.new.runs ≡ total_of lane.old.runs + length (front.now ++ back.now) }
{
    fill(lane, side, front);
    fill(lane, side, back);
}

/// Takes the ends of these interactions from the front of each vertex.
pub fn shed_parts(lane: &mut Lane, side: Side, front: &[Edge], back: &[Edge])
    requires known { AreKnown lane.old side (front.now ++ back.now) }
    requires begins { BeginsWith lane.old side (front.now ++ back.now) }
    ensures runs { (v : ℕ) → v < length lane.old.runs → run_of lane.new.runs v ≡ drop (length (ends_of (front.now ++ back.now) side v)) (run_of lane.old.runs v) }
    ensures long { length lane.new.runs ≡ length lane.old.runs }
    ensures fresh { lane.new.fresh ≡ lane.old.fresh }
    ensures size { lane.new.room ≡ lane.old.room }
    ensures total { total_of lane.new.runs + length (front.now ++ back.now) ≡ total_of lane.old.runs }
{
    shed(lane, side, front);
    shed(lane, side, back);
}
