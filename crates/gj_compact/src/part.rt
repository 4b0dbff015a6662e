//! One side of a compact segment.
ghost use Rattle.std.specs.Prelude.{◌≡◌, ◌<◌, ◌≤◌, [], IfOk, replicate, length, map};
ghost use Rattle.gj_base.specs.Numbered.{numbered, vertices_of};
ghost use Rattle.gj_compact.specs.Turns.{plain};

use crate::edge::Edge;
use crate::lane::Lane;
use crate::turns::{fill, note_all};
use gj_base::{Memory, SegmentView, Side};
use gj_ids::IdMap;
use std::alloc::Global;

/// The vertices of one side, and the ends of each.
#[derive(Drop)]
pub struct Part {
    pub ids: IdMap,
    pub lane: Lane,
}

/// Numbers the vertices of a side as the segment does.
fn name_all<V: SegmentView>(ids: &mut IdMap, side: Side, from: &V)
    requires none { ids.old.ids ≡ [] }
    requires room { length (V.listed from.now) ≤ ids.old.room }
    ensures ids { ids.new.ids ≡ vertices_of (V.listed from.now) side }
    ensures room { ids.new.room ≡ ids.old.room }
{
    for v in 0..from.vertices(side) {
        let _place = ids.put(from.id_of(side, v));
    }
}

impl Part {
    ghost use Rattle.std.specs.Prelude.{◌≡◌, ◌<◌, ◌≤◌, [], IfOk, replicate, length, map};
    ghost use Rattle.gj_base.specs.Numbered.{numbered, vertices_of};
    ghost use Rattle.gj_compact.specs.Turns.{plain};
    ghost use Rattle.gj_compact.specs.Compact.{IsRoomy, HasEnds};

    /// A side for that many interactions.
    pub fn new(alloc: Global, room: u32) -> Result<Part, Memory>
        requires any { 1 ≤ room }
        requires fits { room ≤ 65536 }
        ensures ids { IfOk result (λ part. part.ids.ids ≡ []) }
        ensures runs { IfOk result (λ part. part.lane.runs ≡ replicate room []) }
        ensures roomy { IfOk result (λ part. IsRoomy part room) }
    {
        let ids = IdMap::new(alloc, room)?;
        let lane = Lane::new(alloc, room, room)?;
        Ok(Part { ids, lane })
    }

    /// Numbers the vertices as the segment does, and takes the ends of the edges, whatever was there before.
    pub fn take<V: SegmentView>(&mut self, side: Side, from: &V, edges: &[Edge])
        requires numbers { map plain edges.now ≡ numbered (V.listed from.now) }
        requires fits { length (V.listed from.now) ≤ self.old.ids.room }
        requires small { self.old.ids.room ≤ 65536 }
        requires roomy { IsRoomy self.old self.old.ids.room }
        ensures ids { self.new.ids.ids ≡ vertices_of (V.listed from.now) side }
        ensures ends { HasEnds self.new side edges.now self.old.ids.room }
        ensures roomy { IsRoomy self.new self.old.ids.room }
    {
        self.ids.clear();
        name_all(&mut self.ids, side, from);
        self.lane.clear();
        note_all(&mut self.lane, side, edges);
        self.lane.open();
        fill(&mut self.lane, side, edges);
        self.lane.seal();
    }
}
