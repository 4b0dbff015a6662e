//! One side of a segment.
ghost use Rattle.std.specs.Prelude.{◌≡◌, ◌<◌, ◌≤◌, [], IfOk, Some, None, length, replicate};
ghost use Rattle.gj_base.specs.Firsts.{place_of, with_id};
ghost use Rattle.gj_names.specs.Named.{IsNamed};
ghost use Rattle.gj_pool.specs.Lists.{appended};
ghost use Rattle.gj_pool.specs.Pools.{left_of};

use gj_base::Memory;
use gj_names::Names;
use gj_pool::EdgePool;
use std::alloc::Global;

/// The vertices of one side, and the places of the interactions of each.
#[derive(Drop)]
pub struct Half {
    pub ids: Names,
    pub places: EdgePool,
}

impl Half {
    /// A side with room for that many interactions.
    pub fn new(alloc: Global, room: u32) -> Result<Half, Memory>
        requires any { 1 ≤ room }
        requires fits { room ≤ 65536 }
        ensures empty { IfOk result (λ half. half.ids.ids ≡ []) }
        ensures ids_room { IfOk result (λ half. half.ids.room ≡ room) }
        ensures lists { IfOk result (λ half. half.places.lists ≡ replicate room []) }
        ensures edges { IfOk result (λ half. half.places.edges ≡ room) }
    {
        let ids = Names::new(alloc, room)?;
        let places = EdgePool::new(alloc, room, room)?;
        Ok(Half { ids, places })
    }

    /// Notes an interaction of the vertex at the place, and gives the vertex's number.
    pub fn add(&mut self, id: u64, place: u32) -> u32
        requires spare { place_of self.old.ids.ids id ≡ None → length self.old.ids.ids < self.old.ids.room }
        requires long { length self.old.places.lists ≡ self.old.ids.room }
        requires left { 0 < left_of self.old.places }
        ensures ids { self.new.ids.ids ≡ with_id self.old.ids.ids id }
        ensures number { place_of self.new.ids.ids id ≡ Some result }
        ensures in_range { result < length self.new.ids.ids }
        ensures room { self.new.ids.room ≡ self.old.ids.room }
        ensures lawful { IsNamed self.new.ids }
        ensures places { self.new.places ≡ record self.old.places { lists = appended self.old.places.lists result place } }
    {
        let v = self.ids.put(id);
        self.places.push(v, place);
        v
    }

    /// Forgets all, in time in the number of the vertices.
    pub fn clear(&mut self)
        ensures ids { self.new.ids.ids ≡ [] }
        ensures room { self.new.ids.room ≡ self.old.ids.room }
        ensures places { self.new.places ≡ record self.old.places { lists = replicate (length self.old.places.lists) [] } }
    {
        self.ids.clear();
        self.places.clear();
    }
}
