//! The numbering of the identifiers.
ghost use Rattle.std.specs.Prelude.{◌≡◌, ◌≢◌, ◌+◌, ◌-◌, ◌<◌, ◌≤◌, [], IfOk, IfSome, Some, None, length, slice_index};
ghost use Rattle.gj_base.specs.Firsts.{place_of, with_id};
ghost use Rattle.gj_ids.specs.Numbering.{IsNumbering};

use crate::table::{Stop, Table};
use gj_base::Memory;
use std::alloc::Global;
use std::marker::Model;

/// Identifiers, each numbered by the place at which it first appeared.
#[derive(Drop)]
pub struct IdMap {
    ids: Vec<u64>,
    len: u32,
    room: u32,
    table: Table,
}

impl Model for IdMap {
    ghost use Rattle.gj_ids.specs.Numbering.{Numbering};

    ghost Value = { Numbering };

    ghost use Rattle.gj_ids.specs.Mapping.{numbering_of, IsMap};

    ghost view = { numbering_of };

    ghost invariant = { IsMap };
}

impl IdMap {
    /// An empty map with room for that many identifiers. It takes all memory that the map will use.
    pub fn new(alloc: Global, room: u32) -> Result<IdMap, Memory>
        requires any { 1 ≤ room }
        requires fits { room ≤ 65536 }
        ensures empty { IfOk result (λ map. map.ids ≡ []) }
        ensures room { IfOk result (λ map. map.room ≡ room) }
    {
        let table = Table::new(alloc, room)?;
        let Ok(ids) = vec![in alloc; 0; room as usize] else {
            return Err(Memory);
        };
        Ok(IdMap {
            ids,
            len: 0,
            room,
            table,
        })
    }

    /// The place of `id`, which goes last if it is new. It takes no memory.
    #[inline]
    pub fn put(&mut self, id: u64) -> u32
        requires { place_of self.old.ids id ≡ None → length self.old.ids < self.old.room }
        ensures ids { self.new.ids ≡ with_id self.old.ids id }
        ensures place { place_of self.new.ids id ≡ Some result }
        ensures in_range { result < length self.new.ids }
        ensures room { self.new.room ≡ self.old.room }
        ensures lawful { IsNumbering self.new }
    {
        match self.table.seek(&self.ids[..self.len as usize], id) {
            Stop::Held(place) => place,
            Stop::Free(at) => {
                let place = self.len;
                self.table.seat(at, place);
                self.ids[place as usize] = id;
                self.len = place + 1;
                place
            }
        }
    }

    /// The place of `id`, and `None` exactly where it is absent.
    #[inline]
    pub fn find(&self, id: u64) -> Option<u32>
        ensures exact { result ≡ place_of self.now.ids id }
        ensures in_range { IfSome result (λ n. n < length self.now.ids) }
        ensures lawful { IsNumbering self.now }
    {
        match self.table.seek(&self.ids[..self.len as usize], id) {
            Stop::Held(place) => Some(place),
            Stop::Free(_) => None,
        }
    }

    /// The identifier at the place `n`.
    #[inline]
    pub fn id_of(&self, n: u32) -> u64
        requires { n < length self.now.ids }
        ensures { result ≡ slice_index self.now.ids n }
    {
        self.ids[n as usize]
    }

    /// How many identifiers there are.
    #[inline]
    pub fn len(&self) -> u32
        ensures exact { result ≡ length self.now.ids }
        ensures lawful { IsNumbering self.now }
    {
        self.len
    }

    /// How many new identifiers can still be put.
    #[inline]
    pub fn spare(&self) -> u32
        ensures { result + length self.now.ids ≡ self.now.room }
    {
        self.room - self.len
    }

    /// Removes all identifiers. It takes no memory, and touches the slots only once in 65535 calls.
    pub fn clear(&mut self)
        ensures empty { self.new.ids ≡ [] }
        ensures room { self.new.room ≡ self.old.room }
    {
        self.len = 0;
        self.table.clear();
    }
}
