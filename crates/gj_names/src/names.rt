//! The numbering of the identifiers.
ghost use Rattle.std.specs.Prelude.{◌≡◌, ◌≢◌, ◌+◌, ◌-◌, ◌<◌, ◌≤◌, [], IfOk, IfSome, Some, None, length, slice_index};
ghost use Rattle.gj_base.specs.Firsts.{place_of, with_id};
ghost use Rattle.gj_names.specs.Named.{IsNamed};

use crate::table::{Stop, Table};
use gj_base::Memory;
use std::alloc::Global;
use std::marker::Model;

/// Identifiers, each numbered by the place at which it first appeared.
#[derive(Drop)]
pub struct Names {
    ids: Vec<u64>,
    room: u32,
    table: Table,
}

impl Model for Names {
    ghost use Rattle.gj_names.specs.Named.{Named};

    ghost Value = { Named };

    ghost use Rattle.gj_names.specs.Naming.{named_of, IsNaming};

    ghost view = { named_of };

    ghost invariant = { IsNaming };
}

impl Names {
    /// No identifiers yet, and room for that many. It takes all memory that will be used, less than 24 bytes for each, and
    /// touches none of it but the least table.
    pub fn new(alloc: Global, room: u32) -> Result<Names, Memory>
        requires any { 1 ≤ room }
        requires fits { room ≤ 8388608 }
        ensures empty { IfOk result (λ names. names.ids ≡ []) }
        ensures room { IfOk result (λ names. names.room ≡ room) }
    {
        let table = Table::new(alloc, room)?;
        let Ok(ids) = Vec::with_capacity(alloc, room as usize) else {
            return Err(Memory);
        };
        Ok(Names { ids, room, table })
    }

    /// The place of `id`, which goes last if it is new. It takes no memory. Where more than half of the table would be in
    /// use, the table is doubled, which takes time in all identifiers.
    #[inline]
    pub fn put(&mut self, id: u64) -> u32
        requires { place_of self.old.ids id ≡ None → length self.old.ids < self.old.room }
        ensures ids { self.new.ids ≡ with_id self.old.ids id }
        ensures place { place_of self.new.ids id ≡ Some result }
        ensures in_range { result < length self.new.ids }
        ensures room { self.new.room ≡ self.old.room }
        ensures lawful { IsNamed self.new }
    {
        match self.table.seek(&self.ids, id) {
            Stop::Held(place) => place,
            Stop::Free(at) => {
                let place = self.ids.len() as u32;
                self.ids.push_reserved(id);
                self.table.seat_next(&self.ids, place, at);
                place
            }
        }
    }

    /// The place of `id`, and `None` exactly where it is absent.
    #[inline]
    pub fn find(&self, id: u64) -> Option<u32>
        ensures exact { result ≡ place_of self.now.ids id }
        ensures in_range { IfSome result (λ n. n < length self.now.ids) }
        ensures lawful { IsNamed self.now }
    {
        match self.table.seek(&self.ids, id) {
            Stop::Held(place) => Some(place),
            Stop::Free(_) => None,
        }
    }

    /// The same, where the place is looked at first.
    #[inline]
    pub fn find_near(&self, id: u64, place: u32) -> Option<u32>
        ensures exact { result ≡ place_of self.now.ids id }
        ensures in_range { IfSome result (λ n. n < length self.now.ids) }
        ensures lawful { IsNamed self.now }
    {
        if (place as usize) < self.ids.len() && self.ids[place as usize] == id {
            return Some(place);
        }
        self.find(id)
    }

    /// The identifier at the place `n`.
    #[inline]
    pub fn id_of(&self, n: u32) -> u64
        requires { n < length self.now.ids }
        ensures { result ≡ slice_index self.now.ids n }
    {
        self.ids[n as usize]
    }

    /// How many identifiers there are.
    #[inline]
    pub fn len(&self) -> u32
        ensures exact { result ≡ length self.now.ids }
        ensures lawful { IsNamed self.now }
    {
        self.ids.len() as u32
    }

    /// How many new identifiers can still be put.
    #[inline]
    pub fn spare(&self) -> u32
        ensures { result + length self.now.ids ≡ self.now.room }
    {
        self.room - self.ids.len() as u32
    }

    /// Removes all identifiers. It takes no memory, and the same time for many as for few: the table is the least one again.
    pub fn clear(&mut self)
        ensures empty { self.new.ids ≡ [] }
        ensures room { self.new.room ≡ self.old.room }
    {
        self.ids.clear();
        self.table.clear();
    }
}
