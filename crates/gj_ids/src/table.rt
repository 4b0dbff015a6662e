//! The slots by which an identifier's place is found: open addressing, with linear probing in a circle.
ghost use Rattle.std.specs.Prelude.{◌≡◌, ℕ, ◌+◌, ◌*◌, ◌^◌, ◌<◌, ◌≤◌, ◌++◌, [], ◌∷◌, IfOk, IfSome, IfNone, length};
ghost use Rattle.gj_base.specs.Firsts.{place_of};
ghost use Rattle.gj_ids.specs.Slots.{first_slot_of, IsReady, IsTable, IsOther, IsStop, IsPlaced, IsWay, EndsAt, seated_in};

use gj_base::Memory;
use std::alloc::Global;

// 2^64 over the golden ratio, to the nearest odd number: its products spread near identifiers over all slots.
const FACTOR: u64 = 11400714819323198485;

/// The place of an identifier, below 65536; it counts only while the stamp is the table's.
#[derive(Clone, Copy, Drop)]
pub struct Slot {
    pub stamp: u16,
    pub place: u16,
}

/// The slots of one map. Their number is 2^(64 - shift).
#[derive(Drop)]
pub struct Table {
    pub slots: Vec<Slot>,
    pub stamp: u16,
    pub shift: u32,
}

/// Where the search for an identifier ends: at the slot that holds its place, or at a free one.
#[derive(Clone, Copy, Drop)]
pub enum Stop {
    Held(u32),
    Free(usize),
}

/// The slot where the search for `id` begins.
#[inline]
#[tactic(auto, unfolding(crate::specs::Slots::first_slot_of))]
pub fn first_slot(shift: u32, id: u64) -> usize
    requires { shift < 64 }
    ensures { result ≡ first_slot_of shift id }
{
    (id.wrapping_mul(FACTOR) >> shift) as usize
}

impl Table {
    /// Slots for `room` identifiers: the least power of two that is at least twice the room.
    pub fn new(alloc: Global, room: u32) -> Result<Table, Memory>
        requires any { 1 ≤ room }
        requires fits { room ≤ 65536 }
        ensures empty { IfOk result (λ table. IsTable table.slots.items table.stamp table.shift []) }
        ensures enough { IfOk result (λ table. 2 * room ≤ length table.slots.items) }
        ensures least { IfOk result (λ table. length table.slots.items < 4 * room) }
    {
        let mut size: u32 = 2;
        let mut shift: u32 = 63;
        while size < 2 * room {
            size *= 2;
            shift -= 1;
        }
        let Ok(slots) = vec![in alloc; Slot { stamp: 0, place: 0 }; size as usize] else {
            return Err(Memory);
        };
        Ok(Table {
            slots,
            stamp: 1,
            shift,
        })
    }

    /// Frees each slot, by a new stamp; the slots are touched only when the stamps end.
    pub fn clear(&mut self)
        requires { IsReady self.old.slots.items self.old.stamp self.old.shift }
        ensures empty { IsTable self.new.slots.items self.new.stamp self.new.shift [] }
        ensures same { length self.new.slots.items ≡ length self.old.slots.items }
    {
        if self.stamp == u16::MAX {
            self.slots.fill(Slot { stamp: 0, place: 0 });
            self.stamp = 1;
        } else {
            self.stamp += 1;
        }
    }

    /// Gives the free slot at `at` to the place.
    #[inline]
    pub fn seat(&mut self, at: usize, place: u32)
        requires inside { at < length self.old.slots.items }
        requires small { place < 65536 }
        ensures slots { self.new.slots.items ≡ seated_in self.old.slots.items self.old.stamp at place }
        ensures stamp { self.new.stamp ≡ self.old.stamp }
        ensures shift { self.new.shift ≡ self.old.shift }
    {
        let stamp = self.stamp;
        let place = place as u16;
        self.slots[at] = Slot { stamp, place };
    }

    /// Where the search for `id` ends.
    #[inline]
    pub fn seek(&self, ids: &[u64], id: u64) -> Stop
        requires table { IsTable self.now.slots.items self.now.stamp self.now.shift ids.now }
        requires spare { length ids.now < length self.now.slots.items }
        ensures { EndsAt self.now.slots.items self.now.stamp self.now.shift ids.now id result }
    {
        let at = self.stop(ids, id);
        let slot = self.slots[at];
        if slot.stamp == self.stamp {
            Stop::Held(slot.place as u32)
        } else {
            Stop::Free(at)
        }
    }

    /// The slot where the search for `id` ends.
    #[inline]
    fn stop(&self, ids: &[u64], id: u64) -> usize
        requires table { IsTable self.now.slots.items self.now.stamp self.now.shift ids.now }
        requires spare { length ids.now < length self.now.slots.items }
        ensures inside { result < length self.now.slots.items }
        ensures stop { IsStop self.now.slots.items self.now.stamp ids.now id result }
        ensures way { IsWay (IsOther self.now.slots.items self.now.stamp ids.now id)
            (length self.now.slots.items) (first_slot_of self.now.shift id) result }
    {
        let first = first_slot(self.shift, id);
        match self.scan(ids, id, first, self.slots.len()) {
            Some(at) => at,
            None => match self.scan(ids, id, 0, first) {
                Some(at) => at,
                None => unreachable!(),
            },
        }
    }

    /// The first slot of `from..to` that is free or holds `id`.
    #[inline]
    fn scan(&self, ids: &[u64], id: u64, from: usize, to: usize) -> Option<usize>
        requires inside { to ≤ length self.now.slots.items }
        requires placed { IsPlaced self.now.slots.items self.now.stamp ids.now }
        ensures within { IfSome result (λ at. (from ≤ at) × (at < to)) }
        ensures stop { IfSome result (IsStop self.now.slots.items self.now.stamp ids.now id) }
        ensures passed { IfSome result (λ at.
            (j : ℕ) → from ≤ j → j < at → IsOther self.now.slots.items self.now.stamp ids.now id j) }
        ensures none { IfNone result
            ((j : ℕ) → from ≤ j → j < to → IsOther self.now.slots.items self.now.stamp ids.now id j) }
    {
        for at in from..to {
            let slot = self.slots[at];
            if slot.stamp != self.stamp || ids[slot.place as usize] == id {
                return Some(at);
            }
        }
        None
    }
}
