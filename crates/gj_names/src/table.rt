//! The slots by which an identifier's place is found: open addressing, with linear probing in a circle.
ghost use Rattle.std.specs.Prelude.{◌≡◌, ℕ, ◌+◌, ◌*◌, ◌^◌, ◌<◌, ◌≤◌, [], IfOk, IfSome, IfNone, length, replicate, slice_index, take, vec_capacity};
ghost use Rattle.gj_base.specs.Firsts.{HasNoRepeat};
ghost use Rattle.gj_names.specs.Slots.{first_slot_of, IsTable, IsSized, IsOther, IsStop, IsPlaced, IsWay, IsFree, IsReserved, EndsAt};

use gj_base::Memory;
use std::alloc::Global;

// 2^64 over the golden ratio, to the nearest odd number: its products spread near identifiers over all slots.
const FACTOR: u64 = 11400714819323198485;
// No place, since there are at most 2^23 identifiers.
const FREE: u32 = u32::MAX;

const LEAST_SIZE: usize = 16;

const LEAST_SHIFT: u32 = 60;

/// The slots: each has the place of an identifier, or is `FREE`. Their number is 2^(64 - shift).
#[derive(Drop)]
pub struct Table {
    pub slots: Vec<u32>,
    pub shift: u32,
}

/// Where the search for an identifier ends: at the slot that holds its place, or at a free one.
#[derive(Clone, Copy, Drop)]
pub enum Stop {
    Held(u32),
    Free(usize),
}

/// The slot where the search for `id` begins.
#[inline]
#[tactic(auto, unfolding(crate::specs::Slots::first_slot_of))]
pub fn first_slot(shift: u32, id: u64) -> usize
    requires { shift < 64 }
    ensures { result ≡ first_slot_of shift id }
{
    (id.wrapping_mul(FACTOR) >> shift) as usize
}

/// Makes that many slots, all free.
fn free_all(slots: &mut Vec<u32>, size: usize)
    requires { size ≤ vec_capacity slots.old }
    ensures items { slots.new.items ≡ replicate size FREE }
    ensures capacity { vec_capacity slots.old ≤ vec_capacity slots.new }
{
    slots.clear();
    slots.resize(size, FREE).unwrap();
}

/// The slots that `room` identifiers need: the least power of two that is at least 16 and twice the room.
fn most_slots(room: u32) -> usize
    requires { room ≤ 8388608 }
    ensures reserved { IsReserved result room }
    ensures least { LEAST_SIZE ≤ result }
{
    let mut size = LEAST_SIZE;
    while size < 2 * room as usize {
        size *= 2;
    }
    size
}

impl Table {
    /// The least table, with memory for as many slots as `room` identifiers need.
    pub fn new(alloc: Global, room: u32) -> Result<Table, Memory>
        requires { room ≤ 8388608 }
        ensures empty { IfOk result (λ table. IsTable table.slots.items table.shift []) }
        ensures reserved { IfOk result (λ table. IsReserved (vec_capacity table.slots) room) }
        ensures least { IfOk result (λ table. LEAST_SIZE ≤ vec_capacity table.slots) }
    {
        match Vec::with_capacity(alloc, most_slots(room)) {
            Ok(slots) => {
                let mut table = Table {
                    slots,
                    shift: LEAST_SHIFT,
                };
                free_all(&mut table.slots, LEAST_SIZE);
                Ok(table)
            }
            Err(_) => Err(Memory),
        }
    }

    /// Makes the least table of it, all free.
    pub fn clear(&mut self)
        requires { LEAST_SIZE ≤ vec_capacity self.old.slots }
        ensures empty { IsTable self.new.slots.items self.new.shift [] }
        ensures capacity { vec_capacity self.old.slots ≤ vec_capacity self.new.slots }
    {
        self.shift = LEAST_SHIFT;
        free_all(&mut self.slots, LEAST_SIZE);
    }

    /// Seats the identifier at `place`, the last one, in the free slot at `at`; or doubles the table where more than half of
    /// the slots would be in use.
    #[inline]
    pub fn seat_next(&mut self, ids: &[u64], place: u32, at: usize)
        requires last { place + 1 ≡ length ids.now }
        requires table { IsTable self.old.slots.items self.old.shift (take place ids.now) }
        requires free { IsFree self.old.slots.items (first_slot_of self.old.shift (slice_index ids.now place)) at }
        requires distinct { HasNoRepeat ids.now }
        requires half { 2 * place ≤ length self.old.slots.items }
        requires few { length ids.now ≤ 8388608 }
        requires room { length self.old.slots.items < 2 * length ids.now → 2 * length self.old.slots.items ≤ vec_capacity self.old.slots }
        ensures table { IsTable self.new.slots.items self.new.shift ids.now }
        ensures half { 2 * length ids.now ≤ length self.new.slots.items }
        ensures capacity { vec_capacity self.old.slots ≤ vec_capacity self.new.slots }
    {
        if self.slots.len() < 2 * ids.len() {
            self.grow(ids);
        } else {
            self.slots[at] = place;
        }
    }

    /// Doubles the number of slots, and seats each identifier anew.
    #[inline(never)]
    fn grow(&mut self, ids: &[u64])
        requires sized { IsSized (length self.old.slots.items) self.old.shift }
        requires distinct { HasNoRepeat ids.now }
        requires few { length ids.now ≤ 8388608 }
        requires half { length ids.now ≤ length self.old.slots.items }
        requires room { 2 * length self.old.slots.items ≤ vec_capacity self.old.slots }
        ensures table { IsTable self.new.slots.items self.new.shift ids.now }
        ensures double { length self.new.slots.items ≡ 2 * length self.old.slots.items }
        ensures capacity { vec_capacity self.old.slots ≤ vec_capacity self.new.slots }
    {
        let size = 2 * self.slots.len();
        self.shift -= 1;
        free_all(&mut self.slots, size);
        for place in 0..ids.len() {
            self.reseat(ids, place);
        }
    }

    /// Seats the identifier at `place` beside those before it.
    #[inline]
    fn reseat(&mut self, ids: &[u64], place: usize)
        requires table { IsTable self.old.slots.items self.old.shift (take place ids.now) }
        requires inside { place < length ids.now }
        requires few { length ids.now ≤ 8388608 }
        requires spare { place < length self.old.slots.items }
        requires distinct { HasNoRepeat ids.now }
        ensures table { IsTable self.new.slots.items self.new.shift (take (place + 1) ids.now) }
        ensures size { length self.new.slots.items ≡ length self.old.slots.items }
        ensures capacity { vec_capacity self.new.slots ≡ vec_capacity self.old.slots }
    {
        match self.seek(&ids[..place], ids[place]) {
            Stop::Free(at) => self.slots[at] = place as u32,
            Stop::Held(_) => unreachable!(),
        }
    }

    /// Where the search for `id` ends.
    #[inline]
    pub fn seek(&self, ids: &[u64], id: u64) -> Stop
        requires table { IsTable self.now.slots.items self.now.shift ids.now }
        requires spare { length ids.now < length self.now.slots.items }
        ensures { EndsAt self.now.slots.items self.now.shift ids.now id result }
    {
        let at = self.stop(ids, id);
        let place = self.slots[at];
        if place == FREE {
            Stop::Free(at)
        } else {
            Stop::Held(place)
        }
    }

    /// The slot where the search for `id` ends.
    #[inline]
    fn stop(&self, ids: &[u64], id: u64) -> usize
        requires table { IsTable self.now.slots.items self.now.shift ids.now }
        requires spare { length ids.now < length self.now.slots.items }
        ensures inside { result < length self.now.slots.items }
        ensures stop { IsStop self.now.slots.items ids.now id result }
        ensures way { IsWay (IsOther self.now.slots.items ids.now id)
            (length self.now.slots.items) (first_slot_of self.now.shift id) result }
    {
        let first = first_slot(self.shift, id);
        match self.scan(ids, id, first, self.slots.len()) {
            Some(at) => at,
            None => match self.scan(ids, id, 0, first) {
                Some(at) => at,
                None => unreachable!(),
            },
        }
    }

    /// The first slot of `from..to` that is free or holds `id`.
    #[inline]
    fn scan(&self, ids: &[u64], id: u64, from: usize, to: usize) -> Option<usize>
        requires inside { to ≤ length self.now.slots.items }
        requires placed { IsPlaced self.now.slots.items ids.now }
        ensures within { IfSome result (λ at. (from ≤ at) × (at < to)) }
        ensures stop { IfSome result (IsStop self.now.slots.items ids.now id) }
        ensures passed { IfSome result (λ at.
            (j : ℕ) → from ≤ j → j < at → IsOther self.now.slots.items ids.now id j) }
        ensures none { IfNone result
            ((j : ℕ) → from ≤ j → j < to → IsOther self.now.slots.items ids.now id j) }
    {
        for at in from..to {
            let place = self.slots[at];
            if place == FREE || ids[place as usize] == id {
                return Some(at);
            }
        }
        None
    }
}
