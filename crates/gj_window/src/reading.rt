//! How the segments of a window are read.
ghost use Rattle.std.specs.Prelude.{◌≡◌, ◌+◌, ◌^◌, ◌<◌, ◌≤◌, ◌++◌, length, count_by, slice_get, slice_index, Some, IfOk, IfSome};
ghost use Rattle.gj_base.specs.Draw.{end_picked};
ghost use Rattle.gj_base.specs.Edges.{edges_of};
ghost use Rattle.gj_base.specs.Ends.{ends, other_side, passes, leads_to};
ghost use Rattle.gj_base.specs.Kinds.{all_kinds};
ghost use Rattle.gj_window.specs.Segments.{items_of, names_on};

use crate::segments::Segments;
use gj_base::{Hint, Item, Kind, Mask, Memory, NO_HINT, SegmentView, Side, count_in, end_in, pick};
use gj_segment::PoolSegment;
use std::alloc::Global;

/// How many ends the vertex has in a pool under the mask. One that is not in use has none, and isn't searched.
#[inline]
fn count_in_pool(pool: &PoolSegment, side: Side, id: u64, mask: Mask) -> u32
    ensures exact { result ≡ length (ends pool.now.items side id mask) }
    ensures in_range { result ≤ 65536 }
{
    if pool.len() == 0 {
        return 0;
    }
    count_in(pool, side, id, mask)
}

impl Segments {
    /// How many interactions they hold.
    #[inline]
    pub fn len(&self) -> u32
        ensures exact { result ≡ length (items_of self.now) }
        ensures in_range { result ≤ 4194304 }
    {
        self.directory.len()
    }

    /// One of the interactions, by its index.
    #[inline]
    pub fn item(&self, i: u32) -> Item
        requires { i < length (items_of self.now) }
        ensures { slice_get (items_of self.now) i ≡ Some result }
    {
        self.directory.item(i)
    }

    /// How many interactions the mask lets through.
    pub fn total(&self, mask: Mask) -> u32
        ensures exact { result ≡ count_by (passes mask) (items_of self.now) }
        ensures in_range { result ≤ 4194304 }
    {
        self.directory.total(mask)
    }

    /// How many ends the vertex has in the pools under the mask.
    fn count_pools(&self, side: Side, id: u64, mask: Mask) -> u32
        ensures exact { result ≡ length (ends (self.now.older ++ self.now.newest) side id mask) }
        ensures in_range { result ≤ 131072 }
    {
        count_in_pool(&self.older, side, id, mask) + count_in_pool(&self.newest, side, id, mask)
    }

    /// One of the ends that the vertex has in the pools under the mask, by its index in order, with its kind.
    fn end_pooled(&self, side: Side, id: u64, mask: Mask, i: u32) -> (u64, Kind)
        requires { i < length (ends (self.now.older ++ self.now.newest) side id mask) }
        ensures { slice_get (ends (self.now.older ++ self.now.newest) side id mask) i ≡ Some result }
    {
        let before = count_in_pool(&self.older, side, id, mask);
        if i < before {
            end_in(&self.older, side, id, mask, i)
        } else {
            end_in(&self.newest, side, id, mask, i - before)
        }
    }

    /// How many ends the vertex has in the pools under the mask, where it has `fresh` of all kinds and moments.
    #[inline]
    fn count_pooled(&self, side: Side, id: u64, mask: Mask, fresh: u32) -> u32
        requires { fresh ≡ length (ends (self.now.older ++ self.now.newest) side id all_kinds) }
        ensures exact { result ≡ length (ends (self.now.older ++ self.now.newest) side id mask) }
        ensures few { result ≤ fresh }
    {
        if fresh == 0 {
            return 0;
        }
        if mask == Mask::all() {
            return fresh;
        }
        self.count_pools(side, id, mask)
    }

    /// How many ends the vertex with this number and this identifier has under the mask where it is laid out, and in the
    /// pools.
    #[inline]
    fn degrees(&self, side: Side, v: u32, id: u64, mask: Mask) -> (u32, u32)
        requires vertex { v < length (names_on self.now side) }
        requires named { slice_index (names_on self.now side) v ≡ id }
        ensures full { result.0 ≡ length (ends self.now.full side id mask) }
        ensures pooled { result.1 ≡ length (ends (self.now.older ++ self.now.newest) side id mask) }
        ensures in_range { result.0 + result.1 ≤ 4194304 }
    {
        let (full, fresh) = self.directory.degrees(side, v, mask);
        (full, self.count_pooled(side, id, mask, fresh))
    }

    /// One of its ends under the mask, by its index in order, with its kind.
    #[inline]
    fn end_at(&self, side: Side, v: u32, id: u64, mask: Mask, full: u32, i: u32) -> (u64, Kind)
        requires vertex { v < length (names_on self.now side) }
        requires named { slice_index (names_on self.now side) v ≡ id }
        requires full { full ≡ length (ends self.now.full side id mask) }
        requires index { i < length (ends (items_of self.now) side id mask) }
        ensures { slice_get (ends (items_of self.now) side id mask) i ≡ Some result }
    {
        if i < full {
            self.directory.end(side, v, mask, i)
        } else {
            self.end_pooled(side, id, mask, i - full)
        }
    }

    /// How many ends the vertex has under the mask.
    #[inline]
    pub fn count(&self, side: Side, id: u64, mask: Mask) -> u32
        ensures exact { result ≡ length (ends (items_of self.now) side id mask) }
        ensures in_range { result ≤ 4194304 }
    {
        match self.directory.find(side, id) {
            Some(v) => {
                let (full, pooled) = self.degrees(side, v, id, mask);
                full + pooled
            }
            None => 0,
        }
    }

    /// One of its ends under the mask, by its index in order, with its kind.
    #[inline]
    pub fn edge(&self, side: Side, id: u64, mask: Mask, i: u32) -> (u64, Kind)
        requires { i < length (ends (items_of self.now) side id mask) }
        ensures { slice_get (ends (items_of self.now) side id mask) i ≡ Some result }
    {
        match self.directory.find(side, id) {
            Some(v) => {
                let (full, _fresh) = self.directory.degrees(side, v, mask);
                self.end_at(side, v, id, mask, full, i)
            }
            None => unreachable!(),
        }
    }

    /// The vertex across by one of its ends, and a hint to that vertex where the end is laid out.
    #[inline]
    fn end_near(&self, side: Side, v: u32, id: u64, mask: Mask, full: u32, i: u32) -> (u64, Hint)
        requires vertex { v < length (names_on self.now side) }
        requires named { slice_index (names_on self.now side) v ≡ id }
        requires full { full ≡ length (ends self.now.full side id mask) }
        requires index { i < length (ends (items_of self.now) side id mask) }
        ensures { IfSome (slice_get (ends (items_of self.now) side id mask) i) (λ end. result.0 ≡ end.0) }
    {
        if i < full {
            self.directory.end_near(side, v, mask, i)
        } else {
            (self.end_pooled(side, id, mask, i - full).0, NO_HINT)
        }
    }

    /// The vertex across that the word picks among the ends of the vertex with this number and this identifier, and a hint
    /// to it.
    #[inline]
    fn pick_at(&self, side: Side, v: u32, id: u64, mask: Mask, word: u64) -> (Option<u64>, Hint)
        requires vertex { v < length (names_on self.now side) }
        requires named { slice_index (names_on self.now side) v ≡ id }
        ensures exact { result.0 ≡ end_picked (ends (items_of self.now) side id mask) word }
        ensures back { IfSome result.0 (λ end. 0 < length (ends (items_of self.now) (other_side side) end mask)) }
    {
        let (full, pooled) = self.degrees(side, v, id, mask);
        let degree = u64::from(full + pooled);
        if degree == 0 {
            return (None, NO_HINT);
        }
        let i = pick(word, degree);
        let (end, hint) = self.end_near(side, v, id, mask, full, i as u32);
        (Some(end), hint)
    }

    /// The vertex across that the word picks among its ends under the mask, found by one lookup, and by none where the hint
    /// is its own; and a hint to the vertex across.
    #[inline]
    pub fn pick_end_near(
        &self,
        side: Side,
        id: u64,
        hint: Hint,
        mask: Mask,
        word: u64,
    ) -> (Option<u64>, Hint)
        ensures exact { result.0 ≡ end_picked (ends (items_of self.now) side id mask) word }
        ensures back { IfSome result.0 (λ end. 0 < length (ends (items_of self.now) (other_side side) end mask)) }
    {
        match self.directory.find_near(side, id, hint) {
            Some(v) => self.pick_at(side, v, id, mask, word),
            None => (None, NO_HINT),
        }
    }

    /// The eligible interactions of these users, in order. It takes time in the number of all interactions, and memory.
    pub fn edges_of(&self, alloc: Global, users: &[u64], mask: Mask) -> Result<Vec<Item>, Memory>
        ensures { IfOk result (λ edges. edges.items ≡ edges_of (items_of self.now) users.now mask) }
    {
        self.directory.edges_of(alloc, users, mask)
    }

    /// Whether one of the ends that the vertex has in the pools under the mask is the other vertex, where it has `fresh` of
    /// all kinds and moments.
    fn has_pooled(&self, side: Side, id: u64, mask: Mask, fresh: u32, other: u64) -> bool
        requires { fresh ≡ length (ends (self.now.older ++ self.now.newest) side id all_kinds) }
        ensures { result ≡ leads_to (ends (self.now.older ++ self.now.newest) side id mask) other }
    {
        for i in 0..self.count_pooled(side, id, mask, fresh) {
            let (end, _kind) = self.end_pooled(side, id, mask, i);
            if end == other {
                return true;
            }
        }
        false
    }

    /// Whether one of the ends of the vertex with this number and this identifier is the other vertex: first where it is
    /// laid out, since most of its ends are.
    fn has_at(&self, side: Side, v: u32, id: u64, mask: Mask, other: u64) -> bool
        requires vertex { v < length (names_on self.now side) }
        requires named { slice_index (names_on self.now side) v ≡ id }
        ensures { result ≡ leads_to (ends (items_of self.now) side id mask) other }
    {
        if self.directory.has_end(side, v, mask, other) {
            return true;
        }
        let (_full, fresh) = self.directory.degrees(side, v, Mask::all());
        self.has_pooled(side, id, mask, fresh, other)
    }

    /// Whether one of its ends under the mask is the other vertex: by one lookup of each of the two where it is laid out, and
    /// end by end where it has newer ones.
    pub fn has_end(&self, side: Side, id: u64, mask: Mask, other: u64) -> bool
        ensures { result ≡ leads_to (ends (items_of self.now) side id mask) other }
    {
        match self.directory.find(side, id) {
            Some(v) => self.has_at(side, v, id, mask, other),
            None => false,
        }
    }
}
