//! Ends in columns: a walk reads the vertices alone, and most queries no moment.
ghost use Rattle.std.specs.Prelude.{◌≡◌, ◌+◌, ◌-◌, ◌*◌, ◌/◌, ◌<◌, ◌≤◌, IfOk, IfSome, Some, ℕ, [], ◌++◌, replicate, length, take, drop, count_by, filter, slice_get, slice_set, vec_capacity};
ghost use Rattle.std.specs.List.{list_any};
ghost use Rattle.gj_compact.specs.Blocks.{lets_through, reaches, moments_between, AreBounds};
ghost use Rattle.gj_compact.specs.Cells.{Celled, with_end};

use crate::counts::{Counts, NO_COUNTS};
use crate::edge::End;
use crate::spans::{NO_SPAN, Span, span_blocks};
use crate::sums::{before, block_at, count_between, sum_blocks};
use gj_base::{Kind, Mask, Memory};
use std::alloc::Global;
use std::marker::Model;

/// A list of ends, up to a fixed number: their vertices, their kinds and their moments. Once it is sealed, and until it
/// changes, the kinds before each block are counted, and the moments of each block are bounded.
#[derive(Drop)]
pub struct Cells {
    vertices: Vec<u32>,
    kinds: Vec<Kind>,
    moments: Vec<u64>,
    sums: Vec<Counts>,
    spans: Vec<Span>,
    sealed: bool,
    room: u32,
}

impl Model for Cells {
    ghost use Rattle.gj_compact.specs.Cells.{Celled, shown_by, IsCells};

    ghost Value = { Celled };

    ghost view = { shown_by };

    ghost invariant = { IsCells };
}

/// Makes a column that long. It is reserved, so that no memory is taken.
fn fit<T: Copy>(column: &mut Vec<T>, len: usize, value: T)
    requires { len ≤ vec_capacity column.old }
    ensures items { column.new.items ≡ take len column.old.items ++ replicate (len - length column.old.items) value }
    ensures len { length column.new.items ≡ len }
    ensures capacity { vec_capacity column.old ≤ vec_capacity column.new }
{
    column.resize(len, value).unwrap();
}

/// Moves `len` values of a column to another place in it.
fn move_part<T: Copy>(column: &mut [T], from: usize, to: usize, len: usize)
    requires from { from + len ≤ length column.old }
    requires to { to + len ≤ length column.old }
    ensures copied { take len (drop to column.new) ≡ take len (drop from column.old) }
    ensures before { take to column.new ≡ take to column.old }
    ensures after { drop (to + len) column.new ≡ drop (to + len) column.old }
{
    column.copy_within(from..from + len, to);
}

impl Cells {
    /// No cells, with memory for that many. No other call takes any, and what is not used of it is not touched.
    pub fn new(alloc: Global, room: u32) -> Result<Cells, Memory>
        requires { room ≤ 8388608 }
        ensures ends { IfOk result (λ cells. cells.ends ≡ []) }
        ensures room { IfOk result (λ cells. cells.room ≡ room) }
    {
        let Ok(vertices) = Vec::with_capacity(alloc, room as usize) else {
            return Err(Memory);
        };
        let Ok(kinds) = Vec::with_capacity(alloc, room as usize) else {
            return Err(Memory);
        };
        let Ok(moments) = Vec::with_capacity(alloc, room as usize) else {
            return Err(Memory);
        };
        let Ok(sums) = Vec::with_capacity(alloc, room as usize / 64 + 1) else {
            return Err(Memory);
        };
        let Ok(spans) = Vec::with_capacity(alloc, room as usize / 64 + 1) else {
            return Err(Memory);
        };
        Ok(Cells {
            vertices,
            kinds,
            moments,
            sums,
            spans,
            sealed: false,
            room,
        })
    }

    /// How many cells there are.
    #[inline]
    pub fn len(&self) -> usize
        ensures { result ≡ length self.now.ends }
    {
        self.vertices.len()
    }

    /// The end at a place.
    #[inline]
    pub fn get(&self, i: usize) -> End
        requires { i < length self.now.ends }
        ensures { slice_get self.now.ends i ≡ Some result }
    {
        End {
            vertex: self.vertices[i],
            kind: self.kinds[i],
            at: self.moments[i],
        }
    }

    /// The vertex of the end at a place.
    #[inline]
    pub fn vertex(&self, i: usize) -> u32
        requires { i < length self.now.ends }
        ensures { IfSome (slice_get self.now.ends i) (λ end. result ≡ end.vertex) }
    {
        self.vertices[i]
    }

    /// Whether the mask lets the end at a place through. Its moment is read only where the mask has its kind.
    #[inline]
    fn lets_at(&self, i: usize, mask: Mask) -> bool
        requires { i < length self.now.ends }
        ensures { IfSome (slice_get self.now.ends i) (λ end. result ≡ lets_through mask end) }
    {
        mask.has(self.kinds[i]) && mask.not_before() <= self.moments[i]
    }

    /// Makes that many cells of it: those that there are stay, and it is of no account what stands in others.
    pub fn make(&mut self, count: u32)
        requires { count ≤ self.old.room }
        ensures front { (n : ℕ) → n ≤ count → n ≤ length self.old.ends → take n self.new.ends ≡ take n self.old.ends }
        ensures long { length self.new.ends ≡ count }
        ensures room { self.new.room ≡ self.old.room }
    {
        fit(&mut self.vertices, count as usize, 0);
        fit(&mut self.kinds, count as usize, Kind::Click);
        fit(&mut self.moments, count as usize, 0);
        self.sealed = false;
    }

    /// Counts the kinds before each block, and bounds its moments. It takes time in the number of cells.
    pub fn seal(&mut self)
        ensures { self.new ≡ self.old }
    {
        let blocks = self.kinds.len() / 64 + 1;
        fit(&mut self.sums, blocks, NO_COUNTS);
        fit(&mut self.spans, blocks, NO_SPAN);
        sum_blocks(&mut self.sums, &self.kinds);
        span_blocks(&mut self.spans, &self.moments);
        self.sealed = true;
    }

    /// How many of the ends from one place up to another the mask lets through: by blocks, where these are many and the cells
    /// are sealed.
    pub fn count(&self, from: usize, to: usize, mask: Mask) -> usize
        requires order { from ≤ to }
        requires inside { to ≤ length self.now.ends }
        ensures exact { result ≡ count_by (lets_through mask) (take (to - from) (drop from self.now.ends)) }
        ensures in_range { result ≤ to - from }
    {
        if to - from < 64 {
            return self.scan_count(from, to, mask);
        }
        self.count_long(from, to, mask)
    }

    /// One of the ends from one place up to another that the mask lets through, by its index among them: by blocks, where
    /// these are many and the cells are sealed.
    pub fn nth(&self, from: usize, to: usize, mask: Mask, i: usize) -> End
        requires order { from ≤ to }
        requires inside { to ≤ length self.now.ends }
        requires index { i < count_by (lets_through mask) (take (to - from) (drop from self.now.ends)) }
        ensures { slice_get (filter (lets_through mask) (take (to - from) (drop from self.now.ends))) i ≡ Some result }
    {
        if to - from < 64 {
            return self.scan_nth(from, to, mask, i);
        }
        self.nth_long(from, to, mask, i)
    }

    /// How many of the ends the mask lets through: by blocks, where the cells are sealed.
    fn count_long(&self, from: usize, to: usize, mask: Mask) -> usize
        requires order { from ≤ to }
        requires inside { to ≤ length self.now.ends }
        ensures exact { result ≡ count_by (lets_through mask) (take (to - from) (drop from self.now.ends)) }
        ensures in_range { result ≤ to - from }
    {
        if self.sealed {
            if mask.not_before() == 0 {
                return before(&self.sums, &self.kinds, to, mask)
                    - before(&self.sums, &self.kinds, from, mask);
            }
            return self.count_by_blocks(from, to, mask);
        }
        self.scan_count(from, to, mask)
    }

    /// One of the ends that the mask lets through: from a block on that is found by its counts, where the cells are sealed.
    fn nth_long(&self, from: usize, to: usize, mask: Mask, i: usize) -> End
        requires order { from ≤ to }
        requires inside { to ≤ length self.now.ends }
        requires index { i < count_by (lets_through mask) (take (to - from) (drop from self.now.ends)) }
        ensures { slice_get (filter (lets_through mask) (take (to - from) (drop from self.now.ends))) i ≡ Some result }
    {
        if self.sealed {
            if mask.not_before() == 0 {
                let goal = before(&self.sums, &self.kinds, from, mask) + i;
                let block = block_at(&self.sums, mask, from / 64, to / 64, goal);
                let left = goal - self.sums[block].of(mask);
                return self.scan_nth(64 * block, to, mask, left);
            }
            return self.nth_by_blocks(from, to, mask, i);
        }
        self.scan_nth(from, to, mask, i)
    }

    /// How many of the ends the mask lets through, block by block.
    fn count_by_blocks(&self, from: usize, to: usize, mask: Mask) -> usize
        requires order { from ≤ to }
        requires inside { to ≤ length self.now.ends }
        ensures exact { result ≡ count_by (lets_through mask) (take (to - from) (drop from self.now.ends)) }
        ensures in_range { result ≤ to - from }
    {
        let mut count = 0;
        let mut at = from;
        while at < to {
            let next = at + (to - at).min(64 - at % 64);
            count += self.count_in_block(at, next, mask);
            at = next;
        }
        count
    }

    /// One of the ends that the mask lets through, in a block that is found by passing over those before it.
    fn nth_by_blocks(&self, from: usize, to: usize, mask: Mask, i: usize) -> End
        requires order { from ≤ to }
        requires inside { to ≤ length self.now.ends }
        requires index { i < count_by (lets_through mask) (take (to - from) (drop from self.now.ends)) }
        ensures { slice_get (filter (lets_through mask) (take (to - from) (drop from self.now.ends))) i ≡ Some result }
    {
        let mut left = i;
        let mut at = from;
        while at < to {
            let next = at + (to - at).min(64 - at % 64);
            let here = self.count_in_block(at, next, mask);
            if left < here {
                return self.scan_nth(at, to, mask, left);
            }
            left -= here;
            at = next;
        }
        unreachable!()
    }

    /// How many of the ends of a part of one block the mask lets through: none or all of its kinds, where the bounds of the
    /// block's moments say so.
    fn count_in_block(&self, from: usize, to: usize, mask: Mask) -> usize
        requires order { from ≤ to }
        requires inside { to ≤ length self.now.ends }
        requires block { to ≤ 64 * (from / 64) + 64 }
        ensures exact { result ≡ count_by (lets_through mask) (take (to - from) (drop from self.now.ends)) }
        ensures in_range { result ≤ to - from }
    {
        if self.sealed {
            let span = self.spans[from / 64];
            if span.greatest < mask.not_before() {
                return 0;
            }
            if mask.not_before() <= span.least {
                return before(&self.sums, &self.kinds, to, mask)
                    - before(&self.sums, &self.kinds, from, mask);
            }
        }
        self.scan_count(from, to, mask)
    }

    /// How many of the ends the mask lets through, looked at one by one: at their kinds alone, where the mask is over all
    /// moments.
    fn scan_count(&self, from: usize, to: usize, mask: Mask) -> usize
        requires order { from ≤ to }
        requires inside { to ≤ length self.now.ends }
        ensures exact { result ≡ count_by (lets_through mask) (take (to - from) (drop from self.now.ends)) }
        ensures in_range { result ≤ to - from }
    {
        if mask.not_before() == 0 {
            return count_between(&self.kinds, from, to, mask);
        }
        self.scan_dated(from, to, mask)
    }

    /// How many of the ends the mask lets through, each looked at with its moment.
    fn scan_dated(&self, from: usize, to: usize, mask: Mask) -> usize
        requires order { from ≤ to }
        requires inside { to ≤ length self.now.ends }
        ensures exact { result ≡ count_by (lets_through mask) (take (to - from) (drop from self.now.ends)) }
        ensures in_range { result ≤ to - from }
    {
        let mut count = 0;
        for i in from..to {
            let end = self.get(i);
            if mask.lets(end.kind, end.at) {
                count += 1;
            }
        }
        count
    }

    /// One of the ends that the mask lets through, looked at one by one.
    fn scan_nth(&self, from: usize, to: usize, mask: Mask, i: usize) -> End
        requires order { from ≤ to }
        requires inside { to ≤ length self.now.ends }
        requires index { i < count_by (lets_through mask) (take (to - from) (drop from self.now.ends)) }
        ensures { slice_get (filter (lets_through mask) (take (to - from) (drop from self.now.ends))) i ≡ Some result }
    {
        let mut left = i;
        for k in from..to {
            if self.lets_at(k, mask) {
                if left == 0 {
                    return self.get(k);
                }
                left -= 1;
            }
        }
        unreachable!()
    }

    /// The least and the greatest moment of the ends from one place up to another.
    pub fn bounds(&self, from: usize, to: usize) -> (u64, u64)
        requires some { from < to }
        requires inside { to ≤ length self.now.ends }
        ensures { AreBounds (moments_between from to self.now.ends) result.0 result.1 }
    {
        let mut least = self.get(from).at;
        let mut greatest = least;
        for i in from + 1..to {
            let at = self.get(i).at;
            least = least.min(at);
            greatest = greatest.max(at);
        }
        (least, greatest)
    }

    /// Whether one of the ends from one place up to another leads to the vertex, and the mask lets it through.
    pub fn has(&self, from: usize, to: usize, mask: Mask, vertex: u32) -> bool
        requires order { from ≤ to }
        requires inside { to ≤ length self.now.ends }
        ensures { result ≡ list_any (reaches vertex mask) (take (to - from) (drop from self.now.ends)) }
    {
        for i in from..to {
            if self.reaches_at(i, mask, vertex) {
                return true;
            }
        }
        false
    }

    /// Whether the end at a place does. Its kind and its moment are looked at only where the vertex is this one.
    #[inline]
    fn reaches_at(&self, i: usize, mask: Mask, vertex: u32) -> bool
        requires { i < length self.now.ends }
        ensures { IfSome (slice_get self.now.ends i) (λ end. result ≡ reaches vertex mask end) }
    {
        self.vertex(i) == vertex && self.lets_at(i, mask)
    }

    /// Puts the end at a place.
    #[inline]
    pub fn set(&mut self, i: usize, end: End)
        requires { i < length self.old.ends }
        ensures { self.new ≡ with_end self.old i end }
    {
        self.vertices[i] = end.vertex;
        self.kinds[i] = end.kind;
        self.moments[i] = end.at;
        self.sealed = false;
    }

    /// Moves `len` ends to another place.
    pub fn move_run(&mut self, from: usize, to: usize, len: usize)
        requires from { from + len ≤ length self.old.ends }
        requires to { to + len ≤ length self.old.ends }
        ensures copied { take len (drop to self.new.ends) ≡ take len (drop from self.old.ends) }
        ensures before { take to self.new.ends ≡ take to self.old.ends }
        ensures after { drop (to + len) self.new.ends ≡ drop (to + len) self.old.ends }
        ensures long { length self.new.ends ≡ length self.old.ends }
        ensures room { self.new.room ≡ self.old.room }
    {
        if from == to {
            return;
        }
        move_part(&mut self.vertices, from, to, len);
        move_part(&mut self.kinds, from, to, len);
        move_part(&mut self.moments, from, to, len);
        self.sealed = false;
    }
}
