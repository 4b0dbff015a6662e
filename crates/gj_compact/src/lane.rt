//! The ends of each vertex of one side, contiguous and oldest first.
ghost use Rattle.std.specs.Prelude.{◌≡◌, ◌+◌, ◌-◌, ◌<◌, ◌≤◌, [], ◌++◌, IfOk, IfSome, replicate, length, slice_get, slice_index_or, Some, vec_capacity};
ghost use Rattle.std.specs.Prelude.{ℕ, List, map, filter, take, drop, count_by, sum_by};
ghost use Rattle.std.specs.List.{list_any};
ghost use Rattle.gj_compact.specs.Blocks.{lets_through, reaches, moments_between, AreBounds};
ghost use Rattle.gj_compact.specs.declared.lane.Row.{Row};
ghost use Rattle.gj_compact.specs.Lanes.{run_of, pushed, popped, noted, opened, emptied, wanted, want_of, row_run, AreLaid, unused_row};
ghost use Rattle.gj_compact.specs.Moves.{AreLow, AreReady};

use crate::cells::Cells;
use crate::edge::End;
use gj_base::{Mask, Memory};
use std::alloc::Global;
use std::marker::Model;

/// Where the ends of a vertex lie: `len` from `start` on, with room for `spare` more. `fresh` counts what was noted and
/// isn't there yet.
#[derive(Clone, Copy)]
struct Row {
    start: u32,
    len: u32,
    spare: u32,
    fresh: u32,
}

/// The ends of each vertex of one side.
#[derive(Drop)]
pub struct Lane {
    // those of the vertices up to the greatest that was noted
    rows: Vec<Row>,
    vertices: u32,
    cells: Cells,
}

impl Model for Lane {
    ghost use Rattle.std.specs.Prelude.{◌≤◌, vec_capacity};
    ghost use Rattle.gj_compact.specs.Lanes.{Laned, shown_by, IsLane};

    ghost Value = { Laned };

    ghost view = { λ l. shown_by l.rows.items l.vertices l.cells };

    ghost invariant = { λ l. IsLane l.rows.items l.vertices l.cells × (l.vertices ≤ vec_capacity l.rows) };
}

/// The row of a vertex for which nothing was noted, behind that many cells.
fn unused(size: u32) -> Row
    ensures { result ≡ unused_row size }
{
    Row {
        start: size,
        len: 0,
        spare: 0,
        fresh: 0,
    }
}

/// The row of a vertex.
#[inline]
fn row_of(rows: &[Row], v: u32) -> Row
    ensures { result ≡ slice_index_or rows.now v (unused_row 0) }
{
    if (v as usize) < rows.len() {
        rows[v as usize]
    } else {
        unused(0)
    }
}

/// Makes rows up to that of the vertex.
#[inline]
fn reach(rows: &mut Vec<Row>, v: u32, row: Row)
    requires { v < vec_capacity rows.old }
    ensures rows { rows.new.items ≡ rows.old.items ++ replicate (v + 1 - length rows.old.items) row }
    ensures capacity { vec_capacity rows.old ≤ vec_capacity rows.new }
{
    if rows.len() <= v as usize {
        rows.resize(v as usize + 1, row).unwrap();
    }
}

/// How many cells the rows want: for what they hold, and for what was noted.
fn want(rows: &[Row]) -> u32
    requires { sum_by want_of rows.now ≤ 8388608 }
    ensures { result ≡ sum_by want_of rows.now }
{
    let mut want = 0;
    for row in rows {
        want += row.len + row.fresh;
    }
    want
}

/// Moves each run that lies behind the place that it will have to that place.
fn pull(rows: &mut [Row], cells: &mut Cells)
    requires laid { AreLaid rows.old (length cells.old.ends) }
    requires few { length cells.old.ends ≤ 8388608 }
    requires want { sum_by want_of rows.old ≤ 8388608 }
    ensures ready { AreReady rows.old rows.new cells.old.ends cells.new.ends }
    ensures room { cells.new.room ≡ cells.old.room }
{
    let mut next = 0;
    for v in 0..rows.len() {
        let row = rows[v];
        let place = row.start.min(next);
        cells.move_run(row.start as usize, place as usize, row.len as usize);
        rows[v] = Row {
            start: place,
            ..row
        };
        next += row.len + row.fresh;
    }
}

/// Moves each run to its place, from the last one to the first, where none lies behind it.
fn spread(rows: &mut [Row], cells: &mut Cells)
    requires low { AreLow rows.old }
    requires size { length cells.old.ends ≡ sum_by want_of rows.old }
    requires few { length cells.old.ends ≤ 8388608 }
    ensures laid { AreLaid rows.new (length cells.new.ends) }
    ensures runs { map (row_run cells.new.ends) rows.new ≡ map (row_run cells.old.ends) rows.old }
    ensures spare { map (λ (row : Row). row.spare) rows.new ≡ map (λ (row : Row). row.fresh) rows.old }
    ensures fresh { map (λ (row : Row). row.fresh) rows.new ≡ map (λ (row : Row). 0) rows.old }
    ensures long { length cells.new.ends ≡ length cells.old.ends }
    ensures room { cells.new.room ≡ cells.old.room }
{
    let mut next = cells.len() as u32;
    let mut v = rows.len();
    while 0 < v {
        v -= 1;
        let row = rows[v];
        next -= row.len + row.fresh;
        cells.move_run(row.start as usize, next as usize, row.len as usize);
        rows[v] = Row {
            start: next,
            len: row.len,
            spare: row.fresh,
            fresh: 0,
        };
    }
}

/// Lays the runs of the rows out anew, each with room for what was noted.
fn lay_out(rows: &mut [Row], cells: &mut Cells)
    requires laid { AreLaid rows.old (length cells.old.ends) }
    requires few { length cells.old.ends ≤ cells.old.room }
    requires fits { sum_by want_of rows.old ≤ cells.old.room }
    requires small { cells.old.room ≤ 8388608 }
    ensures laid { AreLaid rows.new (length cells.new.ends) }
    ensures runs { map (row_run cells.new.ends) rows.new ≡ map (row_run cells.old.ends) rows.old }
    ensures spare { map (λ (row : Row). row.spare) rows.new ≡ map (λ (row : Row). row.fresh) rows.old }
    ensures fresh { map (λ (row : Row). row.fresh) rows.new ≡ map (λ (row : Row). 0) rows.old }
    ensures size { length cells.new.ends ≡ sum_by want_of rows.old }
    ensures room { cells.new.room ≡ cells.old.room }
{
    let count = want(rows);
    pull(rows, cells);
    cells.make(count);
    spread(rows, cells);
}

impl Lane {
    /// A lane of `vertices` vertices without ends, for `room` ends in all. It reserves all memory that the lane will use, and
    /// touches none of it.
    pub fn new(alloc: Global, vertices: u32, room: u32) -> Result<Lane, Memory>
        requires { room ≤ 8388608 }
        ensures runs { IfOk result (λ lane. lane.runs ≡ replicate vertices []) }
        ensures fresh { IfOk result (λ lane. lane.fresh ≡ replicate vertices 0) }
        ensures room { IfOk result (λ lane. lane.room ≡ room) }
    {
        let Ok(rows) = Vec::with_capacity(alloc, vertices as usize) else {
            return Err(Memory);
        };
        let cells = Cells::new(alloc, room)?;
        Ok(Lane {
            rows,
            vertices,
            cells,
        })
    }

    /// How many ends the vertex has.
    #[inline]
    pub fn degree(&self, v: u32) -> u32
        requires { v < length self.now.runs }
        ensures { result ≡ length (run_of self.now.runs v) }
    {
        row_of(&self.rows, v).len
    }

    /// How many more were noted.
    #[inline]
    pub fn fresh(&self, v: u32) -> u32
        requires { v < length self.now.runs }
        ensures { result ≡ slice_index_or self.now.fresh v 0 }
    {
        row_of(&self.rows, v).fresh
    }

    /// One of the ends, by its index.
    #[inline]
    pub fn get(&self, v: u32, i: u32) -> End
        requires vertex { v < length self.now.runs }
        requires index { i < length (run_of self.now.runs v) }
        ensures { slice_get (run_of self.now.runs v) i ≡ Some result }
    {
        self.cells.get((self.rows[v as usize].start + i) as usize)
    }

    /// The vertex of one of the ends, by its index.
    #[inline]
    pub fn vertex(&self, v: u32, i: u32) -> u32
        requires vertex { v < length self.now.runs }
        requires index { i < length (run_of self.now.runs v) }
        ensures { IfSome (slice_get (run_of self.now.runs v) i) (λ end. result ≡ end.vertex) }
    {
        self.cells
            .vertex((self.rows[v as usize].start + i) as usize)
    }

    /// How many of the ends from one index up to another the mask lets through.
    pub fn count(&self, v: u32, from: u32, to: u32, mask: Mask) -> u32
        requires vertex { v < length self.now.runs }
        requires order { from ≤ to }
        requires inside { to ≤ length (run_of self.now.runs v) }
        ensures exact { result ≡ count_by (lets_through mask) (take (to - from) (drop from (run_of self.now.runs v))) }
        ensures in_range { result ≤ to - from }
    {
        let start = row_of(&self.rows, v).start;
        self.cells
            .count((start + from) as usize, (start + to) as usize, mask) as u32
    }

    /// One of the ends that the mask lets through, by its index among them.
    pub fn nth(&self, v: u32, mask: Mask, i: u32) -> End
        requires vertex { v < length self.now.runs }
        requires index { i < count_by (lets_through mask) (run_of self.now.runs v) }
        ensures { slice_get (filter (lets_through mask) (run_of self.now.runs v)) i ≡ Some result }
    {
        let row = self.rows[v as usize];
        let from = row.start as usize;
        self.cells
            .nth(from, from + row.len as usize, mask, i as usize)
    }

    /// Whether one of the ends leads to the vertex across, and the mask lets it through: one pass over the vertices of the
    /// ends, and over nothing else of those that lead elsewhere.
    pub fn has(&self, v: u32, mask: Mask, vertex: u32) -> bool
        requires { v < length self.now.runs }
        ensures { result ≡ list_any (reaches vertex mask) (run_of self.now.runs v) }
    {
        let row = row_of(&self.rows, v);
        let from = row.start as usize;
        self.cells.has(from, from + row.len as usize, mask, vertex)
    }

    /// The least and the greatest moment of the ends from one index up to another.
    pub fn bounds(&self, v: u32, from: u32, to: u32) -> (u64, u64)
        requires vertex { v < length self.now.runs }
        requires some { from < to }
        requires inside { to ≤ length (run_of self.now.runs v) }
        ensures { AreBounds (moments_between from to (run_of self.now.runs v)) result.0 result.1 }
    {
        let start = self.rows[v as usize].start;
        self.cells
            .bounds((start + from) as usize, (start + to) as usize)
    }

    /// Notes that the vertex will have one more end.
    #[inline]
    pub fn note(&mut self, v: u32)
        requires vertex { v < length self.old.runs }
        requires few { slice_index_or self.old.fresh v 0 < 8388608 }
        ensures { self.new ≡ noted self.old v }
    {
        let size = self.cells.len() as u32;
        reach(&mut self.rows, v, unused(size));
        self.rows[v as usize].fresh += 1;
    }

    /// Drops the first end of the vertex.
    #[inline]
    pub fn pop(&mut self, v: u32)
        requires vertex { v < length self.old.runs }
        requires any { 0 < length (run_of self.old.runs v) }
        ensures { self.new ≡ popped self.old v }
    {
        let row = self.rows[v as usize];
        self.rows[v as usize] = Row {
            start: row.start + 1,
            len: row.len - 1,
            spare: row.spare,
            fresh: row.fresh,
        };
    }

    /// Puts an end behind those of the vertex, where it has room.
    #[inline]
    pub fn push(&mut self, v: u32, end: End)
        requires vertex { v < length self.old.runs }
        requires room { 0 < slice_index_or self.old.spare v 0 }
        ensures { self.new ≡ pushed self.old v end }
    {
        let row = self.rows[v as usize];
        self.cells.set((row.start + row.len) as usize, end);
        self.rows[v as usize] = Row {
            start: row.start,
            len: row.len + 1,
            spare: row.spare - 1,
            fresh: row.fresh,
        };
    }

    /// Counts the kinds before each block of cells and bounds its moments, which `count` and `nth` use until the next `push`
    /// or `open`. It takes time in the number of cells that `open` made.
    pub fn seal(&mut self)
        ensures { self.new ≡ self.old }
    {
        self.cells.seal();
    }

    /// Forgets all ends and notes.
    pub fn clear(&mut self)
        ensures { self.new ≡ emptied self.old }
    {
        self.rows.clear();
    }

    /// Gives each vertex room for what was noted, so that it can be pushed. It takes time in the number of all ends and
    /// in the greatest vertex that was noted since `clear`.
    pub fn open(&mut self)
        requires { wanted self.old ≤ self.old.room }
        ensures { self.new ≡ opened self.old }
    {
        lay_out(&mut self.rows, &mut self.cells);
    }
}
