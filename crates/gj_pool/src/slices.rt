//! The slices of the levels from 1 on, cut from one array.
ghost use Rattle.std.specs.Prelude.{◌≡◌, ◌≢◌, ℕ, ◌+◌, ◌-◌, ◌*◌, ◌^◌, ◌<◌, ◌≤◌, [], ◌++◌, IfOk, drop, length, replicate, slice_index, slice_set, vec_capacity};
ghost use Rattle.gj_pool.specs.Levels.{hops_to};
ghost use Rattle.gj_pool.specs.Lists.{appended, cells_of};

use crate::levels::links_to;
use gj_base::Memory;
use std::alloc::Global;
use std::marker::Model;

/// Where the slices of one vertex lie. Level 0 is not counted.
#[derive(Clone, Copy)]
struct Row {
    /// The number of cells that are held.
    degree: u32,
    /// The number of cells of the slices that are cut.
    full: u32,
    /// The start of the first slice.
    first: u32,
    /// Where the next cell goes; the link cell of the last slice where that is full.
    next: u32,
}

/// A list of cells for each vertex, in slices that double in size.
#[derive(Drop)]
pub struct Slices {
    rows: Vec<Row>,
    /// Those of the slices that are cut.
    cells: Vec<u32>,
    /// The number of cells that all slices may have.
    room: u32,
    /// No vertex from here on has a slice.
    begun: usize,
}

impl Model for Slices {
    ghost use Rattle.std.specs.Prelude.{◌≤◌, length, map, vec_capacity};
    ghost use Rattle.gj_pool.specs.Slices.{AreSlices, HaveBegun, Sliced, array_of, row_cells};
    ghost use Rattle.gj_pool.specs.declared.slices.Row.{Row};

    ghost Value = { Sliced };

    ghost view = { λ s. record { lists = map (λ (row : Row). row_cells (array_of s.cells.items s.room) row.first row.degree) s.rows.items; room = s.room } };

    ghost invariant = { λ s. AreSlices s.rows.items (array_of s.cells.items s.room) (length s.cells.items) × HaveBegun s.rows.items s.begun × (length s.cells.items ≤ s.room) × (s.room ≤ vec_capacity s.cells) };
}

impl Slices {
    ghost use Rattle.gj_pool.specs.Slices.{cut_for};

    /// An array of `room` cells for `vertices` empty lists. It reserves all its memory here, and touches the cells only as
    /// slices are cut.
    pub fn new(alloc: Global, vertices: u32, room: u32) -> Result<Slices, Memory>
        requires limit { room ≤ 196608 }
        ensures lists { IfOk result (λ s. s.lists ≡ replicate vertices []) }
        ensures room { IfOk result (λ s. s.room ≡ room) }
    {
        let rows = match vec![in alloc; NO_SLICE; vertices as usize] {
            Ok(rows) => rows,
            Err(_) => return Err(Memory),
        };
        match Vec::with_capacity(alloc, room as usize) {
            Ok(cells) => Ok(Slices {
                rows,
                cells,
                room,
                begun: 0,
            }),
            Err(_) => Err(Memory),
        }
    }

    /// Appends a cell to the list of vertex `v`, and cuts a slice where the last one is full.
    pub fn push(&mut self, v: u32, cell: u32)
        requires in_range { v < length self.old.lists }
        requires room { cut_for (appended self.old.lists v cell) ≤ self.old.room }
        ensures exact { self.new ≡ record self.old { lists = appended self.old.lists v cell } }
    {
        let row = ready(self.rows[v as usize], &mut self.cells);
        self.cells[row.next as usize] = cell;
        self.rows[v as usize] = Row {
            degree: row.degree + 1,
            full: row.full,
            first: row.first,
            next: row.next + 1,
        };
        self.begun = self.begun.max(v as usize + 1);
    }

    /// The cell at place `i` of vertex `v`, places of level 0 not counted. It follows the links one after another.
    pub fn get(&self, v: u32, i: u32) -> u32
        requires in_range { v < length self.now.lists }
        requires held { i < length (cells_of self.now.lists v) }
        ensures exact { result ≡ slice_index (cells_of self.now.lists v) i }
    {
        let row = self.rows[v as usize];
        let mut start = row.first as usize;
        let mut size = 4usize;
        for link in 1..links_to(u64::from(i) + 2) {
            start = self.cells[start + size] as usize;
            size *= 2;
        }
        self.cells[start + (i as usize + 4 - size)]
    }

    /// The number of cells of vertex `v`.
    pub fn degree(&self, v: u32) -> u32
        requires in_range { v < length self.now.lists }
        ensures exact { result ≡ length (cells_of self.now.lists v) }
    {
        self.rows[v as usize].degree
    }

    /// Empties each list. It takes time in the largest vertex that has a slice.
    pub fn clear(&mut self)
        ensures exact { self.new ≡ record self.old { lists = replicate (length self.old.lists) [] } }
    {
        empty(&mut self.rows, self.begun);
        self.cells.clear();
        self.begun = 0;
    }
}

/// A vertex with no slice.
const NO_SLICE: Row = Row {
    degree: 0,
    full: 0,
    first: 0,
    next: 0,
};

/// Empties the first rows.
fn empty(rows: &mut [Row], count: usize)
    requires { count ≤ length rows.old }
    ensures { rows.new ≡ replicate count NO_SLICE ++ drop count rows.old }
{
    rows[..count].fill(NO_SLICE);
}

/// The row with room for one more cell: where its slices are full, with a new slice behind those that are cut.
fn ready(row: Row, cells: &mut Vec<u32>) -> Row
    requires linked { row.degree ≡ row.full → 0 < row.full → row.next < length cells.old.items }
    requires small { row.degree ≡ row.full → length cells.old.items + row.full + 5 ≤ 196608 }
    requires room { row.degree ≡ row.full → length cells.old.items + row.full + 5 ≤ vec_capacity cells.old }
    ensures spare { row.degree ≢ row.full → (result ≡ row) × (cells.new.items ≡ cells.old.items) }
    ensures opened { row.degree ≡ row.full → (result.degree ≡ row.degree) × (result.full ≡ 2 * row.full + 4) × (result.next ≡ length cells.old.items) }
    ensures begun { row.degree ≡ row.full → row.full ≡ 0 → (result.first ≡ length cells.old.items) × (cells.new.items ≡ cells.old.items ++ replicate (row.full + 5) 0) }
    ensures linked { row.degree ≡ row.full → 0 < row.full → (result.first ≡ row.first) × (cells.new.items ≡ slice_set (cells.old.items ++ replicate (row.full + 5) 0) row.next (length cells.old.items)) }
    ensures capacity { vec_capacity cells.old ≤ vec_capacity cells.new }
{
    if row.degree != row.full {
        return row;
    }
    let start = cells.len() as u32;
    cut(cells, row.full as usize + 5);
    if row.full == 0 {
        return Row {
            degree: row.degree,
            full: 4,
            first: start,
            next: start,
        };
    }
    cells[row.next as usize] = start;
    Row {
        degree: row.degree,
        full: 2 * row.full + 4,
        first: row.first,
        next: start,
    }
}

/// Makes the cells of one more slice and its link.
#[inline]
fn cut(cells: &mut Vec<u32>, size: usize)
    requires { length cells.old.items + size ≤ vec_capacity cells.old }
    ensures cells { cells.new.items ≡ cells.old.items ++ replicate size 0 }
    ensures capacity { vec_capacity cells.old ≤ vec_capacity cells.new }
{
    cells.resize(cells.len() + size, 0).unwrap();
}
