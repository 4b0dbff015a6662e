//! The pool of the first two cells of each vertex.
ghost use Rattle.std.specs.Prelude.{◌≡◌, ◌+◌, ◌-◌, ◌<◌, ◌≤◌, [], ◌++◌, IfOk, length, replicate, slice_index, vec_capacity};
ghost use Rattle.gj_pool.specs.Lists.{appended, cells_of};

use gj_base::Memory;
use std::alloc::Global;
use std::marker::Model;

/// The first cells of one vertex.
#[derive(Clone, Copy)]
struct Pair {
    degree: u32,
    cells: [u32; 2],
    ghost in_range: { degree ≤ 2 },
    ghost whole: { length cells ≡ 2 },
}

/// At most two cells for each vertex: level 0 of an [`EdgePool`](crate::EdgePool).
#[derive(Drop)]
pub struct RegularPool {
    // those of the vertices up to the greatest that was pushed for
    pairs: Vec<Pair>,
    vertices: u32,
}

/// A vertex with no cell.
const NO_CELL: Pair = Pair {
    degree: 0,
    cells: [0; 2],
};

impl Model for RegularPool {
    ghost use Rattle.std.specs.Prelude.{List, ℕ, ◌≤◌, length, vec_capacity};

    ghost Value = { List (List ℕ) };

    ghost use Rattle.gj_pool.specs.Pairs.{pair_lists};

    ghost view = { λ pool. pair_lists pool.pairs.items pool.vertices };

    ghost invariant = { λ pool. (length pool.pairs.items ≤ pool.vertices) × (pool.vertices ≤ vec_capacity pool.pairs) };
}

impl RegularPool {
    /// A pool of `vertices` empty lists. It reserves all its memory here, and touches none of it.
    pub fn new(alloc: Global, vertices: u32) -> Result<RegularPool, Memory>
        requires some { 0 < vertices }
        requires limit { vertices ≤ 65536 }
        ensures ok { IfOk result (λ pool. pool ≡ replicate vertices []) }
    {
        match Vec::with_capacity(alloc, vertices as usize) {
            Ok(pairs) => Ok(RegularPool { pairs, vertices }),
            Err(_) => Err(Memory),
        }
    }

    /// Appends a cell to the list of vertex `v`. It takes no memory.
    pub fn push(&mut self, v: u32, cell: u32)
        requires in_range { v < length self.old }
        requires room { length (cells_of self.old v) < 2 }
        ensures exact { self.new ≡ appended self.old v cell }
    {
        reach(&mut self.pairs, v, NO_CELL);
        let pair = &mut self.pairs[v as usize];
        pair.cells[pair.degree as usize] = cell;
        pair.degree += 1;
    }

    /// The cell at place `i` of vertex `v`.
    pub fn get(&self, v: u32, i: u32) -> u32
        requires in_range { v < length self.now }
        requires held { i < length (cells_of self.now v) }
        ensures exact { result ≡ slice_index (cells_of self.now v) i }
    {
        self.pairs[v as usize].cells[i as usize]
    }

    /// The number of cells of vertex `v`.
    pub fn degree(&self, v: u32) -> u32
        requires in_range { v < length self.now }
        ensures exact { result ≡ length (cells_of self.now v) }
        ensures limit { result ≤ 2 }
    {
        if (v as usize) < self.pairs.len() {
            self.pairs[v as usize].degree
        } else {
            0
        }
    }

    /// Empties each list. It takes no memory.
    pub fn clear(&mut self)
        ensures exact { self.new ≡ replicate (length self.old) [] }
    {
        self.pairs.clear();
    }
}

/// Makes pairs up to that of the vertex.
#[inline]
fn reach(pairs: &mut Vec<Pair>, v: u32, pair: Pair)
    requires { v < vec_capacity pairs.old }
    ensures pairs { pairs.new.items ≡ pairs.old.items ++ replicate (v + 1 - length pairs.old.items) pair }
    ensures capacity { vec_capacity pairs.old ≤ vec_capacity pairs.new }
{
    if pairs.len() <= v as usize {
        pairs.resize(v as usize + 1, pair).unwrap();
    }
}
