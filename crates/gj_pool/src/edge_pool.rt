//! The pool of all cells of each vertex.
ghost use Rattle.std.specs.Prelude.{◌≡◌, ◌+◌, ◌-◌, ◌<◌, ◌≤◌, [], IfOk, length, replicate, slice_index};
ghost use Rattle.gj_pool.specs.Levels.{hops_to};
ghost use Rattle.gj_pool.specs.Lists.{appended, cells_of};
ghost use Rattle.gj_pool.specs.Pools.{left_of, total_of};
ghost use Rattle.gj_pool.specs.Slices.{cut_for};

use crate::levels::links_to;
use crate::regular_pool::RegularPool;
use crate::slices::Slices;
use gj_base::Memory;
use std::alloc::Global;
use std::marker::Model;

/// A list of cells for each vertex, in slices that double in size. `new` takes all memory.
#[derive(Drop)]
pub struct EdgePool {
    regular: RegularPool,
    slices: Slices,
    edges: u32,
    left: u32,
}

impl Model for EdgePool {
    ghost use Rattle.gj_pool.specs.Pools.{IsPool, Pooled, joined};

    ghost Value = { Pooled };

    ghost view = { λ pool. record { lists = joined pool.regular pool.slices.lists; edges = pool.edges } };

    ghost invariant = { λ pool. IsPool pool.regular pool.slices.lists pool.slices.room pool.edges pool.left };
}

impl EdgePool {
    /// A pool of `vertices` empty lists, which takes `edges` pushes between two clears. It reserves all its memory here, and
    /// touches that of the cells only as slices are cut.
    pub fn new(alloc: Global, vertices: u32, edges: u32) -> Result<EdgePool, Memory>
        requires some_vertices { 0 < vertices }
        requires some_edges { 0 < edges }
        requires vertices_limit { vertices ≤ 65536 }
        requires edges_limit { edges ≤ 65536 }
        ensures lists { IfOk result (λ pool. pool.lists ≡ replicate vertices []) }
        ensures edges { IfOk result (λ pool. pool.edges ≡ edges) }
    {
        let regular = RegularPool::new(alloc, vertices)?;
        let slices = Slices::new(alloc, vertices, 3 * edges)?;
        Ok(EdgePool {
            regular,
            slices,
            edges,
            left: edges,
        })
    }

    /// Appends a cell to the list of vertex `v`. It takes no memory, and the same time at each degree.
    pub fn push(&mut self, v: u32, cell: u32)
        requires in_range { v < length self.old.lists }
        requires room { 0 < left_of self.old }
        ensures exact { self.new ≡ record self.old { lists = appended self.old.lists v cell } }
    {
        place(&mut self.regular, &mut self.slices, v, cell);
        self.left -= 1;
    }

    /// The cell at place `i` of vertex `v`. It follows `hops(v, i)` links.
    pub fn get(&self, v: u32, i: u32) -> u32
        requires in_range { v < length self.now.lists }
        requires held { i < length (cells_of self.now.lists v) }
        ensures exact { result ≡ slice_index (cells_of self.now.lists v) i }
    {
        if i < 2 {
            self.regular.get(v, i)
        } else {
            self.slices.get(v, i - 2)
        }
    }

    /// The number of links that are followed to reach place `i` of vertex `v`.
    pub fn hops(&self, v: u32, i: u32) -> u32
        requires in_range { v < length self.now.lists }
        requires held { i < length (cells_of self.now.lists v) }
        ensures exact { result ≡ hops_to i }
    {
        links_to(u64::from(i))
    }

    /// The number of cells of vertex `v`.
    pub fn degree(&self, v: u32) -> u32
        requires in_range { v < length self.now.lists }
        ensures exact { result ≡ length (cells_of self.now.lists v) }
    {
        self.regular.degree(v) + self.slices.degree(v)
    }

    /// The number of pushes that are left before the next clear.
    pub fn left(&self) -> u32
        ensures exact { result ≡ left_of self.now }
        ensures in_range { total_of self.now.lists ≤ self.now.edges }
    {
        self.left
    }

    /// Empties each list, so that all pushes are left. It takes time in the largest vertex that was pushed for since the last
    /// clear, and no memory.
    pub fn clear(&mut self)
        ensures exact { self.new ≡ record self.old { lists = replicate (length self.old.lists) [] } }
    {
        self.regular.clear();
        self.slices.clear();
        self.left = self.edges;
    }
}

/// Appends the cell where the vertex has room for it: at level 0, or past it.
fn place(regular: &mut RegularPool, slices: &mut Slices, v: u32, cell: u32)
    requires in_range { v < length regular.old }
    requires long { v < length slices.old.lists }
    requires room { length (cells_of regular.old v) ≡ 2 → cut_for (appended slices.old.lists v cell) ≤ slices.old.room }
    requires small { length (cells_of regular.old v) ≤ 2 }
    ensures first { length (cells_of regular.old v) < 2 → (regular.new ≡ appended regular.old v cell) × (slices.new ≡ slices.old) }
    ensures later { length (cells_of regular.old v) ≡ 2 → (regular.new ≡ regular.old) × (slices.new ≡ record slices.old { lists = appended slices.old.lists v cell }) }
{
    if regular.degree(v) < 2 {
        regular.push(v, cell);
    } else {
        slices.push(v, cell);
    }
}
