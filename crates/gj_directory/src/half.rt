//! One side of a directory.
ghost use Rattle.std.specs.Prelude.{◌≡◌, ◌≤◌, length, vec_capacity};
ghost use Rattle.gj_compact.specs.Turns.{near};
ghost use Rattle.gj_directory.specs.Sides.{with_near};

use crate::parts::{between, fill_parts, note_parts, shed_parts};
use gj_base::{Memory, Side};
use gj_compact::{Edge, Lane};
use gj_names::Names;
use std::alloc::Global;
use std::collections::VecDeque;

/// The vertices of one side, and the ends of each.
#[derive(Drop)]
pub struct Half {
    pub names: Names,
    pub lane: Lane,
}

/// The number of the interaction's vertex on a side.
fn near(side: Side, edge: Edge) -> u32
    ensures { result ≡ near side edge }
{
    match side {
        Side::User => edge.user,
        Side::Post => edge.post,
    }
}

/// The interaction with another number for its vertex on a side.
fn with_near(side: Side, edge: Edge, v: u32) -> Edge
    ensures { result ≡ with_near side edge v }
{
    match side {
        Side::User => Edge { user: v, ..edge },
        Side::Post => Edge { post: v, ..edge },
    }
}

/// Takes over the identifiers.
fn copy_ids(ids: &mut Vec<u64>, names: &Names)
    requires { length names.now.ids ≤ vec_capacity ids.old }
    ensures ids { ids.new.items ≡ names.now.ids }
    ensures capacity { vec_capacity ids.old ≤ vec_capacity ids.new }
{
    ids.clear();
    for v in 0..names.len() {
        ids.push_reserved(names.id_of(v));
    }
}

impl Half {
    ghost use Rattle.std.specs.Prelude.{◌≡◌, ℕ, List, ◌<◌, ◌≤◌, [], IfOk, Some, length, take, drop, map, vec_capacity};
    ghost use Rattle.std.specs.VecDeque.{deque_capacity};
    ghost use Rattle.gj_base.specs.Ends.{other_side};
    ghost use Rattle.gj_base.specs.Firsts.{place_of, with_id};
    ghost use Rattle.gj_base.specs.declared.side.Side.{Side};
    ghost use Rattle.gj_compact.specs.Lanes.{noted};
    ghost use Rattle.gj_compact.specs.Turns.{near};
    ghost use Rattle.gj_names.specs.Named.{IsNamed};
    ghost use Rattle.gj_directory.specs.Sides.{IsSide, IsWide, CanNote, AreNamed, items_from};

    /// A side without names, for that many interactions and identifiers. It takes all memory that it will use.
    pub fn new(alloc: Global, room: u32, names: u32) -> Result<Half, Memory>
        requires room { room ≤ 4194304 }
        requires any { 1 ≤ names }
        requires fits { names ≤ 8388608 }
        ensures empty { IfOk result (λ half. (side : Side) → IsSide half.names half.lane side [] []) }
        ensures ids { IfOk result (λ half. half.names.ids ≡ []) }
        ensures names { IfOk result (λ half. half.names.room ≡ names) }
        ensures room { IfOk result (λ half. half.lane.room ≡ room) }
    {
        let lane = Lane::new(alloc, names, room)?;
        let names = Names::new(alloc, names)?;
        Ok(Half { names, lane })
    }

    /// Notes one more interaction of a vertex, and gives the vertex's number.
    #[inline]
    pub fn note(&mut self, id: u64) -> u32
        requires { CanNote self.old.names self.old.lane }
        ensures ids { self.new.names.ids ≡ with_id self.old.names.ids id }
        ensures place { place_of self.new.names.ids id ≡ Some result }
        ensures in_range { result < length self.new.names.ids }
        ensures room { self.new.names.room ≡ self.old.names.room }
        ensures lawful { IsNamed self.new.names }
        ensures lane { self.new.lane ≡ noted self.old.lane result }
    {
        let v = self.names.put(id);
        self.lane.note(v);
        v
    }

    /// Lays out the interactions from one place up to another behind those before, and notes those after them.
    pub fn settle(&mut self, side: Side, edges: &VecDeque<Edge>, from: u32, to: u32)
        requires held { IsSide self.old.names self.old.lane side (take from edges.now.items) (drop from edges.now.items) }
        requires order { from ≤ to }
        requires inside { to ≤ length edges.now.items }
        requires room { length edges.now.items ≤ self.old.lane.room }
        requires small { self.old.lane.room ≤ 4194304 }
        ensures held { IsSide self.new.names self.new.lane side (take to edges.now.items) (drop to edges.now.items) }
        ensures names { self.new.names ≡ self.old.names }
        ensures room { self.new.lane.room ≡ self.old.lane.room }
    {
        self.lane.open();
        let (front, back) = between(edges, from as usize, to as usize);
        fill_parts(&mut self.lane, side, front, back);
        let (front, back) = between(edges, to as usize, edges.len());
        note_parts(&mut self.lane, side, front, back);
        self.lane.seal();
    }

    /// Takes away the first ones of the interactions that are laid out.
    pub fn shed(&mut self, side: Side, edges: &VecDeque<Edge>, full: u32, count: u32)
        requires held { IsSide self.old.names self.old.lane side (take full edges.now.items) (drop full edges.now.items) }
        requires order { count ≤ full }
        requires inside { full ≤ length edges.now.items }
        ensures held { IsSide self.new.names self.new.lane side (drop count (take full edges.now.items)) (drop full edges.now.items) }
        ensures names { self.new.names ≡ self.old.names }
        ensures room { self.new.lane.room ≡ self.old.lane.room }
    {
        let (front, back) = between(edges, 0, count as usize);
        shed_parts(&mut self.lane, side, front, back);
    }

    /// Numbers the vertices of the interactions anew, and notes each of these.
    pub fn renumber(&mut self, side: Side, edges: &mut VecDeque<Edge>, ids: &mut Vec<u64>)
        requires wide { IsWide self.old.names self.old.lane }
        requires within { length self.old.names.ids ≤ self.old.names.room }
        requires known { AreNamed self.old.names.ids side edges.old.items }
        requires room { length edges.old.items ≤ self.old.names.room }
        requires few { length edges.old.items ≤ 4194304 }
        requires saved { self.old.names.room ≤ vec_capacity ids.old }
        ensures held { IsSide self.new.names self.new.lane side [] edges.new.items }
        ensures far { map (near (other_side side)) edges.new.items ≡ map (near (other_side side)) edges.old.items }
        ensures items { (far : List ℕ) → items_from side self.new.names.ids far edges.new.items ≡ items_from side self.old.names.ids far edges.old.items }
        ensures long { length edges.new.items ≡ length edges.old.items }
        ensures reserved { deque_capacity edges.new ≡ deque_capacity edges.old }
        ensures few { length self.new.names.ids ≤ length edges.old.items }
        ensures names { self.new.names.room ≡ self.old.names.room }
        ensures size { self.new.lane.room ≡ self.old.lane.room }
        ensures capacity { vec_capacity ids.old ≤ vec_capacity ids.new }
    {
        copy_ids(ids, &self.names);
        self.names.clear();
        self.lane.clear();
        for i in 0..edges.len() {
            let edge = edges[i];
            let v = self.note(ids[near(side, edge) as usize]);
            edges[i] = with_near(side, edge, v);
        }
    }
}
