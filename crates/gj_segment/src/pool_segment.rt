//! The segment that takes writes.
ghost use Rattle.std.specs.Prelude.{◌≡◌, ◌≢◌, ◌+◌, ◌<◌, ◌≤◌, ◌↔◌, [], ◌∷◌, ◌++◌, IfOk, IsTrue, length, slice_get, Some, vec_len, vec_capacity};
ghost use Rattle.gj_segment.specs.Segment.{Segment};

use crate::edge::Edge;
use crate::half::Half;
use gj_base::{Item, Memory};
use std::alloc::Global;
use std::marker::Model;

/// The interactions of a segment in the order in which they came, with the places of each vertex in pools.
#[derive(Drop)]
pub struct PoolSegment {
    pub(crate) users: Half,
    pub(crate) posts: Half,
    pub(crate) edges: Vec<Edge>,
    room: u32,
}

impl Model for PoolSegment {
    ghost use Rattle.gj_segment.specs.Segment.{Segment, shown_by, IsSegment};

    ghost Value = { Segment };

    ghost view = { shown_by };

    ghost invariant = { IsSegment };
}

/// Pushes without taking memory.
fn push_within(edges: &mut Vec<Edge>, edge: Edge)
    requires { vec_len edges.old < vec_capacity edges.old }
    ensures items { edges.new.items ≡ edges.old.items ++ edge ∷ [] }
    ensures capacity { vec_capacity edges.old ≤ vec_capacity edges.new }
{
    edges.push(edge).unwrap();
}

impl PoolSegment {
    /// An empty segment that may hold that many interactions. It takes all memory that the segment will use.
    pub fn new(alloc: Global, capacity: u32) -> Result<PoolSegment, Memory>
        requires any { 1 ≤ capacity }
        requires fits { capacity ≤ 65536 }
        ensures empty { IfOk result (λ s. s.items ≡ []) }
        ensures room { IfOk result (λ s. s.room ≡ capacity) }
    {
        let users = Half::new(alloc, capacity)?;
        let posts = Half::new(alloc, capacity)?;
        match Vec::with_capacity(alloc, capacity as usize) {
            Ok(edges) => Ok(PoolSegment {
                users,
                posts,
                edges,
                room: capacity,
            }),
            Err(_) => Err(Memory),
        }
    }

    /// Puts the interaction at the end. It takes no memory.
    pub fn add(&mut self, item: Item)
        requires { length self.old.items < self.old.room }
        ensures items { self.new.items ≡ self.old.items ++ item ∷ [] }
        ensures room { self.new.room ≡ self.old.room }
    {
        let place = self.edges.len() as u32;
        let user = self.users.add(item.user, place) as u16;
        let post = self.posts.add(item.post, place) as u16;
        let edge = Edge {
            user,
            post,
            kind: item.kind,
            at: item.at,
        };
        push_within(&mut self.edges, edge);
    }

    /// Whether it holds as many interactions as it may.
    pub fn is_full(&self) -> bool
        ensures exact { IsTrue result ↔ (length self.now.items ≡ self.now.room) }
        ensures in_range { length self.now.items ≤ self.now.room }
        ensures fits { self.now.room ≤ 65536 }
    {
        self.edges.len() == self.room as usize
    }

    /// Removes all interactions. It takes no memory, and time in the numbers of the vertices: the identifiers go at once, the
    /// lists of the pools one by one.
    pub fn clear(&mut self)
        ensures items { self.new.items ≡ [] }
        ensures room { self.new.room ≡ self.old.room }
    {
        self.users.clear();
        self.posts.clear();
        self.edges.truncate(0);
    }
}
