//! The segment in contiguous form.
ghost use Rattle.std.specs.Prelude.{◌≡◌, ◌+◌, ◌<◌, ◌≤◌, [], ◌∷◌, ◌++◌, IfOk, length, map, vec_len, vec_capacity};
ghost use Rattle.gj_base.specs.Numbered.{numbered};
ghost use Rattle.gj_compact.specs.Turns.{plain};

use crate::counts::{Counts, NO_COUNTS};
use crate::edge::Edge;
use crate::part::Part;
use crate::totals::count_all;
use gj_base::{Memory, SegmentView, Side};
use std::alloc::Global;
use std::marker::Model;

/// The interactions of a segment, with the edges of each vertex beside each other.
#[derive(Drop)]
pub struct CompactSegment {
    pub(crate) users: Part,
    pub(crate) posts: Part,
    pub(crate) edges: Vec<Edge>,
    pub(crate) kinds: Counts,
    room: u32,
}

impl Model for CompactSegment {
    ghost use Rattle.gj_compact.specs.Compact.{Segment, shown_by, IsCompact};

    ghost Value = { Segment };

    ghost view = { shown_by };

    ghost invariant = { IsCompact };
}

/// Pushes without taking memory.
fn push_within(edges: &mut Vec<Edge>, edge: Edge)
    requires { vec_len edges.old < vec_capacity edges.old }
    ensures items { edges.new.items ≡ edges.old.items ++ edge ∷ [] }
    ensures capacity { vec_capacity edges.old ≤ vec_capacity edges.new }
{
    edges.push(edge).unwrap();
}

/// Takes the interactions of the segment by their numbers, whatever was there before.
fn copy_edges<V: SegmentView>(edges: &mut Vec<Edge>, from: &V)
    requires { length (V.listed from.now) ≤ vec_capacity edges.old }
    ensures items { map plain edges.new.items ≡ numbered (V.listed from.now) }
    ensures capacity { vec_capacity edges.old ≤ vec_capacity edges.new }
{
    edges.truncate(0);
    for i in 0..from.len() {
        let (user, post, kind, at) = from.item(i);
        push_within(
            edges,
            Edge {
                user,
                post,
                kind,
                at,
            },
        );
    }
}

impl CompactSegment {
    /// An empty segment that may hold that many interactions. It takes all memory that the segment will use.
    pub fn new(alloc: Global, capacity: u32) -> Result<CompactSegment, Memory>
        requires any { 1 ≤ capacity }
        requires fits { capacity ≤ 65536 }
        ensures empty { IfOk result (λ s. s.items ≡ []) }
        ensures room { IfOk result (λ s. s.room ≡ capacity) }
    {
        let users = Part::new(alloc, capacity)?;
        let posts = Part::new(alloc, capacity)?;
        match Vec::with_capacity(alloc, capacity as usize) {
            Ok(edges) => Ok(CompactSegment {
                users,
                posts,
                edges,
                kinds: NO_COUNTS,
                room: capacity,
            }),
            Err(_) => Err(Memory),
        }
    }

    /// Takes over the interactions of another segment, whatever was there before. It takes time in their number, and no
    /// memory.
    pub fn fill_from<V: SegmentView>(&mut self, from: &V)
        requires { length (V.listed from.now) ≤ self.old.room }
        ensures items { self.new.items ≡ V.listed from.now }
        ensures room { self.new.room ≡ self.old.room }
    {
        copy_edges(&mut self.edges, from);
        self.kinds = count_all(&self.edges);
        self.users.take(Side::User, from, &self.edges);
        self.posts.take(Side::Post, from, &self.edges);
    }
}
