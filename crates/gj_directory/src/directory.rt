//! The identifiers of a window, the ends of its older part, and the count of the others.
ghost use Rattle.std.specs.Prelude.{◌≡◌, ℕ, ◌+◌, ◌-◌, ◌<◌, ◌≤◌, ◌↔◌, ◌++◌, [], ◌∷◌, length, take, drop, count_by, IfOk, IfSome, IsTrue, slice_get, slice_index, Some, None};
ghost use Rattle.std.specs.VecDeque.{deque_capacity};
ghost use Rattle.gj_base.specs.declared.mask.Mask.{Mask};
ghost use Rattle.gj_base.specs.Edges.{edges_of};
ghost use Rattle.gj_base.specs.Ends.{ends, passes, leads_to};
ghost use Rattle.gj_base.specs.Firsts.{place_of};
ghost use Rattle.gj_base.specs.Kinds.{all_kinds};
ghost use Rattle.gj_directory.specs.Counting.{AreCounts};
ghost use Rattle.gj_directory.specs.Directories.{held, ids_of};

use crate::half::Half;
use crate::parts::between;
use crate::picking::{marks_of, pick_marked};
use crate::reads::{count_in, end_in, half_of, total_in, vertex_in};
use gj_base::{Hint, Item, Kind, Mask, Memory, Side};
use gj_compact::{Counts, Edge, NO_COUNTS};
use std::alloc::Global;
use std::collections::VecDeque;
use std::marker::Model;

/// The interactions of a window by numbers of its own: those of its older part with each vertex's ends contiguous, and the
/// others, whose ends are counted.
#[derive(Drop)]
pub struct Directory {
    users: Half,
    posts: Half,
    edges: VecDeque<Edge>,
    full: u32,
    counts: Counts,
    // Where the identifiers are kept while they are numbered anew.
    ids: Vec<u64>,
}

impl Model for Directory {
    ghost use Rattle.gj_directory.specs.Directories.{Directed};

    ghost Value = { Directed };

    ghost use Rattle.gj_directory.specs.Showing.{directed_of, IsDirectory};

    ghost view = { directed_of };

    ghost invariant = { IsDirectory };
}

/// Drops the first ones, and counts them no more.
fn drop_front(edges: &mut VecDeque<Edge>, counts: &mut Counts, count: u32)
    requires inside { count ≤ length edges.old.items }
    requires counted { AreCounts counts.old edges.old.items }
    ensures items { edges.new.items ≡ drop count edges.old.items }
    ensures counted { AreCounts counts.new edges.new.items }
    ensures capacity { deque_capacity edges.new ≡ deque_capacity edges.old }
{
    for _i in 0..count {
        if let Some(edge) = edges.pop_front() {
            *counts = counts.less(edge.kind);
        }
    }
}

impl Directory {
    /// An empty directory for that many interactions, and for that many identifiers of each side. It takes all memory that
    /// it will use.
    pub fn new(alloc: Global, room: u32, names: u32) -> Result<Directory, Memory>
        requires room { room ≤ 4194304 }
        requires any { 1 ≤ names }
        requires fits { names ≤ 8388608 }
        ensures full { IfOk result (λ d. d.full ≡ []) }
        ensures fresh { IfOk result (λ d. d.fresh ≡ []) }
        ensures room { IfOk result (λ d. d.room ≡ room) }
        ensures names { IfOk result (λ d. d.names ≡ names) }
        ensures users { IfOk result (λ d. d.users ≡ []) }
        ensures posts { IfOk result (λ d. d.posts ≡ []) }
    {
        let users = Half::new(alloc, room, names)?;
        let posts = Half::new(alloc, room, names)?;
        let Ok(edges) = VecDeque::with_capacity(alloc, room as usize) else {
            return Err(Memory);
        };
        let Ok(ids) = Vec::with_capacity(alloc, names as usize) else {
            return Err(Memory);
        };
        Ok(Directory {
            users,
            posts,
            edges,
            full: 0,
            counts: NO_COUNTS,
            ids,
        })
    }

    /// How many interactions it has.
    #[inline]
    pub fn len(&self) -> u32
        ensures exact { result ≡ length (held self.now) }
        ensures in_range { result ≤ self.now.room }
        ensures fits { self.now.room ≤ 4194304 }
    {
        self.edges.len() as u32
    }

    /// The interaction at a place.
    pub fn item(&self, place: u32) -> Item
        requires { place < length (held self.now) }
        ensures { slice_get (held self.now) place ≡ Some result }
    {
        let edge = self.edges[place as usize];
        Item {
            user: self.users.names.id_of(edge.user),
            post: self.posts.names.id_of(edge.post),
            kind: edge.kind,
            at: edge.at,
        }
    }

    /// How many interactions the mask lets through: at once for kinds alone, and by a pass over all where there is a least
    /// moment.
    pub fn total(&self, mask: Mask) -> u32
        ensures exact { result ≡ count_by (passes mask) (held self.now) }
        ensures in_range { result ≤ 4194304 }
    {
        if mask.not_before() == 0 {
            return self.counts.of(mask) as u32;
        }
        let (front, back) = self.edges.as_slices();
        (total_in(front, mask) + total_in(back, mask)) as u32
    }

    /// Whether that many identifiers of each side may still come.
    pub fn has_spare(&self, count: u32) -> bool
        ensures exact { IsTrue result ↔ ((length self.now.users + count ≤ self.now.names) × (length self.now.posts + count ≤ self.now.names)) }
    {
        self.users.names.spare() >= count && self.posts.names.spare() >= count
    }

    /// The number of a vertex. One that has none has no interaction.
    #[inline]
    pub fn find(&self, side: Side, id: u64) -> Option<u32>
        ensures exact { result ≡ place_of (ids_of self.now side) id }
        ensures held { IfSome result (λ v. (v < length (ids_of self.now side)) × (slice_index (ids_of self.now side) v ≡ id)) }
        ensures absent { result ≡ None → (mask : Mask) → (ends self.now.full side id mask ≡ []) × (ends self.now.fresh side id mask ≡ []) }
    {
        half_of(side, &self.users, &self.posts).names.find(id)
    }

    /// The same, where the hint's place is looked at first.
    #[inline]
    pub fn find_near(&self, side: Side, id: u64, hint: Hint) -> Option<u32>
        ensures exact { result ≡ place_of (ids_of self.now side) id }
        ensures held { IfSome result (λ v. (v < length (ids_of self.now side)) × (slice_index (ids_of self.now side) v ≡ id)) }
        ensures absent { result ≡ None → (mask : Mask) → (ends self.now.full side id mask ≡ []) × (ends self.now.fresh side id mask ≡ []) }
    {
        half_of(side, &self.users, &self.posts)
            .names
            .find_near(id, hint.place)
    }

    /// How many ends the vertex has under the mask among the interactions that are laid out, and how many of all kinds and
    /// moments among the others.
    #[inline]
    pub fn degrees(&self, side: Side, v: u32, mask: Mask) -> (u32, u32)
        requires { v < length (ids_of self.now side) }
        ensures full { result.0 ≡ length (ends self.now.full side (slice_index (ids_of self.now side) v) mask) }
        ensures fresh { result.1 ≡ length (ends self.now.fresh side (slice_index (ids_of self.now side) v) all_kinds) }
        ensures in_range { result.0 + result.1 ≤ 4194304 }
    {
        let half = half_of(side, &self.users, &self.posts);
        (count_in(&half.lane, v, mask), half.lane.fresh(v))
    }

    /// One of the vertex's ends under the mask among the interactions that are laid out, by its index in order, with its
    /// kind.
    #[inline]
    pub fn end(&self, side: Side, v: u32, mask: Mask, i: u32) -> (u64, Kind)
        requires vertex { v < length (ids_of self.now side) }
        requires index { i < length (ends self.now.full side (slice_index (ids_of self.now side) v) mask) }
        ensures { slice_get (ends self.now.full side (slice_index (ids_of self.now side) v) mask) i ≡ Some result }
    {
        let end = end_in(&half_of(side, &self.users, &self.posts).lane, v, mask, i);
        let far = half_of(side, &self.posts, &self.users);
        (far.names.id_of(end.vertex), end.kind)
    }

    /// The vertex across from it by this end, and a hint that finds that vertex at once.
    #[inline]
    pub fn end_near(&self, side: Side, v: u32, mask: Mask, i: u32) -> (u64, Hint)
        requires vertex { v < length (ids_of self.now side) }
        requires index { i < length (ends self.now.full side (slice_index (ids_of self.now side) v) mask) }
        ensures { IfSome (slice_get (ends self.now.full side (slice_index (ids_of self.now side) v) mask) i) (λ end. result.0 ≡ end.0) }
    {
        let place = vertex_in(&half_of(side, &self.users, &self.posts).lane, v, mask, i);
        let far = half_of(side, &self.posts, &self.users);
        (far.names.id_of(place), Hint { place })
    }

    /// Whether one of the vertex's ends under the mask among the interactions that are laid out is the other vertex: by one
    /// lookup of its number, and one pass over the numbers at the ends.
    #[inline]
    pub fn has_end(&self, side: Side, v: u32, mask: Mask, other: u64) -> bool
        requires { v < length (ids_of self.now side) }
        ensures { result ≡ leads_to (ends self.now.full side (slice_index (ids_of self.now side) v) mask) other }
    {
        let own = half_of(side, &self.users, &self.posts);
        let far = half_of(side, &self.posts, &self.users);
        match far.names.find(other) {
            Some(place) => own.lane.has(v, mask, place),
            None => false,
        }
    }

    /// Puts an interaction behind the others.
    #[inline]
    pub fn note(&mut self, item: Item)
        requires room { length (held self.old) < self.old.room }
        requires users { length self.old.users < self.old.names }
        requires posts { length self.old.posts < self.old.names }
        ensures full { self.new.full ≡ self.old.full }
        ensures fresh { self.new.fresh ≡ self.old.fresh ++ item ∷ [] }
        ensures room { self.new.room ≡ self.old.room }
        ensures names { self.new.names ≡ self.old.names }
        ensures users { length self.new.users ≤ length self.old.users + 1 }
        ensures posts { length self.new.posts ≤ length self.old.posts + 1 }
    {
        let user = self.users.note(item.user);
        let post = self.posts.note(item.post);
        self.edges.push_back_reserved(Edge {
            user,
            post,
            kind: item.kind,
            at: item.at,
        });
        self.counts = self.counts.more(item.kind);
    }

    /// Lays out the first ones of those that came after the others. It takes time in the number of all interactions.
    pub fn settle(&mut self, count: u32)
        requires { count ≤ length self.old.fresh }
        ensures full { self.new.full ≡ self.old.full ++ take count self.old.fresh }
        ensures fresh { self.new.fresh ≡ drop count self.old.fresh }
        ensures room { self.new.room ≡ self.old.room }
        ensures names { self.new.names ≡ self.old.names }
        ensures users { self.new.users ≡ self.old.users }
        ensures posts { self.new.posts ≡ self.old.posts }
    {
        let to = self.full + count;
        self.users.settle(Side::User, &self.edges, self.full, to);
        self.posts.settle(Side::Post, &self.edges, self.full, to);
        self.full = to;
    }

    /// Drops the oldest ones of those that are laid out. It takes time in their number.
    pub fn rotate(&mut self, count: u32)
        requires { count ≤ length self.old.full }
        ensures full { self.new.full ≡ drop count self.old.full }
        ensures fresh { self.new.fresh ≡ self.old.fresh }
        ensures room { self.new.room ≡ self.old.room }
        ensures names { self.new.names ≡ self.old.names }
        ensures users { self.new.users ≡ self.old.users }
        ensures posts { self.new.posts ≡ self.old.posts }
    {
        self.users.shed(Side::User, &self.edges, self.full, count);
        self.posts.shed(Side::Post, &self.edges, self.full, count);
        drop_front(&mut self.edges, &mut self.counts, count);
        self.full -= count;
    }

    /// Numbers the vertices anew, so that none has a number without an interaction. It takes time in the number of all
    /// interactions.
    pub fn rename(&mut self)
        requires { length (held self.old) ≤ self.old.names }
        ensures full { self.new.full ≡ self.old.full }
        ensures fresh { self.new.fresh ≡ self.old.fresh }
        ensures room { self.new.room ≡ self.old.room }
        ensures names { self.new.names ≡ self.old.names }
        ensures users { length self.new.users ≤ length (held self.old) }
        ensures posts { length self.new.posts ≤ length (held self.old) }
    {
        self.users
            .renumber(Side::User, &mut self.edges, &mut self.ids);
        self.posts
            .renumber(Side::Post, &mut self.edges, &mut self.ids);
        self.users.settle(Side::User, &self.edges, 0, self.full);
        self.posts.settle(Side::Post, &self.edges, 0, self.full);
    }

    /// The eligible interactions of these users, in order. It takes time in the number of all interactions, and memory for
    /// those that it gives and a byte for each identifier of a user.
    pub fn edges_of(&self, alloc: Global, users: &[u64], mask: Mask) -> Result<Vec<Item>, Memory>
        ensures { IfOk result (λ edges. edges.items ≡ edges_of (held self.now) users.now mask) }
    {
        let (names, posts) = (&self.users.names, &self.posts.names);
        let marks = marks_of(alloc, names, users)?;
        let (front, back) = self.edges.as_slices();
        let mut picked = Vec::new(alloc);
        pick_marked(&mut picked, front, names, posts, &marks, mask)?;
        pick_marked(&mut picked, back, names, posts, &marks, mask)?;
        Ok(picked)
    }
}
