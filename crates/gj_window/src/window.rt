//! The window.
ghost use Rattle.std.specs.Prelude.{◌≡◌, ◌+◌, ◌/◌, ◌%◌, ◌^◌, ◌<◌, ◌≤◌, ◌==◌, [], ◌∷◌, length, IfOk, if◌then◌else◌};
ghost use Rattle.gj_base.specs.History.{IsWindow};
ghost use Rattle.gj_window.specs.Segments.{shown_from};

use crate::segments::Segments;
use gj_base::{Conf, Graph, Grow, Hint, Item, Kind, Mask, Memory, NO_HINT, Side};
use std::alloc::Global;

/// The retained interactions, from the place `first` on. Each question finds its vertex by one lookup, whatever the number of
/// segments.
#[derive(Drop)]
pub struct Window {
    first: u64,
    segments: Segments,
    ghost window: { IsWindow (shown_from first segments) },
}

impl Window {
    ghost use Rattle.gj_window.specs.Windows.{pooled, contiguous, shown_by};

    /// How many retained segments are in pool form, and how many in contiguous form. An empty newest segment is not counted.
    pub fn forms(&self) -> (u32, u32)
        ensures pooled { result.0 ≡ pooled self.now }
        ensures contiguous { result.1 ≡ contiguous self.now }
    {
        self.segments.forms()
    }

    /// Puts each full segment into contiguous form. It takes no memory, and time in the number of all interactions where one
    /// is full.
    pub fn compact(&mut self)
        ensures same { shown_by self.new ≡ shown_by self.old }

        // Only a newest segment that isn't full is left in pool form.
        ensures contiguous { contiguous self.new ≡ length (shown_by self.new).items / (shown_by self.new).capacity }
        ensures pooled { pooled self.new ≡ (if length (shown_by self.new).items % (shown_by self.new).capacity == 0 then 0 else 1) }
    {
        self.segments.compact();
    }
}

impl Graph for Window {
    ghost use Rattle.gj_window.specs.Windows.{shown_by};

    ghost shown = { shown_by };

    ghost is_window = { λ w. w.window };

    fn conf(&self) -> Conf {
        self.segments.conf()
    }

    #[inline]
    fn length(&self) -> u64 {
        self.first + u64::from(self.segments.len())
    }

    #[inline]
    fn base(&self) -> u64 {
        self.first
    }

    #[inline]
    fn item(&self, place: u64) -> Item {
        let _room = self.segments.len();
        self.segments.item((place - self.first) as u32)
    }

    fn total(&self, mask: Mask) -> u64 {
        u64::from(self.segments.total(mask))
    }

    #[inline]
    fn count(&self, side: Side, id: u64, mask: Mask) -> u64 {
        u64::from(self.segments.count(side, id, mask))
    }

    #[inline]
    fn edge(&self, side: Side, id: u64, mask: Mask, i: u64) -> (u64, Kind) {
        let _room = self.segments.len();
        self.segments.edge(side, id, mask, i as u32)
    }

    #[inline]
    fn pick_end(&self, side: Side, id: u64, mask: Mask, word: u64) -> Option<u64> {
        self.segments.pick_end_near(side, id, NO_HINT, mask, word).0
    }

    #[inline]
    fn pick_end_near(
        &self,
        side: Side,
        id: u64,
        hint: Hint,
        mask: Mask,
        word: u64,
    ) -> (Option<u64>, Hint) {
        self.segments.pick_end_near(side, id, hint, mask, word)
    }

    fn edges_of(&self, alloc: Global, users: &[u64], mask: Mask) -> Result<Vec<Item>, Memory> {
        self.segments.edges_of(alloc, users, mask)
    }

    #[inline]
    fn has_end(&self, side: Side, id: u64, mask: Mask, other: u64) -> bool {
        self.segments.has_end(side, id, mask, other)
    }
}

impl Grow for Window {
    fn make(alloc: Global, conf: Conf, start: u64) -> Result<Self, Memory> {
        let segments = Segments::new(alloc, conf)?;
        Ok(Window {
            first: start,
            segments,
        })
    }

    fn add(&mut self, item: Item) {
        self.first += u64::from(self.segments.add(item));
    }

    fn compact(&mut self) {
        Window::compact(self);
    }
}
