//! A graph that follows a history by its pages.
ghost use Rattle.std.specs.Prelude.{◌≡◌, ◌+◌, ◌≤◌, ◌<◌, ◌%◌, ◌^◌, ℕ, IfOk};
ghost use Rattle.std.specs.List.{All};
ghost use Rattle.gj_base.specs.declared.history.History.{History};
ghost use Rattle.gj_base.specs.History.{StandsFor, empty_shown, end_of};
ghost use Rattle.gj_follow.specs.Follows.{IsOf, after_page, after_pages, part, reach, reach_one, taken};

use crate::page::Page;
use gj_base::{Conf, Grow, Memory, add_all};
use std::alloc::Global;
use std::marker::Model;

/// What became of a page.
#[derive(Clone, Copy, Debug, Drop, PartialEq, Eq)]
pub enum PageTaken {
    /// So many of its interactions were added, the last ones.
    Added { items: u64 },
    /// The follower had all its places.
    Old,
    /// It begins after the follower's next place.
    Ahead,
}

/// A graph that grows by pages of a history. Contracts see what it shows.
#[derive(Drop)]
pub struct Follower<W: Grow> {
    graph: W,
}

impl<W: Grow> Model for Follower<W> {
    ghost use Rattle.gj_base.specs.declared.history.Shown.{Shown};
    ghost use Rattle.gj_base.specs.History.{IsWindow};

    ghost Value = { Shown };

    ghost view = { λ f. W.shown f.graph };

    ghost invariant = { λ f. IsWindow (W.shown f.graph) };
}

/// Adds what the page has from the graph's next place on.
fn add_news<W: Grow>(graph: &mut W, page: &Page) -> PageTaken
    ensures exact { result ≡ taken (end_of (W.shown graph.old)) page.now }
    ensures shows { W.shown graph.new ≡ after_page (W.shown graph.old) page.now }
{
    let length = graph.length();
    if length < page.from {
        return PageTaken::Ahead;
    }
    let items = page.items.as_slice();
    let known = length - page.from;
    if items.len() as u64 <= known {
        return PageTaken::Old;
    }
    let news = &items[known as usize..];
    add_all(graph, news);
    PageTaken::Added {
        items: news.len() as u64,
    }
}

impl<W: Grow> Follower<W> {
    /// A follower with no interaction, whose next place is `start`. It takes all memory that it will need.
    pub fn new(alloc: Global, conf: Conf, start: u64) -> Result<Follower<W>, Memory>
        requires aligned { start % conf.capacity ≡ 0 }
        requires room { start < 2 ^ 48 }
        ensures exact { IfOk result (λ f. f ≡ empty_shown conf start) }
        ensures stands { (h : History) → IfOk result (λ f. StandsFor f (part h start (end_of f))) }
    {
        let graph = W::make(alloc, conf, start)?;
        Ok(Follower { graph })
    }

    /// What it follows with.
    pub fn graph(&self) -> &W
        ensures { W.shown result.now ≡ self.now }
    {
        &self.graph
    }

    /// Adds what the page has from the follower's next place on. It takes no memory.
    pub fn take_page(&mut self, page: &Page) -> PageTaken
        ensures exact { result ≡ taken (end_of self.old) page.now }
        ensures shows { self.new ≡ after_page self.old page.now }
        ensures end { end_of self.new ≡ reach_one (end_of self.old) page.now }
        ensures later { end_of self.old ≤ end_of self.new }
        ensures stands { (h : History) (start : ℕ) → h.first ≤ start → IsOf h page.now → StandsFor self.old (part h start (end_of self.old))
            → StandsFor self.new (part h start (reach_one (end_of self.old) page.now)) }
    {
        add_news(&mut self.graph, page)
    }

    /// Takes the pages in their order, and says how many interactions were added. It takes no memory.
    pub fn take_pages(&mut self, pages: &[Page]) -> u64
        ensures exact { end_of self.new ≡ end_of self.old + result }
        ensures shows { self.new ≡ after_pages self.old pages.now }
        ensures end { end_of self.new ≡ reach (end_of self.old) pages.now }
        ensures later { end_of self.old ≤ end_of self.new }
        ensures stands { (h : History) (start : ℕ) → h.first ≤ start → All (IsOf h) pages.now → StandsFor self.old (part h start (end_of self.old))
            → StandsFor self.new (part h start (reach (end_of self.old) pages.now)) }
    {
        let before = self.graph.length();
        for page in pages {
            self.take_page(page);
        }
        self.graph.length() - before
    }
}
