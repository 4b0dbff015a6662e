//! Pages of a history, and a follower that takes them.
use gj_base::{Conf, Graph, Grow, HISTORY_END, Item, Kind, ListGraph, Memory};
use gj_follow::{Follower, Page, PageError, PageRefusal, PageTaken, page_of, read_page};
use std::alloc::Global;
use std::process::Abort;
use std::test::Fail;

/// The favorite of a post by user 1.
fn favorite(rt: &impl Abort, post: u64) -> Item {
    Item::make(1, post, Kind::Favorite, 0).expect(rt, "all are in range")
}

fn add(graph: &mut ListGraph, item: Item) {
    if graph.length() < HISTORY_END {
        graph.add(item);
    }
}

/// Two segments of 16, with the favorites of the posts from 10 to the end.
fn graph_to(rt: &impl Abort, alloc: Global, end: u64) -> Result<ListGraph, Memory> {
    let conf = Conf::make(16, 2).expect(rt, "16 and 2 are in range");
    let mut graph = ListGraph::make(alloc, conf, 0)?;
    for post in 10..end {
        add(&mut graph, favorite(rt, post));
    }
    Ok(graph)
}

/// The error of a page that is not made.
fn error_of(page: Result<Page, PageError>) -> Option<PageError> {
    match page {
        Ok(_) => None,
        Err(why) => Some(why),
    }
}

/// Why a text is no page.
fn refusal_of(alloc: Global, text: &str) -> Option<PageRefusal> {
    match read_page(alloc, text.as_bytes()) {
        Ok(_) => None,
        Err(why) => Some(why),
    }
}

#[test]
fn a_page_begins_at_each_place_up_to_the_length(rt: HostRuntime) -> Result<(), Fail> {
    let alloc = rt.alloc();
    let graph = graph_to(&rt, alloc, 11)?;
    let first = page_of(alloc, &graph, 0)?;
    assert_eq!(rt; (first.length, first.from, first.items.len()), (1, 0, 1));
    for item in first.items.as_slice() {
        assert_eq!(rt; *item, favorite(&rt, 10));
    }
    let last = page_of(alloc, &graph, 1)?;
    assert_eq!(rt; (last.length, last.from, last.items.len()), (1, 1, 0));
    let ahead = page_of(alloc, &graph, 2);
    assert_eq!(rt; error_of(ahead), Some(PageError::Ahead { length: 1 }));
    Ok(())
}

#[test]
fn what_left_the_window_is_gone(rt: HostRuntime) -> Result<(), Fail> {
    let alloc = rt.alloc();
    let graph = graph_to(&rt, alloc, 43)?;
    let gone = PageError::Gone {
        length: 33,
        base: 16,
    };
    assert_eq!(rt; error_of(page_of(alloc, &graph, 15)), Some(gone));
    let kept = page_of(alloc, &graph, 16)?;
    assert_eq!(rt; (kept.length, kept.from, kept.items.len()), (33, 16, 17));
    Ok(())
}

#[test]
fn a_follower_takes_what_joins_its_places(rt: HostRuntime) -> Result<(), Fail> {
    let alloc = rt.alloc();
    let graph = graph_to(&rt, alloc, 13)?;
    let front = page_of(alloc, &graph_to(&rt, alloc, 12)?, 0)?;
    let middle = page_of(alloc, &graph, 1)?;
    let last = page_of(alloc, &graph, 2)?;
    let conf = Conf::make(16, 2).expect(&rt, "16 and 2 are in range");
    let mut follower = Follower::<ListGraph>::new(alloc, conf, 0)?;
    assert_eq!(rt; follower.take_page(&last), PageTaken::Ahead);
    assert_eq!(rt; follower.take_page(&front), PageTaken::Added { items: 2 });
    assert_eq!(rt; follower.take_page(&front), PageTaken::Old);
    assert_eq!(rt; follower.take_page(&middle), PageTaken::Added { items: 1 });
    assert_eq!(rt; follower.take_page(&last), PageTaken::Old);
    assert_eq!(rt; follower.graph().length(), 3);
    let pages = vec![in alloc; last, front, middle]?;
    let mut other = Follower::<ListGraph>::new(alloc, conf, 0)?;
    assert_eq!(rt; other.take_pages(&pages), 3);
    assert_eq!(rt; other.graph().length(), 3);
    Ok(())
}

#[test]
fn a_page_is_read_by_its_names_and_forms(rt: HostRuntime) -> Result<(), Fail> {
    let alloc = rt.alloc();
    let text = r#"{"length":1,"from":0,"items":[{"user":1,"post":10,"kind":"favorite","at":0}]}"#;
    let page = read_page(alloc, text.as_bytes())?;
    assert_eq!(rt; (page.length, page.from, page.items.len()), (1, 0, 1));
    for item in page.items.as_slice() {
        assert_eq!(rt; *item, favorite(&rt, 10));
    }
    assert_eq!(rt; refusal_of(alloc, "{"), Some(PageRefusal::Json));
    for other in [
        "{}",
        "[]",
        r#"{"length":0,"from":1,"items":[]}"#,
        r#"{"length":1,"from":0,"items":[],"next":1}"#,
        r#"{"length":1,"from":0,"items":[{"user":1,"post":10,"kind":"favorite"}]}"#,
        r#"{"length":1,"from":0,"items":[{"user":1,"post":10,"kind":"like","at":0}]}"#,
    ] {
        assert_eq!(rt;
            refusal_of(alloc, other),
            Some(PageRefusal::Shape),
            "{other}"
        );
    }
    Ok(())
}
