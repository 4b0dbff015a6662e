ghost use Rattle.std.specs.Prelude.{◌≡◌, ◌<◌, [], ◌∷◌, IfOk};

use gj_base::{
    Conf, CountAsk, Graph, Grow, IdList, Item, Kind, KindLeast, ListGraph, Mask, Memory, Query,
    SimAsk, SubAsk, WalkAsk,
};
use gj_reply::{Reply, Status, Text, write_reply};
use gj_session::answer_on;
use std::alloc::Global;
use std::process::Abort;
use std::test::Fail;

/// An empty window of two segments of 16 interactions.
fn empty_graph(rt: &impl Abort, alloc: Global) -> Result<ListGraph, Memory> {
    let conf = Conf::make(16, 2).expect(rt, "16 and 2 are in range");
    ListGraph::make(alloc, conf, 0)
}

/// Adds these.
fn add(rt: &impl Abort, graph: &mut ListGraph, items: &[Item]) {
    for item in items {
        assert!(rt; graph.length() < 100);
        graph.add(*item);
    }
}

fn item(user: u64, post: u64, kind: Kind) -> Item
    requires user { user < 100 }
    requires post { post < 100 }
{
    Item {
        user,
        post,
        kind,
        at: 0,
    }
}

/// The status and the body of the answer to a query.
fn text_of(alloc: Global, graph: &ListGraph, query: &Query) -> Result<Text, Memory> {
    let reply = answer_on(alloc, graph, query)?;
    write_reply(alloc, &reply)
}

/// The body of the answer to a query.
fn body_of(alloc: Global, graph: &ListGraph, query: &Query) -> Result<Vec<u8>, Memory> {
    let Text { status: _, body } = text_of(alloc, graph, query)?;
    Ok(body)
}

fn one_seed(alloc: Global) -> Result<IdList, Memory>
    ensures { IfOk result (λ seeds. seeds ≡ 1 ∷ []) }
{
    let mut seeds = IdList::new(alloc);
    seeds.push(1)?;
    Ok(seeds)
}

/// A walk of six steps from user 1.
fn walk(alloc: Global, since: u64) -> Result<Query, Memory>
    requires { since < 100 }
{
    Ok(Query::Walk(WalkAsk {
        seeds: one_seed(alloc)?,
        steps: 6,
        seed: 0,
        mask: Mask::all(),
        reset: 0,
        top: 1,
        proof: 1,
        hide: false,
        since,
    }))
}

/// The subgraph of user 1, of one iteration.
fn sub(alloc: Global, since: u64) -> Result<Query, Memory>
    requires { since < 100 }
{
    Ok(Query::Sub(SubAsk {
        seeds: one_seed(alloc)?,
        iterations: 1,
        mask: Mask::all(),
        top: 1,
        proof: 1,
        since,
    }))
}

/// What is similar to post 10, by two steps.
fn sim(seed: u64, since: u64) -> Query
    requires { since < 100 }
{
    Query::Sim(SimAsk {
        post: 10,
        steps: 2,
        seed,
        mask: Mask::all(),
        top: 1,
        since,
    })
}

fn two(alloc: Global, first: u64, second: u64) -> Result<IdList, Memory>
    ensures { IfOk result (λ both. both ≡ first ∷ second ∷ []) }
{
    let mut both = IdList::new(alloc);
    both.push(first)?;
    both.push(second)?;
    Ok(both)
}

/// The count of user 1, who weighs 3, and user 2, who weighs 5, with this many clicks at least.
fn count(alloc: Global, click: u32, since: u64) -> Result<Query, Memory>
    requires click { click < 100 }
    requires since { since < 100 }
{
    let least = KindLeast {
        click,
        favorite: 0,
        retweet: 0,
        reply: 0,
        tweet: 0,
    };
    Ok(Query::Count(CountAsk {
        seeds: two(alloc, 1, 2)?,
        weights: two(alloc, 3, 5)?,
        mask: Mask::all(),
        least,
        top: 10,
        proof: 3,
        since,
    }))
}

#[test]
fn a_segment_leaves_the_answers_after_the_full_window(rt: HostRuntime) -> Result<(), Fail> {
    let mut graph = empty_graph(&rt, rt.alloc())?;
    add(&rt, &mut graph, &[item(1, 10, Kind::Click)]);
    add(&rt, &mut graph, &[item(2, 20, Kind::Click); 31]);
    let full = body_of(rt.alloc(), &graph, &Query::User(1))?;
    assert_eq!(rt;
        full.as_slice(),
        b"{\"length\":32,\"user\":1,\"degree\":1,\"recent\":[{\"post\":10,\"kind\":\"click\"}]}".as_slice()
    );
    add(&rt, &mut graph, &[item(2, 20, Kind::Click)]);
    let gone = body_of(rt.alloc(), &graph, &Query::User(1))?;
    assert_eq!(rt;
        gone.as_slice(),
        b"{\"length\":33,\"user\":1,\"degree\":0,\"recent\":[]}".as_slice()
    );
    let stats = body_of(rt.alloc(), &graph, &Query::Stats)?;
    assert_eq!(rt;
        stats.as_slice(),
        b"{\"length\":33,\"base\":16,\"capacity\":16,\"segments\":2,\"kinds\":{\"click\":17,\"favorite\":0,\"retweet\":0,\"reply\":0,\"tweet\":0}}".as_slice()
    );
    Ok(())
}

#[test]
fn a_query_is_behind_above_the_length_alone(rt: HostRuntime) -> Result<(), Fail> {
    let mut graph = empty_graph(&rt, rt.alloc())?;
    add(&rt, &mut graph, &[item(1, 10, Kind::Click)]);
    let walked = body_of(rt.alloc(), &graph, &walk(rt.alloc(), 1)?)?;
    assert_eq!(rt;
        walked.as_slice(),
        b"{\"length\":1,\"results\":[{\"post\":10,\"visits\":3,\"proof\":[1]}]}".as_slice()
    );
    let alone = body_of(rt.alloc(), &graph, &sim(5, 1))?;
    assert_eq!(rt;
        alone.as_slice(),
        b"{\"length\":1,\"results\":[]}".as_slice()
    );
    let counted = count(rt.alloc(), 0, 2)?;
    for query in [
        walk(rt.alloc(), 2)?,
        sub(rt.alloc(), 2)?,
        sim(5, 2),
        counted,
    ] {
        let behind = body_of(rt.alloc(), &graph, &query)?;
        assert_eq!(rt;
            behind.as_slice(),
            b"{\"error\":\"behind\",\"length\":1}".as_slice()
        );
    }
    Ok(())
}

/// The second word of seed 5 picks the later of the two interactions.
#[test]
fn similar_posts_are_answered(rt: HostRuntime) -> Result<(), Fail> {
    let mut graph = empty_graph(&rt, rt.alloc())?;
    add(
        &rt,
        &mut graph,
        &[item(1, 10, Kind::Click), item(1, 20, Kind::Click)],
    );
    for (seed, results) in [
        (0, b"{\"length\":2,\"results\":[]}".as_slice()),
        (
            5,
            b"{\"length\":2,\"results\":[{\"post\":20,\"co\":1,\"degree\":1}]}".as_slice(),
        ),
    ] {
        let body = body_of(rt.alloc(), &graph, &sim(seed, 0))?;
        assert_eq!(rt; body.as_slice(), results, "seed {seed}");
    }
    Ok(())
}

#[test]
fn counted_posts_have_the_weights_of_their_seeds(rt: HostRuntime) -> Result<(), Fail> {
    let mut graph = empty_graph(&rt, rt.alloc())?;
    let items = [
        item(1, 10, Kind::Click),
        item(1, 20, Kind::Click),
        item(2, 20, Kind::Click),
    ];
    add(&rt, &mut graph, &items);
    for (click, results) in [
        (
            0,
            b"{\"length\":3,\"results\":[{\"post\":20,\"weight\":8,\"proof\":[1,2]},{\"post\":10,\"weight\":3,\"proof\":[1]}]}".as_slice(),
        ),
        (
            2,
            b"{\"length\":3,\"results\":[{\"post\":20,\"weight\":8,\"proof\":[1,2]}]}".as_slice(),
        ),
        (3, b"{\"length\":3,\"results\":[]}".as_slice()),
    ] {
        let body = body_of(rt.alloc(), &graph, &count(rt.alloc(), click, 0)?)?;
        assert_eq!(rt; body.as_slice(), results, "{click} clicks at least");
    }
    Ok(())
}

#[test]
fn twenty_of_21_ends_are_recent_newest_first(rt: HostRuntime) -> Result<(), Fail> {
    let mut graph = empty_graph(&rt, rt.alloc())?;
    for post in 0..21 {
        add(&rt, &mut graph, &[item(1, post, Kind::Retweet)]);
    }
    let Reply::User { degree, recent, .. } = answer_on(rt.alloc(), &graph, &Query::User(1))? else {
        panic!(rt; "no answer to a user");
    };
    assert_eq!(rt; degree, 21);
    assert_eq!(rt; recent.len(), 20);
    for (i, edge) in recent.as_slice().iter().enumerate() {
        assert_eq!(rt; edge.id, 20_u64.saturating_sub(i as u64), "the end {i}");
    }
    Ok(())
}

#[test]
fn all_kinds_are_shown_and_counted_apart(rt: HostRuntime) -> Result<(), Fail> {
    let mut graph = empty_graph(&rt, rt.alloc())?;
    add(&rt, &mut graph, &[item(1, 10, Kind::Click); 5]);
    add(&rt, &mut graph, &[item(1, 11, Kind::Favorite)]);
    add(&rt, &mut graph, &[item(1, 12, Kind::Retweet); 2]);
    add(&rt, &mut graph, &[item(2, 13, Kind::Reply); 3]);
    add(&rt, &mut graph, &[item(3, 13, Kind::Tweet); 4]);
    add(&rt, &mut graph, &[item(4, 11, Kind::Tweet)]);
    let stats = body_of(rt.alloc(), &graph, &Query::Stats)?;
    assert_eq!(rt;
        stats.as_slice(),
        b"{\"length\":16,\"base\":0,\"capacity\":16,\"segments\":2,\"kinds\":{\"click\":5,\"favorite\":1,\"retweet\":2,\"reply\":3,\"tweet\":5}}".as_slice()
    );
    let post = body_of(rt.alloc(), &graph, &Query::Post(11))?;
    assert_eq!(rt;
        post.as_slice(),
        b"{\"length\":16,\"post\":11,\"degree\":2,\"recent\":[{\"user\":4,\"kind\":\"tweet\"},{\"user\":1,\"kind\":\"favorite\"}]}".as_slice()
    );
    Ok(())
}

#[test]
fn a_page_begins_at_each_place_of_the_window_and_at_its_end(rt: HostRuntime) -> Result<(), Fail> {
    let mut graph = empty_graph(&rt, rt.alloc())?;
    add(&rt, &mut graph, &[item(1, 10, Kind::Favorite)]);
    for (from, status, page) in [
        (
            0,
            Status::Ok,
            b"{\"length\":1,\"from\":0,\"items\":[{\"user\":1,\"post\":10,\"kind\":\"favorite\",\"at\":0}]}".as_slice(),
        ),
        (
            1,
            Status::Ok,
            b"{\"length\":1,\"from\":1,\"items\":[]}".as_slice(),
        ),
        (
            2,
            Status::Conflict,
            b"{\"error\":\"ahead\",\"length\":1}".as_slice(),
        ),
    ] {
        let text = text_of(rt.alloc(), &graph, &Query::Log(from))?;
        assert_eq!(rt; text.status, status, "from {from}");
        assert_eq!(rt; text.body.as_slice(), page, "from {from}");
    }
    add(&rt, &mut graph, &[item(2, 20, Kind::Click); 32]);
    let gone = text_of(rt.alloc(), &graph, &Query::Log(15))?;
    assert_eq!(rt; gone.status, Status::Conflict);
    assert_eq!(rt;
        gone.body.as_slice(),
        b"{\"error\":\"gone\",\"length\":33,\"base\":16}".as_slice()
    );
    let Reply::Log { items, .. } = answer_on(rt.alloc(), &graph, &Query::Log(16))? else {
        panic!(rt; "no page at the base");
    };
    assert_eq!(rt; items.len(), 17);
    Ok(())
}
