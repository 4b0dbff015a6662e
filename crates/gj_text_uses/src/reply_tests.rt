//! Each text of a reply once, and each fixed body.

use gj_base::{Conf, IdList, Item, ItemList, Kind, List};
use gj_proof::{Ranked, RankedList};
use gj_reply::{EdgeList, EdgeOf, Fixed, KindCounts, Reply, Status, fixed_body, write_reply};
use gj_request::Name;
use gj_similar::{Score, ScoreList};
use std::alloc::Global;
use std::process::Abort;
use std::test::Fail;

fn expect_text(rt: &impl Abort, alloc: Global, reply: &Reply, status: Status, body: &str) {
    match write_reply(alloc, reply) {
        Ok(text) => {
            assert_eq!(rt; text.status, status, "{body}");
            assert_eq!(rt; text.body.as_slice(), body.as_bytes(), "{body}");
        }
        Err(_) => panic!(rt; "no memory for {body}"),
    }
}

fn ranking(alloc: Global) -> Result<RankedList, Fail> {
    let mut both = IdList::new(alloc);
    both.push(1)?;
    both.push(9_223_372_036_854_775_807)?;
    let mut results = List::new(alloc);
    results.push(Ranked {
        id: 10,
        number: 3,
        proof: both,
    })?;
    results.push(Ranked {
        id: 0,
        number: 1,
        proof: IdList::new(alloc),
    })?;
    Ok(results)
}

fn edges(alloc: Global) -> Result<EdgeList, Fail> {
    let mut recent = List::new(alloc);
    recent.push(EdgeOf {
        id: 20,
        kind: Kind::Tweet,
    })?;
    recent.push(EdgeOf {
        id: 10,
        kind: Kind::Click,
    })?;
    Ok(recent)
}

#[test]
fn a_post_has_its_place_and_the_length(rt: HostRuntime) {
    let posted = Reply::Posted {
        from: 18_446_744_073_709_551_615,
        length: 0,
    };
    let body = "{\"from\":18446744073709551615,\"length\":0}";
    expect_text(&rt, rt.alloc(), &posted, Status::Ok, body);
}

#[test]
fn a_batch_is_told_what_became_of_its_number(rt: HostRuntime) {
    let alloc = rt.alloc();
    let repeated = Reply::Repeated { from: 0, length: 1 };
    let body = "{\"from\":0,\"length\":1,\"repeated\":true}";
    expect_text(&rt, alloc, &repeated, Status::Ok, body);
    let old = Reply::Old { last: 2 };
    expect_text(
        &rt,
        alloc,
        &old,
        Status::Conflict,
        "{\"error\":\"old\",\"last\":2}",
    );
    let skipped = Reply::Skipped { last: 1 };
    let body = "{\"error\":\"skipped\",\"last\":1}";
    expect_text(&rt, alloc, &skipped, Status::Conflict, body);
}

#[test]
fn a_walk_has_visits_and_a_subgraph_units(rt: HostRuntime) -> Result<(), Fail> {
    let walk = Reply::Walk {
        length: 2,
        results: ranking(rt.alloc())?,
    };
    let body =
        "{\"length\":2,\"results\":[{\"post\":10,\"visits\":3,\"proof\":[1,9223372036854775807]},\
        {\"post\":0,\"visits\":1,\"proof\":[]}]}";
    expect_text(&rt, rt.alloc(), &walk, Status::Ok, body);
    let subgraph = Reply::Subgraph {
        length: 2,
        results: ranking(rt.alloc())?,
    };
    let body =
        "{\"length\":2,\"results\":[{\"post\":10,\"units\":3,\"proof\":[1,9223372036854775807]},\
        {\"post\":0,\"units\":1,\"proof\":[]}]}";
    expect_text(&rt, rt.alloc(), &subgraph, Status::Ok, body);
    Ok(())
}

#[test]
fn a_count_has_weights(rt: HostRuntime) -> Result<(), Fail> {
    let count = Reply::Count {
        length: 2,
        results: ranking(rt.alloc())?,
    };
    let body =
        "{\"length\":2,\"results\":[{\"post\":10,\"weight\":3,\"proof\":[1,9223372036854775807]},\
        {\"post\":0,\"weight\":1,\"proof\":[]}]}";
    expect_text(&rt, rt.alloc(), &count, Status::Ok, body);
    Ok(())
}

#[test]
fn a_similar_post_has_its_co_visits_and_its_degree(rt: HostRuntime) -> Result<(), Fail> {
    let mut results = ScoreList::new(rt.alloc());
    results.push(Score {
        co: 1,
        degree: 2,
        post: 20,
    })?;
    let similar = Reply::Similar { length: 2, results };
    let body = "{\"length\":2,\"results\":[{\"post\":20,\"co\":1,\"degree\":2}]}";
    expect_text(&rt, rt.alloc(), &similar, Status::Ok, body);
    Ok(())
}

#[test]
fn a_user_leads_to_posts_and_a_post_to_users(rt: HostRuntime) -> Result<(), Fail> {
    let user = Reply::User {
        length: 33,
        id: 1,
        degree: 0,
        recent: EdgeList::new(rt.alloc()),
    };
    let body = "{\"length\":33,\"user\":1,\"degree\":0,\"recent\":[]}";
    expect_text(&rt, rt.alloc(), &user, Status::Ok, body);
    let user = Reply::User {
        length: 3,
        id: 1,
        degree: 2,
        recent: edges(rt.alloc())?,
    };
    let body = "{\"length\":3,\"user\":1,\"degree\":2,\"recent\":[{\"post\":20,\"kind\":\"tweet\"},\
        {\"post\":10,\"kind\":\"click\"}]}";
    expect_text(&rt, rt.alloc(), &user, Status::Ok, body);
    let post = Reply::Post {
        length: 3,
        id: 1,
        degree: 2,
        recent: edges(rt.alloc())?,
    };
    let body = "{\"length\":3,\"post\":1,\"degree\":2,\"recent\":[{\"user\":20,\"kind\":\"tweet\"},\
        {\"user\":10,\"kind\":\"click\"}]}";
    expect_text(&rt, rt.alloc(), &post, Status::Ok, body);
    Ok(())
}

#[test]
fn the_numbers_of_a_window_have_its_kinds(rt: HostRuntime) {
    let kinds = KindCounts {
        click: 17,
        favorite: 1,
        retweet: 2,
        reply: 3,
        tweet: 4,
    };
    let conf = Conf::make(16, 2).expect(&rt, "16 and 2 are in their ranges");
    let stats = Reply::Stats {
        length: 33,
        base: 16,
        conf,
        kinds,
    };
    let body = "{\"length\":33,\"base\":16,\"capacity\":16,\"segments\":2,\
        \"kinds\":{\"click\":17,\"favorite\":1,\"retweet\":2,\"reply\":3,\"tweet\":4}}";
    expect_text(&rt, rt.alloc(), &stats, Status::Ok, body);
}

#[test]
fn a_page_has_its_place_and_its_interactions(rt: HostRuntime) -> Result<(), Fail> {
    let alloc = rt.alloc();
    let none = Reply::Log {
        length: 1,
        from: 1,
        items: ItemList::new(alloc),
    };
    let body = "{\"length\":1,\"from\":1,\"items\":[]}";
    expect_text(&rt, alloc, &none, Status::Ok, body);
    let mut items = ItemList::new(alloc);
    for (user, post, kind, at) in [
        (1, 10, Kind::Favorite, 0),
        (9_223_372_036_854_775_807, 0, Kind::Tweet, 9),
    ] {
        let item = Item::make(user, post, kind, at);
        items.push(item.expect(&rt, "these are in their ranges"))?;
    }
    let both = Reply::Log {
        length: 3,
        from: 1,
        items,
    };
    let body =
        "{\"length\":3,\"from\":1,\"items\":[{\"user\":1,\"post\":10,\"kind\":\"favorite\",\"at\":0},\
        {\"user\":9223372036854775807,\"post\":0,\"kind\":\"tweet\",\"at\":9}]}";
    expect_text(&rt, alloc, &both, Status::Ok, body);
    Ok(())
}

#[test]
fn a_place_that_no_page_begins_at_is_told_where_pages_begin(rt: HostRuntime) {
    let alloc = rt.alloc();
    let gone = Reply::Gone {
        length: 33,
        base: 16,
    };
    let body = "{\"error\":\"gone\",\"length\":33,\"base\":16}";
    expect_text(&rt, alloc, &gone, Status::Conflict, body);
    let ahead = Reply::Ahead { length: 1 };
    let body = "{\"error\":\"ahead\",\"length\":1}";
    expect_text(&rt, alloc, &ahead, Status::Conflict, body);
}

#[test]
fn a_refusal_of_an_ask_has_its_numbers_or_its_field(rt: HostRuntime) {
    let alloc = rt.alloc();
    let behind = Reply::Behind { length: 1 };
    expect_text(
        &rt,
        alloc,
        &behind,
        Status::Conflict,
        "{\"error\":\"behind\",\"length\":1}",
    );
    let full = Reply::Full {
        length: 281_474_976_710_656,
    };
    let body = "{\"error\":\"full\",\"length\":281474976710656}";
    expect_text(&rt, alloc, &full, Status::Conflict, body);
    expect_text(
        &rt,
        alloc,
        &Reply::Store,
        Status::Unavailable,
        "{\"error\":\"store\"}",
    );
    let apart = Reply::Apart {
        seen: 1,
        shown: 2,
        posted: 3,
        counted: 4,
    };
    let body = "{\"error\":\"apart\",\"seen\":1,\"shown\":2,\"posted\":3,\"counted\":4}";
    expect_text(&rt, alloc, &apart, Status::Unavailable, body);
    expect_text(
        &rt,
        alloc,
        &Reply::BadJson,
        Status::BadRequest,
        "{\"error\":\"json\"}",
    );
    let field = Reply::BadField(Name::Unknown);
    let body = "{\"error\":\"field\",\"name\":\"unknown\"}";
    expect_text(&rt, alloc, &field, Status::BadRequest, body);
    let range = Reply::BadRange(Name::NotBefore);
    let body = "{\"error\":\"range\",\"name\":\"not_before\"}";
    expect_text(&rt, alloc, &range, Status::BadRequest, body);
}

#[test]
fn a_refusal_of_a_message_has_its_cause(rt: HostRuntime) {
    let alloc = rt.alloc();
    expect_text(
        &rt,
        alloc,
        &Reply::NoRoute,
        Status::NotFound,
        "{\"error\":\"route\"}",
    );
    expect_text(
        &rt,
        alloc,
        &Reply::OnlyGet,
        Status::OnlyGet,
        "{\"error\":\"method\"}",
    );
    expect_text(
        &rt,
        alloc,
        &Reply::OnlyPost,
        Status::OnlyPost,
        "{\"error\":\"method\"}",
    );
    expect_text(
        &rt,
        alloc,
        &Reply::BadHead,
        Status::BadRequest,
        "{\"error\":\"head\"}",
    );
    expect_text(
        &rt,
        alloc,
        &Reply::HeadLong,
        Status::HeadLong,
        "{\"error\":\"head_long\"}",
    );
    expect_text(
        &rt,
        alloc,
        &Reply::Coded,
        Status::NotImplemented,
        "{\"error\":\"coded\"}",
    );
    expect_text(
        &rt,
        alloc,
        &Reply::BadLength,
        Status::BadRequest,
        "{\"error\":\"length\"}",
    );
    expect_text(
        &rt,
        alloc,
        &Reply::BodyLong,
        Status::TooLarge,
        "{\"error\":\"body_long\"}",
    );
}

#[test]
fn a_fixed_body_says_whether_the_batch_counts(rt: HostRuntime) {
    let memory = b"{\"error\":\"memory\"}";
    assert_eq!(rt; fixed_body(Fixed::Memory), memory.as_slice());
    let not_accepted = b"{\"error\":\"memory\",\"accepted\":false}";
    assert_eq!(rt; fixed_body(Fixed::NotAccepted), not_accepted.as_slice());
    let accepted = b"{\"error\":\"memory\",\"accepted\":true}";
    assert_eq!(rt; fixed_body(Fixed::Accepted), accepted.as_slice());
    let no_look = b"{\"error\":\"no_look\"}";
    assert_eq!(rt; fixed_body(Fixed::NoLook), no_look.as_slice());
}
