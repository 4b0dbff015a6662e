use gj_base::{Ask, CountAsk, Kind, KindLeast, MAX_ID, Query, Route};
use gj_request::{Name, Refusal, read_request};
use std::alloc::Global;
use std::process::Abort;
use std::test::Fail;

fn count_of(alloc: Global, body: &str) -> Option<CountAsk> {
    match read_request(alloc, Route::Count, None, body.as_bytes()) {
        Ok(Ask::Query(Query::Count(ask))) => Some(ask),
        _ => None,
    }
}

fn count_refusal(alloc: Global, body: &str) -> Option<Refusal> {
    read_request(alloc, Route::Count, None, body.as_bytes()).err()
}

/// The body is refused so.
fn refuses(rt: &(impl Abort + AllocGlobal), body: &str, refusal: Refusal) {
    assert_eq!(rt; count_refusal(rt.alloc(), body), Some(refusal), "{body}");
}

/// A body with these seeds alone is refused so.
fn refuses_seeds(rt: &(impl Abort + AllocGlobal), seeds: &str, refusal: Refusal) {
    let body = format!(in rt.alloc(); "{{\"seeds\":{seeds}}}").expect(rt, "memory");
    refuses(rt, body.as_str(), refusal);
}

/// A body with this least support is refused so.
fn refuses_least(rt: &(impl Abort + AllocGlobal), least: &str, refusal: Refusal) {
    let body = format!(in rt.alloc();
        "{{\"least\":{least},\"seeds\":[{{\"weight\":1,\"user\":1}}]}}"
    ).expect(rt, "memory");
    refuses(rt, body.as_str(), refusal);
}

/// The least support, in the order of the kinds.
fn least_of(least: KindLeast) -> [u32; 5] {
    [
        least.click,
        least.favorite,
        least.retweet,
        least.reply,
        least.tweet,
    ]
}

#[test]
fn a_count_has_its_defaults(rt: HostRuntime) -> Result<(), Fail> {
    let body = "{\"seeds\":[{\"user\":1,\"weight\":3},{\"user\":2,\"weight\":5}]}";
    let ask = count_of(rt.alloc(), body).ok_or("no count")?;
    assert_eq!(rt; ask.seeds.as_slice(), [1, 2].as_slice());
    assert_eq!(rt; ask.weights.as_slice(), [3, 5].as_slice());
    assert_eq!(rt; least_of(ask.least), [0, 0, 0, 0, 0]);
    assert_eq!(rt; (ask.top, ask.proof, ask.since), (10, 3, 0));
    assert!(rt; ask.mask.has(Kind::Click) && ask.mask.has(Kind::Tweet));
    assert_eq!(rt; ask.mask.not_before(), 0);
    Ok(())
}

#[test]
fn a_count_has_what_its_body_says(rt: HostRuntime) -> Result<(), Fail> {
    let body =
        "{\"not_before\":7,\"since\":281474976710656,\"proof\":0,\"top\":100,\"least\":{\"tweet\":5,\"favorite\":1000,\"click\":1},\"kinds\":[\"reply\"],\"seeds\":[{\"weight\":1000000,\"user\":9223372036854775807},{\"user\":0,\"weight\":1}]}";
    let ask = count_of(rt.alloc(), body).ok_or("no count")?;
    assert_eq!(rt; ask.seeds.as_slice(), [MAX_ID, 0].as_slice());
    assert_eq!(rt; ask.weights.as_slice(), [1_000_000, 1].as_slice());
    assert_eq!(rt; least_of(ask.least), [1, 1000, 0, 0, 5]);
    assert_eq!(rt; (ask.top, ask.proof, ask.since), (100, 0, 1 << 48));
    assert!(rt; ask.mask.has(Kind::Reply) && !ask.mask.has(Kind::Click));
    assert_eq!(rt; ask.mask.not_before(), 7);
    Ok(())
}

#[test]
fn the_seeds_of_a_count_are_tested_in_order(rt: HostRuntime) {
    refuses(&rt, "{}", Refusal::Field(Name::Seeds));
    refuses_seeds(&rt, "{}", Refusal::Field(Name::Seeds));
    refuses_seeds(&rt, "[]", Refusal::Range(Name::Seeds));
    refuses_seeds(&rt, "[5]", Refusal::Field(Name::Seeds));
    refuses_seeds(&rt, "[{\"kind\":0}]", Refusal::Field(Name::Unknown));
    refuses_seeds(&rt, "[{\"weight\":0}]", Refusal::Field(Name::User));
    refuses_seeds(
        &rt,
        "[{\"user\":9223372036854775808}]",
        Refusal::Range(Name::User),
    );
    refuses_seeds(&rt, "[{\"user\":1}]", Refusal::Field(Name::Weight));
    refuses_seeds(
        &rt,
        "[{\"user\":1,\"weight\":0}]",
        Refusal::Range(Name::Weight),
    );
    refuses_seeds(
        &rt,
        "[{\"user\":1,\"weight\":1000001}]",
        Refusal::Range(Name::Weight),
    );
    refuses_seeds(
        &rt,
        "[{\"user\":1,\"weight\":1},{\"user\":1,\"weight\":2},5]",
        Refusal::Range(Name::Seeds),
    );
    refuses_seeds(
        &rt,
        "[{\"user\":1,\"weight\":1},5,{\"user\":1,\"weight\":1}]",
        Refusal::Field(Name::Seeds),
    );
}

#[test]
fn the_least_support_is_by_kind(rt: HostRuntime) {
    refuses_least(&rt, "[]", Refusal::Field(Name::Least));
    refuses_least(&rt, "null", Refusal::Field(Name::Least));
    refuses_least(&rt, "{\"like\":1}", Refusal::Field(Name::Unknown));
    refuses_least(
        &rt,
        "{\"click\":1001,\"like\":1}",
        Refusal::Field(Name::Unknown),
    );
    refuses_least(&rt, "{\"click\":1001}", Refusal::Range(Name::Least));
    refuses_least(&rt, "{\"tweet\":\"1\"}", Refusal::Field(Name::Least));
    refuses_least(
        &rt,
        "{\"tweet\":1001,\"reply\":-1}",
        Refusal::Field(Name::Least),
    );
    refuses_least(&rt, "{},\"hide\":true", Refusal::Field(Name::Unknown));
    refuses_least(&rt, "{},\"top\":0", Refusal::Range(Name::Top));
}

fn many_seeds(rt: &(impl Abort + AllocGlobal), count: u64) -> Result<Option<Refusal>, Fail> {
    let mut body = String::from_str(rt.alloc(), "{\"seeds\":[{\"user\":0,\"weight\":1}")?;
    for user in 1..count {
        write!(body, ",{{\"user\":{user},\"weight\":1}}")?;
    }
    body.push_str("]}")?;
    Ok(count_refusal(rt.alloc(), body.as_str()))
}

#[test]
fn a_count_has_at_most_1000_seeds(rt: HostRuntime) -> Result<(), Fail> {
    assert_eq!(rt; many_seeds(&rt, 1000)?, None);
    assert_eq!(rt; many_seeds(&rt, 1001)?, Some(Refusal::Range(Name::Seeds)));
    Ok(())
}
