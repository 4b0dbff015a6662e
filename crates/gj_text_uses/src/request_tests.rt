use gj_base::{Ask, Kind, MAX_ID, Mask, Query, Route, SubAsk, WalkAsk};
use gj_request::{Name, Refusal, read_request};
use std::alloc::Global;
use std::process::Abort;
use std::test::Fail;

fn walk_of(alloc: Global, body: &str) -> Option<WalkAsk> {
    match read_request(alloc, Route::Walk, None, body.as_bytes()) {
        Ok(Ask::Query(Query::Walk(ask))) => Some(ask),
        _ => None,
    }
}

fn subgraph_of(alloc: Global, body: &str) -> Option<SubAsk> {
    match read_request(alloc, Route::Subgraph, None, body.as_bytes()) {
        Ok(Ask::Query(Query::Sub(ask))) => Some(ask),
        _ => None,
    }
}

fn similar_of(alloc: Global, body: &str) -> Option<(u64, u32, u64, u32, u64, u64)> {
    let answer = read_request(alloc, Route::Similar, None, body.as_bytes());
    if let Ok(Ask::Query(Query::Sim(ask))) = &answer {
        Some((
            ask.post,
            ask.steps,
            ask.seed,
            ask.top,
            ask.since,
            ask.mask.not_before(),
        ))
    } else {
        None
    }
}

fn user_of(alloc: Global, id: &str) -> Option<u64> {
    match read_request(alloc, Route::User, Some(id), b"{") {
        Ok(Ask::Query(Query::User(user))) => Some(user),
        _ => None,
    }
}

fn post_of(alloc: Global, id: &str) -> Option<u64> {
    match read_request(alloc, Route::Post, Some(id), b"") {
        Ok(Ask::Query(Query::Post(post))) => Some(post),
        _ => None,
    }
}

fn place_of(alloc: Global, from: &str) -> Option<u64> {
    match read_request(alloc, Route::Log, Some(from), b"{") {
        Ok(Ask::Query(Query::Log(place))) => Some(place),
        _ => None,
    }
}

/// Which of the five kinds a mask has.
fn kinds_of(mask: Mask) -> [bool; 5] {
    [
        mask.has(Kind::Click),
        mask.has(Kind::Favorite),
        mask.has(Kind::Retweet),
        mask.has(Kind::Reply),
        mask.has(Kind::Tweet),
    ]
}

const GOOD_WALK: &str = "{\"seeds\":[7,3],\"steps\":6}";

fn walk_refusal(alloc: Global, body: &[u8]) -> Option<Refusal> {
    read_request(alloc, Route::Walk, None, body).err()
}

fn subgraph_refusal(alloc: Global, body: &[u8]) -> Option<Refusal> {
    read_request(alloc, Route::Subgraph, None, body).err()
}

fn similar_refusal(alloc: Global, body: &[u8]) -> Option<Refusal> {
    read_request(alloc, Route::Similar, None, body).err()
}

fn user_refusal(alloc: Global, id: &str) -> Option<Refusal> {
    read_request(alloc, Route::User, Some(id), b"").err()
}

fn log_refusal(alloc: Global, from: &str) -> Option<Refusal> {
    read_request(alloc, Route::Log, Some(from), b"").err()
}

#[test]
fn a_walk_is_an_object_with_known_names(rt: HostRuntime) {
    for (body, refusal) in [
        ("", Refusal::Json),
        ("{", Refusal::Json),
        ("{\"seeds\":[1],\"steps\":6}x", Refusal::Json),
        ("{\"steps\":01}", Refusal::Json),
        ("[]", Refusal::Field(Name::Body)),
        ("null", Refusal::Field(Name::Body)),
        ("{}", Refusal::Field(Name::Seeds)),
        ("{\"x\":0}", Refusal::Field(Name::Unknown)),
        (
            "{\"seeds\":[1],\"steps\":6,\"x\":0}",
            Refusal::Field(Name::Unknown),
        ),
        ("{\"seeds\":[],\"Steps\":6}", Refusal::Field(Name::Unknown)),
        ("{\"seeds\":0,\"items\":[]}", Refusal::Field(Name::Unknown)),
        ("{\"steps\":6}", Refusal::Field(Name::Seeds)),
        ("{\"seeds\":[1]}", Refusal::Field(Name::Steps)),
    ] {
        assert_eq!(rt;
            walk_refusal(rt.alloc(), body.as_bytes()),
            Some(refusal),
            "{body}"
        );
    }
}

#[test]
fn seeds_are_tested_in_order_before_steps(rt: HostRuntime) {
    for (seeds, refusal) in [
        ("null", Refusal::Field(Name::Seeds)),
        ("1", Refusal::Field(Name::Seeds)),
        ("[null]", Refusal::Field(Name::Seeds)),
        ("[-1]", Refusal::Field(Name::Seeds)),
        ("[]", Refusal::Range(Name::Seeds)),
        ("[1,1]", Refusal::Range(Name::Seeds)),
        ("[1,2,3,1]", Refusal::Range(Name::Seeds)),
        ("[1,1,null]", Refusal::Range(Name::Seeds)),
        ("[1,null,1]", Refusal::Field(Name::Seeds)),
        ("[9223372036854775808]", Refusal::Range(Name::Seeds)),
        ("[1]", Refusal::Field(Name::Steps)),
    ] {
        let body = format!(in rt.alloc(); "{{\"seeds\":{seeds},\"steps\":null}}").expect(
            &rt, "memory",
        );
        assert_eq!(rt;
            walk_refusal(rt.alloc(), body.as_str().as_bytes()),
            Some(refusal),
            "{seeds}"
        );
    }
}

#[test]
fn steps_are_a_whole_number_in_range(rt: HostRuntime) {
    for (steps, refusal) in [
        ("\"6\"", Refusal::Field(Name::Steps)),
        ("6.0", Refusal::Field(Name::Steps)),
        ("1e2", Refusal::Field(Name::Steps)),
        ("-1", Refusal::Field(Name::Steps)),
        ("null", Refusal::Field(Name::Steps)),
        ("18446744073709551616", Refusal::Field(Name::Steps)),
        ("18446744073709551615", Refusal::Range(Name::Steps)),
        ("0", Refusal::Range(Name::Steps)),
        ("100001", Refusal::Range(Name::Steps)),
    ] {
        let body = format!(in rt.alloc(); "{{\"seeds\":[1],\"steps\":{steps}}}").expect(
            &rt, "memory",
        );
        assert_eq!(rt;
            walk_refusal(rt.alloc(), body.as_str().as_bytes()),
            Some(refusal),
            "{steps}"
        );
    }
}

#[test]
fn the_fields_of_a_walk_have_their_ranges(rt: HostRuntime) {
    for (field, refusal) in [
        ("\"seed\":18446744073709551616", Refusal::Field(Name::Seed)),
        ("\"seed\":null", Refusal::Field(Name::Seed)),
        ("\"kinds\":[]", Refusal::Range(Name::Kinds)),
        ("\"kinds\":[\"like\"]", Refusal::Range(Name::Kinds)),
        (
            "\"kinds\":[\"click\",\"clic\"]",
            Refusal::Range(Name::Kinds),
        ),
        ("\"kinds\":[\"clicks\"]", Refusal::Range(Name::Kinds)),
        ("\"kinds\":[1]", Refusal::Field(Name::Kinds)),
        ("\"kinds\":\"click\"", Refusal::Field(Name::Kinds)),
        ("\"reset\":10001", Refusal::Range(Name::Reset)),
        ("\"top\":0", Refusal::Range(Name::Top)),
        ("\"top\":101", Refusal::Range(Name::Top)),
        ("\"proof\":11", Refusal::Range(Name::Proof)),
        ("\"hide\":1", Refusal::Field(Name::Hide)),
        ("\"since\":281474976710657", Refusal::Range(Name::Since)),
        ("\"since\":\"0\",\"top\":0", Refusal::Range(Name::Top)),
        ("\"not_before\":-1", Refusal::Field(Name::NotBefore)),
        ("\"not_before\":null", Refusal::Field(Name::NotBefore)),
        (
            "\"not_before\":9223372036854775808",
            Refusal::Range(Name::NotBefore),
        ),
        (
            "\"not_before\":-1,\"since\":281474976710657",
            Refusal::Range(Name::Since),
        ),
    ] {
        let body = format!(in rt.alloc(); "{{\"seeds\":[1],\"steps\":6,{field}}}").expect(
            &rt, "memory",
        );
        assert_eq!(rt;
            walk_refusal(rt.alloc(), body.as_str().as_bytes()),
            Some(refusal),
            "{field}"
        );
    }
}

#[test]
fn a_body_that_is_no_text_is_refused(rt: HostRuntime) -> Result<(), Fail> {
    let deep = vec![in rt.alloc(); b'['; 200]?;
    assert_eq!(rt;
        walk_refusal(rt.alloc(), deep.as_slice()),
        Some(Refusal::Json)
    );
    assert_eq!(rt; walk_refusal(rt.alloc(), b"\xff"), Some(Refusal::Json));
    assert_eq!(rt;
        walk_refusal(rt.alloc(), b"{\"\xff\":0}"),
        Some(Refusal::Json)
    );
    Ok(())
}

#[test]
fn a_walk_that_is_cut_short_has_no_reading(rt: HostRuntime) {
    let body = GOOD_WALK.as_bytes();
    for len in 0..body.len() {
        assert_eq!(rt;
            walk_refusal(rt.alloc(), &body[..len]),
            Some(Refusal::Json),
            "at {len}"
        );
    }
    assert_eq!(rt; walk_refusal(rt.alloc(), body), None);
}

#[test]
fn a_walk_has_its_defaults(rt: HostRuntime) -> Result<(), Fail> {
    let ask = walk_of(rt.alloc(), GOOD_WALK).ok_or("no walk")?;
    assert_eq!(rt; ask.seeds.as_slice(), [7, 3].as_slice());
    assert_eq!(rt; (ask.steps, ask.seed, ask.reset), (6, 0, 0));
    assert_eq!(rt;
        (ask.top, ask.proof, ask.hide, ask.since),
        (10, 3, false, 0)
    );
    assert_eq!(rt; kinds_of(ask.mask), [true, true, true, true, true]);
    assert_eq!(rt; ask.mask.not_before(), 0);
    Ok(())
}

#[test]
fn a_walk_has_what_its_body_says(rt: HostRuntime) -> Result<(), Fail> {
    let body =
        "{\"not_before\":9223372036854775807,\"since\":281474976710656,\"hide\":true,\"proof\":10,\"top\":100,\"reset\":10000,\"kinds\":[\"tweet\",\"click\",\"tweet\"],\"seed\":18446744073709551615,\"steps\":100000,\"seeds\":[9223372036854775807,0]}";
    let ask = walk_of(rt.alloc(), body).ok_or("no walk")?;
    assert_eq!(rt; ask.seeds.as_slice(), [MAX_ID, 0].as_slice());
    assert_eq!(rt;
        (ask.steps, ask.seed, ask.reset),
        (100_000, u64::MAX, 10_000)
    );
    assert_eq!(rt;
        (ask.top, ask.proof, ask.hide, ask.since),
        (100, 10, true, 1 << 48)
    );
    assert_eq!(rt; kinds_of(ask.mask), [true, false, false, false, true]);
    assert_eq!(rt; ask.mask.not_before(), MAX_ID);
    Ok(())
}

fn seeds_refusal(rt: &(impl Abort + AllocGlobal), count: u64) -> Result<Option<Refusal>, Fail> {
    let mut body = String::from_str(rt.alloc(), "{\"steps\":1,\"seeds\":[0")?;
    for id in 1..count {
        write!(body, ",{id}")?;
    }
    body.push_str("]}")?;
    Ok(walk_refusal(rt.alloc(), body.as_str().as_bytes()))
}

#[test]
fn a_query_has_at_most_1000_seeds(rt: HostRuntime) -> Result<(), Fail> {
    assert_eq!(rt; seeds_refusal(&rt, 1000)?, None);
    assert_eq!(rt;
        seeds_refusal(&rt, 1001)?,
        Some(Refusal::Range(Name::Seeds))
    );
    Ok(())
}

#[test]
fn a_subgraph_query_has_its_own_fields(rt: HostRuntime) -> Result<(), Fail> {
    for (body, refusal) in [
        (
            "{\"seeds\":[1],\"iterations\":1,\"steps\":1}",
            Refusal::Field(Name::Unknown),
        ),
        (
            "{\"seeds\":[1],\"iterations\":1,\"hide\":true}",
            Refusal::Field(Name::Unknown),
        ),
        ("{\"seeds\":[1]}", Refusal::Field(Name::Iterations)),
        (
            "{\"seeds\":[1],\"iterations\":0}",
            Refusal::Range(Name::Iterations),
        ),
        (
            "{\"seeds\":[1],\"iterations\":21}",
            Refusal::Range(Name::Iterations),
        ),
        (
            "{\"seeds\":[1],\"iterations\":1,\"not_before\":1.5}",
            Refusal::Field(Name::NotBefore),
        ),
    ] {
        assert_eq!(rt;
            subgraph_refusal(rt.alloc(), body.as_bytes()),
            Some(refusal),
            "{body}"
        );
    }
    let ask = subgraph_of(
        rt.alloc(),
        "{\"seeds\":[2,1],\"iterations\":20,\"not_before\":100}",
    )
    .ok_or("no subgraph query")?;
    assert_eq!(rt; ask.seeds.as_slice(), [2, 1].as_slice());
    assert_eq!(rt;
        (ask.iterations, ask.top, ask.proof, ask.since),
        (20, 10, 3, 0)
    );
    assert_eq!(rt; ask.mask.not_before(), 100);
    Ok(())
}

#[test]
fn a_similar_query_has_its_own_fields(rt: HostRuntime) -> Result<(), Fail> {
    for (body, refusal) in [
        (
            "{\"post\":1,\"steps\":1,\"proof\":1}",
            Refusal::Field(Name::Unknown),
        ),
        ("{\"steps\":1}", Refusal::Field(Name::Post)),
        ("{\"post\":\"1\",\"steps\":0}", Refusal::Field(Name::Post)),
        (
            "{\"post\":9223372036854775808,\"steps\":0}",
            Refusal::Range(Name::Post),
        ),
        ("{\"post\":1,\"steps\":0}", Refusal::Range(Name::Steps)),
        (
            "{\"post\":1,\"steps\":1,\"not_before\":\"0\"}",
            Refusal::Field(Name::NotBefore),
        ),
    ] {
        assert_eq!(rt;
            similar_refusal(rt.alloc(), body.as_bytes()),
            Some(refusal),
            "{body}"
        );
    }
    let ask = similar_of(rt.alloc(), "{\"post\":10,\"steps\":1000,\"not_before\":7}").ok_or(
        "no similar query",
    )?;
    assert_eq!(rt; ask, (10, 1000, 0, 10, 0, 7));
    Ok(())
}

#[test]
fn a_path_ends_in_the_digits_of_an_identifier(rt: HostRuntime) {
    for (id, refusal) in [
        ("", Refusal::Field(Name::Id)),
        ("abc", Refusal::Field(Name::Id)),
        ("+1", Refusal::Field(Name::Id)),
        ("-1", Refusal::Field(Name::Id)),
        ("1.0", Refusal::Field(Name::Id)),
        ("%31", Refusal::Field(Name::Id)),
        (
            "99999999999999999999999999999999999999999x",
            Refusal::Field(Name::Id),
        ),
        ("9223372036854775808", Refusal::Range(Name::Id)),
        ("18446744073709551616", Refusal::Range(Name::Id)),
        ("184467440737095516160", Refusal::Range(Name::Id)),
        (
            "99999999999999999999999999999999999999999",
            Refusal::Range(Name::Id),
        ),
    ] {
        assert_eq!(rt; user_refusal(rt.alloc(), id), Some(refusal), "{id}");
    }
    assert_eq!(rt;
        user_of(rt.alloc(), "0000000000000000000000000000042"),
        Some(42)
    );
    assert_eq!(rt; user_of(rt.alloc(), "0"), Some(0));
    assert_eq!(rt; post_of(rt.alloc(), "9223372036854775807"), Some(MAX_ID));
}

#[test]
fn a_page_is_asked_for_by_its_first_place(rt: HostRuntime) {
    for (from, refusal) in [
        ("", Refusal::Field(Name::From)),
        ("x", Refusal::Field(Name::From)),
        ("-1", Refusal::Field(Name::From)),
        ("1.0", Refusal::Field(Name::From)),
        ("281474976710657", Refusal::Range(Name::From)),
        ("9223372036854775807", Refusal::Range(Name::From)),
        ("18446744073709551616", Refusal::Range(Name::From)),
        ("9999999999999999999999999999x", Refusal::Field(Name::From)),
    ] {
        assert_eq!(rt; log_refusal(rt.alloc(), from), Some(refusal), "{from}");
    }
    for (from, place) in [
        ("0", 0),
        ("0000000000000000000000000000007", 7),
        ("281474976710656", 1 << 48),
    ] {
        assert_eq!(rt; place_of(rt.alloc(), from), Some(place), "{from}");
    }
}

#[test]
fn the_counts_are_asked_for_by_the_route_alone(rt: HostRuntime) {
    let ask = read_request(rt.alloc(), Route::Stats, None, b"\xff");
    assert!(rt; matches!(ask, Ok(Ask::Query(Query::Stats))));
}
