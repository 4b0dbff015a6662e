use gj_base::{Ask, ItemList, Kind, MAX_ID, Route};
use gj_request::{Name, Refusal, read_request};
use std::alloc::Global;
use std::process::Abort;
use std::test::Fail;

fn batch_of(alloc: Global, body: &str) -> Option<ItemList> {
    match read_request(alloc, Route::Interactions, None, body.as_bytes()) {
        Ok(Ask::Items(items)) => Some(items),
        _ => None,
    }
}

fn batch_refusal(alloc: Global, body: &[u8]) -> Option<Refusal> {
    read_request(alloc, Route::Interactions, None, body).err()
}

#[test]
fn a_batch_is_refused_by_the_first_fault(rt: HostRuntime) {
    for (items, refusal) in [
        ("null", Refusal::Field(Name::Items)),
        ("{}", Refusal::Field(Name::Items)),
        ("[]", Refusal::Range(Name::Items)),
        ("[1]", Refusal::Field(Name::Items)),
        ("[{}]", Refusal::Field(Name::User)),
        ("[{\"x\":0}]", Refusal::Field(Name::Unknown)),
        ("[{\"user\":1}]", Refusal::Field(Name::Post)),
        ("[{\"user\":1,\"post\":1}]", Refusal::Field(Name::Kind)),
        (
            "[{\"user\":1,\"post\":1,\"kind\":\"click\",\"seed\":0}]",
            Refusal::Field(Name::Unknown),
        ),
        (
            "[{\"user\":null,\"post\":1,\"kind\":\"click\"}]",
            Refusal::Field(Name::User),
        ),
        (
            "[{\"user\":9223372036854775808,\"post\":1.5,\"kind\":0}]",
            Refusal::Range(Name::User),
        ),
        (
            "[{\"user\":1,\"post\":1.5,\"kind\":0}]",
            Refusal::Field(Name::Post),
        ),
        (
            "[{\"user\":1,\"post\":9223372036854775808,\"kind\":0}]",
            Refusal::Range(Name::Post),
        ),
        (
            "[{\"user\":1,\"post\":1,\"kind\":0}]",
            Refusal::Field(Name::Kind),
        ),
        (
            "[{\"user\":1,\"post\":1,\"kind\":\"Click\"}]",
            Refusal::Range(Name::Kind),
        ),
        (
            "[{\"user\":1,\"post\":1,\"kind\":0,\"at\":-1}]",
            Refusal::Field(Name::Kind),
        ),
        (
            "[{\"user\":1,\"post\":1,\"kind\":\"click\",\"at\":-1}]",
            Refusal::Field(Name::At),
        ),
        (
            "[{\"user\":1,\"post\":1,\"kind\":\"click\",\"at\":null}]",
            Refusal::Field(Name::At),
        ),
        (
            "[{\"user\":1,\"post\":1,\"kind\":\"click\",\"at\":9223372036854775808}]",
            Refusal::Range(Name::At),
        ),
        (
            "[{\"user\":1,\"post\":1,\"kind\":\"like\"},0]",
            Refusal::Range(Name::Kind),
        ),
        (
            "[0,{\"user\":1,\"post\":1,\"kind\":\"like\"}]",
            Refusal::Field(Name::Items),
        ),
    ] {
        let body = format!(in rt.alloc(); "{{\"items\":{items}}}").expect(&rt, "memory");
        assert_eq!(rt;
            batch_refusal(rt.alloc(), body.as_str().as_bytes()),
            Some(refusal),
            "{items}"
        );
    }
    assert_eq!(rt;
        batch_refusal(rt.alloc(), b"{}"),
        Some(Refusal::Field(Name::Items))
    );
}

#[test]
fn a_batch_has_its_interactions_in_order_and_no_moment_is_0(rt: HostRuntime) -> Result<(), Fail> {
    let body =
        "{\"items\":[{\"user\":9223372036854775807,\"post\":0,\"kind\":\"reply\"},{\"at\":9223372036854775807,\"kind\":\"favorite\",\"post\":20,\"user\":1}]}";
    let items = batch_of(rt.alloc(), body).ok_or("no batch")?;
    let items = items.as_slice();
    assert_eq!(rt; items.len(), 2);
    let first = items[0];
    assert_eq!(rt;
        (first.user, first.post, first.kind, first.at),
        (MAX_ID, 0, Kind::Reply, 0)
    );
    let last = items[1];
    assert_eq!(rt;
        (last.user, last.post, last.kind, last.at),
        (1, 20, Kind::Favorite, MAX_ID)
    );
    Ok(())
}

fn long_batch(rt: &(impl Abort + AllocGlobal), count: u64) -> Result<String, Fail> {
    let mut body = String::from_str(
        rt.alloc(),
        "{\"items\":[{\"user\":0,\"post\":0,\"kind\":\"click\"}",
    )?;
    for id in 1..count {
        write!(body, ",{{\"user\":{id},\"post\":{id},\"kind\":\"click\"}}")?;
    }
    body.push_str("]}")?;
    Ok(body)
}

#[test]
fn a_batch_has_at_most_4096_items(rt: HostRuntime) -> Result<(), Fail> {
    let body = long_batch(&rt, 4096)?;
    let items = batch_of(rt.alloc(), body.as_str()).ok_or("no batch")?;
    let items = items.as_slice();
    assert_eq!(rt; items.len(), 4096);
    let last = items[4095];
    assert_eq!(rt; last.user, 4095);
    let body = long_batch(&rt, 4097)?;
    assert_eq!(rt;
        batch_refusal(rt.alloc(), body.as_str().as_bytes()),
        Some(Refusal::Range(Name::Items))
    );
    Ok(())
}

const ITEM: &str = "{\"user\":1,\"post\":2,\"kind\":\"click\"}";

/// The user, the post and the kind of the first interaction of a body, if it is one of batches.
fn first_of(alloc: Global, body: &str) -> Option<(u64, u64, Kind)> {
    let items = batch_of(alloc, body)?;
    let first = items.as_slice().first()?;
    Some((first.user, first.post, first.kind))
}

#[test]
fn names_come_in_any_order_with_blanks_and_escapes(rt: HostRuntime) {
    for body in [
        "\n{ \"items\" : [ {\n\"post\" : 2 ,\t\"kind\" :\"click\",\r\"user\": 1 } ] }\t",
        "{\"\\u0069tems\":[{\"us\\u0065r\":1,\"post\":2,\"kind\":\"cl\\u0069ck\"}]}",
        "{\"items\":[{\"user\":3,\"post\":2,\"kind\":\"click\",\"user\":1}]}",
    ] {
        assert_eq!(rt;
            first_of(rt.alloc(), body),
            Some((1, 2, Kind::Click)),
            "{body}"
        );
    }
}

#[test]
fn what_is_no_whole_batch_is_refused(rt: HostRuntime) {
    for (front, back) in [
        ("{\"items\":[", "]} x"),
        ("{\"items\":[", "]}}"),
        ("{\"items\":[", ",]}"),
        ("{\"items\":[", "]"),
        ("[", "]"),
    ] {
        let body = format!(in rt.alloc(); "{front}{ITEM}{back}").expect(&rt, "memory");
        assert!(rt;
            batch_of(rt.alloc(), body.as_str()).is_none(),
            "{front} {back}"
        );
    }
}

/// The body with one element and these fields beside it.
fn with_fields(rt: &(impl Abort + AllocGlobal), fields: &str) -> String {
    format!(in rt.alloc(); "{{\"items\":[{ITEM}],{fields}}}").expect(rt, "memory")
}

#[test]
fn a_producer_and_its_number_are_read_in_this_order_and_come_together(rt: HostRuntime) {
    for (fields, refusal) in [
        ("\"producer\":1025", Refusal::Range(Name::Producer)),
        ("\"producer\":5", Refusal::Range(Name::Number)),
        ("\"number\":1", Refusal::Range(Name::Number)),
        ("\"producer\":5,\"number\":0", Refusal::Range(Name::Number)),
        ("\"number\":1,\"producer\":0", Refusal::Range(Name::Number)),
        (
            "\"producer\":5,\"number\":281474976710657",
            Refusal::Range(Name::Number),
        ),
        (
            "\"producer\":0,\"number\":281474976710657",
            Refusal::Range(Name::Number),
        ),
        ("\"producer\":\"5\"", Refusal::Field(Name::Producer)),
        ("\"producer\":null", Refusal::Field(Name::Producer)),
        ("\"producer\":-5", Refusal::Field(Name::Producer)),
        ("\"number\":1.0", Refusal::Field(Name::Number)),
        (
            "\"producer\":5,\"number\":null",
            Refusal::Field(Name::Number),
        ),
        (
            "\"number\":null,\"producer\":1025",
            Refusal::Range(Name::Producer),
        ),
        (
            "\"number\":0,\"producer\":true",
            Refusal::Field(Name::Producer),
        ),
        (
            "\"producer\":5,\"number\":1,\"from\":0",
            Refusal::Field(Name::Unknown),
        ),
    ] {
        let body = with_fields(&rt, fields);
        assert_eq!(rt;
            batch_refusal(rt.alloc(), body.as_str().as_bytes()),
            Some(refusal),
            "{fields}"
        );
    }
    assert_eq!(rt;
        batch_refusal(
            rt.alloc(),
            b"{\"producer\":1025,\"number\":null,\"items\":[]}"
        ),
        Some(Refusal::Range(Name::Items))
    );
}

/// The producer, the number and how many interactions.
fn noted_of(alloc: Global, body: &str) -> Option<(u32, u64, usize)> {
    match read_request(alloc, Route::Interactions, None, body.as_bytes()) {
        Ok(Ask::Noted(batch)) => Some((batch.producer, batch.number, batch.items.len())),
        _ => None,
    }
}

#[test]
fn a_numbered_batch_has_what_its_body_says(rt: HostRuntime) {
    for (fields, producer, number) in [
        ("\"producer\":5,\"number\":1", 5, 1),
        ("\"number\":1,\"producer\":5", 5, 1),
        ("\"number\":2,\"number\":7,\"producer\":1", 1, 7),
        (
            "\"producer\":1024,\"number\":281474976710656",
            1024,
            1 << 48,
        ),
    ] {
        let body = with_fields(&rt, fields);
        assert_eq!(rt;
            noted_of(rt.alloc(), body.as_str()),
            Some((producer, number, 1)),
            "{fields}"
        );
    }
    for fields in [
        "\"producer\":0,\"number\":0",
        "\"number\":0",
        "\"producer\":0",
    ] {
        let body = with_fields(&rt, fields);
        assert!(rt; batch_of(rt.alloc(), body.as_str()).is_some(), "{fields}");
    }
}
