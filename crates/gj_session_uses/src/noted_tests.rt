//! Numbered batches, served and replayed.

use crate::served_tests::{Both, link_over, served};
use gj_base::{Conf, ListGraph, MemorySink, MemorySource, OpenGate};
use gj_http::{Framer, Routes};
use gj_keep::{Local, MemoryKeeper, OpenRefused};
use gj_once::{Once, OnceIndex};
use gj_session::{End, replay_session};
use std::alloc::Global;
use std::test::Fail;

/// One interaction, as producer 5's batch 1.
const FIRST: &[u8] =
    b"POST /interactions HTTP/1.1\r\nContent-Length: 74\r\n\r\n{\"items\":[{\"user\":1,\"post\":10,\"kind\":\"favorite\"}],\"producer\":5,\"number\":1}";

const SECOND: &[u8] =
    b"POST /interactions HTTP/1.1\r\nContent-Length: 74\r\n\r\n{\"items\":[{\"user\":1,\"post\":10,\"kind\":\"favorite\"}],\"producer\":5,\"number\":2}";

const THIRD: &[u8] =
    b"POST /interactions HTTP/1.1\r\nContent-Length: 74\r\n\r\n{\"items\":[{\"user\":1,\"post\":10,\"kind\":\"favorite\"}],\"producer\":5,\"number\":3}";

const STATS: &[u8] = b"GET /stats HTTP/1.1\r\n\r\n";

const ENTERED: &[u8] =
    b"HTTP/1.1 200 OK\r\nContent-Type: application/json\r\nContent-Length: 21\r\nConnection: keep-alive\r\n\r\n{\"from\":0,\"length\":1}";

const REPEATED: &[u8] =
    b"HTTP/1.1 200 OK\r\nContent-Type: application/json\r\nContent-Length: 37\r\nConnection: keep-alive\r\n\r\n{\"from\":0,\"length\":1,\"repeated\":true}";

const SKIPPED: &[u8] =
    b"HTTP/1.1 409 Conflict\r\nContent-Type: application/json\r\nContent-Length: 28\r\nConnection: keep-alive\r\n\r\n{\"error\":\"skipped\",\"last\":1}";

const NEXT: &[u8] =
    b"HTTP/1.1 200 OK\r\nContent-Type: application/json\r\nContent-Length: 21\r\nConnection: keep-alive\r\n\r\n{\"from\":1,\"length\":2}";

const OLD: &[u8] =
    b"HTTP/1.1 409 Conflict\r\nContent-Type: application/json\r\nContent-Length: 24\r\nConnection: keep-alive\r\n\r\n{\"error\":\"old\",\"last\":2}";

const NOT_STORED: &[u8] =
    b"HTTP/1.1 503 Service Unavailable\r\nContent-Type: application/json\r\nContent-Length: 17\r\nConnection: keep-alive\r\n\r\n{\"error\":\"store\"}";

const COUNTED: &[u8] =
    b"HTTP/1.1 200 OK\r\nContent-Type: application/json\r\nContent-Length: 113\r\nConnection: keep-alive\r\n\r\n{\"length\":2,\"base\":0,\"capacity\":16,\"segments\":2,\"kinds\":{\"click\":0,\"favorite\":2,\"retweet\":0,\"reply\":0,\"tweet\":0}}";

/// The texts, one after the other.
fn joined(alloc: Global, texts: &[&[u8]]) -> Result<Vec<u8>, Fail> {
    let mut bytes = Vec::new(alloc);
    for text in texts {
        bytes.extend_from_slice(text)?;
    }
    Ok(bytes)
}

/// How the replay of the input ends, and what it writes, over an index whose keeper fails the calls of these numbers.
fn replayed(alloc: Global, input: Vec<u8>, fails: Vec<u64>) -> Option<(End, MemorySink)> {
    let conf = Conf::make(16, 2)?;
    let opened = Local::<MemoryKeeper, ListGraph>::open_local(
        alloc,
        conf,
        MemoryKeeper::new(alloc, fails),
    );
    let index = match opened {
        Ok(index) => index,
        Err(refused) => {
            let OpenRefused {
                keeper: _,
                why: _why,
            } = refused;
            return None;
        }
    };
    let Ok(once) = Once::new(alloc) else {
        return None;
    };
    let mut index = OnceIndex::new(index, once);
    let routes = Routes::new(alloc).ok()?;
    let mut framer = Framer::new(alloc).ok()?;
    let mut source = MemorySource::new(input, 4096, Vec::new(alloc));
    let mut sink = MemorySink::new(alloc, 4096, 4096, Vec::new(alloc)).ok()?;
    let end = replay_session(
        alloc,
        &mut index,
        &routes,
        &mut framer,
        &mut source,
        &mut sink,
        100,
    );
    Some((end, sink))
}

#[test]
fn a_repeated_batch_enters_once(rt: HostRuntime) -> Result<(), Fail> {
    let alloc = rt.alloc();
    let input = joined(alloc, &[FIRST, FIRST, THIRD, SECOND, FIRST, STATS])?;
    let replies = joined(alloc, &[ENTERED, REPEATED, SKIPPED, NEXT, OLD, COUNTED])?;
    let (end, sink) = replayed(alloc, input, Vec::new(alloc)).expect(&rt, "there is memory");
    assert_eq!(rt; end, End::Finished);
    assert_eq!(rt; sink.written(), replies.as_slice());
    Ok(())
}

/// The keeper's first three calls open it.
#[test]
fn a_batch_that_is_not_kept_may_be_repeated(rt: HostRuntime) -> Result<(), Fail> {
    let alloc = rt.alloc();
    let input = joined(alloc, &[FIRST, SECOND, SECOND])?;
    let replies = joined(alloc, &[ENTERED, NOT_STORED, NEXT])?;
    let (end, sink) = replayed(alloc, input, vec![in alloc; 5]?).expect(&rt, "there is memory");
    assert_eq!(rt; end, End::Finished);
    assert_eq!(rt; sink.written(), replies.as_slice());
    Ok(())
}

#[test]
fn a_batch_may_be_repeated_over_another_connection(rt: HostRuntime) -> Result<(), Fail> {
    let alloc = rt.alloc();
    let first = link_over(alloc, FIRST, 4096).expect(&rt, "there is memory");
    let input = joined(alloc, &[FIRST, THIRD, SECOND, FIRST, STATS])?;
    let second = link_over(alloc, input.as_slice(), 4096).expect(&rt, "there is memory");
    let Both { first, second } = served(&rt, alloc, (first, second), &OpenGate).expect(
        &rt,
        "there is memory",
    );
    let replies = joined(alloc, &[REPEATED, SKIPPED, NEXT, OLD, COUNTED])?;
    assert_eq!(rt; *first.end(), End::Finished);
    assert_eq!(rt; first.entered(), 1);
    assert_eq!(rt; first.into_link().sink().written(), ENTERED);
    assert_eq!(rt; *second.end(), End::Finished);
    assert_eq!(rt; second.entered(), 1);
    assert_eq!(rt; second.into_link().sink().written(), replies.as_slice());
    Ok(())
}
