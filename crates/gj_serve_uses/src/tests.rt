//! That workers stand beside each other, and that one sees what another was told.

use crate::gates::{Meeting, Turn};
use crate::links::{post_of, two_links};
use crate::serving::{Left, two_workers};
use gj_base::Gate;
use gj_serve::{DoorEnd, MemoryDoor};
use std::alloc::Global;
use std::process::Abort;
use std::sync::Wait;
use std::test::Fail;
use std::thread::Threads;

const STATS: &[u8] = b"GET /stats HTTP/1.1\r\n\r\n";

/// Serves the two inputs by two workers.
fn served<R: Threads + Wait + Copy + Drop + Send + Sync, G: Gate + Sync>(
    rt: R,
    alloc: Global,
    first: &[u8],
    second: &[u8],
    gate: &G,
) -> Option<Left> {
    let links = two_links(alloc, first, second)?;
    let door = MemoryDoor::new(alloc, links, Vec::new(alloc)).ok()?;
    two_workers(rt, alloc, door, gate)
}

#[test]
fn two_sessions_are_inside_at_once(rt: HostRuntime) {
    let gate = Meeting::new(&rt);
    let left = served(&rt, rt.alloc(), STATS, STATS, &gate).expect(&rt, "there is memory");
    assert_eq!(rt; gate.alone(), 0);
    assert_eq!(rt; left.settled, left.length);
    assert_eq!(rt; left.served.sessions, 2);
    assert_eq!(rt; left.served.door, DoorEnd::Spent);
    for done in left.back {
        let link = done.into_link();
        assert!(rt; link.sink().written().starts_with(b"HTTP/1.1 200 OK\r\n"));
    }
}

/// One run of the second test: how many are posted, the head of the post, the walk, and its reply.
#[derive(Drop)]
struct Seen {
    count: u64,
    head: &'static [u8],
    walk: &'static [u8],
    walked: &'static [u8],
}

const ONE: Seen = Seen {
    count: 1,
    head: b"POST /interactions HTTP/1.1\r\nContent-Length: 50\r\n\r\n",
    walk: b"POST /walk HTTP/1.1\r\nContent-Length: 33\r\n\r\n{\"seeds\":[1],\"steps\":6,\"since\":1}",
    walked: b"HTTP/1.1 200 OK\r\nContent-Type: application/json\r\nContent-Length: 59\r\nConnection: keep-alive\r\n\r\n{\"length\":1,\"results\":[{\"post\":10,\"visits\":3,\"proof\":[1]}]}",
};

const SIXTEEN: Seen = Seen {
    count: 16,
    head: b"POST /interactions HTTP/1.1\r\nContent-Length: 635\r\n\r\n",
    walk: b"POST /walk HTTP/1.1\r\nContent-Length: 34\r\n\r\n{\"seeds\":[1],\"steps\":6,\"since\":16}",
    walked: b"HTTP/1.1 200 OK\r\nContent-Type: application/json\r\nContent-Length: 60\r\nConnection: keep-alive\r\n\r\n{\"length\":16,\"results\":[{\"post\":10,\"visits\":3,\"proof\":[1]}]}",
};

/// One link posts; the other asks for the numbers, and walks once the first is answered.
fn posts_and_walks<R: Threads + Wait + Copy + Drop + Send + Sync, G: Gate + Sync>(
    rt: R,
    alloc: Global,
    seen: &Seen,
    gate: &G,
) -> Option<Left> {
    let post = post_of(alloc, seen.head, seen.count)?;
    let mut asks = STATS.to_vec(alloc).ok()?;
    asks.extend_from_slice(seen.walk).ok()?;
    served(rt, alloc, post.as_slice(), asks.as_slice(), gate)
}

#[test]
fn a_walk_covers_what_another_link_was_told_before(rt: HostRuntime) {
    for seen in [ONE, SIXTEEN] {
        let gate = Turn::new(&rt);
        let left = posts_and_walks(&rt, rt.alloc(), &seen, &gate).expect(&rt, "there is memory");
        assert_eq!(rt; gate.early(), 0, "by {}", seen.count);
        assert_eq!(rt; left.settled, left.length);
        assert_eq!(rt; left.length, seen.count);
        assert_eq!(rt; left.served.entered, seen.count);
        assert_eq!(rt; left.back.len(), 2);
        for done in left.back {
            let entered = done.entered();
            let link = done.into_link();
            if entered == 0 {
                assert!(rt;
                    link.sink().written().ends_with(seen.walked),
                    "{}",
                    seen.count
                );
            }
        }
    }
}
