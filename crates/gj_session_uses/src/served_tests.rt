//! Sessions over links in memory, in turn over one seat.
ghost use Rattle.std.specs.Prelude.{◌≡◌, ◌<◌, ◌^◌, Some, length};
ghost use Rattle.gj_base.specs.History.{empty_history};

use crate::waiting::Waiting;
use gj_base::{Conf, Gate, Grow, Link, ListGraph, MemoryLink, MemorySink, MemorySource, OpenGate};
use gj_http::{Framer, Refused, Routes};
use gj_keep::{NoKeeper, OpenRefused};
use gj_log::{Naming, Opening};
use gj_publish::{Grants, open_index};
use gj_session::{Done, End, serve_session};
use std::alloc::Global;
use std::cell::Cell;
use std::marker::Brand;
use std::sync::{Mutex, Wait};
use std::test::Fail;

const POST: &[u8] =
    b"POST /interactions HTTP/1.1\r\nContent-Length: 50\r\n\r\n{\"items\":[{\"user\":1,\"post\":10,\"kind\":\"favorite\"}]}";

const WALK: &[u8] = b"POST /walk HTTP/1.1\r\nContent-Length: 23\r\n\r\n{\"seeds\":[1],\"steps\":6}";

const POSTED: &[u8] =
    b"HTTP/1.1 200 OK\r\nContent-Type: application/json\r\nContent-Length: 21\r\nConnection: keep-alive\r\n\r\n{\"from\":0,\"length\":1}";

const WALKED: &[u8] =
    b"HTTP/1.1 200 OK\r\nContent-Type: application/json\r\nContent-Length: 59\r\nConnection: keep-alive\r\n\r\n{\"length\":1,\"results\":[{\"post\":10,\"visits\":3,\"proof\":[1]}]}";

/// The length of the reply to a walk.
const REPLY: usize = WALKED.len();

/// Writes down the numbers of the messages, as the digits of two numbers.
#[derive(Drop)]
struct Recorder {
    before: Cell<u64>,
    after: Cell<u64>,
}

impl Gate for Recorder {
    fn before(&self, _seat: u32, number: u64) {
        self.before.set(self.before.get().saturating_mul(10).saturating_add(number));
    }

    fn after(&self, _seat: u32, number: u64) {
        self.after
            .set(self.after.get().saturating_mul(10).saturating_add(number));
    }
}

/// Two sessions that ended.
#[derive(Drop)]
pub(crate) struct Both<L> {
    pub first: Done<L>,
    pub second: Done<L>,
}

/// A link over the input, in pieces of so many bytes.
pub(crate) fn link_over(alloc: Global, input: &[u8], piece: usize) -> Option<MemoryLink>
    requires { 0 < piece }
{
    let bytes = input.to_vec(alloc).ok()?;
    let source = MemorySource::new(bytes, piece, Vec::new(alloc));
    let sink = MemorySink::new(alloc, 4096, 4096, Vec::new(alloc)).ok()?;
    Some(MemoryLink::new(source, sink))
}

/// Serves two links in turn by the one seat of an opening.
fn in_turn<J: Opening, R: Wait + Copy + Drop, L: Link + Drop, G: Gate>(
    rt: R,
    alloc: Global,
    naming: Naming,
    conf: Conf,
    links: (L, L),
    gate: &G,
    grants: &mut Grants,
) -> Option<Both<L>>
    requires grants { grants.old < 2 ^ 40 }
    requires named { (naming.history ≡ J.book) × (naming.blank.name ≡ J.name) × (naming.blank.parts ≡ J.parts) }
    requires parts { (1 ≡ J.places) × (1 ≡ J.parts) }
    requires conf { conf ≡ J.conf }
    requires opening { J.opening ≡ Some (empty_history 0) }
{
    let opened = open_index::<J, NoKeeper, ListGraph, R>(
        rt, alloc, naming, conf, NoKeeper, 1, grants,
    );
    let (writer, mut seats) = match opened {
        Ok(opened) => opened,
        Err(refused) => {
            let OpenRefused {
                keeper: _,
                why: _why,
            } = refused;
            return None;
        }
    };
    let mut seat = seats.pop()?;
    let routes = Routes::new(alloc).ok()?;
    let mut framer = Framer::new(alloc).ok()?;
    let writer = Mutex::new(writer);
    let (first, second) = links;
    let first = serve_session(
        &rt,
        alloc,
        &writer,
        &mut seat,
        &routes,
        &mut framer,
        first,
        gate,
    );
    let second = serve_session(
        &rt,
        alloc,
        &writer,
        &mut seat,
        &routes,
        &mut framer,
        second,
        gate,
    );
    let _writer = writer.into_inner();
    Some(Both { first, second })
}

/// The same over a new opening.
pub(crate) fn served<R: Wait + Copy + Drop, L: Link + Drop, G: Gate>(
    rt: R,
    alloc: Global,
    links: (L, L),
    gate: &G,
) -> Option<Both<L>> {
    let conf = Conf::make(16, 2)?;
    let mut grants = Grants::new();
    in_turn::<Brand, R, L, G>(rt, alloc, Naming::new(1), conf, links, gate, &mut grants)
}

#[test]
fn the_second_session_sees_what_the_first_posted(rt: HostRuntime) -> Result<(), Fail> {
    let alloc = rt.alloc();
    let mut whole = POST.to_vec(alloc)?;
    whole.extend_from_slice(WALK)?;
    let mut replies = POSTED.to_vec(alloc)?;
    replies.extend_from_slice(WALKED)?;
    for piece in 1..=whole.len() {
        let first = link_over(alloc, &whole, piece).expect(&rt, "there is memory");
        let second = link_over(alloc, WALK, piece).expect(&rt, "there is memory");
        let gate = Recorder {
            before: Cell::new(0),
            after: Cell::new(0),
        };
        let Both { first, second } = served(&rt, alloc, (first, second), &gate).expect(
            &rt,
            "there is memory",
        );
        assert_eq!(rt; gate.before.get(), 121, "by {piece}");
        assert_eq!(rt; gate.after.get(), 121, "by {piece}");
        assert_eq!(rt; *first.end(), End::Finished, "by {piece}");
        assert_eq!(rt; first.entered(), 1, "by {piece}");
        assert_eq!(rt;
            first.into_link().sink().written(),
            replies.as_slice(),
            "by {piece}"
        );
        assert_eq!(rt; *second.end(), End::Finished, "by {piece}");
        assert_eq!(rt; second.entered(), 0, "by {piece}");
        assert_eq!(rt; second.into_link().sink().written(), WALKED, "by {piece}");
    }
    Ok(())
}

#[test]
fn a_session_ends_as_its_bytes_do(rt: HostRuntime) -> Result<(), Fail> {
    for (input, end, silent) in [
        (
            b"GET /stats HTTP/1.0\r\n\r\n".as_slice(),
            End::Closed,
            false,
        ),
        (
            b"GET /stats HTTP/1.1\r\nConnection: close\r\n\r\n".as_slice(),
            End::Closed,
            false,
        ),
        (
            b"GET /stats HTTP/1.1\r\nConnection: keep-alive,\tclose\r\n\r\n".as_slice(),
            End::Closed,
            false,
        ),
        (
            b"HEAD /stats HTTP/1.1\r\n\r\n".as_slice(),
            End::Closed,
            false,
        ),
        (
            b"nonsense\r\n\r\n".as_slice(),
            End::Stopped(Refused::Head),
            false,
        ),
        (b"GET /sta".as_slice(), End::Truncated, true),
        (b"\r\n".as_slice(), End::Finished, true),
    ] {
        let first = link_over(rt.alloc(), input, 4096).expect(&rt, "there is memory");
        let second = link_over(rt.alloc(), b"", 4096).expect(&rt, "there is memory");
        let Both { first, second } = served(&rt, rt.alloc(), (first, second), &OpenGate).expect(
            &rt,
            "there is memory",
        );
        assert_eq!(rt; *first.end(), end);
        assert_eq!(rt; first.into_link().sink().written().is_empty(), silent);
        assert_eq!(rt; *second.end(), End::Finished);
        let _link = second.into_link();
    }
    Ok(())
}

// The sink takes ten bytes a call, and fails its second call.
#[test]
fn what_was_posted_before_a_write_fault_is_seen_over_the_next_link(
    rt: HostRuntime,
) -> Result<(), Fail> {
    let alloc = rt.alloc();
    let source = MemorySource::new(POST.to_vec(alloc)?, 4096, Vec::new(alloc));
    let sink = MemorySink::new(alloc, 4096, 10, vec![in alloc; 2]?)?;
    let first = MemoryLink::new(source, sink);
    let second = link_over(alloc, WALK, 4096).expect(&rt, "there is memory");
    let Both { first, second } = served(&rt, alloc, (first, second), &OpenGate).expect(
        &rt,
        "there is memory",
    );
    assert_eq!(rt; *first.end(), End::WriteFault);
    assert_eq!(rt; first.entered(), 1);
    assert_eq!(rt;
        first.into_link().sink().written(),
        b"HTTP/1.1 2".as_slice()
    );
    assert_eq!(rt; *second.end(), End::Finished);
    assert_eq!(rt; second.into_link().sink().written(), WALKED);
    Ok(())
}

/// A client that sends so many of the messages, each once the replies to those before have come.
fn waiting(alloc: Global, message: &[u8], count: u64, reply: usize) -> Option<Waiting>
    requires { 0 < length message.now }
{
    let mut input = Vec::new(alloc);
    for _ in 0..count {
        input.extend_from_slice(message).ok()?;
    }
    Some(Waiting::new(link_over(alloc, input.as_slice(), message.len())?, reply))
}

/// A client that is due one byte more than comes shows that it waits.
#[test]
fn each_reply_is_written_before_the_next_message_is_asked_for(rt: HostRuntime) {
    for (due, end, came) in [
        (REPLY, End::Finished, 3 * REPLY),
        (REPLY + 1, End::ReadFault, REPLY),
    ] {
        let first = waiting(rt.alloc(), POST, 1, POSTED.len()).expect(&rt, "there is memory");
        let second = waiting(rt.alloc(), WALK, 3, due).expect(&rt, "there is memory");
        let Both { first, second } = served(&rt, rt.alloc(), (first, second), &OpenGate).expect(
            &rt,
            "there is memory",
        );
        assert_eq!(rt; *first.end(), End::Finished);
        assert_eq!(rt; *second.end(), end, "due {due}");
        assert_eq!(rt; second.into_link().came(), came, "due {due}");
        let _link = first.into_link();
    }
}
