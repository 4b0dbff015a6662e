//! Services over a door in memory.
ghost use Rattle.std.specs.Prelude.{◌≡◌, ◌<◌, [], All, IsTrue, IfOk};
ghost use Rattle.gj_keep.specs.MemoryHomes.{is_home};
ghost use Rattle.gj_serve.specs.Fresh.{IsFreshLink};
ghost use Rattle.gj_serve.specs.MemoryDoors.{handed_by, back_at, nones_of, entered_by, given_to};

use crate::store_tests::{ONE_FAVORITE, STATS, over, stores_of};
use crate::tests::{POST, POSTED, WALK, WALKED, joined};
use gj_base::{MemoryLink, MemorySink, MemorySource};
use gj_keep::MemoryKeepers;
use gj_program::{Ended, run_serve};
use gj_publish::Grants;
use gj_serve::MemoryDoor;
use std::alloc::Global;
use std::sync::Wait;
use std::test::Fail;
use std::thread::Threads;

/// A link over the input, of which the read with this number fails, and none with the number 0.
fn link_over(alloc: Global, input: Vec<u8>, fails: u64) -> Result<MemoryLink, Fail>
    ensures { IfOk result IsFreshLink }
{
    let source = MemorySource::new(input, 4096, vec![in alloc; fails]?);
    let sink = MemorySink::new(alloc, 4096, 4096, Vec::new(alloc))?;
    Ok(MemoryLink::new(source, sink))
}

/// A door of two links with this input, whose calls with these numbers fail.
fn door_of(alloc: Global, input: &[u8], fails: Vec<u64>) -> Result<MemoryDoor, Fail>
    ensures { IfOk result (λ d. (handed_by d ≡ 0) × (back_at d ≡ 0) × (nones_of d ≡ 0) × (entered_by d ≡ 0) × (given_to d ≡ [])) }
{
    let mut links = Vec::with_capacity(alloc, 2)?;
    let first = link_over(alloc, input.to_vec(alloc)?, 0)?;
    let second = link_over(alloc, input.to_vec(alloc)?, 0)?;
    links.push_reserved(first);
    links.push_reserved(second);
    Ok(MemoryDoor::new(alloc, links, fails)?)
}

/// What a service left.
#[derive(Drop)]
struct Left {
    status: u8,
    out: MemorySink,
    door: MemoryDoor,
}

/// A service of these arguments over the door and the stores.
fn served<R: Threads + Wait + Copy + Drop + Send + Sync>(
    rt: R,
    alloc: Global,
    line: &str,
    door: MemoryDoor,
    stores: &mut MemoryKeepers,
) -> Result<Left, Fail>
    requires fresh { (handed_by door ≡ 0) × (back_at door ≡ 0) × (nones_of door ≡ 0) × (entered_by door ≡ 0) × (given_to door ≡ []) }
    requires home { IsTrue (is_home stores.old) }
    ensures { IsTrue (is_home stores.new) }
{
    let mut words = Vec::new(alloc);
    for word in line.split(' ') {
        words.push(String::from_str(alloc, word)?)?;
    }
    let mut out = MemorySink::new(alloc, 4096, 4096, Vec::new(alloc))?;
    let mut err = MemorySink::new(alloc, 4096, 4096, Vec::new(alloc))?;
    let Ended { status, door } = run_serve(
        rt,
        alloc,
        &words,
        door,
        &mut out,
        &mut err,
        stores,
        &mut Grants::new(),
    );
    Ok(Left { status, out, door })
}

/// New stores, which fail no call.
fn new_stores(alloc: Global) -> MemoryKeepers
    ensures { IsTrue (is_home result) }
{
    stores_of(alloc, None, Vec::new(alloc), Vec::new(alloc))
}

#[test]
fn both_links_are_served_and_come_back(rt: HostRuntime) -> Result<(), Fail> {
    let alloc = rt.alloc();
    for line in [
        "serve --workers 2",
        "serve --workers 1 --store s --sessions 2",
    ] {
        let door = door_of(alloc, STATS, Vec::new(alloc))?;
        let mut stores = new_stores(alloc);
        let Left { status, out, door } = served(&rt, alloc, line, door, &mut stores)?;
        assert_eq!(rt; status, 0, "{line}");
        assert_eq!(rt;
            out.written(),
            b"ready 8017\nsessions 2 length 0\n".as_slice(),
            "{line}"
        );
        let back = door.into_back();
        assert_eq!(rt; back.len(), 2, "{line}");
        for done in back {
            let link = done.into_link();
            assert!(rt;
                link.sink().written().starts_with(b"HTTP/1.1 200 OK\r\n"),
                "{line}"
            );
        }
    }
    Ok(())
}

// The door's first call opens it, and the second is the first that asks for a link.
#[test]
fn a_fault_of_the_door_is_told(rt: HostRuntime) -> Result<(), Fail> {
    let alloc = rt.alloc();
    let input = joined(alloc, POST, WALK)?;
    let replies = joined(alloc, POSTED, WALKED)?;
    for (fails, line, written, served_links) in [
        (1, "serve --workers 1 --port 1", b"".as_slice(), 0),
        (
            2,
            "serve --workers 1 --port 1",
            b"ready 1\nsessions 0 length 0\n".as_slice(),
            0,
        ),
        (
            3,
            "serve --workers 1",
            b"ready 8017\nsessions 1 length 1\n".as_slice(),
            1,
        ),
    ] {
        let door = door_of(alloc, input.as_slice(), vec![in alloc; fails]?)?;
        let mut stores = new_stores(alloc);
        let Left { status, out, door } = served(&rt, alloc, line, door, &mut stores)?;
        assert_eq!(rt; status, 8, "call {fails}");
        assert_eq!(rt; out.written(), written, "call {fails}");
        let back = door.into_back();
        assert_eq!(rt; back.len(), served_links, "call {fails}");
        for done in back {
            let link = done.into_link();
            assert_eq!(rt; link.sink().written(), replies.as_slice(), "call {fails}");
        }
    }
    Ok(())
}

#[test]
fn a_replay_goes_on_where_a_service_ended(rt: HostRuntime) -> Result<(), Fail> {
    let alloc = rt.alloc();
    let mut links = Vec::with_capacity(alloc, 1)?;
    let link = link_over(alloc, joined(alloc, POST, WALK)?, 0)?;
    links.push_reserved(link);
    let door = MemoryDoor::new(alloc, links, Vec::new(alloc))?;
    let mut stores = new_stores(alloc);
    let line = "serve --workers 1 --store s --capacity 4096 --segments 4";
    let Left { status, out, door } = served(&rt, alloc, line, door, &mut stores)?;
    assert_eq!(rt; status, 0);
    assert_eq!(rt;
        out.written(),
        b"ready 8017\nsessions 1 length 1\n".as_slice()
    );
    let replies = joined(alloc, POSTED, WALKED)?;
    let back = door.into_back();
    assert_eq!(rt; back.len(), 1);
    for done in back {
        let link = done.into_link();
        assert_eq!(rt; link.sink().written(), replies.as_slice());
    }
    let line = "replay --store s --capacity 4096 --segments 4";
    let ran = over(alloc, line, STATS.to_vec(alloc)?, &mut stores)?;
    assert_eq!(rt; ran.status, 0);
    assert!(rt; ran.out.written().ends_with(ONE_FAVORITE));
    Ok(())
}

/// The replies to the same posts and walk, after one favorite.
const POSTED_NEXT: &[u8] =
    b"HTTP/1.1 200 OK\r\nContent-Type: application/json\r\nContent-Length: 21\r\nConnection: keep-alive\r\n\r\n{\"from\":1,\"length\":2}";

const WALKED_NEXT: &[u8] =
    b"HTTP/1.1 200 OK\r\nContent-Type: application/json\r\nContent-Length: 59\r\nConnection: keep-alive\r\n\r\n{\"length\":2,\"results\":[{\"post\":10,\"visits\":3,\"proof\":[1]}]}";

/// A door of three links with a post and a walk as input. The first read of the second link fails.
fn door_of_three(alloc: Global) -> Result<MemoryDoor, Fail>
    ensures { IfOk result (λ d. (handed_by d ≡ 0) × (back_at d ≡ 0) × (nones_of d ≡ 0) × (entered_by d ≡ 0) × (given_to d ≡ [])) }
{
    let mut links = Vec::with_capacity(alloc, 3)?;
    let first = link_over(alloc, joined(alloc, POST, WALK)?, 0)?;
    let second = link_over(alloc, joined(alloc, POST, WALK)?, 1)?;
    let third = link_over(alloc, joined(alloc, POST, WALK)?, 0)?;
    links.push_reserved(first);
    links.push_reserved(second);
    links.push_reserved(third);
    Ok(MemoryDoor::new(alloc, links, Vec::new(alloc))?)
}

#[test]
fn a_link_that_fails_ends_its_own_session_alone(rt: HostRuntime) -> Result<(), Fail> {
    let alloc = rt.alloc();
    let door = door_of_three(alloc)?;
    let mut stores = new_stores(alloc);
    let line = "serve --workers 1 --sessions 4";
    let Left { status, out, door } = served(&rt, alloc, line, door, &mut stores)?;
    assert_eq!(rt; status, 0);
    assert_eq!(rt;
        out.written(),
        b"ready 8017\nsessions 3 length 2\n".as_slice()
    );
    let replies = joined(alloc, POSTED, WALKED)?;
    let next = joined(alloc, POSTED_NEXT, WALKED_NEXT)?;
    let back = door.into_back();
    assert_eq!(rt; back.len(), 3);
    let written = [replies.as_slice(), b"".as_slice(), next.as_slice()];
    for (done, written) in back.into_iter().zip(written) {
        let link = done.into_link();
        assert_eq!(rt; link.sink().written(), written);
    }
    Ok(())
}
