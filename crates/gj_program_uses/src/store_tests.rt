//! Replays over kept windows, and a workload.
ghost use Rattle.std.specs.Prelude.{◌<◌, IsTrue};
ghost use Rattle.gj_keep.specs.MemoryHomes.{is_home};

use crate::tests::{POST, WALK, joined};
use gj_base::{KeptConf, KeptItem, MemorySink, MemorySource};
use gj_keep::{MemoryKeeper, MemoryKeepers};
use gj_program::run_local;
use std::alloc::Global;
use std::test::Fail;

pub const STATS: &[u8] = b"GET /stats HTTP/1.1\r\n\r\n";

/// The numbers of a window of 4 segments of 4096 interactions, after one favorite.
pub const ONE_FAVORITE: &[u8] =
    b"{\"length\":1,\"base\":0,\"capacity\":4096,\"segments\":4,\"kinds\":{\"click\":0,\"favorite\":1,\"retweet\":0,\"reply\":0,\"tweet\":0}}";

/// What a run left.
#[derive(Drop)]
pub struct Ran {
    pub status: u8,
    pub out: MemorySink,
    pub err: MemorySink,
}

/// A run over the arguments, which single blanks part, and the input, whose sink takes `write` bytes a call and fails the
/// call with this number, and none with the number 0.
fn over_sink(
    alloc: Global,
    line: &str,
    input: Vec<u8>,
    write: usize,
    fails: u64,
    stores: &mut MemoryKeepers,
) -> Result<Ran, Fail>
    requires some { 0 < write }
    requires home { IsTrue (is_home stores.old) }
    ensures { IsTrue (is_home stores.new) }
{
    let mut words = Vec::new(alloc);
    for word in line.split(' ') {
        words.push(String::from_str(alloc, word)?)?;
    }
    let mut input = MemorySource::new(input, 4096, Vec::new(alloc));
    let mut out = MemorySink::new(alloc, 8192, write, vec![in alloc; fails]?)?;
    let mut err = MemorySink::new(alloc, 4096, 4096, Vec::new(alloc))?;
    let status = run_local(alloc, &words, &mut input, &mut out, &mut err, stores);
    Ok(Ran { status, out, err })
}

/// The same, where no call of the sink fails.
pub fn over(
    alloc: Global,
    line: &str,
    input: Vec<u8>,
    stores: &mut MemoryKeepers,
) -> Result<Ran, Fail>
    requires { IsTrue (is_home stores.old) }
    ensures { IsTrue (is_home stores.new) }
{
    over_sink(alloc, line, input, 8192, 0, stores)
}

/// So many times the bytes.
fn times(alloc: Global, bytes: &[u8], count: usize) -> Result<Vec<u8>, Fail> {
    let mut all = Vec::new(alloc);
    for _ in 0..count {
        all.extend_from_slice(bytes)?;
    }
    Ok(all)
}

/// The same for so many posts.
fn run(alloc: Global, line: &str, posts: usize, stores: &mut MemoryKeepers) -> Result<Ran, Fail>
    requires { IsTrue (is_home stores.old) }
    ensures { IsTrue (is_home stores.new) }
{
    over(alloc, line, times(alloc, POST, posts)?, stores)
}

/// Stores whose keeper keeps these.
pub fn stores_of(
    alloc: Global,
    conf: Option<KeptConf>,
    rows: Vec<KeptItem>,
    fails: Vec<u64>,
) -> MemoryKeepers
    ensures { IsTrue (is_home result) }
{
    MemoryKeepers::new(MemoryKeeper::of(conf, rows, fails), Vec::new(alloc))
}

/// The status of a run whose opening is refused, which answers nothing, and its line.
fn refused(alloc: Global, line: &str, stores: MemoryKeepers) -> Result<(u8, MemorySink), Fail>
    requires { IsTrue (is_home stores) }
{
    let mut stores = stores;
    let ran = run(alloc, line, 1, &mut stores)?;
    if !ran.out.written().is_empty() {
        return Err(Fail::from("answered"));
    }
    Ok((ran.status, ran.err))
}

// The keeper's fifth call is the second post's. The replies to posts have 116 bytes, and the one for the fault 129.
#[test]
fn a_store_that_fails_refuses_a_post_and_no_other(rt: HostRuntime) -> Result<(), Fail> {
    let alloc = rt.alloc();
    let mut stores = stores_of(alloc, None, Vec::new(alloc), vec![in alloc; 5]?);
    let first = run(alloc, "replay --store s", 3, &mut stores)?;
    assert_eq!(rt; first.status, 0);
    assert_eq!(rt; first.out.written().len(), 361);
    assert!(rt; first.out.written().ends_with(b"{\"from\":1,\"length\":2}"));
    let second = run(alloc, "replay --store s", 1, &mut stores)?;
    assert!(rt; second.out.written().ends_with(b"{\"from\":2,\"length\":3}"));
    Ok(())
}

#[test]
fn a_refused_opening_is_told(rt: HostRuntime) -> Result<(), Fail> {
    let alloc = rt.alloc();
    let conf = KeptConf {
        version: 2,
        capacity: 16,
        segments: 2,
    };
    let row = KeptItem {
        place: 0,
        user: 1,
        post: 10,
        kind: 7,
        moment: 0,
    };
    let line = "replay --store s --segments 2 --capacity 16";
    let bad = stores_of(alloc, Some(conf), vec![in alloc; row]?, Vec::new(alloc));
    let (status, err) = refused(alloc, line, bad)?;
    assert_eq!(rt; status, 12);
    assert_eq!(rt; err.written(), b"kept row 0\n".as_slice());

    let other = stores_of(alloc, Some(conf), Vec::new(alloc), Vec::new(alloc));
    let (status, err) = refused(alloc, "replay --store s --segments 2", other)?;
    assert_eq!(rt; status, 11);
    assert!(rt;
        err.written()
            .starts_with(b"kept version 2 capacity 16 segments 2, ")
    );
    assert!(rt;
        err.written()
            .ends_with(b"asked version 2 capacity 4096 segments 2\n")
    );

    let fails = stores_of(alloc, None, Vec::new(alloc), vec![in alloc; 1]?);
    let (status, err) = refused(alloc, "replay --store s", fails)?;
    assert_eq!(rt; status, 5);
    assert_eq!(rt; err.written(), b"store fault\n".as_slice());
    Ok(())
}

#[test]
fn a_later_version_is_refused(rt: HostRuntime) -> Result<(), Fail> {
    let alloc = rt.alloc();
    let conf = KeptConf {
        version: 3,
        capacity: 16,
        segments: 2,
    };
    let later = stores_of(alloc, Some(conf), Vec::new(alloc), Vec::new(alloc));
    let line = "replay --store s --segments 2 --capacity 16";
    let (status, err) = refused(alloc, line, later)?;
    assert_eq!(rt; status, 11);
    assert_eq!(rt;
        err.written(),
        b"kept version 3 capacity 16 segments 2, asked version 2 capacity 16 segments 2\n".as_slice()
    );
    Ok(())
}

#[test]
fn a_load_writes_eight_lines(rt: HostRuntime) -> Result<(), Fail> {
    let alloc = rt.alloc();
    let mut stores = stores_of(alloc, None, Vec::new(alloc), Vec::new(alloc));
    let ran = run(alloc, "load --count 1", 0, &mut stores)?;
    assert_eq!(rt; ran.status, 0);
    assert_eq!(rt;
        ran.out.written(),
        b"accepted 1\nbatches 1\nlength 1\nbase 0\nwindow 1\nwalks 100\nvisits 50000\nbest 7139 500\n".as_slice()
    );
    assert!(rt; ran.err.written().is_empty());
    Ok(())
}

#[test]
fn what_was_accepted_before_a_write_fault_is_kept(rt: HostRuntime) -> Result<(), Fail> {
    let alloc = rt.alloc();
    let mut stores = stores_of(alloc, None, Vec::new(alloc), Vec::new(alloc));
    let line = "replay --store s --capacity 4096 --segments 4";
    let first = over_sink(alloc, line, joined(alloc, POST, WALK)?, 10, 2, &mut stores)?;
    assert_eq!(rt; first.status, 4);
    assert_eq!(rt; first.out.written(), b"HTTP/1.1 2".as_slice());
    assert_eq!(rt; first.err.written(), b"write fault\n".as_slice());
    let second = over(alloc, line, STATS.to_vec(alloc)?, &mut stores)?;
    assert!(rt; second.out.written().ends_with(ONE_FAVORITE));
    Ok(())
}

/// A post of eight times one favorite.
fn eight(alloc: Global) -> Result<Vec<u8>, Fail> {
    let mut bytes = Vec::new(alloc);
    bytes.extend_from_slice(
        b"POST /interactions HTTP/1.1\r\nContent-Length: 323\r\n\r\n{\"items\":[",
    )?;
    for _ in 0..7 {
        bytes.extend_from_slice(b"{\"user\":1,\"post\":10,\"kind\":\"favorite\"},")?;
    }
    bytes.extend_from_slice(b"{\"user\":1,\"post\":10,\"kind\":\"favorite\"}]}")?;
    Ok(bytes)
}

/// The replies to posts of eight interactions that are kept.
const EIGHTS: [&[u8]; 4] = [
    b"HTTP/1.1 200 OK\r\nContent-Type: application/json\r\nContent-Length: 21\r\nConnection: keep-alive\r\n\r\n{\"from\":0,\"length\":8}",
    b"HTTP/1.1 200 OK\r\nContent-Type: application/json\r\nContent-Length: 22\r\nConnection: keep-alive\r\n\r\n{\"from\":8,\"length\":16}",
    b"HTTP/1.1 200 OK\r\nContent-Type: application/json\r\nContent-Length: 23\r\nConnection: keep-alive\r\n\r\n{\"from\":16,\"length\":24}",
    b"HTTP/1.1 200 OK\r\nContent-Type: application/json\r\nContent-Length: 23\r\nConnection: keep-alive\r\n\r\n{\"from\":24,\"length\":32}",
];

const NOT_STORED: &[u8] =
    b"HTTP/1.1 503 Service Unavailable\r\nContent-Type: application/json\r\nContent-Length: 17\r\nConnection: keep-alive\r\n\r\n{\"error\":\"store\"}";

/// These, and the reply to a post that the store refused behind so many of them.
fn with_refused(alloc: Global, before: usize) -> Result<Vec<u8>, Fail> {
    let mut bytes = Vec::new(alloc);
    for reply in EIGHTS.iter().take(before) {
        bytes.extend_from_slice(reply)?;
    }
    bytes.extend_from_slice(NOT_STORED)?;
    for reply in EIGHTS.iter().skip(before) {
        bytes.extend_from_slice(reply)?;
    }
    Ok(bytes)
}

/// The input of five posts of eight interactions each.
fn five_posts(alloc: Global) -> Result<Vec<u8>, Fail> {
    times(alloc, eight(alloc)?.as_slice(), 5)
}

const ONE_SEGMENT: &str = "replay --store s --capacity 16 --segments 1";

// The keeper's first three calls open it.
#[test]
fn a_store_that_fails_before_the_session_keeps_nothing(rt: HostRuntime) -> Result<(), Fail> {
    let alloc = rt.alloc();
    for call in 1..4 {
        let mut stores = stores_of(alloc, None, Vec::new(alloc), vec![in alloc; call]?);
        let first = over(alloc, ONE_SEGMENT, five_posts(alloc)?, &mut stores)?;
        let second = over(alloc, ONE_SEGMENT, STATS.to_vec(alloc)?, &mut stores)?;
        assert_eq!(rt; first.status, 5, "call {call}");
        assert!(rt; first.out.written().is_empty(), "call {call}");
        assert_eq!(rt; second.status, 0, "call {call}");
        assert!(rt; second.out.written().ends_with(NONE_KEPT), "call {call}");
    }
    Ok(())
}

// The fourth post is the first whose window has a later base than the rows that are kept, so it has two calls.
#[test]
fn whichever_call_of_the_store_fails_what_was_accepted_is_kept(
    rt: HostRuntime,
) -> Result<(), Fail> {
    let alloc = rt.alloc();
    for (call, before) in [(4, 0), (5, 1), (6, 2), (7, 3), (8, 3), (9, 4)] {
        let mut stores = stores_of(alloc, None, Vec::new(alloc), vec![in alloc; call]?);
        let first = over(alloc, ONE_SEGMENT, five_posts(alloc)?, &mut stores)?;
        let second = over(alloc, ONE_SEGMENT, STATS.to_vec(alloc)?, &mut stores)?;
        let replies = with_refused(alloc, before)?;
        assert_eq!(rt; first.status, 0, "call {call}");
        assert_eq!(rt; first.out.written(), replies.as_slice(), "call {call}");
        assert_eq!(rt; second.status, 0, "call {call}");
        assert!(rt; second.out.written().ends_with(LAST_SIXTEEN), "call {call}");
    }
    Ok(())
}

/// The numbers of a window of one segment of 16 interactions, which begins.
const NONE_KEPT: &[u8] =
    b"{\"length\":0,\"base\":0,\"capacity\":16,\"segments\":1,\"kinds\":{\"click\":0,\"favorite\":0,\"retweet\":0,\"reply\":0,\"tweet\":0}}";

/// The same after 32 favorites.
const LAST_SIXTEEN: &[u8] =
    b"{\"length\":32,\"base\":16,\"capacity\":16,\"segments\":1,\"kinds\":{\"click\":0,\"favorite\":16,\"retweet\":0,\"reply\":0,\"tweet\":0}}";
