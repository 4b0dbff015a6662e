//! Runs whose streams are cut, come in pieces, or fail.
ghost use Rattle.std.specs.Prelude.{◌<◌};

use gj_base::{MemorySink, MemorySource};
use gj_keep::NoKeepers;
use gj_program::run_local;
use std::alloc::Global;
use std::test::Fail;

pub const POST: &[u8] =
    b"POST /interactions HTTP/1.1\r\nContent-Length: 50\r\n\r\n{\"items\":[{\"user\":1,\"post\":10,\"kind\":\"favorite\"}]}";

pub const WALK: &[u8] =
    b"POST /walk HTTP/1.1\r\nContent-Length: 23\r\n\r\n{\"seeds\":[1],\"steps\":6}";

pub const POSTED: &[u8] =
    b"HTTP/1.1 200 OK\r\nContent-Type: application/json\r\nContent-Length: 21\r\nConnection: keep-alive\r\n\r\n{\"from\":0,\"length\":1}";

pub const WALKED: &[u8] =
    b"HTTP/1.1 200 OK\r\nContent-Type: application/json\r\nContent-Length: 59\r\nConnection: keep-alive\r\n\r\n{\"length\":1,\"results\":[{\"post\":10,\"visits\":3,\"proof\":[1]}]}";

/// What a run left.
#[derive(Drop)]
pub struct Ran {
    pub status: u8,
    pub out: MemorySink,
    pub err: MemorySink,
}

/// The bytes, one after the other.
pub fn joined(alloc: Global, first: &[u8], second: &[u8]) -> Result<Vec<u8>, Fail> {
    let mut bytes = Vec::new(alloc);
    bytes.extend_from_slice(first)?;
    bytes.extend_from_slice(second)?;
    Ok(bytes)
}

/// A run over the arguments, which single blanks part, whose source gives `read` bytes a call and whose sink takes `write`;
/// the calls with these numbers fail, and none with the number 0.
pub fn run_with(
    alloc: Global,
    line: &str,
    input: Vec<u8>,
    read: usize,
    write: usize,
    fails: [u64; 3],
) -> Result<Ran, Fail>
    requires read { 0 < read }
    requires write { 0 < write }
{
    let mut words = Vec::new(alloc);
    for word in line.split(' ') {
        words.push(String::from_str(alloc, word)?)?;
    }
    let [read_fails, write_fails, err_fails] = fails;
    let mut input = MemorySource::new(input, read, vec![in alloc; read_fails]?);
    let mut out = MemorySink::new(alloc, 4096, write, vec![in alloc; write_fails]?)?;
    let mut err = MemorySink::new(alloc, 4096, 4096, vec![in alloc; err_fails]?)?;
    let mut stores = NoKeepers::new();
    let status = run_local(alloc, &words, &mut input, &mut out, &mut err, &mut stores);
    Ok(Ran { status, out, err })
}

#[test]
fn the_first_path_is_answered_however_it_comes(rt: HostRuntime) -> Result<(), Fail> {
    let alloc = rt.alloc();
    let replies = joined(alloc, POSTED, WALKED)?;
    for read in 1..200 {
        let ran = run_with(
            alloc,
            "replay",
            joined(alloc, POST, WALK)?,
            read,
            4096,
            [0; 3],
        )?;
        assert_eq!(rt; ran.status, 0, "by {read}");
        assert_eq!(rt; ran.out.written(), replies.as_slice(), "by {read}");
        assert!(rt; ran.err.written().is_empty(), "by {read}");
    }
    Ok(())
}

#[test]
fn a_message_that_is_cut_gets_no_reply(rt: HostRuntime) -> Result<(), Fail> {
    let alloc = rt.alloc();
    let whole = joined(alloc, POST, WALK)?;
    let replies = joined(alloc, POSTED, WALKED)?;
    for cut in 0..whole.len() + 1 {
        let input = whole[..cut].to_vec(alloc)?;
        let ran = run_with(alloc, "replay", input, 4096, 4096, [0; 3])?;
        let (status, written) = if cut == 0 {
            (0, 0)
        } else if cut < POST.len() {
            (6, 0)
        } else if cut == POST.len() {
            (0, POSTED.len())
        } else if cut < whole.len() {
            (6, POSTED.len())
        } else {
            (0, replies.len())
        };
        assert_eq!(rt; ran.status, status, "cut at {cut}");
        assert_eq!(rt;
            ran.out.written(),
            &replies[..written.min(replies.len())],
            "cut at {cut}"
        );
        assert_eq!(rt; ran.err.written().is_empty(), status == 0, "cut at {cut}");
    }
    Ok(())
}

#[test]
fn a_fault_ends_the_session_by_its_status(rt: HostRuntime) -> Result<(), Fail> {
    let alloc = rt.alloc();
    let whole = joined(alloc, POST, WALK)?;
    let replies = joined(alloc, POSTED, WALKED)?;

    let read = run_with(alloc, "replay", whole.clone()?, 4096, 4096, [2, 0, 0])?;
    assert_eq!(rt; read.status, 3);
    assert_eq!(rt; read.out.written(), replies.as_slice());
    assert_eq!(rt; read.err.written(), b"read fault\n".as_slice());

    let write = run_with(alloc, "replay", whole, 4096, 10, [0, 2, 0])?;
    assert_eq!(rt; write.status, 4);
    assert_eq!(rt; write.out.written(), b"HTTP/1.1 2".as_slice());
    assert_eq!(rt; write.err.written(), b"write fault\n".as_slice());

    let err = run_with(
        alloc,
        "replay",
        POST[..100].to_vec(alloc)?,
        4096,
        4096,
        [0, 0, 1],
    )?;
    assert_eq!(rt; err.status, 6);
    assert!(rt; err.out.written().is_empty());
    assert!(rt; err.err.written().is_empty());
    Ok(())
}

#[test]
fn other_words_are_no_command(rt: HostRuntime) -> Result<(), Fail> {
    let alloc = rt.alloc();
    let ran = run_with(
        alloc,
        "replays",
        joined(alloc, POST, WALK)?,
        4096,
        4096,
        [0; 3],
    )?;
    assert_eq!(rt; ran.status, 2);
    assert!(rt; ran.out.written().is_empty());
    assert_eq!(rt;
        ran.err.written(),
        b"usage: graphjet replay|serve|load|follow [options]\n".as_slice()
    );
    Ok(())
}
