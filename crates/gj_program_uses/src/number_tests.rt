//! Batches that their producer numbered.
ghost use Rattle.std.specs.Prelude.{IsTrue};
ghost use Rattle.gj_keep.specs.MemoryHomes.{is_home};

use crate::store_tests::{STATS, over, stores_of};
use std::alloc::Global;
use std::test::Fail;

/// A favorite of user 1 for post 10, by producer 5 with this number of one digit.
fn numbered(alloc: Global, number: &[u8]) -> Result<Vec<u8>, Fail> {
    let mut bytes = Vec::new(alloc);
    bytes.extend_from_slice(
        b"POST /interactions HTTP/1.1\r\nContent-Length: 74\r\n\r\n{\"items\":[{\"user\":1,\"post\":10,\"kind\":\"favorite\"}],\"producer\":5,\"number\":",
    )?;
    bytes.extend_from_slice(number)?;
    bytes.extend_from_slice(b"}")?;
    Ok(bytes)
}

/// Those with the numbers that the digits say.
fn numbered_by(alloc: Global, digits: &[u8]) -> Result<Vec<u8>, Fail> {
    let mut bytes = Vec::new(alloc);
    for i in 0..digits.len() {
        let post = numbered(alloc, &digits[i..i + 1])?;
        bytes.extend_from_slice(post.as_slice())?;
    }
    Ok(bytes)
}

const NEW: &[u8] =
    b"HTTP/1.1 200 OK\r\nContent-Type: application/json\r\nContent-Length: 21\r\nConnection: keep-alive\r\n\r\n{\"from\":0,\"length\":1}";

const REPEATED: &[u8] =
    b"HTTP/1.1 200 OK\r\nContent-Type: application/json\r\nContent-Length: 37\r\nConnection: keep-alive\r\n\r\n{\"from\":0,\"length\":1,\"repeated\":true}";

const SKIPPED: &[u8] =
    b"HTTP/1.1 409 Conflict\r\nContent-Type: application/json\r\nContent-Length: 28\r\nConnection: keep-alive\r\n\r\n{\"error\":\"skipped\",\"last\":1}";

const NEXT: &[u8] =
    b"HTTP/1.1 200 OK\r\nContent-Type: application/json\r\nContent-Length: 21\r\nConnection: keep-alive\r\n\r\n{\"from\":1,\"length\":2}";

const OLD: &[u8] =
    b"HTTP/1.1 409 Conflict\r\nContent-Type: application/json\r\nContent-Length: 24\r\nConnection: keep-alive\r\n\r\n{\"error\":\"old\",\"last\":2}";

#[test]
fn a_numbered_batch_acts_once(rt: HostRuntime) -> Result<(), Fail> {
    let alloc = rt.alloc();
    let mut stores = stores_of(alloc, None, Vec::new(alloc), Vec::new(alloc));
    let ran = over(alloc, "replay", numbered_by(alloc, b"11321")?, &mut stores)?;
    let mut replies = Vec::new(alloc);
    for reply in [NEW, REPEATED, SKIPPED, NEXT, OLD] {
        replies.extend_from_slice(reply)?;
    }
    assert_eq!(rt; ran.status, 0);
    assert_eq!(rt; ran.out.written(), replies.as_slice());
    Ok(())
}

// The keeper's fifth call is the second post's. The numbers are forgotten with the run.
#[test]
fn a_batch_that_the_store_refused_keeps_its_number(rt: HostRuntime) -> Result<(), Fail> {
    let alloc = rt.alloc();
    let mut stores = stores_of(alloc, None, Vec::new(alloc), vec![in alloc; 5]?);
    let line = "replay --store s";
    let first = over(alloc, line, numbered_by(alloc, b"122")?, &mut stores)?;
    assert!(rt; first.out.written().starts_with(NEW));
    assert_eq!(rt; first.out.written().len(), 361);
    assert!(rt; first.out.written().ends_with(NEXT));
    let again = over(alloc, line, numbered_by(alloc, b"1")?, &mut stores)?;
    assert!(rt; again.out.written().ends_with(b"{\"from\":2,\"length\":3}"));
    Ok(())
}
