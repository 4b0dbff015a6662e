//! Pages that a window follows.

use crate::tests::{joined, run_with};
use std::alloc::Global;
use std::test::Fail;

/// The places 0 and 1 of a history of 3 favorites by user 1, of the posts 10, 11 and 12; the place 2; and the places 1 and 2.
const A: &[u8] =
    b"{\"length\":3,\"from\":0,\"items\":[{\"user\":1,\"post\":10,\"kind\":\"favorite\",\"at\":0},{\"user\":1,\"post\":11,\"kind\":\"favorite\",\"at\":0}]}\n";

const B: &[u8] =
    b"{\"length\":3,\"from\":2,\"items\":[{\"user\":1,\"post\":12,\"kind\":\"favorite\",\"at\":0}]}\n";

const C: &[u8] =
    b"{\"length\":3,\"from\":1,\"items\":[{\"user\":1,\"post\":11,\"kind\":\"favorite\",\"at\":0},{\"user\":1,\"post\":12,\"kind\":\"favorite\",\"at\":0}]}\n";

/// The page B, A, A again, C, and B again.
fn shuffled(alloc: Global) -> Result<Vec<u8>, Fail> {
    let mut input = Vec::new(alloc);
    for page in [B, A, A, C, B] {
        input.extend_from_slice(page)?;
    }
    Ok(input)
}

const ANSWERS: &[u8] = b"ahead\nadded 2\nold\nadded 1\nold\nlength 3 base 0\n";

#[test]
fn pages_are_followed_however_they_come(rt: HostRuntime) -> Result<(), Fail> {
    let alloc = rt.alloc();
    for read in [1, 7, 100, 4096] {
        let ran = run_with(alloc, "follow", shuffled(alloc)?, read, 9, [0; 3])?;
        assert_eq!(rt; ran.status, 0, "by {read}");
        assert_eq!(rt; ran.out.written(), ANSWERS, "by {read}");
        assert!(rt; ran.err.written().is_empty(), "by {read}");
    }
    Ok(())
}

#[test]
fn a_follower_begins_at_its_start(rt: HostRuntime) -> Result<(), Fail> {
    let alloc = rt.alloc();
    for (line, status, out) in [
        (
            "follow --capacity 16 --segments 2 --start 32",
            0,
            "old\nlength 32 base 32\n",
        ),
        ("follow --capacity 16 --start 8", 2, ""),
        ("follow --start 281474976710656", 2, ""),
        ("follow --store posts.db", 2, ""),
    ] {
        let ran = run_with(alloc, line, A.to_vec(alloc)?, 4096, 4096, [0; 3])?;
        assert_eq!(rt; ran.status, status, "{line}");
        assert_eq!(rt; ran.out.written(), out.as_bytes(), "{line}");
    }
    Ok(())
}

#[test]
fn a_fault_or_a_cut_ends_a_follower_by_its_status(rt: HostRuntime) -> Result<(), Fail> {
    let alloc = rt.alloc();
    let cut = joined(alloc, A, b"{}")?;
    let ran = run_with(alloc, "follow", cut, 4096, 4096, [0; 3])?;
    assert_eq!(rt; ran.status, 6);
    assert_eq!(rt; ran.out.written(), b"added 2\n".as_slice());
    assert_eq!(rt; ran.err.written(), b"truncated input\n".as_slice());

    let read = run_with(alloc, "follow", shuffled(alloc)?, 4096, 4096, [2, 0, 0])?;
    assert_eq!(rt; read.status, 3);
    assert_eq!(rt;
        read.out.written(),
        b"ahead\nadded 2\nold\nadded 1\nold\n".as_slice()
    );

    let write = run_with(alloc, "follow", shuffled(alloc)?, 4096, 4, [0, 3, 0])?;
    assert_eq!(rt; write.status, 4);
    assert_eq!(rt; write.out.written(), b"ahead\n".as_slice());
    assert_eq!(rt; write.err.written(), b"write fault\n".as_slice());
    Ok(())
}

/// The page A, a line of so many blanks, and the page B.
fn with_blanks(alloc: Global, count: usize) -> Result<Vec<u8>, Fail> {
    let mut input = A.to_vec(alloc)?;
    let mut blanks = Vec::new(alloc);
    blanks.resize(count, b' ')?;
    input.extend_from_slice(&blanks)?;
    input.extend_from_slice(b"\n")?;
    input.extend_from_slice(B)?;
    Ok(input)
}

// What follows the longer line is neither applied nor answered, and no last line is written.
#[test]
fn a_longer_line_ends_a_follower(rt: HostRuntime) -> Result<(), Fail> {
    let alloc = rt.alloc();
    for (count, status, out, err) in [
        (1_048_576, 0, "added 2\nbad\nadded 1\nlength 3 base 0\n", ""),
        (1_048_577, 9, "added 2\n", "stopped early\n"),
    ] {
        let ran = run_with(
            alloc,
            "follow",
            with_blanks(alloc, count)?,
            4096,
            4096,
            [0; 3],
        )?;
        assert_eq!(rt; ran.status, status, "{count}");
        assert_eq!(rt; ran.out.written(), out.as_bytes(), "{count}");
        assert_eq!(rt; ran.err.written(), err.as_bytes(), "{count}");
    }
    Ok(())
}
