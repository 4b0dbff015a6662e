//! Lines of pages, from an input to an output.
use gj_base::{Conf, Graph, ListGraph, MemorySink, MemorySource};
use gj_follow::Follower;
use gj_pages::{FollowEnd, follow_lines};
use std::alloc::Global;
use std::process::Abort;
use std::test::Fail;

/// A page of the favorites of posts by user 1, whose history has 3 interactions.
const A: &str =
    r#"{"length":3,"from":0,"items":[{"user":1,"post":10,"kind":"favorite","at":0},{"user":1,"post":11,"kind":"favorite","at":0}]}"#;

const B: &str = r#"{"length":3,"from":2,"items":[{"user":1,"post":12,"kind":"favorite","at":0}]}"#;

const C: &str =
    r#"{"length":3,"from":1,"items":[{"user":1,"post":11,"kind":"favorite","at":0},{"user":1,"post":12,"kind":"favorite","at":0}]}"#;

/// What a follower answered to an input.
#[derive(Drop)]
struct Heard {
    end: FollowEnd,
    length: u64,
    out: MemorySink,
}

fn hear(
    rt: &impl Abort,
    alloc: Global,
    input: Vec<u8>,
    piece: usize,
    turns: u64,
) -> Result<Heard, Fail> {
    let conf = Conf::make(16, 2).expect(rt, "16 and 2 are in range");
    let mut follower = Follower::<ListGraph>::new(alloc, conf, 0)?;
    let mut source = MemorySource::new(input, piece.max(1), Vec::new(alloc));
    let mut out = MemorySink::new(alloc, 4096, 7, Vec::new(alloc))?;
    let end = follow_lines(alloc, &mut follower, &mut source, &mut out, turns);
    Ok(Heard {
        end,
        length: follower.graph().length(),
        out,
    })
}

/// The bytes of lines, each with a line feed.
fn lines(alloc: Global, lines: &[&str]) -> Result<Vec<u8>, Fail> {
    let mut bytes = Vec::new(alloc);
    for line in lines {
        bytes.extend_from_slice(line.as_bytes())?;
        bytes.push(b'\n')?;
    }
    Ok(bytes)
}

#[test]
fn pages_are_applied_where_they_join(rt: HostRuntime) -> Result<(), Fail> {
    let alloc = rt.alloc();
    let text = "ahead\nadded 2\nold\nadded 1\nold\nlength 3 base 0\n";
    for piece in [1, 7, 8192] {
        let input = lines(alloc, &[B, A, A, C, B])?;
        let heard = hear(&rt, alloc, input, piece, 10_000)?;
        assert_eq!(rt; heard.end, FollowEnd::Done);
        assert_eq!(rt; heard.out.written(), text.as_bytes());
        assert_eq!(rt; heard.length, 3);
    }
    Ok(())
}

#[test]
fn what_is_no_page_is_bad(rt: HostRuntime) -> Result<(), Fail> {
    let alloc = rt.alloc();
    let input = lines(alloc, &["{}", "", "{", A, "[]"])?;
    let heard = hear(&rt, alloc, input, 8192, 10)?;
    assert_eq!(rt; heard.end, FollowEnd::Done);
    assert_eq!(rt;
        heard.out.written(),
        "bad\nbad\nbad\nadded 2\nbad\nlength 2 base 0\n".as_bytes()
    );
    Ok(())
}

#[test]
fn an_input_ends_between_lines_or_inside_one(rt: HostRuntime) -> Result<(), Fail> {
    let alloc = rt.alloc();
    for (text, turns, end, out) in [
        ("", 10, FollowEnd::Done, "length 0 base 0\n"),
        ("\n", 10, FollowEnd::Done, "bad\nlength 0 base 0\n"),
        ("{}\n{", 10, FollowEnd::Truncated, "bad\n"),
        ("{}\n{}", 10, FollowEnd::Truncated, "bad\n"),
        ("{}\n{}\n", 1, FollowEnd::TooManyReads, "bad\nbad\n"),
    ] {
        let input = Vec::from_slice(alloc, text.as_bytes())?;
        let heard = hear(&rt, alloc, input, 8192, turns)?;
        assert_eq!(rt; heard.end, end, "{text}");
        assert_eq!(rt; heard.out.written(), out.as_bytes(), "{text}");
    }
    Ok(())
}

/// A line, so many bytes, and what follows.
fn long(alloc: Global, count: usize, after: &str) -> Result<Vec<u8>, Fail> {
    let mut bytes = lines(alloc, &[A])?;
    let mut blanks = Vec::new(alloc);
    blanks.resize(count, b' ')?;
    bytes.extend_from_slice(&blanks)?;
    bytes.extend_from_slice(after.as_bytes())?;
    Ok(bytes)
}

#[test]
fn a_longer_line_ends_the_input(rt: HostRuntime) -> Result<(), Fail> {
    let alloc = rt.alloc();
    for (count, after, end, out) in [
        (1_048_577, "\n{}\n", FollowEnd::LongLine, "added 2\n"),
        (1_048_577, "", FollowEnd::LongLine, "added 2\n"),
        (1_048_576, "", FollowEnd::Truncated, "added 2\n"),
        (
            1_048_576,
            "\n",
            FollowEnd::Done,
            "added 2\nbad\nlength 2 base 0\n",
        ),
    ] {
        let input = long(alloc, count, after)?;
        let heard = hear(&rt, alloc, input, 8192, 1_000)?;
        assert_eq!(rt; heard.end, end, "{count}");
        assert_eq!(rt; heard.out.written(), out.as_bytes(), "{count}");
    }
    Ok(())
}
