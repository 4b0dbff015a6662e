ghost use Rattle.std.specs.Prelude.{◌<◌};

use crate::calls::next_length;
use gj_http::{Framer, Refused, Step};
use std::alloc::{AllocError, Global};
use std::fmt::Write;
use std::test::Fail;

/// What a framer answers to the bytes, fed in pieces: a word for each part of each message, and how it ends.
fn told(alloc: Global, bytes: &[u8], size: usize) -> Result<String, Fail>
    requires { 0 < size }
{
    let mut framer = Framer::new(alloc)?;
    let mut text = String::new(alloc);
    for piece in bytes.chunks(size) {
        if framer.room() < piece.len() {
            text.push_str("full")?;
            return Ok(text);
        }
        framer.feed(piece);
        for _ in 0..100 {
            match framer.take_next() {
                Step::Message(m) => {
                    let body = str::from_utf8(m.body)?;
                    write!(text, "{:?} {} {body} {}; ", m.method, m.path, m.close)?;
                }
                Step::NeedMore => break,
                Step::Refused(why) => {
                    write!(text, "{why:?}")?;
                    return Ok(text);
                }
            }
        }
    }
    text.push_str(if framer.is_between() {
        "between"
    } else {
        "within"
    })?;
    Ok(text)
}

/// The text, so many times.
fn repeated(alloc: Global, text: &str, count: usize) -> Result<String, AllocError> {
    let mut all = String::new(alloc);
    for _ in 0..count {
        all.push_str(text)?;
    }
    Ok(all)
}

#[test]
fn requests_of_curl_are_the_same_in_pieces_of_any_size(rt: HostRuntime) -> Result<(), Fail> {
    let bytes =
        b"\r\nPOST /interactions?dry=1 HTTP/1.1\r\nHost: localhost:8080\r\nUser-Agent: curl/8.5.0\r\nAccept: */*\r\nContent-Type: application/json\r\nContent-Length: 12\r\n\r\n{\"items\":[]}GET /posts/7/users HTTP/1.1\r\nHost: localhost:8080\r\nUser-Agent: curl/8.5.0\r\nAccept: */*\r\nConnection: Close\r\n\r\n";
    for size in 1..bytes.len() + 1 {
        let text = told(rt.alloc(), bytes, size)?;
        assert_eq!(rt;
            text.as_str(),
            "Post /interactions {\"items\":[]} false; Get /posts/7/users  true; between",
            "{size}"
        );
    }
    Ok(())
}

#[test]
fn each_message_is_taken_or_refused_for_its_cause(rt: HostRuntime) -> Result<(), Fail> {
    let cases = [
        ("GET /stats HTTP/1.0\r\n\r\n", "Get /stats  true; between"),
        (
            "GET /stats HTTP/1.0\r\nConnection: x, Keep-Alive\r\n\r\n",
            "Get /stats  false; between",
        ),
        ("HEAD / HTTP/1.1\r\n\r\n", "Other /  true; between"),
        ("get / HTTP/1.1\n\n", "Other /  false; between"),
        (
            "POST / HTTP/1.1\r\ncontent-length:\t002 \r\n\r\nab",
            "Post / ab false; between",
        ),
        ("POST / HTTP/1.1\r\nContent-Length: 2\r\n\r\na", "within"),
        (
            "POST / HTTP/1.1\r\nContent-Length: 1048577\r\n\r\n",
            "BodyLong",
        ),
        (
            "POST / HTTP/1.1\r\nContent-Length: 99999999999999999999999\r\n\r\n",
            "BodyLong",
        ),
        (
            "POST / HTTP/1.1\r\nContent-Length: 5x\r\n\r\nabcde",
            "Length",
        ),
        ("POST / HTTP/1.1\r\nContent-Length:\r\n\r\n", "Length"),
        (
            "POST / HTTP/1.1\r\nContent-Length: 1\r\nContent-Length: 1\r\n\r\na",
            "Length",
        ),
        (
            "POST / HTTP/1.1\r\nTransfer-Encoding: chunked\r\n\r\n",
            "Coded",
        ),
        (
            "POST / HTTP/1.1\r\nContent-Length: 5x\r\nTRANSFER-ENCODING: chunked\r\n\r\n",
            "Coded",
        ),
        ("GET\r\n\r\n", "Head"),
        (
            "GET / HTTP/1.1\r\n\r\nGET\r\n\r\nGET / HTTP/1.1\r\n\r\n",
            "Get /  false; Head",
        ),
        ("GET / HTTP/1.1\r\n\r\n\r\n\n", "Get /  false; between"),
        ("\r\n\r", "within"),
        ("", "between"),
    ];
    for (bytes, told_is) in cases {
        let text = told(rt.alloc(), bytes.as_bytes(), 8192)?;
        assert_eq!(rt; text.as_str(), told_is, "{bytes}");
    }
    Ok(())
}

#[test]
fn a_head_ends_within_the_first_8192_bytes(rt: HostRuntime) -> Result<(), Fail> {
    let cases = [
        ("a", 8191, "", "within"),
        ("a", 8192, "", "HeadLong"),
        ("\n", 8191, "", "between"),
        ("\n", 8192, "", "HeadLong"),
        (
            "\n",
            8174,
            "GET / HTTP/1.1\r\n\r\n",
            "Get /  false; between",
        ),
        ("\n", 8175, "GET / HTTP/1.1\r\n\r\n", "HeadLong"),
    ];
    for (text, count, end, told_is) in cases {
        let mut bytes = repeated(rt.alloc(), text, count)?;
        bytes.push_str(end)?;
        for size in [1, 4096, 10000] {
            let text = told(rt.alloc(), bytes.as_bytes(), size)?;
            assert_eq!(rt; text.as_str(), told_is, "{count} in pieces of {size}");
        }
    }
    Ok(())
}

#[test]
fn a_head_has_at_most_64_field_lines(rt: HostRuntime) -> Result<(), Fail> {
    for (count, told_is) in [(64, "Get /  false; between"), (65, "Head")] {
        let mut bytes = String::from_str(rt.alloc(), "GET / HTTP/1.1\r\n")?;
        bytes.push_str(repeated(rt.alloc(), "a: b\r\n", count)?.as_str())?;
        bytes.push_str("\r\n")?;
        let text = told(rt.alloc(), bytes.as_bytes(), 8192)?;
        assert_eq!(rt; text.as_str(), told_is, "{count}");
    }
    Ok(())
}

#[test]
fn the_longest_message_fits_and_a_refusal_stands_until_reset(rt: HostRuntime) -> Result<(), Fail> {
    let mut bytes = String::from_str(
        rt.alloc(),
        "POST / HTTP/1.1\r\nContent-Length: 1048576\r\n\r\n",
    )?;
    bytes.push_str(repeated(rt.alloc(), "0123456789abcdef", 65536)?.as_str())?;
    let mut framer = Framer::new(rt.alloc())?;
    assert_eq!(rt; framer.room(), 1_064_960);
    assert!(rt; bytes.len() <= framer.room());
    framer.feed(bytes.as_bytes());
    assert_eq!(rt; next_length(&mut framer), Ok(1_048_576));
    assert!(rt; 7 <= framer.room());
    framer.feed(b"GET\r\n\r\n");
    for _ in 0..2 {
        assert_eq!(rt; next_length(&mut framer), Err(Some(Refused::Head)));
    }
    framer.reset();
    assert_eq!(rt; next_length(&mut framer), Err(None));
    assert_eq!(rt; framer.room(), 1_064_960);
    Ok(())
}
