// Where the head at the front of the bytes begins and ends.

ghost use Rattle.std.specs.Prelude.{◌≡◌, ℕ, ◌+◌, ◌^◌, ◌<◌, ◌≤◌, Some, length, drop, IfSome, option_map};
ghost use Rattle.gj_http.specs.Cut.{empty_line, empty_lines, close_of_head, head_end, head_length, reach};
ghost use Rattle.gj_http.specs.Fronts.{IsFront};
ghost use Rattle.gj_http.specs.Hints.{IsHint, Knows};

use crate::head::{Asked, read_head};
use crate::message::{Method, Refused};
use httparse::spans::Span;

/// The bytes among which a head has to end.
pub const MAX_HEAD: usize = 8192;

/// The length of the empty line at the front, or 0.
fn empty_line_at(bytes: &[u8]) -> usize
    ensures exact { result ≡ empty_line bytes.now }
    ensures within { result ≤ length bytes.now }
{
    match bytes {
        [b'\n', ..] => 1,
        [b'\r', b'\n', ..] => 2,
        _ => 0,
    }
}

/// The length of the empty lines at the front, of which `passed` bytes are known.
pub fn empty_lines_at(bytes: &[u8], mut passed: usize) -> usize
    requires within { passed ≤ length bytes.now }
    requires lines { passed + empty_lines (drop passed bytes.now) ≡ empty_lines bytes.now }
    ensures exact { result ≡ empty_lines bytes.now }
    ensures within { result ≤ length bytes.now }
{
    while passed < bytes.len() {
        let line = empty_line_at(&bytes[passed..]);
        if line == 0 {
            return passed;
        }
        passed += line;
    }
    passed
}

/// The length of the end of a head at the front, or 0.
fn close_at(bytes: &[u8]) -> usize
    ensures exact { result ≡ close_of_head bytes.now }
    ensures within { result ≤ length bytes.now }
{
    match bytes {
        [b'\n', rest @ ..] => match empty_line_at(rest) {
            0 => 0,
            line => 1 + line,
        },
        _ => 0,
    }
}

/// The length of the head at the front, up to and with its end, which is known not to begin before `passed`.
fn head_end_in(bytes: &[u8], passed: usize) -> Option<usize>
    requires within { passed ≤ length bytes.now }
    requires end { option_map (λ n. passed + n) (head_end (drop passed bytes.now)) ≡ head_end bytes.now }
    ensures exact { result ≡ head_end bytes.now }
    ensures within { IfSome result (λ size. size ≤ length bytes.now) }
{
    for i in passed..bytes.len() {
        let close = close_at(&bytes[i..]);
        if close > 0 {
            return Some(i + close);
        }
    }
    None
}

/// What is known of the bytes at the front, whatever follows them.
#[derive(Clone, Copy)]
pub struct Hint {
    /// So many are empty lines.
    pub lines: usize,
    /// In so many after the lines no end of a head begins.
    pub passed: usize,
    /// Where there are fewer in all, a body is not there in full.
    pub want: usize,
}

/// Nothing is known.
pub const NO_HINT: Hint = Hint {
    lines: 0,
    passed: 0,
    want: 0,
};

/// A whole message, by where it is.
#[derive(Clone, Copy)]
pub struct MessageSpans {
    pub method: Method,
    pub path: Span,
    /// The message ends with it.
    pub body: Span,
    pub close: bool,
}

/// What stands at the front of the bytes.
#[derive(Clone, Copy)]
pub enum Front {
    Whole(MessageSpans),
    /// With what is known then.
    Partial(Hint),
    Bad(Refused),
}

/// What stands at the front of the bytes.
pub fn look(bytes: &[u8], hint: Hint) -> Front
    requires { Knows bytes.now hint }
    ensures { IsFront bytes.now result }
{
    if bytes.len() < hint.want {
        return Front::Partial(hint);
    }
    let reach = &bytes[..MAX_HEAD.min(bytes.len())];
    let start = lines_in(reach, hint);
    match head_end_in(&reach[start..], hint.passed) {
        Some(size) => look_past(bytes, hint, start, size),
        None => {
            if bytes.len() < MAX_HEAD {
                Front::Partial(Hint {
                    lines: start,
                    passed: (bytes.len() - start).saturating_sub(2),
                    want: 0,
                })
            } else {
                Front::Bad(Refused::HeadLong)
            }
        }
    }
}

/// The length of the empty lines at the front of the reach.
fn lines_in(seen: &[u8], hint: Hint) -> usize
    requires { IsHint seen.now hint }
    ensures exact { result ≡ empty_lines seen.now }
    ensures within { result + hint.passed ≤ length seen.now }
{
    if hint.passed > 0 {
        hint.lines
    } else {
        empty_lines_at(seen, hint.lines)
    }
}

/// What stands at the front of the bytes, whose head begins at `start` and has `size` bytes.
fn look_past(bytes: &[u8], hint: Hint, start: usize, size: usize) -> Front
    requires known { Knows bytes.now hint }
    requires start { start ≡ empty_lines (reach bytes.now) }
    requires size { head_length bytes.now ≡ Some size }
    requires within { start + size ≤ length bytes.now }
    ensures { IsFront bytes.now result }
{
    let after = start + size;
    match read_head(&bytes[start..after]) {
        Err(why) => Front::Bad(why),
        Ok(asked) => {
            let end = after + asked.length;
            if bytes.len() < end {
                Front::Partial(Hint {
                    lines: hint.lines,
                    passed: hint.passed,
                    want: end,
                })
            } else {
                Front::Whole(spans_past(asked, start, after, end))
            }
        }
    }
}

/// Where the parts of a message are, whose head begins at `start` and whose body is there from `after` to `end`.
fn spans_past(asked: Asked, start: usize, after: usize, end: usize) -> MessageSpans
    requires path { asked.path.start ≤ asked.path.end }
    requires fits { start + asked.path.end < 2 ^ 64 }
    ensures method { result.method ≡ asked.method }
    ensures path_start { result.path.start ≡ start + asked.path.start }
    ensures path_end { result.path.end ≡ start + asked.path.end }
    ensures body_start { result.body.start ≡ after }
    ensures body_end { result.body.end ≡ end }
    ensures close { result.close ≡ asked.close }
{
    MessageSpans {
        method: asked.method,
        path: Span {
            start: start + asked.path.start,
            end: start + asked.path.end,
        },
        body: Span { start: after, end },
        close: asked.close,
    }
}
