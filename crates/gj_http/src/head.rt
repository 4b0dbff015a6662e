// What a head says.

ghost use Rattle.std.specs.Prelude.{◌≡◌, ℕ, ◌+◌, ◌<◌, ◌≤◌, [], ◌∷◌, length, drop, take, codes, IfSome, IfNone, IfOk, IfErr, IsTrue, ◌↔◌, map, MatchOption, List, All, Ok, Err, slice_index};
ghost use Rattle.std.specs.Str.{IsUtf8};
ghost use Rattle.httparse.specs.Grammar.{RequestHead, ReadsRequest, trim_ows};
ghost use Rattle.httparse.specs.Spans.{IsRequestWithin, IsRequestAt, IsHeaderWithin, IsWithin, header_bytes, span_bytes};
ghost use Rattle.gj_http.specs.Heads.{IsHead, is_word, is_number, values, stated_length, length_by, closes, method_of, path_of};
ghost use Rattle.gj_http.specs.Fronts.{Shows, IsBad};

use crate::message::{Method, Refused};
use crate::options::{has_option_in, is_named};
use httparse::Status;
use httparse::spans::{EMPTY_HEADER_SPAN, HeaderSpan, RequestSpans, Span, parse_request};

/// The longest body.
const MAX_BODY: usize = 1_048_576;

/// What a head asks for.
#[derive(Clone, Copy)]
pub struct Asked {
    pub method: Method,
    /// In the head.
    pub path: Span,
    /// Of the body.
    pub length: usize,
    pub close: bool,
}

/// What the bytes ask for, which as a whole are a head.
pub fn read_head(head: &[u8]) -> Result<Asked, Refused>
    ensures ok { IfOk result (λ asked. (h : RequestHead) × IsHead head.now h × Shows head.now asked h) }
    ensures err { IfErr result (λ why. IsBad head.now why) }
{
    let mut fields = [EMPTY_HEADER_SPAN; 64];
    match whole(head, &mut fields) {
        Some(spans) => asked_by(head, spans, &fields[..spans.headers]),
        None => Err(Refused::Head),
    }
}

/// Where the parts of the head are, which is all of the bytes.
fn whole(head: &[u8], fields: &mut [HeaderSpan]) -> Option<RequestSpans>
    ensures within { IfSome result (λ spans. IsRequestWithin head.now fields.new spans) }
    ensures some { IfSome result (λ spans. (h : RequestHead) × IsRequestAt head.now fields.new spans h × ReadsRequest head.now h []) }
    ensures none { IfNone result ((h : RequestHead) → ReadsRequest head.now h [] → length h.fields ≤ length fields.old → ⊥) }
{
    match parse_request(head, fields) {
        Ok(Status::Complete(spans)) => {
            if spans.len == head.len() {
                Some(spans)
            } else {
                None
            }
        }
        _ => None,
    }
}

/// What the parts of a head ask for.
fn asked_by(head: &[u8], spans: RequestSpans, fields: &[HeaderSpan]) -> Result<Asked, Refused>
    requires method { IsWithin (length head.now) spans.method }
    requires path { IsWithin (length head.now) spans.path }
    requires text { IsUtf8 (span_bytes head.now spans.path) }
    requires fields { All (IsHeaderWithin (length head.now)) fields.now }
    ensures within { IfOk result (λ asked. IsWithin (length head.now) asked.path) }
    ensures text { IfOk result (λ asked. IsUtf8 (span_bytes head.now asked.path)) }
    ensures method { IfOk result (λ asked. asked.method ≡ method_of (span_bytes head.now spans.method)) }
    ensures path { IfOk result (λ asked. span_bytes head.now asked.path ≡ path_of (span_bytes head.now spans.path)) }
    ensures length { IfOk result (λ asked. length_by (map (header_bytes head.now) fields.now) ≡ Ok asked.length) }
    ensures close { IfOk result (λ asked. asked.close ≡ closes (span_bytes head.now spans.method) spans.version (map (header_bytes head.now) fields.now)) }
    ensures err { IfErr result (λ why. length_by (map (header_bytes head.now) fields.now) ≡ Err why) }
{
    let length = length_in(head, fields)?;
    let method = spans.method.of(head);
    Ok(Asked {
        method: method_named(method),
        path: path_in(head, spans.path),
        length,
        close: is_closed_by(head, method, spans.version, fields),
    })
}

fn method_named(name: &[u8]) -> Method
    ensures { result ≡ method_of name.now }
{
    if name == b"GET".as_slice() {
        Method::Get
    } else if name == b"POST".as_slice() {
        Method::Post
    } else {
        Method::Other
    }
}

/// The target up to its first `?`.
fn path_in(head: &[u8], target: Span) -> Span
    requires within { IsWithin (length head.now) target }
    requires text { IsUtf8 (span_bytes head.now target) }
    ensures within { IsWithin (length head.now) result }
    ensures text { IsUtf8 (span_bytes head.now result) }
    ensures path { span_bytes head.now result ≡ path_of (span_bytes head.now target) }
{
    Span {
        start: target.start,
        end: target.start + path_length(target.of(head)),
    }
}

/// Where the first `?` stands, or the length.
fn path_length(target: &[u8]) -> usize
    ensures within { result ≤ length target.now }
    ensures mark { result < length target.now → slice_index target.now result ≡ 63 }
    ensures path { take result target.now ≡ path_of target.now }
{
    for i in 0..target.len() {
        if target[i] == b'?' {
            return i;
        }
    }
    target.len()
}

fn is_closed_by(head: &[u8], method: &[u8], version: u8, fields: &[HeaderSpan]) -> bool
    requires { All (IsHeaderWithin (length head.now)) fields.now }
    ensures { result ≡ closes method.now version (map (header_bytes head.now) fields.now) }
{
    has_option_in(head, fields, b"close")
        || (version == 0 && !has_option_in(head, fields, b"keep-alive"))
        || method == b"HEAD".as_slice()
}

/// The length of the body.
fn length_in(head: &[u8], fields: &[HeaderSpan]) -> Result<usize, Refused>
    requires { All (IsHeaderWithin (length head.now)) fields.now }
    ensures { result ≡ length_by (map (header_bytes head.now) fields.now) }
{
    if is_any_named(head, fields, b"transfer-encoding") {
        return Err(Refused::Coded);
    }
    match only_named(head, fields, b"content-length") {
        Ok(None) => Ok(0),
        Ok(Some(value)) => length_of(value.of(head)),
        Err(()) => Err(Refused::Length),
    }
}

fn is_any_named(head: &[u8], fields: &[HeaderSpan], word: &[u8]) -> bool
    requires { All (IsHeaderWithin (length head.now)) fields.now }
    ensures { IsTrue result ↔ (0 < length (values word.now (map (header_bytes head.now) fields.now))) }
{
    for field in fields {
        if is_named(head, *field, word) {
            return true;
        }
    }
    false
}

/// The value of the one field of that name, if there is one, or an error where there are more.
fn only_named(head: &[u8], fields: &[HeaderSpan], word: &[u8]) -> Result<Option<Span>, ()>
    requires { All (IsHeaderWithin (length head.now)) fields.now }
    ensures none { IfOk result (λ one. IfNone one (values word.now (map (header_bytes head.now) fields.now) ≡ [])) }
    ensures one { IfOk result (λ one. IfSome one (λ span. IsWithin (length head.now) span
        × (values word.now (map (header_bytes head.now) fields.now) ≡ span_bytes head.now span ∷ []))) }
    ensures more { IfErr result (λ _. 1 < length (values word.now (map (header_bytes head.now) fields.now))) }
{
    let mut one = None;
    for field in fields {
        if is_named(head, *field, word) {
            if one.is_some() {
                return Err(());
            }
            one = Some(field.value);
        }
    }
    Ok(one)
}

/// The length that the value of a field states.
fn length_of(value: &[u8]) -> Result<usize, Refused>
    ensures { result ≡ stated_length value.now }
{
    if !is_digits(value) {
        return Err(Refused::Length);
    }
    let mut length = 0;
    for b in value {
        length = length * 10 + (*b - b'0') as usize;
        if length > MAX_BODY {
            return Err(Refused::BodyLong);
        }
    }
    Ok(length)
}

/// One ASCII digit or more, and nothing else.
fn is_digits(text: &[u8]) -> bool
    ensures { result ≡ is_number text.now }
{
    for b in text {
        if !b.is_ascii_digit() {
            return false;
        }
    }
    !text.is_empty()
}
