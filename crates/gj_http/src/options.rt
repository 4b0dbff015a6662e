// What the fields of a head are called, and the options that they list.

ghost use Rattle.std.specs.Prelude.{◌≡◌, ℕ, ◌+◌, ◌<◌, ◌≤◌, length, map, All};
ghost use Rattle.httparse.specs.Grammar.{trim_ows, is_ows};
ghost use Rattle.httparse.specs.Spans.{IsHeaderWithin, header_bytes, span_bytes};
ghost use Rattle.gj_http.specs.Heads.{is_word, has_part, has_option};

use httparse::spans::HeaderSpan;

/// The text is the word, without regard to ASCII case.
fn is_word_in(text: &[u8], word: &[u8]) -> bool
    ensures { result ≡ is_word word.now text.now }
{
    text.eq_ignore_ascii_case(word)
}

/// The field's name is the word.
pub fn is_named(head: &[u8], field: HeaderSpan, word: &[u8]) -> bool
    requires { IsHeaderWithin (length head.now) field }
    ensures { result ≡ is_word word.now (span_bytes head.now field.name) }
{
    is_word_in(field.name.of(head), word)
}

fn is_blank(b: u8) -> bool
    ensures { result ≡ is_ows b }
{
    b == b' ' || b == b'\t'
}

/// The value without spaces and tabs at its ends.
fn trimmed(value: &[u8]) -> &[u8]
    ensures { result.now ≡ trim_ows value.now }
{
    let mut start = 0;
    let mut end = value.len();
    while start < end && is_blank(value[start]) {
        start += 1;
    }
    while start < end && is_blank(value[end - 1]) {
        end -= 1;
    }
    &value[start..end]
}

fn has_part_in(value: &[u8], word: &[u8]) -> bool
    ensures { result ≡ has_part word.now value.now }
{
    value
        .split(|b| *b == b',')
        .any(|part| is_word_in(trimmed(part), word))
}

/// The word is an option of a `Connection`.
pub fn has_option_in(head: &[u8], fields: &[HeaderSpan], word: &[u8]) -> bool
    requires { All (IsHeaderWithin (length head.now)) fields.now }
    ensures { result ≡ has_option word.now (map (header_bytes head.now) fields.now) }
{
    for field in fields {
        if is_named(head, *field, b"connection") && has_part_in(field.value.of(head), word) {
            return true;
        }
    }
    false
}
