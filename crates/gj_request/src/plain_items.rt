//! The interactions of a batch in the plain form, read token by token.
ghost use Rattle.std.specs.Prelude.{◌≡◌, ◌+◌, ◌-◌, ◌*◌, true, IfSome, Some, None};
ghost use Rattle.std.specs.Char.{is_ascii_digit};
ghost use Rattle.json.specs.Reads.{token_of};
ghost use Rattle.gj_request.specs.PlainItems.{Spells, AddsNumber, AddsKind, AreAll, TakesPart, TakesItem, TakesItems, no_parts};

use gj_base::{Item, ItemList, Kind, MAX_BATCH, MAX_ID};
use json::{Reader, Token};
use std::alloc::Global;

/// The fields of an interaction that have been read.
#[derive(Clone, Copy)]
struct Parts {
    user: Option<u64>,
    post: Option<u64>,
    kind: Option<Kind>,
    at: Option<u64>,
}

/// The fields of an element of items.
const FIELDS: usize = 4;

/// The interactions up to the end of their array, which are not more than a batch may have. Takes memory for the list, once
/// where `room` is enough.
pub fn read_items(alloc: Global, reader: &mut Reader<'_>, room: usize) -> Option<ItemList>
    ensures { IfSome result (λ items. TakesItems reader.old items reader.new) }
{
    let mut items = ItemList::with_capacity(alloc, room).ok()?;
    for _ in 0..=MAX_BATCH {
        match reader.next()? {
            Token::BeginObject => items.push(read_item(reader)?).ok()?,
            Token::EndArray => return Some(items),
            _ => return None,
        }
    }
    None
}

/// An interaction, after the brace that opens it.
fn read_item(reader: &mut Reader<'_>) -> Option<Item>
    ensures { IfSome result (λ item. TakesItem no_parts reader.old item reader.new) }
{
    let mut parts = Parts {
        user: None,
        post: None,
        kind: None,
        at: None,
    };
    for _ in 0..=FIELDS {
        match reader.next()? {
            Token::Key(name) => parts = with_part(parts, name, reader.next()?)?,
            Token::EndObject => return item_of(parts),
            _ => return None,
        }
    }
    None
}

/// The interaction that the fields say.
fn item_of(parts: Parts) -> Option<Item>
    ensures { IfSome result (AreAll parts) }
{
    Item::make(parts.user?, parts.post?, parts.kind?, parts.at.unwrap_or(0))
}

/// The fields and one more, which is not among them.
fn with_part(parts: Parts, name: &str, value: Token<'_>) -> Option<Parts>
    ensures { IfSome result (TakesPart parts name.now (token_of value.entry)) }
{
    match value {
        Token::Number(text) => with_number(parts, name, spelled(text.as_bytes())?),
        Token::String(text) => with_kind(parts, name, Kind::from_name(text)?),
        _ => None,
    }
}

/// The number that digits alone spell, where it is in range.
pub fn spelled(text: &[u8]) -> Option<u64>
    ensures { IfSome result (Spells text.now) }
{
    let mut value: u64 = 0;
    for digit in text {
        value = with_digit(value, *digit)?;
    }
    if text.is_empty() || value > MAX_ID {
        None
    } else {
        Some(value)
    }
}

/// The value with one digit more. Where it is `None` for a digit, the number is out of range.
fn with_digit(value: u64, digit: u8) -> Option<u64>
    ensures digit { IfSome result (λ _. is_ascii_digit digit ≡ true) }
    ensures value { IfSome result (λ more. more ≡ 10 * value + (digit - 48)) }
{
    if digit.is_ascii_digit() && value <= MAX_ID / 10 {
        Some(10 * value + u64::from(digit - b'0'))
    } else {
        None
    }
}

fn with_number(parts: Parts, name: &str, n: u64) -> Option<Parts>
    ensures { IfSome result (AddsNumber parts name.now n) }
{
    match name {
        "user" => with_user(parts, n),
        "post" => with_post(parts, n),
        "at" => with_moment(parts, n),
        _ => None,
    }
}

fn with_user(parts: Parts, user: u64) -> Option<Parts>
    ensures { IfSome result (λ more. (parts.user ≡ None) × (more ≡ record parts { user = Some user })) }
{
    if parts.user.is_some() {
        return None;
    }
    Some(Parts {
        user: Some(user),
        ..parts
    })
}

fn with_post(parts: Parts, post: u64) -> Option<Parts>
    ensures { IfSome result (λ more. (parts.post ≡ None) × (more ≡ record parts { post = Some post })) }
{
    if parts.post.is_some() {
        return None;
    }
    Some(Parts {
        post: Some(post),
        ..parts
    })
}

fn with_moment(parts: Parts, at: u64) -> Option<Parts>
    ensures { IfSome result (λ more. (parts.at ≡ None) × (more ≡ record parts { at = Some at })) }
{
    if parts.at.is_some() {
        return None;
    }
    Some(Parts {
        at: Some(at),
        ..parts
    })
}

fn with_kind(parts: Parts, name: &str, kind: Kind) -> Option<Parts>
    ensures { IfSome result (AddsKind parts name.now kind) }
{
    if name != "kind" || parts.kind.is_some() {
        return None;
    }
    Some(Parts {
        kind: Some(kind),
        ..parts
    })
}
