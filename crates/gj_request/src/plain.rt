//! Batches in the plain form, read token by token.
ghost use Rattle.std.specs.Prelude.{◌≡◌, IfSome, Some, None, Ok};
ghost use Rattle.json.specs.Lex.{tokens};
ghost use Rattle.gj_base.specs.declared.ask.Route.TheVariants.{Interactions};
ghost use Rattle.gj_request.specs.Requests.{asked, IsAsked};
ghost use Rattle.gj_request.specs.Plain.{AddsNumber, AddsItems, IsWhole, TakesField, TakesFields, IsPlain, no_fields};

use crate::batch::batch_ask;
use crate::plain_items::{read_items, spelled};
use gj_base::{Ask, HISTORY_END, ItemList, MAX_BATCH, MAX_PRODUCER};
use json::{Reader, Scratch, Token};
use std::alloc::Global;

/// The fields of a batch that have been read.
#[derive(Drop)]
struct BatchParts {
    items: Option<ItemList>,
    producer: Option<u64>,
    number: Option<u64>,
}

/// The fields of a batch.
const FIELDS: usize = 3;

/// The bytes of the shortest element of items, `{"user":0,"post":0,"kind":"click"}`.
const SHORTEST: usize = 34;

/// What a body in the plain form asks for. `None` says nothing of the body: it has another form, or no memory was found.
/// Takes memory for the reader's scratch and for the list, once each.
pub fn read_plain(alloc: Global, body: &[u8]) -> Option<Ask>
    ensures exact { IfSome result (λ ask. asked Interactions None body.now ≡ Ok ask) }
    ensures in_range { IfSome result IsAsked }
{
    match std::str::from_utf8(body) {
        Ok(text) => read_text(alloc, text),
        Err(_) => None,
    }
}

fn read_text(alloc: Global, text: &str) -> Option<Ask>
    ensures exact { IfSome result (IsPlain (tokens text.now)) }
    ensures in_range { IfSome result IsAsked }
{
    let mut scratch = Scratch::new(alloc);
    let mut reader = Reader::new(text, &mut scratch).ok()?;
    read_batch(alloc, &mut reader, MAX_BATCH.min(text.len() / SHORTEST))
}

/// A whole batch, and the end of the text.
fn read_batch(alloc: Global, reader: &mut Reader<'_>, room: usize) -> Option<Ask>
    ensures exact { IfSome result (IsPlain reader.old) }
    ensures in_range { IfSome result IsAsked }
{
    let Token::BeginObject = reader.next()? else {
        return None;
    };
    let ask = read_fields(alloc, reader, room)?;
    match reader.next() {
        None => Some(ask),
        Some(_) => None,
    }
}

/// A batch, after the brace that opens it.
fn read_fields(alloc: Global, reader: &mut Reader<'_>, room: usize) -> Option<Ask>
    ensures exact { IfSome result (λ ask. TakesFields no_fields reader.old ask reader.new) }
    ensures in_range { IfSome result IsAsked }
{
    let mut parts = BatchParts {
        items: None,
        producer: None,
        number: None,
    };
    for _ in 0..=FIELDS {
        match reader.next()? {
            Token::Key(name) => parts = with_field(alloc, reader, room, parts, name)?,
            Token::EndObject => return whole(parts),
            _ => return None,
        }
    }
    None
}

/// What the fields ask for, where they are in range and a batch has all of them that it needs.
fn whole(parts: BatchParts) -> Option<Ask>
    ensures exact { IfSome result (IsWhole parts) }
    ensures in_range { IfSome result IsAsked }
{
    let items = parts.items?;
    let producer = parts.producer.unwrap_or(0);
    let number = parts.number.unwrap_or(0);
    if items.len() == 0
        || items.len() > MAX_BATCH
        || producer > u64::from(MAX_PRODUCER)
        || number > HISTORY_END
    {
        return None;
    }
    batch_ask(items, producer as u32, number).ok()
}

/// The fields and the one of this name, which is not among them and whose value comes next.
fn with_field(
    alloc: Global,
    reader: &mut Reader<'_>,
    room: usize,
    parts: BatchParts,
    name: &str,
) -> Option<BatchParts>
    ensures { IfSome result (λ more. TakesField parts name.now reader.old more reader.new) }
{
    match reader.next()? {
        Token::Number(text) => with_number(parts, name, spelled(text.as_bytes())?),
        Token::BeginArray => with_items(parts, name, read_items(alloc, reader, room)?),
        _ => None,
    }
}

fn with_number(parts: BatchParts, name: &str, n: u64) -> Option<BatchParts>
    ensures { IfSome result (AddsNumber parts name.now n) }
{
    match name {
        "producer" => with_producer(parts, n),
        "number" => with_batch_number(parts, n),
        _ => None,
    }
}

fn with_producer(parts: BatchParts, producer: u64) -> Option<BatchParts>
    ensures { IfSome result (λ more. (parts.producer ≡ None) × (more ≡ record parts { producer = Some producer })) }
{
    if parts.producer.is_some() {
        return None;
    }
    Some(BatchParts {
        producer: Some(producer),
        ..parts
    })
}

fn with_batch_number(parts: BatchParts, number: u64) -> Option<BatchParts>
    ensures { IfSome result (λ more. (parts.number ≡ None) × (more ≡ record parts { number = Some number })) }
{
    if parts.number.is_some() {
        return None;
    }
    Some(BatchParts {
        number: Some(number),
        ..parts
    })
}

fn with_items(parts: BatchParts, name: &str, items: ItemList) -> Option<BatchParts>
    ensures { IfSome result (AddsItems parts name.now items) }
{
    if name != "items" || parts.items.is_some() {
        return None;
    }
    Some(BatchParts {
        items: Some(items),
        ..parts
    })
}
