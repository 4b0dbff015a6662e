//! Pages in JSON.
ghost use Rattle.std.specs.Prelude.{◌≡◌, ◌≤◌, [], length, IfOk, IfErr, IfSome, Err, Some};
ghost use Rattle.serde_json.specs.View.{view, items_view};
ghost use Rattle.gj_follow.specs.Reading as words;
ghost use Rattle.gj_follow.specs.Reading.{Gives, Shapes, item_of, items_after, items_at, kind_at, number_at, page_read, reading_of, shaped, tree_of};

use crate::page::{MAX_PAGE, Page};
use crate::table::{Table, is_object_of};
use gj_base::{HISTORY_END, Item, ItemList, Kind, MAX_ID, Memory};
use serde_json::Value;
use std::alloc::Global;

/// Why a text is no page.
#[derive(Clone, Copy, Debug, Drop, PartialEq, Eq)]
pub enum PageRefusal {
    /// It has no reading as a JSON text.
    Json,
    /// Its value is not that of a page: it is no object, one of its names is missing or unknown, or a field has the wrong
    /// form or is out of range.
    Shape,
    /// No memory was found. It may come in place of any other answer.
    Memory,
}

impl From<Memory> for PageRefusal {
    ghost use Rattle.std.specs.Prelude.{◌≡◌};
    ghost use Rattle.gj_follow.specs.declared.reading.PageRefusal.TheVariants as refusals;

    ghost from_gives = { λ _ why. why ≡ refusals.Memory };

    fn from(_none: Memory) -> PageRefusal {
        PageRefusal::Memory
    }
}

/// The number up to the most that an object has under a name.
#[tactic(auto, unfolding(crate::specs::Reading::number_at))]
fn number(object: &Value, name: &str, most: u64) -> Option<u64>
    ensures exact { result ≡ number_at name.now most (view object.now) }
    ensures in_range { IfSome result (λ n. n ≤ most) }
{
    let Some(field) = object.get(name) else {
        return None;
    };
    let Some(n) = field.as_u64() else {
        return None;
    };
    if n <= most { Some(n) } else { None }
}

/// The kind that a text names.
fn kind_named(text: &str) -> Option<Kind>
    ensures { result ≡ words.kind_named text.now }
{
    Kind::from_name(text)
}

/// The kind that an object has under a name.
#[tactic(auto, unfolding(crate::specs::Reading::kind_at))]
fn kind(object: &Value, name: &str) -> Option<Kind>
    ensures { result ≡ kind_at name.now (view object.now) }
{
    let Some(field) = object.get(name) else {
        return None;
    };
    let Some(text) = field.as_str() else {
        return None;
    };
    kind_named(text)
}

/// An interaction.
#[tactic(auto, unfolding(crate::specs::Reading::item_of))]
fn read_item(value: &Value) -> Option<Item>
    ensures { result ≡ item_of (view value.now) }
{
    if !is_object_of(value, Table::AnItem) {
        return None;
    }
    let user = number(value, "user", MAX_ID)?;
    let post = number(value, "post", MAX_ID)?;
    let kind = kind(value, "kind")?;
    let at = number(value, "at", MAX_ID)?;
    Some(Item {
        user,
        post,
        kind,
        at,
    })
}

/// The interactions of a list, whose memory is taken before the first is read.
fn items_in(alloc: Global, list: &[Value]) -> Result<ItemList, PageRefusal>
    ensures exact { Shapes (items_after [] (items_view list.now)) result }
    ensures len { IfOk result (λ items. length items ≡ length list.now) }
{
    let mut items = ItemList::with_capacity(alloc, list.len())?;
    for value in list {
        let Some(item) = read_item(value) else {
            return Err(PageRefusal::Shape);
        };
        items.push(item)?;
    }
    Ok(items)
}

/// The interactions of an array with at most `MAX_PAGE` elements, which an object has under a name.
#[tactic(auto, unfolding(crate::specs::Reading::items_at), using(crate::proofs::ReadingLemmas::items_count))]
fn items(alloc: Global, object: &Value, name: &str) -> Result<ItemList, PageRefusal>
    ensures exact { Shapes (items_at name.now (view object.now)) result }
    ensures few { IfOk result (λ items. length items ≤ 1000) }
{
    let Some(field) = object.get(name) else {
        return Err(PageRefusal::Shape);
    };
    let Some(list) = field.as_array() else {
        return Err(PageRefusal::Shape);
    };
    let list = list.as_slice();
    if list.len() as u64 > MAX_PAGE {
        return Err(PageRefusal::Shape);
    }
    items_in(alloc, list)
}

/// A page, whose value is a tree.
#[tactic(auto, unfolding(crate::specs::Reading::page_read))]
fn page_in(alloc: Global, tree: &Value) -> Result<Page, PageRefusal>
    ensures { Gives (shaped (page_read (view tree.now))) result }
{
    if !is_object_of(tree, Table::APage) {
        return Err(PageRefusal::Shape);
    }
    let Some(length) = number(tree, "length", HISTORY_END) else {
        return Err(PageRefusal::Shape);
    };
    let Some(from) = number(tree, "from", HISTORY_END) else {
        return Err(PageRefusal::Shape);
    };
    let items = items(alloc, tree, "items")?;
    if from + items.len() as u64 <= length {
        Ok(Page {
            length,
            from,
            items,
        })
    } else {
        Err(PageRefusal::Shape)
    }
}

/// The tree of a text.
#[tactic(auto, unfolding(crate::specs::Reading::tree_of))]
fn parse(alloc: Global, line: &[u8]) -> Result<Value, PageRefusal>
    ensures ok { IfOk result (λ tree. tree_of line.now ≡ Some (view tree)) }
    ensures refused { IfErr result (λ why. Gives (reading_of (tree_of line.now)) (Err why)) }
{
    match Value::from_slice(alloc, line) {
        Ok(tree) => Ok(tree),
        Err(e) => {
            if e.is_memory() {
                Err(PageRefusal::Memory)
            } else {
                Err(PageRefusal::Json)
            }
        }
    }
}

/// The page that a line is in JSON: an object of `length`, `from` and `items`, an array of at most `MAX_PAGE` objects of
/// `user`, `post`, `kind` and `at`, in any order and with no other name. Each stands there, and numbers are whole. It takes
/// memory for the line's tree and for the page's list.
pub fn read_page(alloc: Global, line: &[u8]) -> Result<Page, PageRefusal>
    ensures exact { Gives (reading_of (tree_of line.now)) result }
{
    page_in(alloc, &parse(alloc, line)?)
}
