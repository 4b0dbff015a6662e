//! The interactions of a batch.
ghost use Rattle.std.specs.Prelude.{◌≡◌, ◌+◌, ◌≤◌, [], IfOk, IfErr, OnOk, Ok, length};
ghost use Rattle.serde_json.specs.View.{view, items_view};
ghost use Rattle.gj_request.specs.Forms.{each};
ghost use Rattle.gj_request.specs.Results.{Refuses, Gives};
ghost use Rattle.gj_request.specs.Tables as tables;
ghost use Rattle.gj_request.specs.Tables.{field, needed, item_of, add_item, items_of};

use crate::fields::{check_names, id, kind, moment};
use crate::forms::read_array;
use crate::name::Name;
use crate::refusal::{Reason, Refusal};
use gj_base::{Item, ItemList, MAX_BATCH};
use serde_json::Value;
use std::alloc::Global;

/// The names of an element of items.
const ITEM: [Name; 4] = [Name::User, Name::Post, Name::Kind, Name::At];

/// One interaction.
#[tactic(auto, unfolding(crate::specs::Tables::item_of))]
fn read_item(name: Name, value: &Value) -> Result<Item, Reason>
    ensures { result ≡ item_of name (view value.now) }
{
    check_names(name, value, &ITEM)?;
    let user = id(value, Name::User)?;
    let post = id(value, Name::Post)?;
    let kind = kind(value, Name::Kind)?;
    let at = moment(value, Name::At)?;
    Ok(Item {
        user,
        post,
        kind,
        at,
    })
}

/// Puts one interaction more at the end.
#[tactic(auto, unfolding(crate::specs::Tables::add_item))]
fn push_item(items: &mut ItemList, name: Name, value: &Value) -> Result<(), Refusal>
    ensures ok { OnOk result (add_item name items.old (view value.now) ≡ Ok items.new) }
    ensures refused { IfErr result (Refuses (add_item name items.old (view value.now))) }
    ensures len { OnOk result (length items.new ≡ length items.old + 1) }
{
    let item = read_item(name, value)?;
    items.push(item)?;
    Ok(())
}

/// The interactions of a list. One pass, with the list reserved before.
fn items_in(alloc: Global, name: Name, list: &[Value]) -> Result<ItemList, Refusal>
    ensures exact { Gives (each (add_item name) [] (items_view list.now)) result }
    ensures len { IfOk result (λ items. length items ≡ length list.now) }
{
    let mut items = ItemList::with_capacity(alloc, list.len())?;
    for value in list {
        push_item(&mut items, name, value)?;
    }
    Ok(items)
}

/// The interactions of a batch, in order.
#[tactic(auto, unfolding(crate::specs::Tables::items_of))]
fn read_items(alloc: Global, name: Name, value: &Value) -> Result<ItemList, Refusal>
    ensures exact { Gives (items_of name (view value.now)) result }
    ensures in_range { IfOk result (λ items. (1 ≤ length items) × (length items ≤ 4096)) }
{
    let list = read_array(name, value, MAX_BATCH)?;
    items_in(alloc, name, list)
}

/// Interactions, which have to be there.
#[tactic(auto, unfolding(crate::specs::Tables::field))]
pub fn items(alloc: Global, object: &Value, name: Name) -> Result<ItemList, Refusal>
    ensures exact { Gives (field (needed name tables.items) (view object.now)) result }
    ensures in_range { IfOk result (λ items. (1 ≤ length items) × (length items ≤ 4096)) }
{
    match object.get(name.text()) {
        Some(value) => read_items(alloc, name, value),
        None => Err(Refusal::Field(name)),
    }
}
