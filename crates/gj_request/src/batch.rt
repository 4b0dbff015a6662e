//! What the body of a batch asks for.
ghost use Rattle.std.specs.Prelude.{◌≡◌, ◌≤◌, IfOk, IfErr, length};
ghost use Rattle.serde_json.specs.View.{view};
ghost use Rattle.gj_request.specs.Requests.{batch_ask, batch_of, IsAsked};
ghost use Rattle.gj_request.specs.Results.{Gives};
ghost use Rattle.gj_request.specs.declared.name.Name.TheVariants as names;
ghost use Rattle.gj_request.specs.declared.refusal.Refusal.TheVariants as refusals;

use crate::fields::{check_names, number, small};
use crate::items::items;
use crate::name::Name;
use crate::refusal::Refusal;
use gj_base::{Ask, HISTORY_END, ItemList, MAX_PRODUCER, NotedItems};
use serde_json::Value;
use std::alloc::Global;

/// The names of a batch's fields.
const BATCH: [Name; 3] = [Name::Items, Name::Producer, Name::Number];

/// The batch that a body asks to keep. Takes memory for its list.
#[tactic(auto, unfolding(crate::specs::Requests::batch_of))]
pub fn read_batch(alloc: Global, tree: &Value) -> Result<Ask, Refusal>
    ensures exact { Gives (batch_of (view tree.now)) result }
    ensures in_range { IfOk result IsAsked }
{
    check_names(Name::Body, tree, &BATCH)?;
    let items = items(alloc, tree, Name::Items)?;
    let producer = small(tree, Name::Producer, 0, MAX_PRODUCER, Some(0))?;
    let number = number(tree, Name::Number, 0, HISTORY_END, Some(0))?;
    batch_ask(items, producer, number)
}

/// A batch with neither a producer nor a number, or with both.
#[tactic(auto, unfolding(crate::specs::Requests::batch_ask))]
pub fn batch_ask(items: ItemList, producer: u32, number: u64) -> Result<Ask, Refusal>
    requires items_low { 1 ≤ length items }
    requires items_high { length items ≤ 4096 }
    requires producer { producer ≤ MAX_PRODUCER }
    requires number { number ≤ HISTORY_END }
    ensures exact { Gives (batch_ask items producer number) result }
    ensures cause { IfErr result (λ why. why ≡ refusals.Range names.Number) }
    ensures in_range { IfOk result IsAsked }
{
    if producer == 0 && number == 0 {
        Ok(Ask::Items(items))
    } else if producer == 0 || number == 0 {
        Err(Refusal::Range(Name::Number))
    } else {
        Ok(Ask::Noted(NotedItems {
            producer,
            number,
            items,
        }))
    }
}
