//! The fields of an object.
ghost use Rattle.std.specs.Prelude.{◌≡◌, ◌≤◌, IfOk, IfErr, OnOk, Ok, Err, Some, None, string_bytes};
ghost use Rattle.std.specs.BTreeMap.{keys};
ghost use Rattle.std.specs.List.{list_all};
ghost use Rattle.std.specs.Option.{ForSome};
ghost use Rattle.serde_json.specs.View.{view, members_view};
ghost use Rattle.gj_base.specs.Asks.{AreSeeds};
ghost use Rattle.gj_base.specs.Kinds.{all_kinds};
ghost use Rattle.gj_request.specs.Forms as forms;
ghost use Rattle.gj_request.specs.Results.{Gives};
ghost use Rattle.gj_request.specs.Tables.{field, needed, optional, object_of, is_known, are_known};

use crate::forms::{read_ids, read_kind, read_kinds, read_number, read_truth};
use crate::name::Name;
use crate::refusal::{Reason, Refusal};
use gj_base::{IdList, Kind, MAX_ID, Mask};
use serde_json::{Map, Value};
use std::alloc::Global;

/// The results of a query that does not say how many.
pub const DEFAULT_TOP: u32 = 10;

/// The seed users in a social proof, where a query does not say how many.
pub const DEFAULT_PROOF: u32 = 3;

/// Refuses what is no object, and an object with a name that is not in the table.
#[tactic(auto, unfolding(crate::specs::Tables::object_of))]
pub fn check_names(name: Name, value: &Value, table: &[Name]) -> Result<(), Reason>
    ensures ok { OnOk result (object_of name table.now (view value.now) ≡ Ok (view value.now)) }
    ensures refused { IfErr result (λ why. object_of name table.now (view value.now) ≡ Err why) }
{
    let Some(members) = value.as_object() else {
        return Err(Reason::Field(name));
    };
    if are_known(members, table) {
        Ok(())
    } else {
        Err(Reason::Field(Name::Unknown))
    }
}

fn are_known(members: &Map<String, Value>, table: &[Name]) -> bool
    ensures { result ≡ are_known table.now (members_view members.now.entries) }
{
    has_known_keys(members, table)
}

fn has_known_keys(members: &Map<String, Value>, table: &[Name]) -> bool
    ensures { result ≡ list_all (λ text. is_known table.now (string_bytes text)) (keys members.now) }
{
    members.keys().all(|text| is_known(text.as_str(), table))
}

fn is_known(text: &str, table: &[Name]) -> bool
    ensures { result ≡ is_known table.now text.now }
{
    table.iter().any(|name| text == name.text())
}

/// A number from the least to the most.
#[tactic(auto, unfolding(crate::specs::Tables::field))]
pub fn number(
    object: &Value,
    name: Name,
    least: u64,
    most: u64,
    default: Option<u64>,
) -> Result<u64, Reason>
    requires default_in_range { ForSome default (λ n. (least ≤ n) × (n ≤ most)) }
    ensures exact { result ≡ field (record { name = name; form = forms.number least most; default = default }) (view object.now) }
    ensures in_range { IfOk result (λ n. (least ≤ n) × (n ≤ most)) }
{
    match object.get(name.text()) {
        Some(value) => read_number(name, value, least, most),
        None => default.ok_or(Reason::Field(name)),
    }
}

/// The same in 32 bits.
pub fn small(
    object: &Value,
    name: Name,
    least: u32,
    most: u32,
    default: Option<u32>,
) -> Result<u32, Reason>
    requires default_in_range { ForSome default (λ n. (least ≤ n) × (n ≤ most)) }
    ensures exact { result ≡ field (record { name = name; form = forms.number least most; default = default }) (view object.now) }
    ensures in_range { IfOk result (λ n. (least ≤ n) × (n ≤ most)) }
{
    let n = number(object, name, least as u64, most as u64, wide(default))?;
    Ok(n as u32)
}

fn wide(n: Option<u32>) -> Option<u64>
    ensures { result ≡ n }
{
    match n {
        None => None,
        Some(n) => Some(n as u64),
    }
}

/// A moment in whole seconds, by default 0.
pub fn moment(object: &Value, name: Name) -> Result<u64, Reason>
    ensures exact { result ≡ field (optional name forms.moment 0) (view object.now) }
    ensures in_range { IfOk result (λ at. at ≤ MAX_ID) }
{
    number(object, name, 0, MAX_ID, Some(0))
}

/// An identifier, which has to be there.
#[tactic(auto, unfolding(crate::specs::Tables::field))]
pub fn id(object: &Value, name: Name) -> Result<u64, Reason>
    ensures exact { result ≡ field (needed name forms.id) (view object.now) }
    ensures in_range { IfOk result (λ id. id ≤ MAX_ID) }
{
    match object.get(name.text()) {
        Some(value) => read_number(name, value, 0, MAX_ID),
        None => Err(Reason::Field(name)),
    }
}

/// True or false.
#[tactic(auto, unfolding(crate::specs::Tables::field))]
pub fn truth(object: &Value, name: Name, default: bool) -> Result<bool, Reason>
    ensures { result ≡ field (optional name forms.truth default) (view object.now) }
{
    match object.get(name.text()) {
        Some(value) => read_truth(name, value),
        None => Ok(default),
    }
}

/// A kind, which has to be there.
#[tactic(auto, unfolding(crate::specs::Tables::field))]
pub fn kind(object: &Value, name: Name) -> Result<Kind, Reason>
    ensures { result ≡ field (needed name forms.kind) (view object.now) }
{
    match object.get(name.text()) {
        Some(value) => read_kind(name, value),
        None => Err(Reason::Field(name)),
    }
}

/// Kinds, by default all.
#[tactic(auto, unfolding(crate::specs::Tables::field))]
pub fn kinds(object: &Value, name: Name) -> Result<Mask, Reason>
    ensures { result ≡ field (optional name forms.kinds all_kinds) (view object.now) }
{
    match object.get(name.text()) {
        Some(value) => read_kinds(name, value),
        None => Ok(Mask::all()),
    }
}

/// Identifiers, which have to be there.
#[tactic(auto, unfolding(crate::specs::Tables::field))]
pub fn ids(alloc: Global, object: &Value, name: Name) -> Result<IdList, Refusal>
    ensures exact { Gives (field (needed name forms.ids) (view object.now)) result }
    ensures seeds { IfOk result AreSeeds }
{
    match object.get(name.text()) {
        Some(value) => read_ids(alloc, name, value),
        None => Err(Refusal::Field(name)),
    }
}
