//! The values of fields, by their forms.
ghost use Rattle.std.specs.Prelude.{◌≡◌, ℕ, ◌+◌, ◌≤◌, ◌==◌, ◌||◌, not, IsTrue, [], IfOk, IfErr, OnOk, Ok, Err, length};
ghost use Rattle.std.specs.BTreeSet.{contains};
ghost use Rattle.std.specs.Ordering.{nat_cmp};
ghost use Rattle.serde_json.specs.View.{view, items_view};
ghost use Rattle.gj_base.specs.Asks.{are_distinct, are_ids, AreSeeds};
ghost use Rattle.gj_request.specs.Forms.{number_of, truth_of, kind_named, kind_of, kinds_of, kinds_in, add_kind, array_of, ids_of, add_id, each};
ghost use Rattle.gj_request.specs.SeenIds.{HasThese};
ghost use Rattle.gj_request.specs.Results.{Refuses, Gives};

use crate::name::Name;
use crate::refusal::{Reason, Refusal};
use gj_base::{IdList, Kind, MAX_ID, MAX_SEEDS, Mask, Memory};
use serde_json::Value;
use std::alloc::Global;
use std::collections::BTreeSet;

/// A number from the least to the most.
#[tactic(auto, unfolding(crate::specs::Forms::number_of))]
pub fn read_number(name: Name, value: &Value, least: u64, most: u64) -> Result<u64, Reason>
    ensures exact { result ≡ number_of least most name (view value.now) }
    ensures in_range { IfOk result (λ n. (least ≤ n) × (n ≤ most)) }
{
    let Some(n) = value.as_u64() else {
        return Err(Reason::Field(name));
    };
    if least <= n && n <= most {
        Ok(n)
    } else {
        Err(Reason::Range(name))
    }
}

/// True or false.
#[tactic(auto, unfolding(crate::specs::Forms::truth_of))]
pub fn read_truth(name: Name, value: &Value) -> Result<bool, Reason>
    ensures { result ≡ truth_of name (view value.now) }
{
    match value.as_bool() {
        None => Err(Reason::Field(name)),
        Some(truth) => Ok(truth),
    }
}

/// The kind that a text names.
pub fn kind_named(text: &str) -> Option<Kind>
    ensures { result ≡ kind_named text.now }
{
    Kind::from_name(text)
}

/// A kind, by its name.
#[tactic(auto, unfolding(crate::specs::Forms::kind_of))]
pub fn read_kind(name: Name, value: &Value) -> Result<Kind, Reason>
    ensures { result ≡ kind_of name (view value.now) }
{
    let Some(text) = value.as_str() else {
        return Err(Reason::Field(name));
    };
    match kind_named(text) {
        None => Err(Reason::Range(name)),
        Some(kind) => Ok(kind),
    }
}

/// Puts one identifier more at the end, which must not be among the earlier ones; `seen` has the same identifiers.
#[tactic(auto, unfolding(crate::specs::Forms::add_id))]
fn push_id(
    ids: &mut IdList,
    seen: &mut BTreeSet<u64>,
    name: Name,
    value: &Value,
) -> Result<(), Refusal>
    requires same { HasThese seen.old ids.old }
    ensures ok { OnOk result (add_id name ids.old (view value.now) ≡ Ok ids.new) }
    ensures refused { IfErr result (Refuses (add_id name ids.old (view value.now))) }
    ensures same { OnOk result (HasThese seen.new ids.new) }
    ensures len { OnOk result (length ids.new ≡ length ids.old + 1) }
    ensures distinct { OnOk result (IsTrue (are_distinct ids.old) → IsTrue (are_distinct ids.new)) }
    ensures ids { OnOk result (IsTrue (are_ids ids.old) → IsTrue (are_ids ids.new)) }
{
    let id = read_number(name, value, 0, MAX_ID)?;
    let is_new = insert_id(seen, id)?;
    if !is_new {
        return Err(Refusal::Range(name));
    }
    ids.push(id)?;
    Ok(())
}

/// Puts an identifier into a set, and says whether it was new there.
pub fn insert_id(seen: &mut BTreeSet<u64>, id: u64) -> Result<bool, Memory>
    ensures is_new { IfOk result (λ is_new. is_new ≡ not (contains nat_cmp seen.old id)) }
    ensures others { OnOk result ((other : ℕ) → contains nat_cmp seen.new other ≡ (contains nat_cmp seen.old other || other == id)) }
{
    match seen.insert(id) {
        Ok(is_new) => Ok(is_new),
        Err(_) => Err(Memory),
    }
}

/// The identifiers of a list. A repeated one is found in a set, so that n of them cost n log n steps.
fn ids_in(alloc: Global, name: Name, list: &[Value]) -> Result<IdList, Refusal>
    ensures exact { Gives (each (add_id name) [] (items_view list.now)) result }
    ensures len { IfOk result (λ ids. length ids ≡ length list.now) }
    ensures distinct { IfOk result (λ ids. IsTrue (are_distinct ids)) }
    ensures ids { IfOk result (λ ids. IsTrue (are_ids ids)) }
{
    let mut seen = BTreeSet::new(alloc);
    let mut ids = IdList::with_capacity(alloc, list.len())?;
    for value in list {
        push_id(&mut ids, &mut seen, name, value)?;
    }
    Ok(ids)
}

/// Identifiers, no two of which are equal.
#[tactic(auto, unfolding(crate::specs::Forms::ids_of))]
pub fn read_ids(alloc: Global, name: Name, value: &Value) -> Result<IdList, Refusal>
    ensures exact { Gives (ids_of name (view value.now)) result }
    ensures seeds { IfOk result AreSeeds }
{
    let list = read_array(name, value, MAX_SEEDS)?;
    ids_in(alloc, name, list)
}

/// The elements of an array that has one at least and `most` at most.
#[tactic(auto, using(crate::proofs::ArrayLemmas::items_count))]
pub fn read_array(name: Name, value: &Value, most: usize) -> Result<&[Value], Reason>
    ensures ok { IfOk result (λ list. array_of most name (view value.now) ≡ Ok (items_view list.now)) }
    ensures refused { IfErr result (λ why. array_of most name (view value.now) ≡ Err why) }
    ensures in_range { IfOk result (λ list. (1 ≤ length list.now) × (length list.now ≤ most)) }
{
    let Some(list) = value.as_array() else {
        return Err(Reason::Field(name));
    };
    let list = list.as_slice();
    if 1 <= list.len() && list.len() <= most {
        Ok(list)
    } else {
        Err(Reason::Range(name))
    }
}

/// The kinds of an array with at least one element.
#[tactic(auto, unfolding(crate::specs::Forms::kinds_of))]
pub fn read_kinds(name: Name, value: &Value) -> Result<Mask, Reason>
    ensures { result ≡ kinds_of name (view value.now) }
{
    let Some(list) = value.as_array() else {
        return Err(Reason::Field(name));
    };
    kinds_in(name, list.as_slice())
}

fn kinds_in(name: Name, list: &[Value]) -> Result<Mask, Reason>
    ensures { result ≡ kinds_in name (items_view list.now) }
{
    let Some((first, others)) = list.split_first() else {
        return Err(Reason::Range(name));
    };
    let mut mask = Mask::one(read_kind(name, first)?);
    for value in others {
        mask = with_kind(mask, name, value)?;
    }
    Ok(mask)
}

/// The set and one kind more.
#[tactic(auto, unfolding(crate::specs::Forms::add_kind))]
fn with_kind(mask: Mask, name: Name, value: &Value) -> Result<Mask, Reason>
    ensures { result ≡ add_kind name mask (view value.now) }
{
    Ok(mask.with(read_kind(name, value)?))
}
