//! Seed users with their weights.
ghost use Rattle.std.specs.Prelude.{◌≡◌, ◌+◌, ◌≤◌, IsTrue, IfOk, IfErr, OnOk, Ok, length};
ghost use Rattle.serde_json.specs.View.{view, items_view};
ghost use Rattle.gj_base.specs.Asks.{are_distinct, are_ids, are_weights};
ghost use Rattle.gj_request.specs.Counts as counts;
ghost use Rattle.gj_request.specs.Counts.{seed_of, add_seed, no_seeds, seeds_of, AreWeighted};
ghost use Rattle.gj_request.specs.Forms.{each};
ghost use Rattle.gj_request.specs.Results.{Refuses, Gives};
ghost use Rattle.gj_request.specs.SeenIds.{HasThese};
ghost use Rattle.gj_request.specs.Tables.{field, needed};

use crate::fields::{check_names, id, number};
use crate::forms::{insert_id, read_array};
use crate::name::Name;
use crate::refusal::{Reason, Refusal};
use gj_base::{IdList, MAX_ID, MAX_SEEDS, MAX_WEIGHT};
use serde_json::Value;
use std::alloc::Global;
use std::collections::BTreeSet;

/// A seed user with its weight.
#[derive(Clone, Copy)]
pub struct WeightedSeed {
    pub user: u64,
    pub weight: u64,
}

/// Seed users, no two of which are equal. The weight at an index is that of the user there.
#[derive(Drop)]
pub struct WeightedSeeds {
    pub users: IdList,
    pub weights: IdList,
}

/// The names of an element of seeds.
const SEED: [Name; 2] = [Name::User, Name::Weight];

/// One seed.
#[tactic(auto, unfolding(crate::specs::Counts::seed_of))]
fn read_seed(name: Name, value: &Value) -> Result<WeightedSeed, Reason>
    ensures exact { result ≡ seed_of name (view value.now) }
    ensures user { IfOk result (λ seed. seed.user ≤ MAX_ID) }
    ensures weight { IfOk result (λ seed. (1 ≤ seed.weight) × (seed.weight ≤ 1000000)) }
{
    check_names(name, value, &SEED)?;
    let user = id(value, Name::User)?;
    let weight = number(value, Name::Weight, 1, MAX_WEIGHT, None)?;
    Ok(WeightedSeed { user, weight })
}

/// Puts one seed more at the end, whose user must not be among the earlier ones; `seen` has the same users.
#[tactic(auto, unfolding(crate::specs::Counts::add_seed))]
fn push_seed(
    seeds: &mut WeightedSeeds,
    seen: &mut BTreeSet<u64>,
    name: Name,
    value: &Value,
) -> Result<(), Refusal>
    requires same { HasThese seen.old seeds.old.users }
    ensures ok { OnOk result (add_seed name seeds.old (view value.now) ≡ Ok seeds.new) }
    ensures refused { IfErr result (Refuses (add_seed name seeds.old (view value.now))) }
    ensures same { OnOk result (HasThese seen.new seeds.new.users) }
    ensures len { OnOk result (length seeds.new.users ≡ length seeds.old.users + 1) }
    ensures weights_len { OnOk result (length seeds.new.weights ≡ length seeds.old.weights + 1) }
    ensures distinct { OnOk result (IsTrue (are_distinct seeds.old.users) → IsTrue (are_distinct seeds.new.users)) }
    ensures ids { OnOk result (IsTrue (are_ids seeds.old.users) → IsTrue (are_ids seeds.new.users)) }
    ensures weights { OnOk result (IsTrue (are_weights seeds.old.weights) → IsTrue (are_weights seeds.new.weights)) }
{
    let seed = read_seed(name, value)?;
    let is_new = insert_id(seen, seed.user)?;
    if !is_new {
        return Err(Refusal::Range(name));
    }
    seeds.users.push(seed.user)?;
    seeds.weights.push(seed.weight)?;
    Ok(())
}

/// The seeds of a list, in n log n steps.
fn seeds_in(alloc: Global, name: Name, list: &[Value]) -> Result<WeightedSeeds, Refusal>
    ensures exact { Gives (each (add_seed name) no_seeds (items_view list.now)) result }
    ensures len { IfOk result (λ seeds. length seeds.users ≡ length list.now) }
    ensures weights_len { IfOk result (λ seeds. length seeds.weights ≡ length list.now) }
    ensures distinct { IfOk result (λ seeds. IsTrue (are_distinct seeds.users)) }
    ensures ids { IfOk result (λ seeds. IsTrue (are_ids seeds.users)) }
    ensures weights { IfOk result (λ seeds. IsTrue (are_weights seeds.weights)) }
{
    let mut seen = BTreeSet::new(alloc);
    let users = IdList::with_capacity(alloc, list.len())?;
    let weights = IdList::with_capacity(alloc, list.len())?;
    let mut seeds = WeightedSeeds { users, weights };
    for value in list {
        push_seed(&mut seeds, &mut seen, name, value)?;
    }
    Ok(seeds)
}

/// The seeds of an array, in order.
#[tactic(auto, unfolding(crate::specs::Counts::seeds_of))]
fn read_seeds(alloc: Global, name: Name, value: &Value) -> Result<WeightedSeeds, Refusal>
    ensures exact { Gives (seeds_of name (view value.now)) result }
    ensures seeds { IfOk result AreWeighted }
{
    let list = read_array(name, value, MAX_SEEDS)?;
    seeds_in(alloc, name, list)
}

/// Seeds, which have to be there.
#[tactic(auto, unfolding(crate::specs::Tables::field))]
pub fn weighted_seeds(alloc: Global, object: &Value, name: Name) -> Result<WeightedSeeds, Refusal>
    ensures exact { Gives (field (needed name counts.seeds) (view object.now)) result }
    ensures seeds { IfOk result AreWeighted }
{
    match object.get(name.text()) {
        Some(value) => read_seeds(alloc, name, value),
        None => Err(Refusal::Field(name)),
    }
}
