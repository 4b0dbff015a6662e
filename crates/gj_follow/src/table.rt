//! The names of an object's fields.
ghost use Rattle.std.specs.Prelude.{◌≡◌, string_bytes};
ghost use Rattle.std.specs.BTreeMap.{keys};
ghost use Rattle.std.specs.List.{list_all};
ghost use Rattle.serde_json.specs.View.{view, members_view};
ghost use Rattle.gj_follow.specs.Reading.{all_known, is_object_of, knows};

use serde_json::{Map, Value};

/// Whose fields an object has.
#[derive(Clone, Copy, Debug, PartialEq, Eq)]
pub enum Table {
    APage,
    AnItem,
}

fn is_known(text: &str, table: Table) -> bool
    ensures { result ≡ knows table text.now }
{
    match table {
        Table::APage => text == "length" || text == "from" || text == "items",
        Table::AnItem => text == "user" || text == "post" || text == "kind" || text == "at",
    }
}

fn has_known_keys(members: &Map<String, Value>, table: Table) -> bool
    ensures { result ≡ list_all (λ text. knows table (string_bytes text)) (keys members.now) }
{
    members.keys().all(|text| is_known(text.as_str(), table))
}

fn are_known(members: &Map<String, Value>, table: Table) -> bool
    ensures { result ≡ all_known table (members_view members.now.entries) }
{
    has_known_keys(members, table)
}

/// Whether the value is an object with no other names than these.
#[tactic(auto, unfolding(crate::specs::Reading::is_object_of))]
pub fn is_object_of(value: &Value, table: Table) -> bool
    ensures { result ≡ is_object_of table (view value.now) }
{
    match value.as_object() {
        None => false,
        Some(members) => are_known(members, table),
    }
}
