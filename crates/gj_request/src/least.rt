//! The least support by kind.
ghost use Rattle.std.specs.Prelude.{◌≡◌, ◌≤◌, IfOk, IfErr, OnOk, Ok, Err, string_bytes};
ghost use Rattle.std.specs.BTreeMap.{keys};
ghost use Rattle.std.specs.List.{list_all};
ghost use Rattle.serde_json.specs.View.{view, members_view};
ghost use Rattle.gj_request.specs.Counts as counts;
ghost use Rattle.gj_request.specs.Counts.{is_kind, kinds_object, kind_least, least_of, no_least};
ghost use Rattle.gj_request.specs.Tables.{all_names, field, optional};

use crate::forms::{kind_named, read_number};
use crate::name::Name;
use crate::refusal::Reason;
use gj_base::{Kind, KindLeast, MAX_LEAST};
use serde_json::{Map, Value};

/// Refuses what is no object, and an object with a name that is no kind's.
#[tactic(auto, unfolding(crate::specs::Counts::kinds_object))]
fn check_kinds(name: Name, value: &Value) -> Result<(), Reason>
    ensures ok { OnOk result (kinds_object name (view value.now) ≡ Ok (view value.now)) }
    ensures refused { IfErr result (λ why. kinds_object name (view value.now) ≡ Err why) }
{
    let Some(members) = value.as_object() else {
        return Err(Reason::Field(name));
    };
    if are_kinds(members) {
        Ok(())
    } else {
        Err(Reason::Field(Name::Unknown))
    }
}

fn are_kinds(members: &Map<String, Value>) -> bool
    ensures { result ≡ all_names is_kind (members_view members.now.entries) }
{
    has_kind_keys(members)
}

fn has_kind_keys(members: &Map<String, Value>) -> bool
    ensures { result ≡ list_all (λ text. is_kind (string_bytes text)) (keys members.now) }
{
    members.keys().all(|text| is_kind(text.as_str()))
}

fn is_kind(text: &str) -> bool
    ensures { result ≡ is_kind text.now }
{
    kind_named(text).is_some()
}

/// How many have to be of the kind, by default none.
#[tactic(auto, unfolding(crate::specs::Counts::kind_least))]
fn kind_least(name: Name, value: &Value, kind: Kind) -> Result<u32, Reason>
    ensures exact { result ≡ kind_least name (view value.now) kind }
    ensures in_range { IfOk result (λ n. n ≤ 1000) }
{
    match value.get(kind.name()) {
        Some(number) => {
            let n = read_number(name, number, 0, MAX_LEAST as u64)?;
            Ok(n as u32)
        }
        None => Ok(0),
    }
}

/// The least support by the values under the names of kinds.
#[tactic(auto, unfolding(crate::specs::Counts::least_of))]
fn read_least(name: Name, value: &Value) -> Result<KindLeast, Reason>
    ensures { result ≡ least_of name (view value.now) }
{
    check_kinds(name, value)?;
    let click = kind_least(name, value, Kind::Click)?;
    let favorite = kind_least(name, value, Kind::Favorite)?;
    let retweet = kind_least(name, value, Kind::Retweet)?;
    let reply = kind_least(name, value, Kind::Reply)?;
    let tweet = kind_least(name, value, Kind::Tweet)?;
    Ok(KindLeast {
        click,
        favorite,
        retweet,
        reply,
        tweet,
    })
}

/// The support that every post has.
const NO_LEAST: KindLeast = KindLeast {
    click: 0,
    favorite: 0,
    retweet: 0,
    reply: 0,
    tweet: 0,
};

/// The least support, by default none.
#[tactic(auto, unfolding(crate::specs::Tables::field))]
pub fn least(object: &Value, name: Name) -> Result<KindLeast, Reason>
    ensures { result ≡ field (optional name counts.least no_least) (view object.now) }
{
    match object.get(name.text()) {
        Some(value) => read_least(name, value),
        None => Ok(NO_LEAST),
    }
}
