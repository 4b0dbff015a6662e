//! What the body of a count asks for.
ghost use Rattle.std.specs.Prelude.{IfOk};
ghost use Rattle.serde_json.specs.View.{view};
ghost use Rattle.gj_request.specs.Requests.{count_of, IsAsked};
ghost use Rattle.gj_request.specs.Results.{Gives};

use crate::fields::{DEFAULT_PROOF, DEFAULT_TOP, check_names, kinds, moment, number, small};
use crate::least::least;
use crate::name::Name;
use crate::refusal::Refusal;
use crate::seeds::weighted_seeds;
use gj_base::{Ask, CountAsk, HISTORY_END, MAX_PROOF, MAX_TOP, Query};
use serde_json::Value;
use std::alloc::Global;

/// The names of a count's fields.
const COUNT: [Name; 7] = [
    Name::Seeds,
    Name::Kinds,
    Name::Least,
    Name::Top,
    Name::Proof,
    Name::Since,
    Name::NotBefore,
];

/// The count that a body asks for. Takes memory for the lists of the ask.
#[tactic(auto, unfolding(crate::specs::Requests::count_of))]
pub fn read_count(alloc: Global, tree: &Value) -> Result<Ask, Refusal>
    ensures exact { Gives (count_of (view tree.now)) result }
    ensures in_range { IfOk result IsAsked }
{
    check_names(Name::Body, tree, &COUNT)?;
    let seeds = weighted_seeds(alloc, tree, Name::Seeds)?;
    let mask = kinds(tree, Name::Kinds)?;
    let least = least(tree, Name::Least)?;
    let top = small(tree, Name::Top, 1, MAX_TOP, Some(DEFAULT_TOP))?;
    let proof = small(tree, Name::Proof, 0, MAX_PROOF, Some(DEFAULT_PROOF))?;
    let since = number(tree, Name::Since, 0, HISTORY_END, Some(0))?;
    let not_before = moment(tree, Name::NotBefore)?;
    Ok(Ask::Query(Query::Count(CountAsk {
        seeds: seeds.users,
        weights: seeds.weights,
        mask: mask.from_moment(not_before),
        least,
        top,
        proof,
        since,
    })))
}
