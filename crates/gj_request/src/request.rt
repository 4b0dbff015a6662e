//! What a request asks for.
ghost use Rattle.std.specs.Prelude.{◌≡◌, ◌≤◌, IfOk, IfErr, Ok, Err, Some, None, is_some, option_map};
ghost use Rattle.serde_json.specs.View.{view};
ghost use Rattle.gj_request.specs.Requests.{tree_of, parsed, batch_of, walk_of, subgraph_of, similar_of, path_id, path_place, asked, has_id, IsAsked};
ghost use Rattle.gj_request.specs.Results.{Refuses, Gives};
ghost use Rattle.gj_base.specs.declared.ask.Route.TheVariants.{Interactions};

use crate::batch::read_batch;
use crate::count::read_count;
use crate::fields::{
    DEFAULT_PROOF, DEFAULT_TOP, check_names, id, ids, kinds, moment, number, small, truth,
};
use crate::name::Name;
use crate::path::read_path_number;
use crate::plain::read_plain;
use crate::refusal::{Reason, Refusal};
use gj_base::{
    Ask, HISTORY_END, MAX_ID, MAX_ITERATIONS, MAX_PROOF, MAX_RESET, MAX_STEPS, MAX_TOP, Query,
    Route, SimAsk, SubAsk, WalkAsk,
};
use serde_json::Value;
use std::alloc::Global;

/// What a request asks for: by its route, the last part of its path where the route has an identifier, and its body,
/// which is ignored for the routes without one. Takes memory for the body's tree and for the lists of the ask.
#[tactic(auto, unfolding(crate::specs::Requests::asked))]
pub fn read_request(
    alloc: Global,
    route: Route,
    id: Option<&str>,
    body: &[u8],
) -> Result<Ask, Refusal>
    requires has_id { is_some id ≡ has_id route }
    ensures ok { IfOk result (λ ask. asked route (option_map (λ text. text.now) id.entry) body.now ≡ Ok ask) }
    ensures refused { IfErr result (Refuses (asked route (option_map (λ text. text.now) id.entry) body.now)) }

    // What every ask keeps, beside what its own type keeps.
    ensures in_range { IfOk result IsAsked }
{
    match route {
        Route::Interactions => read_interactions(alloc, body),
        Route::Walk => read_walk(alloc, &parse(alloc, body)?),
        Route::Subgraph => read_subgraph(alloc, &parse(alloc, body)?),
        Route::Similar => Ok(read_similar(&parse(alloc, body)?)?),
        Route::Count => read_count(alloc, &parse(alloc, body)?),
        Route::User => Ok(Ask::Query(Query::User(read_path_id(id.unwrap())?))),
        Route::Post => Ok(Ask::Query(Query::Post(read_path_id(id.unwrap())?))),
        Route::Stats => Ok(Ask::Query(Query::Stats)),
        Route::Log => Ok(Ask::Query(Query::Log(read_path_place(id.unwrap())?))),
    }
}

fn read_path_id(text: &str) -> Result<u64, Reason>
    ensures exact { result ≡ path_id (Some text.now) }
    ensures in_range { IfOk result (λ id. id ≤ MAX_ID) }
{
    read_path_number(Name::Id, text, MAX_ID)
}

fn read_path_place(text: &str) -> Result<u64, Reason>
    ensures exact { result ≡ path_place (Some text.now) }
    ensures in_range { IfOk result (λ place. place ≤ HISTORY_END) }
{
    read_path_number(Name::From, text, HISTORY_END)
}

/// The JSON value that a body is.
#[tactic(auto, unfolding(crate::specs::Requests::tree_of))]
fn parse(alloc: Global, body: &[u8]) -> Result<Value, Refusal>
    ensures ok { IfOk result (λ tree. tree_of body.now ≡ Some (view tree)) }
    ensures refused { IfErr result (Refuses (parsed (tree_of body.now))) }
{
    match Value::from_slice(alloc, body) {
        Ok(tree) => Ok(tree),
        Err(e) => {
            if e.is_memory() {
                Err(Refusal::Memory)
            } else {
                Err(Refusal::Json)
            }
        }
    }
}

/// A batch. What is not in the plain form is read by its tree.
fn read_interactions(alloc: Global, body: &[u8]) -> Result<Ask, Refusal>
    ensures exact { Gives (asked Interactions None body.now) result }
    ensures in_range { IfOk result IsAsked }
{
    match read_plain(alloc, body) {
        Some(ask) => Ok(ask),
        None => read_by_tree(alloc, body),
    }
}

/// A batch in any form.
#[tactic(auto, unfolding(crate::specs::Requests::asked))]
pub(crate) fn read_by_tree(alloc: Global, body: &[u8]) -> Result<Ask, Refusal>
    ensures exact { Gives (asked Interactions None body.now) result }
    ensures in_range { IfOk result IsAsked }
{
    read_batch(alloc, &parse(alloc, body)?)
}

/// The names of a walk's fields.
const WALK: [Name; 10] = [
    Name::Seeds,
    Name::Steps,
    Name::Seed,
    Name::Kinds,
    Name::Reset,
    Name::Top,
    Name::Proof,
    Name::Hide,
    Name::Since,
    Name::NotBefore,
];

#[tactic(auto, unfolding(crate::specs::Requests::walk_of))]
fn read_walk(alloc: Global, tree: &Value) -> Result<Ask, Refusal>
    ensures exact { Gives (walk_of (view tree.now)) result }
    ensures in_range { IfOk result IsAsked }
{
    check_names(Name::Body, tree, &WALK)?;
    let seeds = ids(alloc, tree, Name::Seeds)?;
    let steps = small(tree, Name::Steps, 1, MAX_STEPS, None)?;
    let seed = number(tree, Name::Seed, 0, u64::MAX, Some(0))?;
    let mask = kinds(tree, Name::Kinds)?;
    let reset = small(tree, Name::Reset, 0, MAX_RESET, Some(0))?;
    let top = small(tree, Name::Top, 1, MAX_TOP, Some(DEFAULT_TOP))?;
    let proof = small(tree, Name::Proof, 0, MAX_PROOF, Some(DEFAULT_PROOF))?;
    let hide = truth(tree, Name::Hide, false)?;
    let since = number(tree, Name::Since, 0, HISTORY_END, Some(0))?;
    let not_before = moment(tree, Name::NotBefore)?;
    Ok(Ask::Query(Query::Walk(WalkAsk {
        seeds,
        steps,
        seed,
        mask: mask.from_moment(not_before),
        reset,
        top,
        proof,
        hide,
        since,
    })))
}

/// The names of the fields of subgraph SALSA.
const SUBGRAPH: [Name; 7] = [
    Name::Seeds,
    Name::Iterations,
    Name::Kinds,
    Name::Top,
    Name::Proof,
    Name::Since,
    Name::NotBefore,
];

#[tactic(auto, unfolding(crate::specs::Requests::subgraph_of))]
fn read_subgraph(alloc: Global, tree: &Value) -> Result<Ask, Refusal>
    ensures exact { Gives (subgraph_of (view tree.now)) result }
    ensures in_range { IfOk result IsAsked }
{
    check_names(Name::Body, tree, &SUBGRAPH)?;
    let seeds = ids(alloc, tree, Name::Seeds)?;
    let iterations = small(tree, Name::Iterations, 1, MAX_ITERATIONS, None)?;
    let mask = kinds(tree, Name::Kinds)?;
    let top = small(tree, Name::Top, 1, MAX_TOP, Some(DEFAULT_TOP))?;
    let proof = small(tree, Name::Proof, 0, MAX_PROOF, Some(DEFAULT_PROOF))?;
    let since = number(tree, Name::Since, 0, HISTORY_END, Some(0))?;
    let not_before = moment(tree, Name::NotBefore)?;
    Ok(Ask::Query(Query::Sub(SubAsk {
        seeds,
        iterations,
        mask: mask.from_moment(not_before),
        top,
        proof,
        since,
    })))
}

/// The names of the fields of similarity.
const SIMILAR: [Name; 7] = [
    Name::Post,
    Name::Steps,
    Name::Seed,
    Name::Kinds,
    Name::Top,
    Name::Since,
    Name::NotBefore,
];

#[tactic(auto, unfolding(crate::specs::Requests::similar_of))]
fn read_similar(tree: &Value) -> Result<Ask, Reason>
    ensures exact { result ≡ similar_of (view tree.now) }
    ensures in_range { IfOk result IsAsked }
{
    check_names(Name::Body, tree, &SIMILAR)?;
    let post = id(tree, Name::Post)?;
    let steps = small(tree, Name::Steps, 1, MAX_STEPS, None)?;
    let seed = number(tree, Name::Seed, 0, u64::MAX, Some(0))?;
    let mask = kinds(tree, Name::Kinds)?;
    let top = small(tree, Name::Top, 1, MAX_TOP, Some(DEFAULT_TOP))?;
    let since = number(tree, Name::Since, 0, HISTORY_END, Some(0))?;
    let not_before = moment(tree, Name::NotBefore)?;
    Ok(Ask::Query(Query::Sim(SimAsk {
        post,
        steps,
        seed,
        mask: mask.from_moment(not_before),
        top,
        since,
    })))
}
