//! What a message is answered.
ghost use Rattle.std.specs.Prelude.{◌≡◌, is_some, option_map};
ghost use Rattle.gj_http.specs.Request.{request};
ghost use Rattle.gj_request.specs.Requests.{asked, has_id, IsAsked};
ghost use Rattle.gj_session.specs.Heard.{heard, lack_of, route_reply, lack_at, by_body, LacksBy};
ghost use Rattle.gj_session.specs.Outcomes.{IsLack, Uncounted, lack_after, noted_lack, query_lack};

use crate::answering::Answering;
use crate::outcome::Outcome;
use gj_base::{Ask, ItemList, NotedItems, Query, Route};
use gj_http::{Message, RouteError, Routes};
use gj_reply::{Fixed, Reply};
use gj_request::{Refusal, read_request};
use std::alloc::Global;

/// An answer, and the fixed reply that takes its place where it finds no memory.
#[derive(Drop)]
pub(crate) struct Answer {
    pub outcome: Outcome,
    pub lack: Fixed,
}

/// The reply to a path without a route.
fn reply_to_path(why: RouteError) -> Reply
    ensures exact { result ≡ route_reply why }
    ensures plain { Uncounted result }
{
    match why {
        RouteError::NoRoute => Reply::NoRoute,
        RouteError::WrongMethod { get: true } => Reply::OnlyGet,
        RouteError::WrongMethod { get: false } => Reply::OnlyPost,
    }
}

/// The fixed reply of want of memory.
fn lack_for(route: Route) -> Fixed
    ensures exact { result ≡ lack_at route }
    ensures lack { IsLack result }
{
    match route {
        Route::Interactions => Fixed::NotAccepted,
        _ => Fixed::Memory,
    }
}

/// The fixed reply that takes the place of what is answered to a batch.
fn lack_for_batch(outcome: &Outcome) -> Fixed
    ensures { result ≡ lack_after outcome.now Fixed.NotAccepted }
{
    match outcome {
        Outcome::Says(Reply::Posted { from: _, length: _ }) => Fixed::Accepted,
        Outcome::Says(_) => Fixed::NotAccepted,
        Outcome::Stands(which) => *which,
    }
}

/// The fixed reply that takes the place of what is answered to a numbered batch.
fn lack_for_noted(outcome: &Outcome) -> Fixed
    ensures { result ≡ noted_lack outcome.now }
{
    match outcome {
        Outcome::Says(Reply::Posted { .. }) => Fixed::Accepted,
        Outcome::Says(Reply::Repeated { .. } | Reply::Apart { .. }) => Fixed::Memory,
        Outcome::Says(_) => Fixed::NotAccepted,
        Outcome::Stands(which) => *which,
    }
}

/// The fixed reply that takes the place of what is answered to a query.
fn lack_for_query(outcome: &Outcome, lack: Fixed) -> Fixed
    ensures { result ≡ query_lack outcome.now lack }
{
    match outcome {
        Outcome::Says(_) => lack,
        Outcome::Stands(which) => *which,
    }
}

/// Answers a query.
fn answer_query<C, A: Answering<C>>(
    answerer: &mut A,
    shared: &C,
    alloc: Global,
    query: &Query,
    lack: Fixed,
) -> Answer
    requires { IsLack lack }
    ensures answers { A.answers answerer.old (Ok (asks.Query query.now)) lack result.outcome answerer.new }
    ensures lacks { A.answers answerer.old (Ok (asks.Query query.now)) lack (Outcome.Stands result.lack) answerer.new }
{
    let outcome = answerer.query(shared, alloc, query, lack);
    let lack = lack_for_query(&outcome, lack);
    Answer { outcome, lack }
}

/// Posts a batch.
fn answer_batch<C, A: Answering<C>>(answerer: &mut A, shared: &C, items: ItemList) -> Answer
    requires some { 1 ≤ length items }
    requires few { length items ≤ 4096 }
    ensures answers { A.answers answerer.old (Ok (asks.Items items)) Fixed.NotAccepted result.outcome answerer.new }
    ensures lacks { A.answers answerer.old (Ok (asks.Items items)) Fixed.NotAccepted (Outcome.Stands result.lack) answerer.new }
{
    let outcome = answerer.post(shared, items);
    let lack = lack_for_batch(&outcome);
    Answer { outcome, lack }
}

/// Posts a numbered batch.
fn answer_noted<C, A: Answering<C>>(answerer: &mut A, shared: &C, asked: NotedItems) -> Answer
    ensures answers { A.answers answerer.old (Ok (asks.Noted asked)) Fixed.NotAccepted result.outcome answerer.new }
    ensures lacks { A.answers answerer.old (Ok (asks.Noted asked)) Fixed.NotAccepted (Outcome.Stands result.lack) answerer.new }
{
    let outcome = answerer.post_noted(shared, asked);
    let lack = lack_for_noted(&outcome);
    Answer { outcome, lack }
}

ghost use Rattle.std.specs.Prelude.{◌≤◌, length, Ok, Err};
ghost use Rattle.gj_base.specs.declared.ask.Ask.TheVariants as asks;

/// Answers what a body asks for.
fn answer_ask<C, A: Answering<C>>(
    answerer: &mut A,
    shared: &C,
    alloc: Global,
    ask: Ask,
    lack: Fixed,
) -> Answer
    requires lack { IsLack lack }
    requires by_ask { LacksBy ask lack }
    requires in_range { IsAsked ask }
    ensures answers { A.answers answerer.old (Ok ask) lack result.outcome answerer.new }
    ensures lacks { A.answers answerer.old (Ok ask) lack (Outcome.Stands result.lack) answerer.new }
{
    match ask {
        Ask::Items(items) => answer_batch(answerer, shared, items),
        Ask::Noted(asked) => answer_noted(answerer, shared, asked),
        Ask::Query(query) => answer_query(answerer, shared, alloc, &query, lack),
    }
}

/// Answers a message that asks for nothing.
fn refuse_ask<C, A: Answering<C>>(_answerer: &A, _shared: &C, reply: Reply, lack: Fixed) -> Answer
    requires lack { IsLack lack }
    requires plain { Uncounted reply }
    ensures answers { A.answers _answerer.now (Err reply) lack result.outcome _answerer.now }
    ensures lacks { A.answers _answerer.now (Err reply) lack (Outcome.Stands result.lack) _answerer.now }
{
    Answer {
        outcome: Outcome::Says(reply),
        lack,
    }
}

/// Answers a message whose body asks for nothing, or was not read for want of memory.
fn answer_refusal<C, A: Answering<C>>(
    _answerer: &A,
    _shared: &C,
    why: Refusal,
    lack: Fixed,
) -> Answer
    requires lack { IsLack lack }
    ensures answers { (read : Result Ask Reason) → Refuses read why → A.answers _answerer.now (by_body read) lack result.outcome _answerer.now }
    ensures lacks { (read : Result Ask Reason) → Refuses read why → A.answers _answerer.now (by_body read) lack (Outcome.Stands result.lack) _answerer.now }
{
    match why {
        Refusal::Memory => Answer {
            outcome: Outcome::Stands(lack),
            lack,
        },
        Refusal::Json => refuse_ask(_answerer, _shared, Reply::BadJson, lack),
        Refusal::Field(name) => refuse_ask(_answerer, _shared, Reply::BadField(name), lack),
        Refusal::Range(name) => refuse_ask(_answerer, _shared, Reply::BadRange(name), lack),
    }
}

ghost use Rattle.std.specs.Prelude.{Result};
ghost use Rattle.gj_base.specs.declared.ask.Ask.{Ask};
ghost use Rattle.gj_request.specs.declared.refusal.Reason.{Reason};
ghost use Rattle.gj_request.specs.Results.{Refuses};

/// Answers a message that has a route.
fn answer_found<C, A: Answering<C>>(
    answerer: &mut A,
    shared: &C,
    alloc: Global,
    route: Route,
    id: Option<&str>,
    body: &[u8],
) -> Answer
    requires { is_some id ≡ has_id route }
    ensures answers { A.answers answerer.old (by_body (asked route (option_map (λ t. t.now) id.entry) body.now)) (lack_at route) result.outcome answerer.new }
    ensures lacks { A.answers answerer.old (by_body (asked route (option_map (λ t. t.now) id.entry) body.now)) (lack_at route) (Outcome.Stands result.lack) answerer.new }
{
    let lack = lack_for(route);
    match read_request(alloc, route, id, body) {
        Ok(ask) => answer_ask(answerer, shared, alloc, ask, lack),
        Err(why) => answer_refusal(answerer, shared, why, lack),
    }
}

/// Answers a message.
pub(crate) fn answer_message<C, A: Answering<C>>(
    answerer: &mut A,
    shared: &C,
    alloc: Global,
    routes: &Routes,
    message: Message,
) -> Answer
    ensures answers { A.answers answerer.old (heard (request message.entry)) (lack_of (request message.entry)) result.outcome answerer.new }
    ensures lacks { A.answers answerer.old (heard (request message.entry)) (lack_of (request message.entry)) (Outcome.Stands result.lack) answerer.new }
{
    match routes.find(message.method, message.path) {
        Ok(found) => answer_found(answerer, shared, alloc, found.route, found.id, message.body),
        Err(why) => refuse_ask(answerer, shared, reply_to_path(why), Fixed::Memory),
    }
}
