//! What answers the messages of a session.

use crate::accepting::{accept_noted_on, accept_plain_on};
use crate::outcome::Outcome;
use crate::replying::answer_on;
use gj_base::{ItemList, NotedItems, Query};
use gj_once::NotedIndex;
use gj_reply::Fixed;
use std::alloc::Global;

/// What answers the messages of a session. `C` is what it shares with others.
pub(crate) trait Answering<C> {
    ghost use Rattle.std.specs.Prelude.{◌≡◌, ◌<◌, ◌≤◌, List, length, Result, Ok, Err};
    ghost use Rattle.gj_base.specs.Asks.{NotedBatch};
    ghost use Rattle.gj_base.specs.declared.ask.Ask.{Ask};
    ghost use Rattle.gj_base.specs.declared.ask.Ask.TheVariants as asks;
    ghost use Rattle.gj_base.specs.declared.item.Item.{Item};
    ghost use Rattle.gj_reply.specs.declared.fixed.Fixed.{Fixed};
    ghost use Rattle.gj_reply.specs.declared.fixed.Fixed.TheVariants.{NotAccepted};
    ghost use Rattle.gj_reply.specs.declared.reply.Reply.{Reply};
    ghost use Rattle.gj_session.specs.declared.outcome.Outcome.{Outcome};
    ghost use Rattle.gj_session.specs.declared.outcome.Outcome.TheVariants.{Stands};
    ghost use Rattle.gj_session.specs.Outcomes.{IsReply, IsLack, Uncounted, lack_after, noted_lack, query_lack};

    // An ask, or a message that asks for nothing, with the fixed reply of want of memory, may be answered so, and what
    // this leaves.
    ghost answers: { Self → Result Ask Reply → Fixed → Outcome → Self → Type 0 };

    /// Answers a query.
    fn query(&mut self, shared: &C, alloc: Global, query: &Query, lack: Fixed) -> Outcome
        requires { IsLack lack }
        ensures exact { answers self.old (Ok (asks.Query query.now)) lack result self.new }
        ensures lacks { answers self.old (Ok (asks.Query query.now)) lack (Stands (query_lack result lack)) self.new };

    /// Posts a batch.
    fn post(&mut self, shared: &C, items: ItemList) -> Outcome
        requires some { 1 ≤ length items }
        requires few { length items ≤ 4096 }
        ensures exact { answers self.old (Ok (asks.Items items)) NotAccepted result self.new };

    /// Posts a numbered batch.
    fn post_noted(&mut self, shared: &C, asked: NotedItems) -> Outcome
        ensures exact { answers self.old (Ok (asks.Noted asked)) NotAccepted result self.new };

    /// Called before a message is answered, with its number in the session, from 1.
    fn before(&self, shared: &C, number: u64);

    /// Called after a message is answered.
    fn after(&self, shared: &C, number: u64);

    ghost refused: { (x : Self) (reply : Reply) (lack : Fixed) (outcome : Outcome) → Uncounted reply → IsLack lack → IsReply reply lack outcome
        → answers x (Err reply) lack outcome x };

    ghost lacked: { (x : Self) (ask : Ask) (lack : Fixed) → IsLack lack → answers x (Ok ask) lack (Stands lack) x };

    ghost briefly: { (x : Self) (batch : List Item) (outcome : Outcome) (y : Self) → answers x (Ok (asks.Items batch)) NotAccepted outcome y
        → answers x (Ok (asks.Items batch)) NotAccepted (Stands (lack_after outcome NotAccepted)) y };

    ghost noted_briefly: { (x : Self) (batch : NotedBatch) (outcome : Outcome) (y : Self) → answers x (Ok (asks.Noted batch)) NotAccepted outcome y
        → answers x (Ok (asks.Noted batch)) NotAccepted (Stands (noted_lack outcome)) y };
}

/// What an index shares with others: nothing.
#[derive(Drop)]
pub(crate) struct Alone;

impl<I: NotedIndex> Answering<Alone> for I {
    ghost use Rattle.gj_session.specs.IndexRuns.{IndexAnswers, index_at};
    ghost use Rattle.gj_session.specs.AnsweringLaws.{index_refused, index_lacked, index_stands, index_noted_stands};

    ghost answers = { λ x ask lack outcome y. IndexAnswers (index_at (I.viewed x) (I.keeps x) (I.faults x) (I.steady x) (I.noted x)) (index_at (I.viewed y) (I.keeps y) (I.faults y) (I.steady y) (I.noted y)) ask lack outcome };

    ghost refused = { λ x reply lack outcome plain never is. index_refused (index_at (I.viewed x) (I.keeps x) (I.faults x) (I.steady x) (I.noted x)) reply lack outcome plain never is };

    ghost lacked = { λ x ask lack never. index_lacked (index_at (I.viewed x) (I.keeps x) (I.faults x) (I.steady x) (I.noted x)) ask lack never };

    ghost briefly = { λ x batch outcome y answered. index_stands (index_at (I.viewed x) (I.keeps x) (I.faults x) (I.steady x) (I.noted x)) (index_at (I.viewed y) (I.keeps y) (I.faults y) (I.steady y) (I.noted y)) batch outcome answered };

    ghost noted_briefly = { λ x batch outcome y answered. index_noted_stands (index_at (I.viewed x) (I.keeps x) (I.faults x) (I.steady x) (I.noted x)) (index_at (I.viewed y) (I.keeps y) (I.faults y) (I.steady y) (I.noted y)) batch outcome answered };

    fn query(&mut self, _shared: &Alone, alloc: Global, query: &Query, lack: Fixed) -> Outcome {
        match answer_on(alloc, self.view(), query) {
            Ok(reply) => Outcome::Says(reply),
            Err(_) => Outcome::Stands(lack),
        }
    }

    fn post(&mut self, _shared: &Alone, items: ItemList) -> Outcome {
        accept_plain_on(self, &items)
    }

    fn post_noted(&mut self, _shared: &Alone, asked: NotedItems) -> Outcome {
        accept_noted_on(self, &asked)
    }

    fn before(&self, _shared: &Alone, _number: u64) {}

    fn after(&self, _shared: &Alone, _number: u64) {}
}
