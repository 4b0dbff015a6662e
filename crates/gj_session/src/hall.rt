//! A seat beside others, as what answers the messages of a session.
ghost use Rattle.std.specs.Prelude.{◌≡◌, ◌≢◌, ◌+◌, ◌<◌, ◌≤◌, ℕ, length, IfOk, OnErr, IsErrOf, Ok, false};
ghost use Rattle.gj_base.specs.History.{Begins, entries_by, extend, length_of};
ghost use Rattle.gj_base.specs.declared.ask.Ask.TheVariants as asks;
ghost use Rattle.gj_once.specs.Judging.{judged};
ghost use Rattle.gj_publish.specs.Writers.{by_seat};
ghost use Rattle.gj_session.specs.Answers.{window_under};
ghost use Rattle.gj_session.specs.NotedBatches.{AnswersKnown, AnswersWhere, noted_after};
ghost use Rattle.gj_session.specs.Outcomes.{IsLack};
ghost use Rattle.gj_session.specs.Reference.{reply_of};
ghost use Rattle.gj_session.specs.SeatReplies.{after_answer, entered_items, outcome_of, outcome_of_noted, outcome_of_refusal};
ghost use Rattle.gj_session.specs.SeatRuns.{SeatAnswers, mark_of};

use crate::answering::Answering;
use crate::outcome::Outcome;
use crate::replying::answer_on;
use gj_base::{Conf, Gate, Graph, Grow, ItemList, Keeper, NotedItems, Query, Receipt};
use gj_log::Opening;
use gj_once::Noted;
use gj_publish::{Batch, Copies, NotedError, PostError, Seat, Writer};
use gj_reply::{Fixed, Reply};
use std::alloc::Global;
use std::sync::{Mutex, Wait};

/// Why a query was not answered.
#[derive(Clone, Copy, Debug, Drop, PartialEq, Eq)]
pub enum AnswerError {
    /// The look was granted, and no memory was found for the answer.
    Memory,
    /// The look was refused.
    NoLook,
}

/// Looks once, and answers the query on that look: over all that the seat has seen then. It takes the memory of the
/// reference answer, and takes no lock.
pub fn answer<W: Grow + Drop, J: Opening>(
    alloc: Global,
    seat: &mut Seat<W, J>,
    query: &Query,
) -> Result<Reply, AnswerError>
    ensures ok { IfOk result (λ reply. reply ≡ reply_of query.now (window_under J.conf seat.new.front)) }
    ensures no_look { IsErrOf result AnswerError.NoLook → seat.new.front ≡ seat.old.front }
    ensures front { Begins seat.old.front seat.new.front }
    ensures numbers { seat.new.numbers ≡ after_answer result seat.old.numbers }
    ensures others { (seat.new.number ≡ seat.old.number) × (seat.new.posted ≡ seat.old.posted) }
{
    match seat.look(|graph: &W| answer_on(alloc, graph, query)) {
        Ok(Ok(reply)) => Ok(reply),
        Ok(Err(_)) => Err(AnswerError::Memory),
        Err(_) => Err(AnswerError::NoLook),
    }
}

/// What is answered to a post that was refused.
fn outcome_to_refusal(why: PostError) -> Outcome
    ensures { result ≡ outcome_of_refusal why }
{
    match why {
        PostError::Memory => Outcome::Stands(Fixed::NotAccepted),
        PostError::KeptUnseen { receipt: _ } => Outcome::Stands(Fixed::Accepted),
        PostError::Store => Outcome::Says(Reply::Store),
        PostError::Full { length } => Outcome::Says(Reply::Full { length }),
        PostError::NoLook(_) => Outcome::Stands(Fixed::NoLook),
        PostError::Apart {
            seen,
            shown,
            posted,
            counted,
        } => Outcome::Says(Reply::Apart {
            seen,
            shown,
            posted,
            counted,
        }),
    }
}

/// What is answered to a post.
fn outcome_to(posted: Result<Receipt, PostError>) -> Outcome
    ensures { result ≡ outcome_of posted }
{
    match posted {
        Ok(receipt) => Outcome::Says(Reply::Posted {
            from: receipt.from,
            length: receipt.to,
        }),
        Err(why) => outcome_to_refusal(why),
    }
}

/// What is answered to the post of a numbered batch.
fn outcome_to_noted(posted: Result<Noted, NotedError>) -> Outcome
    ensures { result ≡ outcome_of_noted posted }
{
    match posted {
        Ok(Noted::New(receipt)) => Outcome::Says(Reply::Posted {
            from: receipt.from,
            length: receipt.to,
        }),
        Ok(Noted::Repeated(receipt)) => Outcome::Says(Reply::Repeated {
            from: receipt.from,
            length: receipt.to,
        }),
        Err(NotedError::Post(why)) => outcome_to_refusal(why),
        Err(NotedError::RepeatUnseen { receipt: _ }) => Outcome::Stands(Fixed::Memory),
        Err(NotedError::Old { last }) => Outcome::Says(Reply::Old { last }),
        Err(NotedError::Skipped { last }) => Outcome::Says(Reply::Skipped { last }),
    }
}

/// Whether a segment was filled by what entered from `from` to `to`.
fn fills(conf: Conf, from: u64, to: u64) -> bool {
    let capacity = u64::from(conf.capacity());
    from / capacity < to / capacity
}

/// Asks for a compaction where what took these places filled a segment. Want of memory for it is passed over.
fn compact_filled<J: Opening, C: Copies<Operation = Batch<J>>, K: Keeper + Drop>(
    writer: &mut Writer<J, C, K>,
    receipt: Receipt,
)
    ensures { writer.new ≡ writer.old }
{
    if fills(writer.conf(), receipt.from, receipt.to) {
        let _ = writer.compact();
    }
}

/// The same after a post.
fn compact_posted<J: Opening, C: Copies<Operation = Batch<J>>, K: Keeper + Drop>(
    writer: &mut Writer<J, C, K>,
    posted: &Result<Receipt, PostError>,
)
    ensures { writer.new ≡ writer.old }
{
    if let Ok(receipt) = posted {
        compact_filled(writer, *receipt);
    }
}

/// The same after the post of a numbered batch.
fn compact_noted<J: Opening, C: Copies<Operation = Batch<J>>, K: Keeper + Drop>(
    writer: &mut Writer<J, C, K>,
    posted: &Result<Noted, NotedError>,
)
    ensures { writer.new ≡ writer.old }
{
    if let Ok(Noted::New(receipt)) = posted {
        compact_filled(writer, *receipt);
    }
}

/// Posts the batch by the seat, and says what came of it. Where it filled a segment, a compaction follows. It takes the
/// memory of a post, and may wait for looks that began before.
pub fn accept<J: Opening, C: Copies<Operation = Batch<J>>, K: Keeper + Drop, W: Grow + Drop>(
    writer: &mut Writer<J, C, K>,
    seat: &mut Seat<W, J>,
    items: ItemList,
) -> Outcome
    requires some { 1 ≤ length items }
    requires few { length items ≤ 4096 }
    ensures answers { SeatAnswers J.conf seat.old seat.new (Ok (asks.Items items)) Fixed.NotAccepted result }
    ensures history { writer.new.accepted ≡ extend writer.old.accepted (entries_by seat.old.number (entered_items items result)) }
    ensures noted { writer.new.noted ≡ writer.old.noted }
    ensures later { writer.old.faults ≤ writer.new.faults }

    // What is told of the writer is the writer's.
    ensures full { (n : ℕ) → result ≡ Outcome.Says (Reply.Full n) → n ≡ length_of writer.old.accepted }
    ensures apart { (seen shown posted counted : ℕ) → result ≡ Outcome.Says (Reply.Apart seen shown posted counted)
        → (shown ≡ length_of writer.old.published) × (counted ≡ by_seat seat.old.number writer.old.accepted) }
{
    // Its contract bounds the length with which a full history is told.
    let _length = writer.length();
    let posted = writer.post(seat, items);
    compact_posted(writer, &posted);
    outcome_to(posted)
}

/// Posts the numbered batch by the seat, and says what came of it: as `accept` does if its number is the next one of its
/// producer, and else the reply to a batch that had entered, to one that comes before the last one, or to one after a missing
/// one. It takes the memory of a post, and may wait for looks that began before.
pub fn accept_noted<J: Opening, C: Copies<Operation = Batch<J>>, K: Keeper + Drop, W: Grow + Drop>(
    writer: &mut Writer<J, C, K>,
    seat: &mut Seat<W, J>,
    asked: NotedItems,
) -> Outcome
    ensures answers { SeatAnswers J.conf seat.old seat.new (Ok (asks.Noted asked)) Fixed.NotAccepted result }

    // What the writer had noted says which answer it is, and what enters is noted.
    ensures judged { AnswersWhere writer.old.noted false seat.old.number (mark_of seat.old) asked result (mark_of seat.new) }
    ensures known { AnswersKnown (judged writer.old.noted asked.producer asked.number) result }
    ensures noted { writer.new.noted ≡ noted_after writer.old.noted writer.old.accepted asked result }
    ensures history { writer.new.accepted ≡ extend writer.old.accepted (entries_by seat.old.number (entered_items asked.items result)) }
    ensures later { writer.old.faults ≤ writer.new.faults }

    // What is told of the writer is the writer's.
    ensures full { (n : ℕ) → result ≡ Outcome.Says (Reply.Full n) → n ≡ length_of writer.old.accepted }
    ensures apart { (seen shown posted counted : ℕ) → result ≡ Outcome.Says (Reply.Apart seen shown posted counted)
        → (shown ≡ length_of writer.old.published) × (counted ≡ by_seat seat.old.number writer.old.accepted) }
{
    // Its contract bounds the length with which a full history is told.
    let _length = writer.length();
    let posted = writer.post_noted(seat, asked);
    compact_noted(writer, &posted);
    outcome_to_noted(posted)
}

/// What seats share: the writer's lock and the gate.
#[derive(Drop)]
pub(crate) struct Hall<'a, R, P, G> {
    pub rt: &'a R,
    pub writer: &'a Mutex<P>,
    pub gate: &'a G,
}

impl<
    'a,
    R: Wait,
    J: Opening,
    C: Copies<Operation = Batch<J>>,
    K: Keeper + Drop,
    W: Grow + Drop,
    G: Gate,
> Answering<Hall<'a, R, Writer<J, C, K>, G>> for Seat<W, J> {
    ghost use Rattle.gj_session.specs.SeatRuns.{SeatAnswers};
    ghost use Rattle.gj_session.specs.SeatLaws.{seat_refused, seat_lacked, seat_stands, seat_noted_stands};

    ghost answers = { λ x ask lack outcome y. SeatAnswers J.conf x y ask lack outcome };

    ghost refused = { λ x reply lack outcome plain never is. seat_refused J.conf x reply lack outcome plain never is };

    ghost lacked = { λ x ask lack never. seat_lacked J.conf x ask lack never };

    ghost briefly = { λ x batch outcome y answered. seat_stands J.conf x y batch outcome answered };

    ghost noted_briefly = { λ x batch outcome y answered. seat_noted_stands J.conf x y batch outcome answered };

    fn query(
        &mut self,
        _shared: &Hall<'a, R, Writer<J, C, K>, G>,
        alloc: Global,
        query: &Query,
        lack: Fixed,
    ) -> Outcome {
        match answer(alloc, self, query) {
            Ok(reply) => Outcome::Says(reply),
            Err(AnswerError::Memory) => Outcome::Stands(lack),
            Err(AnswerError::NoLook) => Outcome::Stands(Fixed::NoLook),
        }
    }

    fn post(&mut self, shared: &Hall<'a, R, Writer<J, C, K>, G>, items: ItemList) -> Outcome {
        let mut writer = shared.writer.lock(shared.rt);
        accept(&mut *writer, self, items)
    }

    fn post_noted(
        &mut self,
        shared: &Hall<'a, R, Writer<J, C, K>, G>,
        asked: NotedItems,
    ) -> Outcome {
        let mut writer = shared.writer.lock(shared.rt);
        accept_noted(&mut *writer, self, asked)
    }

    fn before(&self, shared: &Hall<'a, R, Writer<J, C, K>, G>, number: u64) {
        shared.gate.before(self.number(), number);
    }

    fn after(&self, shared: &Hall<'a, R, Writer<J, C, K>, G>, number: u64) {
        shared.gate.after(self.number(), number);
    }
}
