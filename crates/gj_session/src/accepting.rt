//! Batches that an index keeps.
ghost use Rattle.std.specs.Prelude.{◌≡◌, ◌≤◌, List, length, Ok};
ghost use Rattle.gj_base.specs.declared.ask.Ask.TheVariants as asks;
ghost use Rattle.gj_once.specs.declared.verdict.LastBatch.{LastBatch};
ghost use Rattle.gj_once.specs.Judging.{judged};
ghost use Rattle.gj_session.specs.IndexReplies.{said_to, said_to_noted, said_to_refusal};
ghost use Rattle.gj_session.specs.IndexRuns.{IndexAnswers, index_at};
ghost use Rattle.gj_session.specs.NotedBatches.{AnswersStale};

use crate::outcome::Outcome;
use gj_base::{Index, IndexError, ItemList, NotedItems, Receipt};
use gj_once::{Noted, NotedIndex, OnceError};
use gj_reply::{Fixed, Reply};

/// What is answered to the post of a batch that was refused.
fn outcome_to_refusal(why: IndexError) -> Outcome
    ensures { result ≡ said_to_refusal why }
{
    match why {
        IndexError::Memory => Outcome::Stands(Fixed::NotAccepted),
        IndexError::Store => Outcome::Says(Reply::Store),
        IndexError::Full { length } => Outcome::Says(Reply::Full { length }),
    }
}

/// What is answered to the post of a batch.
fn outcome_to(posted: Result<Receipt, IndexError>) -> Outcome
    ensures { result ≡ said_to posted }
{
    match posted {
        Ok(receipt) => Outcome::Says(Reply::Posted {
            from: receipt.from,
            length: receipt.to,
        }),
        Err(why) => outcome_to_refusal(why),
    }
}

/// What is answered to the post of a numbered batch.
fn outcome_to_noted(posted: Result<Noted, OnceError>) -> Outcome
    ensures { result ≡ said_to_noted posted }
{
    match posted {
        Ok(Noted::New(receipt)) => Outcome::Says(Reply::Posted {
            from: receipt.from,
            length: receipt.to,
        }),
        Ok(Noted::Repeated(receipt)) => Outcome::Says(Reply::Repeated {
            from: receipt.from,
            length: receipt.to,
        }),
        Err(OnceError::Index(why)) => outcome_to_refusal(why),
        Err(OnceError::Old { last }) => Outcome::Says(Reply::Old { last }),
        Err(OnceError::Skipped { last }) => Outcome::Says(Reply::Skipped { last }),
    }
}

/// Posts the batch to the index, and says what came of it: the reply to a batch that was kept, to a fault of the store
/// and to want of room, and else the fixed reply of want of memory. It takes what memory the index takes.
pub fn accept_on<I: Index>(index: &mut I, items: &ItemList) -> Outcome
    requires some { 1 ≤ length items.now }
    requires few { length items.now ≤ 4096 }
    ensures { (noted : List LastBatch) → IndexAnswers (index_at (I.viewed index.old) (I.keeps index.old) (I.faults index.old) (I.steady index.old) noted)
        (index_at (I.viewed index.new) (I.keeps index.new) (I.faults index.new) (I.steady index.new) noted) (Ok (asks.Items items.now)) Fixed.NotAccepted result }
{
    outcome_to(index.post_items(items.as_slice()))
}

/// The same for an index that notes numbered batches: what is noted stays.
pub(crate) fn accept_plain_on<I: NotedIndex>(index: &mut I, items: &ItemList) -> Outcome
    requires some { 1 ≤ length items.now }
    requires few { length items.now ≤ 4096 }
    ensures { IndexAnswers (index_at (I.viewed index.old) (I.keeps index.old) (I.faults index.old) (I.steady index.old) (I.noted index.old))
        (index_at (I.viewed index.new) (I.keeps index.new) (I.faults index.new) (I.steady index.new) (I.noted index.new)) (Ok (asks.Items items.now)) Fixed.NotAccepted result }
{
    outcome_to(index.post_plain(items.as_slice()))
}

/// Posts the numbered batch to the index, and says what came of it: what `accept_on` says if its number is the next one of
/// its producer, and else the reply to a batch that had entered, to one that comes before the last one, or to one after a
/// missing one. It takes what memory the index takes.
pub fn accept_noted_on<I: NotedIndex>(index: &mut I, asked: &NotedItems) -> Outcome
    ensures answers { IndexAnswers (index_at (I.viewed index.old) (I.keeps index.old) (I.faults index.old) (I.steady index.old) (I.noted index.old))
        (index_at (I.viewed index.new) (I.keeps index.new) (I.faults index.new) (I.steady index.new) (I.noted index.new)) (Ok (asks.Noted asked.now)) Fixed.NotAccepted result }
    ensures stale { AnswersStale (judged (I.noted index.old) asked.now.producer asked.now.number) result }
{
    outcome_to_noted(index.post_noted(asked))
}
