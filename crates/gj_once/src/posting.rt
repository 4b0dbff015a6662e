//! Lists of batches, with and without numbers.
ghost use Rattle.std.specs.Prelude.{◌≡◌, ◌+◌, ◌<◌, ◌≤◌, ℕ, [], ◌∷◌, ◌++◌, length, IfOk, OnErr, vec_len, vec_capacity};
ghost use Rattle.std.specs.List.{All};
ghost use Rattle.gj_base.specs.declared.history.History.{History};
ghost use Rattle.gj_base.specs.History.{end_of, extend, entries_by};
ghost use Rattle.gj_once.specs.Judging.{nothing_noted};
ghost use Rattle.gj_once.specs.NotedPosts.{faults_noted};
ghost use Rattle.gj_once.specs.PostLists.{AreAnswers, IsAnswer, IsCall, OnceOnly, entered, entering, faults_answered, noted_after, noted_by, posts_of, told_of};

use crate::noted_index::{Noted, NotedIndex, OnceError};
use gj_base::{ItemList, Memory, NotedItems};
use std::alloc::Global;

/// What is answered to a batch.
pub type Answer = Result<Noted, OnceError>;

/// A batch to be posted.
#[derive(Debug, Drop)]
pub enum Call {
    /// It has no number, and enters the history each time.
    Plain(ItemList),
    /// Its producer numbered it, and it enters once.
    Noted(NotedItems),
}

/// Posts the batch. One without a number is answered as a fresh one.
#[tactic(auto, using(crate::proofs::PostLemmas::full_plain, crate::proofs::PostLemmas::full_noted))]
fn post_one<N: NotedIndex>(index: &mut N, call: &Call) -> Answer
    requires { IsCall call.now }
    ensures exact { IsAnswer (N.noted index.old) (end_of (N.viewed index.old)) call.now result }
    ensures noted { N.noted index.new ≡ noted_by (N.noted index.old) call.now (told_of result) }
    ensures count { N.faults index.new ≡ faults_noted (N.faults index.old) result }
    ensures end { end_of (N.viewed index.new) ≡ end_of (N.viewed index.old) + length (entering call.now (told_of result)) }
    ensures keeps { (h : History) (seat : ℕ) → N.keeps index.old h → N.keeps index.new (extend h (entries_by seat (entering call.now (told_of result)))) }
{
    match call {
        Call::Plain(items) => match index.post_plain(items.as_slice()) {
            Ok(receipt) => Ok(Noted::New(receipt)),
            Err(why) => Err(OnceError::Index(why)),
        },
        Call::Noted(asked) => index.post_noted(asked),
    }
}

/// Puts an answer at the end without taking memory.
fn put(answers: &mut Vec<Answer>, answer: Answer)
    requires { vec_len answers.old < vec_capacity answers.old }
    ensures items { answers.new.items ≡ answers.old.items ++ answer ∷ [] }
    ensures capacity { vec_capacity answers.old ≤ vec_capacity answers.new }
{
    answers.push(answer).unwrap();
}

/// Posts the batches in their order, and answers each. It takes the memory of the answers before it posts one, and then
/// what the index takes.
pub fn post_all<N: NotedIndex>(
    alloc: Global,
    index: &mut N,
    calls: &[Call],
) -> Result<Vec<Answer>, Memory>
    requires { All IsCall calls.now }
    ensures each { IfOk result (λ answers. length answers.items ≡ length calls.now) }
    ensures exact { IfOk result (λ answers. AreAnswers (N.noted index.old) (end_of (N.viewed index.old)) calls.now answers.items) }
    ensures noted { IfOk result (λ answers. N.noted index.new ≡ noted_after (N.noted index.old) (posts_of calls.now answers.items)) }
    ensures keeps { (h : History) (seat : ℕ) → N.keeps index.old h
        → IfOk result (λ answers. N.keeps index.new (extend h (entries_by seat (entered (posts_of calls.now answers.items))))) }
    ensures once { (h : History) (seat : ℕ) → N.noted index.old ≡ nothing_noted → N.keeps index.old h
        → IfOk result (λ answers. OnceOnly (posts_of calls.now answers.items) (extend h (entries_by seat (entered (posts_of calls.now answers.items))))) }
    ensures count { IfOk result (λ answers. N.faults index.new ≡ faults_answered (N.faults index.old) answers.items) }
    ensures err { OnErr result (index.new ≡ index.old) }
{
    let Ok(mut answers) = Vec::with_capacity(alloc, calls.len()) else {
        return Err(Memory);
    };
    for call in calls {
        let answer = post_one(index, call);
        put(&mut answers, answer);
    }
    Ok(answers)
}
