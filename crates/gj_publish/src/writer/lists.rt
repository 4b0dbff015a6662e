//! Lists of calls, by many seats.
ghost use Rattle.std.specs.Prelude.{◌≡◌, ◌<◌, ◌≤◌, ◌++◌, ◌∷◌, [], ℕ, length, slice_index_or, IfOk, OnErr, vec_capacity, vec_len};
ghost use Rattle.std.specs.List.{All};
ghost use Rattle.gj_base.specs.History.{Begins, entries_by, extend, length_of};
ghost use Rattle.gj_once.specs.Judging.{nothing_noted};
ghost use Rattle.gj_once.specs.PostLists.{IsCall, OnceOnly, entering, noted_after, noted_by};
ghost use Rattle.gj_publish.specs.NotedAnswers.{faults_noted};
ghost use Rattle.gj_publish.specs.SeatCalls.{AreAnswers, IsAnswer, IsSeatCall, entered, entries_in, faults_answered, numbers_of, posts_of, told_of};

use super::Writer;
use crate::batch::Batch;
use crate::copies::Copies;
use crate::refusal::NotedError;
use crate::seat::Seat;
use gj_base::{Graph, Grow, Keeper, Memory};
use gj_log::Opening;
use gj_once::{Call, Noted};

/// What a writer answers to a call. A batch without a number is answered as a fresh one.
pub type Answer = Result<Noted, NotedError>;

/// A call, and the index of the seat that makes it.
#[derive(Debug, Drop)]
pub struct SeatCall {
    pub seat: usize,
    pub call: Call,
}

// Puts an answer at the end without taking memory.
fn put(answers: &mut Vec<Answer>, answer: Answer)
    requires { vec_len answers.old < vec_capacity answers.old }
    ensures items { answers.new.items ≡ answers.old.items ++ answer ∷ [] }
    ensures capacity { vec_capacity answers.old ≤ vec_capacity answers.new }
{
    answers.push(answer).unwrap();
}

impl<J: Opening, C: Copies<Operation = Batch<J>>, K: Keeper + Drop> Writer<J, C, K> {
    /// Makes the calls in their order, each by its seat, and answers each. It takes the memory of the answers before it
    /// makes one, and then what posts take. It may wait for looks that began before.
    pub fn post_all<W: Grow + Drop>(
        &mut self,
        seats: &mut [Seat<W, J>],
        calls: Vec<SeatCall>,
    ) -> Result<Vec<Answer>, Memory>
        requires { All (IsSeatCall (length seats.old)) calls.items }
        ensures each { IfOk result (λ answers. length answers.items ≡ length calls.items) }
        ensures exact { IfOk result (λ answers. AreAnswers self.old.noted (length_of self.old.accepted) calls.items answers.items) }
        ensures noted { IfOk result (λ answers. self.new.noted ≡ noted_after self.old.noted (posts_of calls.items answers.items)) }
        ensures accepted { IfOk result (λ answers. self.new.accepted ≡ extend self.old.accepted (entered (numbers_of seats.old) calls.items answers.items)) }
        ensures count { IfOk result (λ answers. self.new.faults ≡ faults_answered self.old.faults answers.items) }

        // From an opening on, whichever seat posts it, each numbered batch is taken once.
        ensures once { self.old.noted ≡ nothing_noted → IfOk result (λ answers. OnceOnly (posts_of calls.items answers.items) self.new.accepted) }

        ensures err { OnErr result ((self.new ≡ self.old) × (seats.new ≡ seats.old)) }

        // At every answer.
        ensures fronts { (i : ℕ) (d : _) → i < length seats.old → Begins (slice_index_or seats.old i d).front (slice_index_or seats.new i d).front }
        ensures others { (numbers_of seats.new ≡ numbers_of seats.old) × (self.new.start ≡ self.old.start) }
        ensures published { Begins self.old.published self.new.published }
        ensures later { self.old.faults ≤ self.new.faults }
    {
        let Ok(mut answers) = Vec::with_capacity(self.alloc, calls.len()) else {
            return Err(Memory);
        };
        for made in calls {
            let answer = self.post_one(seats, made);
            put(&mut answers, answer);
        }
        Ok(answers)
    }

    // Makes a call by its seat.
    fn post_one<W: Grow + Drop>(&mut self, seats: &mut [Seat<W, J>], made: SeatCall) -> Answer
        requires { IsSeatCall (length seats.old) made }
        ensures exact { IsAnswer self.old.noted (length_of self.old.accepted) made.call result }
        ensures noted { self.new.noted ≡ noted_by self.old.noted made.call (told_of result) }
        ensures accepted { self.new.accepted ≡ extend self.old.accepted (entries_in (numbers_of seats.old) made result) }
        ensures count { self.new.faults ≡ faults_noted self.old.faults result }
        ensures fronts { (i : ℕ) (d : _) → i < length seats.old → Begins (slice_index_or seats.old i d).front (slice_index_or seats.new i d).front }
        ensures others { (numbers_of seats.new ≡ numbers_of seats.old) × (self.new.start ≡ self.old.start) }
        ensures published { Begins self.old.published self.new.published }
        ensures later { self.old.faults ≤ self.new.faults }
    {
        let SeatCall { seat, call } = made;
        self.post_call(&mut seats[seat], call)
    }

    // Makes a call by this seat.
    #[tactic(auto, using(crate::proofs::CallsLemmas::full_of, crate::proofs::CallsLemmas::full_where))]
    fn post_call<W: Grow + Drop>(&mut self, seat: &mut Seat<W, J>, call: Call) -> Answer
        requires { IsCall call }
        ensures exact { IsAnswer self.old.noted (length_of self.old.accepted) call result }
        ensures noted { self.new.noted ≡ noted_by self.old.noted call (told_of result) }
        ensures accepted { self.new.accepted ≡ extend self.old.accepted (entries_by seat.old.number (entering call (told_of result))) }
        ensures count { self.new.faults ≡ faults_noted self.old.faults result }
        ensures front { Begins seat.old.front seat.new.front }
        ensures others { (seat.new.number ≡ seat.old.number) × (self.new.start ≡ self.old.start) }
        ensures published { Begins self.old.published self.new.published }
        ensures later { self.old.faults ≤ self.new.faults }
    {
        match call {
            Call::Plain(items) => match self.post(seat, items) {
                Ok(receipt) => Ok(Noted::New(receipt)),
                Err(why) => Err(NotedError::Post(why)),
            },
            Call::Noted(asked) => self.post_noted(seat, asked),
        }
    }
}
