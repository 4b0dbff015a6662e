//! Accepting a numbered batch once.
ghost use Rattle.std.specs.Prelude.{◌≡◌, ◌≢◌, ◌⊎◌, ◌+◌, ◌<◌, ◌≤◌, ◌^◌, ℕ, length, IfErr, IfOk, OnErr, IsErrOf, IsTrue};
ghost use Rattle.gj_base.specs.Asks.{IsNotedBatch};
ghost use Rattle.gj_base.specs.Causes.{Rose};
ghost use Rattle.gj_base.specs.History.{Begins, end_of, entries_by, extend, length_of};
ghost use Rattle.gj_once.specs.declared.verdict.Verdict.TheVariants.{Fresh};
ghost use Rattle.gj_once.specs.Judging.{judged};
ghost use Rattle.gj_publish.specs.declared.refusal.NoLook.TheVariants.{Short};
ghost use Rattle.gj_publish.specs.declared.refusal.NotedError.TheVariants.{Post, RepeatUnseen, Old, Skipped};
ghost use Rattle.gj_publish.specs.declared.refusal.PostError.TheVariants.{KeptUnseen, Store, Full, NoLook, Apart};
ghost use Rattle.gj_publish.specs.NotedAnswers.{Answers, IfEntered, IfNew, IfRepeated, IsRepeat, OnNew, OnNotedMet, after_answer, after_noted, faults_noted, noted_by, noted_posted};
ghost use Rattle.gj_publish.specs.Writers.{all_shown, by_seat};

use super::Writer;
use crate::batch::Batch;
use crate::copies::Copies;
use crate::refusal::{NotedError, PostError};
use crate::seat::Seat;
use gj_base::{Graph, Grow, Keeper, NotedItems, Receipt};
use gj_log::Opening;
use gj_once::{Noted, Verdict};

impl<J: Opening, C: Copies<Operation = Batch<J>>, K: Keeper + Drop> Writer<J, C, K> {
    /// Posts the batch as `post` does if its number is the next one of its producer, and notes it if it enters. The last
    /// number again brings nothing in; all that is accepted is then shown, the batch with it, and the seat has seen it. Every
    /// other number is refused. It may wait for looks that began before.
    pub fn post_noted<W: Grow + Drop>(
        &mut self,
        seat: &mut Seat<W, J>,
        asked: NotedItems,
    ) -> Result<Noted, NotedError>
        ensures is_batch { IsNotedBatch asked }
        ensures exact { Answers (judged self.old.noted asked.producer asked.number) result }
        ensures noted { self.new.noted ≡ noted_by self.old.noted asked result }

        // A fresh batch is posted as one without a number. New: the history has the items too, all of it is published, and
        // the seat has seen it.
        ensures ok { OnNew result ((self.new.accepted ≡ extend self.old.accepted (entries_by seat.old.number asked.items)) × (self.new.published ≡ self.new.accepted) × (seat.new.front ≡ self.new.accepted)) }
        ensures receipt { IfNew result (λ r. (r.from ≡ length_of self.old.accepted) × (r.to ≡ length_of self.new.accepted)) }
        ensures began { IfOk result (λ _. Begins seat.old.front self.old.accepted) }
        ensures posted { OnNew result ((seat.new.posted ≡ seat.old.posted + length asked.items) × (seat.new.posted ≡ by_seat seat.old.number self.new.accepted)) }

        // KeptUnseen: the history has the items too, and they alone are owed.
        ensures kept_unseen { IfErr result (λ why. (r : _) → why ≡ Post (KeptUnseen r) → (r.from ≡ length_of self.old.accepted) × (r.to ≡ length_of self.new.accepted) × (self.new.accepted ≡ extend self.old.accepted (entries_by seat.old.number asked.items)) × (self.new.published ≡ self.old.accepted) × (seat.new.posted ≡ seat.old.posted + length asked.items) × (seat.new.posted ≡ by_seat seat.old.number self.new.accepted)) }

        // Repeated: nothing enters, all of the history is published, and the seat has seen it, with the batch.
        ensures repeated { IfRepeated result (λ r. (self.new ≡ all_shown self.old) × (seat.new.front ≡ self.old.accepted) × (r.to ≤ length_of seat.new.front) × (seat.new.posted ≡ seat.old.posted)) }
        ensures repeat_unseen { IfErr result (λ why. (r : _) → why ≡ RepeatUnseen r → (self.new ≡ self.old) × (r.to ≤ length_of self.old.accepted)) }

        // Every other refusal accepts nothing. The number is judged first. Then `Full` is tested, if it is fresh, then the
        // look, then whether seat and writer fit.
        ensures err { IfErr result (λ why. ((r : _) → why ≢ Post (KeptUnseen r)) → (self.new.accepted ≡ self.old.accepted) × (seat.new.posted ≡ seat.old.posted)) }
        ensures old { IfErr result (λ why. (last : ℕ) → why ≡ Old last → (self.new ≡ self.old) × (seat.new.front ≡ seat.old.front)) }
        ensures skipped { IfErr result (λ why. (last : ℕ) → why ≡ Skipped last → (self.new ≡ self.old) × (seat.new.front ≡ seat.old.front)) }
        ensures full { IfErr result (λ why. (n : _) → why ≡ Post (Full n) → (n ≡ length_of self.old.accepted) × (2 ^ 48 < length_of self.old.accepted + length asked.items) × (self.new ≡ self.old) × (seat.new.front ≡ seat.old.front)) }
        ensures room { judged self.old.noted asked.producer asked.number ≡ Fresh → 2 ^ 48 < length_of self.old.accepted + length asked.items → IsErrOf result (Post (Full (length_of self.old.accepted))) }
        ensures no_look { IfErr result (λ e. (why : _) → e ≡ Post (NoLook why) → (self.new ≡ self.old) × (seat.new.front ≡ seat.old.front)) }
        ensures short { IfErr result (λ e. (seen shown : ℕ) → e ≡ Post (NoLook (Short seen shown)) → ((seen ≡ length_of seat.old.front) ⊎ (seen ≡ length_of self.old.published)) × (shown < seen) × ((x : W) × (end_of (W.shown x) ≡ shown))) }
        ensures apart { IfErr result (λ why. (seen shown posted counted : _) → why ≡ Post (Apart seen shown posted counted) → (self.new ≡ self.old) × (seen ≡ length_of seat.new.front) × (shown ≡ length_of self.old.published) × (posted ≡ seat.old.posted) × (counted ≡ by_seat seat.old.number self.old.accepted) × Begins self.old.published seat.new.front × ((shown < seen) ⊎ (posted ≢ counted))) }
        ensures count { self.new.faults ≡ faults_noted self.old.faults result }
        ensures cause { IsErrOf result (Post Store) → Rose self.old.faults self.new.faults }
        ensures steady { IsTrue self.old.steady → (IsErrOf result (Post Store) → ⊥) × IsTrue self.new.steady }

        // Where it goes on after these tests, they held.
        ensures together { OnNotedMet result (seat.old.posted ≡ by_seat seat.old.number self.old.accepted) }
        ensures told { OnNotedMet result (Begins self.old.published seat.new.front) }
        ensures within { IfErr result (λ why. OnNotedMet result (length_of seat.new.front ≤ length_of self.old.published)) }

        // At every answer.
        ensures front { Begins seat.old.front seat.new.front }
        ensures numbers { seat.new.numbers ≡ after_noted (judged self.old.noted asked.producer asked.number) result seat.old.numbers }
        ensures others { (seat.new.number ≡ seat.old.number) × (self.new.start ≡ self.old.start) }
        ensures published { Begins self.old.published self.new.published }
        ensures later { self.old.faults ≤ self.new.faults }
    {
        let _ = self.length();
        let verdict = self.once.judge(asked.producer, asked.number);
        seat.judge(verdict);
        match verdict {
            Verdict::Fresh => {
                let NotedItems {
                    producer,
                    number,
                    items,
                } = asked;
                let answer = self.post(seat, items);
                self.note(producer, number, answer);
                match answer {
                    Ok(receipt) => Ok(Noted::New(receipt)),
                    Err(why) => Err(NotedError::Post(why)),
                }
            }
            Verdict::Repeat { receipt } => self.repeat(seat, receipt),
            Verdict::Old { last } => Err(NotedError::Old { last }),
            Verdict::Skipped { last } => Err(NotedError::Skipped { last }),
        }
    }

    // Notes a fresh batch that was posted with this answer, if it entered.
    fn note(&mut self, producer: u32, number: u64, answer: Result<Receipt, PostError>)
        requires producer { (1 ≤ producer) × (producer ≤ 1024) }
        requires fresh { judged self.old.noted producer number ≡ Fresh }
        requires within { IfEntered answer (λ r. r.to ≤ length_of self.old.accepted) }
        ensures { self.new ≡ record { start = self.old.start; published = self.old.published; accepted = self.old.accepted; noted = noted_posted self.old.noted producer number answer; ready = self.old.ready; kept = self.old.kept; faults = self.old.faults; steady = self.old.steady } }
    {
        match answer {
            Ok(receipt) => self.once.note(producer, number, receipt),
            Err(PostError::KeptUnseen { receipt }) => self.once.note(producer, number, receipt),
            Err(_) => {}
        }
    }

    // A batch that had entered at these places is posted again: the seat learns of all that is accepted.
    fn repeat<W: Grow + Drop>(
        &mut self,
        seat: &mut Seat<W, J>,
        receipt: Receipt,
    ) -> Result<Noted, NotedError>
        requires within { receipt.to ≤ length_of self.old.accepted }
        ensures answers { IsRepeat receipt result }
        ensures repeated { IfRepeated result (λ r. (self.new ≡ all_shown self.old) × (seat.new.front ≡ self.old.accepted) × (r.to ≤ length_of seat.new.front) × (seat.new.posted ≡ seat.old.posted)) }
        ensures repeat_unseen { IfErr result (λ why. (r : _) → why ≡ RepeatUnseen r → (self.new ≡ self.old) × (r.to ≤ length_of self.old.accepted)) }
        ensures began { IfOk result (λ _. Begins seat.old.front self.old.accepted) }
        ensures err { OnErr result (self.new ≡ self.old) }
        ensures no_look { IfErr result (λ e. (why : _) → e ≡ Post (NoLook why) → seat.new.front ≡ seat.old.front) }
        ensures short { IfErr result (λ e. (seen shown : ℕ) → e ≡ Post (NoLook (Short seen shown)) → ((seen ≡ length_of seat.old.front) ⊎ (seen ≡ length_of self.old.published)) × (shown < seen) × ((x : W) × (end_of (W.shown x) ≡ shown))) }
        ensures apart { IfErr result (λ why. (seen shown posted counted : _) → why ≡ Post (Apart seen shown posted counted) → (self.new ≡ self.old) × (seen ≡ length_of seat.new.front) × (shown ≡ length_of self.old.published) × (posted ≡ seat.old.posted) × (counted ≡ by_seat seat.old.number self.old.accepted) × Begins self.old.published seat.new.front × ((shown < seen) ⊎ (posted ≢ counted))) }
        ensures together { OnNotedMet result (seat.old.posted ≡ by_seat seat.old.number self.old.accepted) }
        ensures told { OnNotedMet result (Begins self.old.published seat.new.front) }
        ensures within { IfErr result (λ why. OnNotedMet result (length_of seat.new.front ≤ length_of self.old.published)) }
        ensures front { Begins seat.old.front seat.new.front }
        ensures numbers { seat.new.numbers ≡ after_answer result seat.old.numbers }
        ensures others { (seat.new.number ≡ seat.old.number) × (seat.new.posted ≡ seat.old.posted) }
    {
        match self.meet(seat) {
            Ok(()) => {}
            Err(why) => return Err(NotedError::Post(why)),
        }
        let _ = self.length();
        if !self.show_owed() {
            return Err(NotedError::RepeatUnseen { receipt });
        }
        seat.catch_up(&self.shown);
        Ok(Noted::Repeated(receipt))
    }
}
