//! Accepting a batch: it is kept, then it enters the history, and then it is shown.
ghost use Rattle.std.specs.Prelude.{◌≡◌, ◌≢◌, ◌⊎◌, ◌+◌, ◌<◌, ◌≤◌, ◌^◌, true, ℕ, length, IfOk, IfErr, OnOk, OnErr, IsErrOf, IsTrue};
ghost use Rattle.gj_base.specs.declared.index.IndexError.TheVariants.{Store as StoreFault};
ghost use Rattle.gj_base.specs.Causes.{Rose, faults_posted};
ghost use Rattle.gj_base.specs.History.{Begins, end_of, entries_by, extend, length_of};
ghost use Rattle.gj_publish.specs.declared.refusal.NoLook.TheVariants.{Short};
ghost use Rattle.gj_publish.specs.declared.refusal.PostError.TheVariants.{KeptUnseen, Store, Full, NoLook, Apart};
ghost use Rattle.gj_publish.specs.Answers.{after_post, faults_after_post, OnMet};
ghost use Rattle.gj_publish.specs.Writers.{by_seat};

use super::Writer;
use crate::batch::Batch;
use crate::copies::Copies;
use crate::refusal::PostError;
use crate::seat::Seat;
use gj_base::{Graph, Grow, HISTORY_END, IndexError, ItemList, Keeper, Receipt};
use gj_log::{Opening, Posting};

impl<J: Opening, C: Copies<Operation = Batch<J>>, K: Keeper + Drop> Writer<J, C, K> {
    /// Keeps the items, accepts them, and shows them to all seats; the seat that posts has then seen them. An owed batch
    /// is shown before. It may wait for looks that began before.
    pub fn post<W: Grow + Drop>(
        &mut self,
        seat: &mut Seat<W, J>,
        items: ItemList,
    ) -> Result<Receipt, PostError>
        requires some { 0 < length items }
        requires few { length items ≤ 4096 }

        // Ok: the history has the items too, all of it is published, and the seat has seen it.
        ensures ok { OnOk result ((self.new.accepted ≡ extend self.old.accepted (entries_by seat.old.number items)) × (self.new.published ≡ self.new.accepted) × (seat.new.front ≡ self.new.accepted)) }
        ensures receipt { IfOk result (λ r. (r.from ≡ length_of self.old.accepted) × (r.to ≡ length_of self.new.accepted)) }
        ensures began { OnOk result (Begins seat.old.front self.old.accepted) }
        ensures posted { OnOk result ((seat.new.posted ≡ seat.old.posted + length items) × (seat.new.posted ≡ by_seat seat.old.number self.new.accepted)) }

        // KeptUnseen: the history has the items too, and they alone are owed.
        ensures kept_unseen { IfErr result (λ why. (r : _) → why ≡ KeptUnseen r → (r.from ≡ length_of self.old.accepted) × (r.to ≡ length_of self.new.accepted) × (self.new.accepted ≡ extend self.old.accepted (entries_by seat.old.number items)) × (self.new.published ≡ self.old.accepted) × (seat.new.posted ≡ seat.old.posted + length items) × (seat.new.posted ≡ by_seat seat.old.number self.new.accepted)) }

        // Every other refusal accepts nothing. `Full` is tested first, then the look, then whether seat and writer fit.
        ensures err { IfErr result (λ why. ((r : _) → why ≢ KeptUnseen r) → (self.new.accepted ≡ self.old.accepted) × (seat.new.posted ≡ seat.old.posted)) }
        ensures full { IfErr result (λ why. (n : _) → why ≡ Full n → (n ≡ length_of self.old.accepted) × (2 ^ 48 < length_of self.old.accepted + length items) × (self.new ≡ self.old) × (seat.new.front ≡ seat.old.front)) }
        ensures room { 2 ^ 48 < length_of self.old.accepted + length items → IsErrOf result (Full (length_of self.old.accepted)) }
        ensures no_look { IfErr result (λ e. (why : _) → e ≡ NoLook why → (self.new ≡ self.old) × (seat.new.front ≡ seat.old.front)) }
        ensures short { IfErr result (λ e. (seen shown : ℕ) → e ≡ NoLook (Short seen shown) → ((seen ≡ length_of seat.old.front) ⊎ (seen ≡ length_of self.old.published)) × (shown < seen) × ((x : W) × (end_of (W.shown x) ≡ shown))) }
        ensures apart { IfErr result (λ why. (seen shown posted counted : _) → why ≡ Apart seen shown posted counted → (self.new ≡ self.old) × (seen ≡ length_of seat.new.front) × (shown ≡ length_of self.old.published) × (posted ≡ seat.old.posted) × (counted ≡ by_seat seat.old.number self.old.accepted) × Begins self.old.published seat.new.front × ((shown < seen) ⊎ (posted ≢ counted))) }
        ensures count { self.new.faults ≡ faults_after_post self.old.faults result }
        ensures cause { IsErrOf result Store → Rose self.old.faults self.new.faults }
        ensures steady { IsTrue self.old.steady → (IsErrOf result Store → ⊥) × IsTrue self.new.steady }

        // Where it goes on after these tests, they held.
        ensures together { OnMet result (seat.old.posted ≡ by_seat seat.old.number self.old.accepted) }
        ensures told { OnMet result (Begins self.old.published seat.new.front) }
        ensures within { IfErr result (λ why. OnMet result (length_of seat.new.front ≤ length_of self.old.published)) }

        // At every answer.
        ensures front { Begins seat.old.front seat.new.front }
        ensures numbers { seat.new.numbers ≡ after_post result seat.old.numbers }
        ensures others { (seat.new.number ≡ seat.old.number) × (self.new.noted ≡ self.old.noted) × (self.new.start ≡ self.old.start) }
        ensures published { Begins self.old.published self.new.published }
        ensures later { self.old.faults ≤ self.new.faults }
    {
        let count = items.len() as u64;
        let from = self.length();
        if count > HISTORY_END - from {
            seat.refuse_full();
            return Err(PostError::Full { length: from });
        }
        self.meet(seat)?;
        if !self.show_owed() {
            return Err(PostError::Memory);
        }
        if !self.reserve() {
            return Err(PostError::Memory);
        }
        match self.take_in(seat, items) {
            Err(IndexError::Store) => {
                seat.refuse_store();
                return Err(PostError::Store);
            }
            Err(_) => return Err(PostError::Memory),
            Ok(()) => {}
        }
        let receipt = Receipt {
            from,
            to: from + count,
        };
        if !self.show_owed() {
            return Err(PostError::KeptUnseen { receipt });
        }
        seat.catch_up(&self.shown);
        Ok(receipt)
    }

    // Keeps a batch, and accepts it; it is then owed. One call, since between its steps the writer's type does not hold.
    fn take_in<W: Grow + Drop>(
        &mut self,
        seat: &mut Seat<W, J>,
        items: ItemList,
    ) -> Result<(), IndexError>
        requires ready { self.old.ready ≡ true }
        requires shown { self.old.published ≡ self.old.accepted }
        requires room { length_of self.old.accepted + length items ≤ 2 ^ 48 }
        requires few { length items ≤ 4096 }
        ensures ok { OnOk result (self.new.accepted ≡ extend self.old.accepted (entries_by seat.old.number items)) }
        ensures posted { OnOk result (seat.new ≡ record { number = seat.old.number; front = seat.old.front; posted = seat.old.posted + length items; numbers = seat.old.numbers }) }
        ensures same { (self.new.published ≡ self.old.published) × (self.new.noted ≡ self.old.noted) × (self.new.start ≡ self.old.start) }
        ensures err { OnErr result ((self.new.accepted ≡ self.old.accepted) × (seat.new ≡ seat.old)) }
        ensures count { self.new.faults ≡ faults_posted self.old.faults result }
        ensures cause { IsErrOf result StoreFault → Rose self.old.faults self.new.faults }
        ensures steady { IsTrue self.old.steady → (IsErrOf result StoreFault → ⊥) × IsTrue self.new.steady }
        ensures later { self.old.faults ≤ self.new.faults }
    {
        self.book.keep(items.as_slice())?;
        let number = seat.number();
        let count = items.len() as u64;
        seat.enter(&mut self.ledger, count);
        self.counted.add(number as usize - 1, count);
        let posting = Posting { by: number, items };
        let before = self.shown.again();
        self.scribe.enter(&posting);
        let after = self.scribe.front();
        self.owed = Some(Batch::new(posting, before, after));
        Ok(())
    }
}
