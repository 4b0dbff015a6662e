//! The one writer, which lies under a lock.
ghost use Rattle.std.specs.Prelude.{◌≡◌, ◌+◌, ◌<◌, ◌≤◌, ◌^◌, ◌≢◌, ◌⊎◌, true, ℕ, length, replicate, IfErr, IfSome, OnOk, MatchBool, MatchResult};
ghost use Rattle.std.specs.List.{sum_by};
ghost use Rattle.gj_base.specs.declared.history.History.{History};
ghost use Rattle.gj_base.specs.History.{Begins, end_of, length_of};
ghost use Rattle.gj_keep.specs.Books.{BookKeeps, Keeps};
ghost use Rattle.gj_keep.specs.Rows.{opened};
ghost use Rattle.gj_once.specs.Judging.{nothing_noted};
ghost use Rattle.gj_publish.specs.declared.refusal.NoLook.TheVariants.{Short};
ghost use Rattle.gj_publish.specs.declared.refusal.PostError.TheVariants.{NoLook, Apart};
ghost use Rattle.gj_publish.specs.Answers.{IsUnmet, after_error};
ghost use Rattle.gj_publish.specs.Posted.{posted};
ghost use Rattle.gj_publish.specs.Seats.{looked};
ghost use Rattle.gj_publish.specs.Writers.{AreWithin, ByNoSeat, RowsAre, by_seat};

use crate::batch::Batch;
use crate::copies::Copies;
use crate::counted::Counted;
use crate::refusal::PostError;
use crate::seat::Seat;
use gj_base::{Conf, Graph, Grow, Keeper, KeptItem, Memory};
use gj_keep::Book;
use gj_log::{Front, Opening, Scribe};
use gj_once::Once;
use std::alloc::Global;
use std::marker::Model;
use std::snapshot::Snapshot;
use std::sync::ledger::{Book as Ledger, Share};

mod lists;
mod noted;
mod posts;

pub use lists::{Answer, SeatCall};

/// Who accepts batches, keeps them and shows them. Contracts see the accepted history, of which the published one is a
/// beginning; what is accepted and not published is owed, and is one batch at most. They see what is noted last of each
/// producer too. Under a lock its type still says that the keeper, where it tells its rows, keeps the accepted history, that
/// what each seat posted is counted, and that each noted batch ends in that history.
#[derive(Drop)]
pub struct Writer<J: Opening, C: Copies<Operation = Batch<J>>, K: Keeper + Drop> {
    alloc: Global,
    start: u64,
    ledger: Ledger<J>,
    copies: C,
    scribe: Scribe<J>,
    shown: Front<J>,
    owed: Option<Batch<J>>,
    book: Book<K>,
    counted: Counted,
    once: Once,
}

impl<J: Opening, C: Copies<Operation = Batch<J>>, K: Keeper + Drop> Model for Writer<J, C, K> {
    ghost use Rattle.std.specs.Prelude.{◌≡◌};
    ghost use Rattle.gj_publish.specs.Posted.{posted};
    ghost use Rattle.gj_publish.specs.Writers.{WriterView, AreWithin, IsOwed, IsGrown, IsCounted};

    ghost Value = { WriterView };

    ghost view = { λ s. record { start = s.start; published = s.shown; accepted = s.scribe.history; noted = s.once; ready = s.scribe.ready; kept = s.book.kept; faults = s.book.faults; steady = s.book.steady } };

    ghost invariant = { λ s. C.quiet s.copies × ((h : _) (b : _) → C.applied h b ≡ posted h b) × (C.shown s.copies ≡ s.shown) × IsOwed s.shown s.scribe.history s.owed × IsGrown J.opening J.conf s.start s.ledger.total s.book s.scribe.opening s.scribe.history × IsCounted J.places s.counted s.scribe.history × AreWithin s.once s.scribe.history };
}

impl<J: Opening, C: Copies<Operation = Batch<J>>, K: Keeper + Drop> Writer<J, C, K> {
    // The writer of an opening, whose copies show what it begins with.
    pub(crate) fn new(
        alloc: Global,
        copies: C,
        scribe: Scribe<J>,
        ledger: Ledger<J>,
        book: Book<K>,
        counted: Counted,
        once: Once,
        rows: &Snapshot<Vec<KeptItem>>,
    ) -> Writer<J, C, K>
        requires ledger { ledger.total ≡ 0 }
        requires quiet { C.quiet copies }
        requires posts { (h : _) (b : _) → C.applied h b ≡ posted h b }
        requires shown { C.shown copies ≡ scribe.history }
        requires opened { (scribe.history ≡ opened rows.now.value.items) × (scribe.opening ≡ opened rows.now.value.items) }
        requires keeps { BookKeeps book (opened rows.now.value.items) }
        requires conf { book.conf ≡ J.conf }
        requires opening { IfSome J.opening (λ h. h ≡ opened rows.now.value.items) }
        requires counted { counted ≡ replicate J.places 0 }
        requires once { once ≡ nothing_noted }
        ensures { result ≡ record { start = length_of scribe.history; published = scribe.history; accepted = scribe.history; noted = once; ready = scribe.ready; kept = book.kept; faults = book.faults; steady = book.steady } }
    {
        let _ = rows;
        let shown = scribe.front();
        Writer {
            alloc,
            start: scribe.length(),
            ledger,
            copies,
            scribe,
            shown,
            owed: None,
            book,
            counted,
            once,
        }
    }

    /// The length of the accepted history. The published one is a beginning of it, the keeper, where it tells its rows,
    /// keeps it, and each noted batch ends in it.
    pub fn length(&self) -> u64
        ensures exact { result ≡ length_of self.now.accepted }
        ensures in_range { result ≤ 2 ^ 48 }
        ensures prefix { Begins self.now.published self.now.accepted }
        ensures kept { RowsAre J.conf self.now.kept self.now.accepted }
        ensures within { AreWithin self.now.noted self.now.accepted }
    {
        self.scribe.length()
    }

    /// How many interactions are accepted and not published.
    pub fn owed(&self) -> u64
        ensures { result + length_of self.now.published ≡ length_of self.now.accepted }
    {
        self.scribe.length() - self.shown.length()
    }

    /// The length at opening. The history begins with one of that length that no seat posted; where the keeper tells its
    /// rows or is bare, it is the one that the opening names.
    pub fn start(&self) -> u64
        ensures exact { result ≡ self.now.start }
        ensures nobody { (h : History) × Begins h self.now.accepted × ByNoSeat h.entries × (result ≡ length_of h) }
        ensures opening { IfSome J.opening (λ h. Begins h self.now.accepted) }
        ensures known { (h : History) × Begins h self.now.accepted × (self.now.start ≡ length_of h) × IfSome J.opening (λ o. o ≡ h) }
    {
        self.start
    }

    /// The configuration of the opening.
    pub fn conf(&self) -> Conf
        ensures { result ≡ J.conf }
    {
        self.book.conf()
    }

    /// Confirms that the accepted history begins with a front, as it does with each front of the opening at all times; and
    /// the keeper, where it tells its rows, keeps that history. It takes no memory.
    pub fn confirm(&mut self, front: &Front<J>)
        ensures begins { Begins front.now self.new.accepted }
        ensures kept { RowsAre J.conf self.new.kept self.new.accepted }
        ensures others { (self.new.accepted ≡ self.old.accepted) × (self.new.published ≡ self.old.published) × (self.new.noted ≡ self.old.noted) × (self.new.start ≡ self.old.start) × (self.new.kept ≡ self.old.kept) × (self.new.faults ≡ self.old.faults) × (self.new.steady ≡ self.old.steady) }
    {
        let _ = self.length();
        self.scribe.confirm(front);
    }

    /// Shows a compaction, which changes no history and no front. It may wait for looks that began before.
    pub fn compact(&mut self) -> Result<(), Memory>
        ensures { self.new ≡ self.old }
    {
        let batch = Batch::compacting(self.alloc, &self.shown);
        match self.copies.show(batch) {
            Ok(()) => Ok(()),
            Err(_) => Err(Memory),
        }
    }

    /// How many interactions the seats posted, of which all must be here: with those at opening, these are all. It takes
    /// no memory.
    pub fn settle<W: Grow + Drop>(&mut self, seats: Vec<Seat<W, J>>) -> u64
        requires some { 0 < length seats.items }
        requires all { length seats.items ≡ J.parts }
        ensures exact { result ≡ sum_by (λ s. s.posted) seats.items }
        ensures length { self.old.start + result ≡ length_of self.old.accepted }
        ensures same { self.new ≡ self.old }
    {
        let mut share = gathered(seats);
        self.ledger.audit(&mut share);
        self.scribe.length() - self.start
    }

    /// The keeper. Where it tells its rows, it keeps the accepted history, so that an opening over it begins there. The
    /// copies go, and from then on no seat gets a look. It may wait for looks that began before.
    pub fn into_keeper(self) -> K
        ensures keeps { Keeps J.conf (K.kept result) self.accepted }
        ensures same { (K.kept result ≡ self.kept) × (K.faults result ≡ self.faults) × (K.steady result ≡ self.steady) }
    {
        let Writer {
            alloc: _,
            start: _,
            ledger: _ledger,
            copies: _copies,
            scribe: _scribe,
            shown: _shown,
            owed: _owed,
            book,
            counted: _counted,
            once: _once,
        } = self;
        book.into_keeper()
    }

    // Makes room in the log for one more batch. False where there is none.
    fn reserve(&mut self) -> bool
        ensures same { (self.new.accepted ≡ self.old.accepted) × (self.new.published ≡ self.old.published) × (self.new.noted ≡ self.old.noted) × (self.new.start ≡ self.old.start) × (self.new.kept ≡ self.old.kept) × (self.new.faults ≡ self.old.faults) × (self.new.steady ≡ self.old.steady) }
        ensures ready { self.new.ready ≡ result }
    {
        self.scribe.reserve()
    }

    // Shows what is owed. False where no memory is found.
    fn show_owed(&mut self) -> bool
        ensures same { (self.new.accepted ≡ self.old.accepted) × (self.new.noted ≡ self.old.noted) × (self.new.ready ≡ self.old.ready) × (self.new.start ≡ self.old.start) × (self.new.kept ≡ self.old.kept) × (self.new.faults ≡ self.old.faults) × (self.new.steady ≡ self.old.steady) }
        ensures shown { MatchBool result (self.new.published ≡ self.old.accepted) (self.new.published ≡ self.old.published) }
    {
        match self.owed.take() {
            None => true,
            Some(batch) => {
                let after = batch.after();
                match self.copies.show(batch) {
                    Ok(()) => {
                        self.shown = after;
                        true
                    }
                    Err(batch) => {
                        self.owed = Some(batch);
                        false
                    }
                }
            }
        }
    }

    // Looks at what is published, and tests whether seat and writer fit. Then the seat has seen just what is published.
    fn meet<W: Grow + Drop>(&self, seat: &mut Seat<W, J>) -> Result<(), PostError>
        ensures ok { OnOk result ((seat.new.front ≡ self.now.published) × (seat.old.posted ≡ by_seat seat.old.number self.now.accepted)) }
        ensures began { OnOk result (Begins seat.old.front self.now.accepted) }

        ensures unmet { IfErr result IsUnmet }
        ensures no_look { IfErr result (λ e. (why : _) → e ≡ NoLook why → seat.new.front ≡ seat.old.front) }
        ensures short { IfErr result (λ e. (seen shown : ℕ) → e ≡ NoLook (Short seen shown) → ((seen ≡ length_of seat.old.front) ⊎ (seen ≡ length_of self.now.published)) × (shown < seen) × ((x : W) × (end_of (W.shown x) ≡ shown))) }
        ensures apart { IfErr result (λ why. (seen shown posted counted : _) → why ≡ Apart seen shown posted counted → (seen ≡ length_of seat.new.front) × (shown ≡ length_of self.now.published) × (posted ≡ seat.old.posted) × (counted ≡ by_seat seat.old.number self.now.accepted) × Begins self.now.published seat.new.front × ((shown < seen) ⊎ (posted ≢ counted))) }

        ensures front { Begins seat.old.front seat.new.front }
        ensures numbers { MatchResult result (λ _. seat.new.numbers ≡ looked seat.old.numbers) (λ why. seat.new.numbers ≡ after_error why seat.old.numbers) }
        ensures others { (seat.new.number ≡ seat.old.number) × (seat.new.posted ≡ seat.old.posted) }
    {
        match seat.look_behind(&self.shown, |_: &W| ()) {
            Err(why) => return Err(PostError::NoLook(why)),
            Ok(()) => {}
        }
        let _ = self.length();
        let seen = seat.seen();
        let shown = self.shown.length();
        let posted = seat.posted();
        let counted = self.counted(seat.number());
        if seen > shown || posted != counted {
            seat.refuse_apart();
            return Err(PostError::Apart {
                seen,
                shown,
                posted,
                counted,
            });
        }
        Ok(())
    }

    // How many entries of the history the seat with this number posted.
    fn counted(&self, number: u32) -> u64
        requires { (1 ≤ number) × (number ≤ J.places) }
        ensures { result ≡ by_seat number self.now.accepted }
    {
        self.counted.get(number as usize - 1)
    }
}

// All shares in one.
fn gathered<W: Grow + Drop, J: Opening>(mut seats: Vec<Seat<W, J>>) -> Share<J>
    requires { 0 < length seats.items }
    ensures { (result.amount ≡ sum_by (λ s. s.posted) seats.items) × (result.parts ≡ length seats.items) }
{
    let mut all = seats.pop().unwrap().into_share();
    while let Some(seat) = seats.pop() {
        all.merge(seat.into_share());
    }
    all
}
