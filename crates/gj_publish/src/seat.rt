//! A seat, which looks and never waits.
ghost use Rattle.std.specs.Prelude.{◌≡◌, ◌⊎◌, ◌≤◌, ◌<◌, ◌+◌, ◌^◌, ℕ, IfOk, IfErr, IfSome, OnErr, OnOk, Ok, Err};
ghost use Rattle.std.specs.Fn.{FnOnceReturnsAt};
ghost use Rattle.gj_base.specs.History.{Begins, StandsFor, conf_of, end_of, length_of};
ghost use Rattle.gj_publish.specs.declared.refusal.NoLook.TheVariants.{Short};
ghost use Rattle.gj_publish.specs.Answers.{after_look};
ghost use Rattle.gj_publish.specs.Seats.{no_numbers, not_fitted, not_met, not_stored, after_verdict};

use crate::counts::Counts;
use crate::pane::Pane;
use crate::refusal::NoLook;
use gj_base::{Graph, Grow};
use gj_log::{Front, Opening};
use gj_once::Verdict;
use left_right::ReadHandle;
use std::marker::Model;
use std::sync::ledger::{Book, Share};

/// A reader's place, with what it has seen of the history. Contracts see its number, that beginning of the history, how
/// many interactions it posted, and numbers that no call shows: its looks, its refused looks, its posts that were refused
/// by a fault, by a full history and by `Apart`, and its noted posts by each verdict. A seat and a writer of one `J` are of
/// one opening.
#[derive(Drop)]
pub struct Seat<W: Grow + Drop, J: Opening> {
    number: u32,
    posted: u64,
    counts: Counts,
    share: Share<J>,
    front: Front<J>,
    reader: ReadHandle<Pane<W, J>>,
}

impl<W: Grow + Drop, J: Opening> Model for Seat<W, J> {
    ghost use Rattle.std.specs.Prelude.{◌≡◌, ◌≤◌};
    ghost use Rattle.gj_publish.specs.Seats.{SeatView};

    ghost Value = { SeatView };

    ghost view = { λ s. record { number = s.number; front = s.front; posted = s.posted; numbers = s.counts } };

    ghost invariant = { λ s. (s.share.amount ≡ s.posted) × (s.share.parts ≡ 1) × (1 ≤ s.number) × (s.number ≤ J.places) };
}

impl<W: Grow + Drop, J: Opening> Seat<W, J> {
    pub(crate) fn new(
        number: u32,
        front: Front<J>,
        reader: ReadHandle<Pane<W, J>>,
        share: Share<J>,
    ) -> Seat<W, J>
        requires share { (share.parts ≡ 1) × (share.amount ≡ 0) }
        requires number { (1 ≤ number) × (number ≤ J.places) }
        ensures { result ≡ record { number = number; front = front; posted = 0; numbers = no_numbers } }
    {
        Seat {
            number,
            posted: 0,
            counts: Counts::new(),
            share,
            front,
            reader,
        }
    }

    /// Answers what `f` answers on a graph of what is shown, which begins with all that this seat saw. What is shown is
    /// accepted, and so kept: `Writer::confirm` says it. It takes no memory and never waits, and the look ends before it
    /// returns.
    pub fn look<T, F: FnOnce(&W) -> T + Drop>(&mut self, f: F) -> Result<T, NoLook>
        requires { F.IsAlwaysCallable f }

        ensures ok { OnOk result (Begins self.old.front self.new.front) }
        ensures answer { IfOk result (λ t. (x : W) × StandsFor (W.shown x) self.new.front × (conf_of (W.shown x) ≡ J.conf) × FnOnceReturnsAt F.FnOnce f x t) }

        // `Short` comes where a graph that is shown ends before what was seen; `Refused` has no cause that left_right states.
        ensures short { IfErr result (λ why. (seen shown : ℕ) → why ≡ Short seen shown → (seen ≡ length_of self.old.front) × (shown < seen) × ((x : W) × (end_of (W.shown x) ≡ shown))) }
        ensures err { OnErr result (self.new.front ≡ self.old.front) }

        ensures front { Begins self.old.front self.new.front }
        ensures numbers { self.new.numbers ≡ after_look result self.old.numbers }
        ensures others { (self.new.number ≡ self.old.number) × (self.new.posted ≡ self.old.posted) }
    {
        let told = self.front.again();
        self.look_behind(&told, f)
    }

    // The same, and what is seen begins with what is told.
    pub(crate) fn look_behind<T, F: FnOnce(&W) -> T + Drop>(
        &mut self,
        told: &Front<J>,
        f: F,
    ) -> Result<T, NoLook>
        requires { F.IsAlwaysCallable f }
        ensures ok { OnOk result (Begins self.old.front self.new.front) }
        ensures told { OnOk result (Begins told.now self.new.front) }
        ensures answer { IfOk result (λ t. (x : W) × StandsFor (W.shown x) self.new.front × (conf_of (W.shown x) ≡ J.conf) × FnOnceReturnsAt F.FnOnce f x t) }
        ensures short { IfErr result (λ why. (seen shown : ℕ) → why ≡ Short seen shown → ((seen ≡ length_of self.old.front) ⊎ (seen ≡ length_of told.now)) × (shown < seen) × ((x : W) × (end_of (W.shown x) ≡ shown))) }
        ensures err { OnErr result (self.new.front ≡ self.old.front) }
        ensures front { Begins self.old.front self.new.front }
        ensures numbers { self.new.numbers ≡ after_look result self.old.numbers }
        ensures others { (self.new.number ≡ self.old.number) × (self.new.posted ≡ self.old.posted) }
    {
        match look_at(&mut self.reader, &self.front, told, f) {
            Ok((front, answer)) => {
                self.front = front;
                self.counts.look();
                Ok(answer)
            }
            Err(why) => {
                self.counts.refuse_look();
                Err(why)
            }
        }
    }

    /// Its number, from 1 on.
    pub fn number(&self) -> u32
        ensures exact { result ≡ self.now.number }
        ensures in_range { (1 ≤ result) × (result ≤ J.places) }
    {
        self.number
    }

    /// What it saw, to be compared with other fronts or confirmed by the writer.
    pub fn front(&self) -> &Front<J>
        ensures { result.now ≡ self.now.front }
    {
        &self.front
    }

    /// The length of the history that it saw.
    pub fn seen(&self) -> u64
        ensures exact { result ≡ length_of self.now.front }
        ensures in_range { result ≤ 2 ^ 48 }
    {
        self.front.length()
    }

    /// How many interactions entered the history through it.
    pub fn posted(&self) -> u64
        ensures { result ≡ self.now.posted }
    {
        self.posted
    }

    // What the writer published is what was seen.
    pub(crate) fn catch_up(&mut self, published: &Front<J>)
        ensures { self.new ≡ record { number = self.old.number; front = published.now; posted = self.old.posted; numbers = self.old.numbers } }
    {
        self.front = published.again();
    }

    // A post was refused by a full history.
    pub(crate) fn refuse_full(&mut self)
        ensures { self.new ≡ record { number = self.old.number; front = self.old.front; posted = self.old.posted; numbers = not_fitted self.old.numbers } }
    {
        self.counts.refuse_full();
    }

    // A post was refused by the keeper.
    pub(crate) fn refuse_store(&mut self)
        ensures { self.new ≡ record { number = self.old.number; front = self.old.front; posted = self.old.posted; numbers = not_stored self.old.numbers } }
    {
        self.counts.refuse_store();
    }

    // A post was refused since seat and writer do not fit.
    pub(crate) fn refuse_apart(&mut self)
        ensures { self.new ≡ record { number = self.old.number; front = self.old.front; posted = self.old.posted; numbers = not_met self.old.numbers } }
    {
        self.counts.refuse_apart();
    }

    // A noted batch was judged so.
    pub(crate) fn judge(&mut self, verdict: Verdict)
        ensures { self.new ≡ record { number = self.old.number; front = self.old.front; posted = self.old.posted; numbers = after_verdict verdict self.old.numbers } }
    {
        self.counts.judge(verdict);
    }

    // Its interactions enter the history.
    pub(crate) fn enter(&mut self, ledger: &mut Book<J>, count: u64)
        requires { ledger.old.total + count ≤ 2 ^ 48 }
        ensures ledger { ledger.new.total ≡ ledger.old.total + count }
        ensures posted { self.new ≡ record { number = self.old.number; front = self.old.front; posted = self.old.posted + count; numbers = self.old.numbers } }
    {
        ledger.audit(&mut self.share);
        ledger.add(&mut self.share, count);
        self.posted += count;
    }

    // The share, with what was posted.
    pub(crate) fn into_share(self) -> Share<J>
        ensures { (result.amount ≡ self.posted) × (result.parts ≡ 1) }
    {
        let Seat {
            number: _,
            posted: _,
            counts: _counts,
            share,
            front: _front,
            reader: _reader,
        } = self;
        share
    }
}

// Looks at what is published, and calls `f` on it, where it begins with what was seen and told.
fn look_at<W: Grow + Drop, J: Opening, T, F: FnOnce(&W) -> T + Drop>(
    reader: &mut ReadHandle<Pane<W, J>>,
    front: &Front<J>,
    told: &Front<J>,
    f: F,
) -> Result<(Front<J>, T), NoLook>
    requires { F.IsAlwaysCallable f }
    ensures later { IfOk result (λ r. Begins front.now r.0) }
    ensures told { IfOk result (λ r. Begins told.now r.0) }
    ensures answer { IfOk result (λ r. (x : W) × StandsFor (W.shown x) r.0 × (conf_of (W.shown x) ≡ J.conf) × FnOnceReturnsAt F.FnOnce f x r.1) }
    ensures short { IfErr result (λ why. (seen shown : ℕ) → why ≡ Short seen shown → ((seen ≡ length_of front.now) ⊎ (seen ≡ length_of told.now)) × (shown < seen) × ((x : W) × (end_of (W.shown x) ≡ shown))) }
{
    let Some(guard) = reader.enter() else {
        return Err(NoLook::Refused);
    };
    let pane: &Pane<W, J> = &*guard;
    if !front.begins(&pane.front) {
        return Err(short(front, pane));
    }
    if !told.begins(&pane.front) {
        return Err(short(told, pane));
    }
    let seen = pane.front.again();
    let answer = f(&pane.graph);
    Ok((seen, answer))
}

// The refusal of a copy that is shorter than what was seen.
fn short<W: Grow + Drop, J: Opening>(seen: &Front<J>, pane: &Pane<W, J>) -> NoLook
    requires { length_of pane.now < length_of seen.now }
    ensures { (result ≡ Short (length_of seen.now) (length_of pane.now)) × ((x : W) × (end_of (W.shown x) ≡ length_of pane.now)) }
{
    NoLook::Short {
        seen: seen.length(),
        shown: pane.front.length(),
    }
}
