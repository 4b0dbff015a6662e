//! A book of lots, with the right to add more.
ghost use Rattle.std.specs.Prelude.{◌≡◌, ◌+◌, ◌≤◌, ◌++◌, ◌∷◌, [], true, false, None, length, IfSome};
ghost use mathlib.Core.List.{IsPrefix};
ghost use Rattle.gj_log.specs.Rules.{head_of, next_nib};

use crate::law::{Add, Confirm, Law, Nothing, Reserve};
use crate::naming::Opening;
use gj_base::Entry;
use logbook::{Offer, Pen, Plain, Seen, Start, Word};
use std::marker::{Model, PhantomData};
use std::mem::swap;

/// A book with an empty log, which has no name yet. Contracts see which book it is.
#[derive(Drop)]
pub struct BlankBook {
    head: Word<(u64, [Entry; 0]), u64, Law>,
    seen: Seen<(u64, [Entry; 0]), u64, Law>,
}

impl Model for BlankBook {
    ghost use Rattle.std.specs.Prelude.{◌≡◌, []};
    ghost use Rattle.logbook.specs.Pages.{Book, book_coded};
    ghost use Rattle.gj_log.specs.Rules.{head_of};

    ghost Value = { Book };

    ghost coded = { book_coded };

    ghost view = { λ o. o.seen.book };

    ghost invariant = { λ o. (o.seen.log ≡ []) × (o.head ≡ head_of o.seen.book) };
}

impl BlankBook {
    pub(crate) fn new() -> BlankBook {
        let (seen, mut first, _second) = Seen::open(Start::alone(), 0, 0);
        BlankBook {
            head: Word::tracked(0, &mut first),
            seen,
        }
    }

    // The book under a name. Nothing was added.
    pub(crate) fn named<J: Opening>(self) -> Option<Pages<J>>
        requires { self ≡ J.book }
        ensures { IfSome result (λ pages. pages ≡ ([], false)) }
    {
        let BlankBook { head, seen } = self;
        let pen = room(&head, &seen, 0)?;
        let spare = seen.no_pen();
        Some(Pages {
            lots: 0,
            ready: false,
            head,
            pen,
            spare,
            seen,
            of: PhantomData,
        })
    }
}

/// The lots, with the right to add more. Contracts see the lots, and whether there is room for one.
///
/// The pen for the next lot is held at all times, so that no lot is added elsewhere. Where there is room, the spare is the
/// pen for the lot after it.
#[derive(Drop)]
pub struct Pages<J: Opening> {
    lots: u64,
    ready: bool,
    head: Word<(u64, [Entry; 0]), u64, Law>,
    pen: Pen,
    spare: Pen,
    seen: Seen<(u64, [Entry; 0]), u64, Law>,
    of: PhantomData<J>,
}

impl<J: Opening> Model for Pages<J> {
    ghost use Rattle.std.specs.Prelude.{◌≡◌, ◌<◌, ◌+◌, ℕ, List, Bool, true, length};
    ghost use Rattle.gj_base.specs.declared.item.Entry.{Entry};
    ghost use Rattle.gj_log.specs.Rules.{head_of, next_nib};

    ghost Value = { List (ℕ × List Entry) × Bool };

    ghost view = { λ s. (s.seen.log, s.ready) };

    ghost invariant = { λ s. (s.head ≡ head_of J.book) × (s.pen.book ≡ J.book) × (s.spare.book ≡ J.book) × (s.seen.book ≡ J.book) × (s.lots ≡ length s.seen.log) × (s.pen.nib ≡ next_nib s.lots) × (s.ready ≡ true → (s.spare.nib ≡ next_nib (s.lots + 1)) × (s.lots < 18446744073709551615)) };
}

impl<J: Opening> Pages<J> {
    // Makes room for a lot, and says whether there is room. There is none after 2^64 - 2 lots.
    pub(crate) fn reserve(&mut self) -> bool
        ensures same { self.new.0 ≡ self.old.0 }
        ensures ready { self.new.1 ≡ result }
    {
        if self.ready {
            return true;
        }
        let Some(next) = self.lots.checked_add(1) else {
            return false;
        };
        let Some(spare) = room(&self.head, &self.seen, next) else {
            return false;
        };
        self.spare = spare;
        self.ready = true;
        true
    }

    // Adds the lot of `about`.
    pub(crate) fn add<X, M: Plain<X, (u64, [Entry; 0]), u64>>(&mut self, about: &X)
        requires ready { self.old.1 ≡ true }
        requires plain { M.state about.now ≡ None }
        ensures added { self.new.0 ≡ self.old.0 ++ M.ask about.now ∷ [] }
        ensures spent { self.new.1 ≡ false }
    {
        let mut offer: Offer<(u64, [Entry; 0]), u64, Law, Nothing> = self
            .seen
            .plain::<Nothing, X, M>(about);
        let _ = self
            .head
            .compare_exchange::<Add, Nothing>(0, 0, &mut self.seen, &mut offer, &mut self.pen);
        swap(&mut self.pen, &mut self.spare);
        self.lots += 1;
        self.ready = false;
    }

    // Whoever has the right to the next lot knows that no other was added: what was seen anywhere is a beginning.
    pub(crate) fn confirm(&mut self, other: &Seen<(u64, [Entry; 0]), u64, Law>)
        requires book { other.now.book ≡ J.book }
        ensures same { self.new ≡ self.old }
        ensures begins { IsPrefix other.now.log self.new.0 }
    {
        let mut both = self.seen.again();
        both.learn(other);
        let mut offer: Offer<(u64, [Entry; 0]), u64, Law, Nothing> = both.plain::<
            Nothing,
            (),
            Reserve,
        >(&());
        let _ = self
            .head
            .compare_exchange::<Confirm, Nothing>(0, 0, &mut both, &mut offer, &mut self.pen);
    }

    // What was added so far.
    pub(crate) fn seen(&self) -> &Seen<(u64, [Entry; 0]), u64, Law>
        ensures { (result.now.book ≡ J.book) × (result.now.log ≡ self.now.0) }
    {
        &self.seen
    }
}

// The right to add the lot with this number, where the head says that there were as many cells. `None` where it says another
// number, or where none comes after it.
fn room(
    head: &Word<(u64, [Entry; 0]), u64, Law>,
    seen: &Seen<(u64, [Entry; 0]), u64, Law>,
    number: u64,
) -> Option<Pen>
    requires head { head.now ≡ head_of seen.now.book }
    ensures { IfSome result (λ pen. (pen.book ≡ seen.now.book) × (pen.nib ≡ next_nib number)) }
{
    if number == u64::MAX {
        return None;
    }
    let mut met = seen.again();
    let mut offer: Offer<(u64, [Entry; 0]), u64, Law, Nothing> = met.plain::<Nothing, (), Reserve>(
        &(),
    );
    let mut pen = met.no_pen();
    let found = head.compare_exchange::<Reserve, Nothing>(
        number,
        number + 1,
        &mut met,
        &mut offer,
        &mut pen,
    );
    if found != number {
        return None;
    }
    let _word: Word<(u64, [Entry; 0]), u64, Law> = Word::tracked(0, &mut pen);
    Some(pen)
}
