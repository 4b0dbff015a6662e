//! Opening an index.
ghost use Rattle.std.specs.Prelude.{◌≡◌, ◌≢◌, ◌⊎◌, ◌+◌, ◌<◌, ◌≤◌, ◌^◌, [], ◌∷◌, ℕ, List, false, length, replicate, slice_index_or, IfOk, IfErr, OnOk, IsTrue, MatchResult, None, Some};
ghost use Rattle.left_right.specs.Handles.{published, pending};
ghost use Rattle.gj_base.specs.declared.history.History.{History};
ghost use Rattle.gj_base.specs.declared.keeper.KeptConf.{KeptConf};
ghost use Rattle.gj_base.specs.declared.keeper.KeptItem.{KeptItem};
ghost use Rattle.gj_base.specs.Causes.{Rose};
ghost use Rattle.gj_base.specs.History.{StandsFor, conf_of, empty_history, length_of};
ghost use Rattle.gj_keep.specs.declared.opening.OpenError.TheVariants.{Memory, Store, ConfDiffers, KeptRow, Place};
ghost use Rattle.gj_keep.specs.Books.{Keeps, asked, suits, told_rows};
ghost use Rattle.gj_keep.specs.Openings.{IsBadRow, IsLeft, IsPrepared, MayRefuse, due, faults_at, opening_of};
ghost use Rattle.gj_keep.specs.Rows.{opened};
ghost use Rattle.gj_once.specs.Judging.{nothing_noted};
ghost use Rattle.gj_publish.specs.Seats.{no_numbers};
ghost use Rattle.gj_publish.specs.Writers.{Resumes};

use crate::batch::Batch;
use crate::counted::Counted;
use crate::grants::Grants;
use crate::pane::{Pane, first_pane};
use crate::seat::Seat;
use crate::writer::Writer;
use gj_base::{Conf, Graph, Grow, Keeper, KeptItem};
use gj_keep::{Book, OpenError, OpenRefused};
use gj_log::{BlankBook, Front, Naming, Opening, Scribe};
use gj_once::Once;
use left_right::WriteHandle;
use std::alloc::Global;
use std::snapshot::Snapshot;
use std::sync::Wait;
use std::sync::ledger::{Book as Ledger, Share};

/// The writer of an opening over graphs `W` and a keeper `K`.
pub type GraphWriter<J, K, W, R> = Writer<J, WriteHandle<Pane<W, J>, Batch<J>, R>, K>;

// A reader's place for each seat.
fn seated<J: Opening, W: Grow + Drop, R: Wait + Drop>(
    alloc: Global,
    copies: &WriteHandle<Pane<W, J>, Batch<J>, R>,
    front: &Front<J>,
    share: Share<J>,
    places: u32,
    grants: &mut Grants,
) -> Result<Vec<Seat<W, J>>, OpenError>
    requires places { (1 ≤ places) × (places ≤ 16) × (places ≤ J.places) }
    requires share { (share.parts ≡ places) × (share.amount ≡ 0) }
    requires grants { grants.old < 2 ^ 40 }
    ensures all { IfOk result (λ seats. length seats.items ≡ places) }
    ensures each { IfOk result (λ seats. (i : ℕ) (d : _) → i < places → slice_index_or seats.items i d ≡ record { number = i + 1; front = front.now; posted = 0; numbers = no_numbers }) }
    ensures same { IfOk result (λ _. grants.new ≡ grants.old) }
    ensures err { IfErr result (λ why. (why ≡ Memory) ⊎ (why ≡ Place)) }
    ensures place { IfErr result (λ why. why ≡ Place → grants.new ≡ grants.old + 1) }
    ensures others { IfErr result (λ why. why ≢ Place → grants.new ≡ grants.old) }
    ensures later { grants.old ≤ grants.new }
{
    let Ok(mut seats) = Vec::with_capacity(alloc, places as usize) else {
        return Err(OpenError::Memory);
    };
    let mut share = share;
    for number in 1..places + 1 {
        let part = share.split_off(1, 0);
        let Ok(reader) = copies.handle() else {
            grants.raise();
            return Err(OpenError::Place);
        };
        if seats
            .push(Seat::new(number, front.again(), reader, part))
            .is_err()
        {
            return Err(OpenError::Memory);
        }
    }
    Ok(seats)
}

// The history of an opening, under its log, of which no seat posted anything and no batch is noted.
#[derive(Drop)]
struct Begun<J: Opening> {
    scribe: Scribe<J>,
    counted: Counted,
    once: Once,
}

// The history of the rows.
fn begun_with<J: Opening>(
    alloc: Global,
    book: BlankBook,
    rows: &Snapshot<Vec<KeptItem>>,
    until: u64,
    places: u32,
) -> Result<Begun<J>, OpenError>
    requires book { book ≡ J.book }
    requires until { (until ≡ length_of (opened rows.now.value.items)) × (until ≤ 2 ^ 48) }
    ensures scribe { IfOk result (λ b. b.scribe ≡ record { opening = opened rows.now.value.items; history = opened rows.now.value.items; ready = false }) }
    ensures counted { IfOk result (λ b. b.counted ≡ replicate places 0) }
    ensures once { IfOk result (λ b. b.once ≡ nothing_noted) }
    ensures err { IfErr result (λ why. why ≡ Memory) }
{
    let Some(scribe) = Scribe::<J>::begin(book, rows, until) else {
        return Err(OpenError::Memory);
    };
    let Some(counted) = Counted::zeros(alloc, places) else {
        return Err(OpenError::Memory);
    };
    let Ok(once) = Once::new(alloc) else {
        return Err(OpenError::Memory);
    };
    Ok(Begun {
        scribe,
        counted,
        once,
    })
}

// The copies, of two graphs that both stand for the front.
fn copies_of<J: Opening, W: Grow + Drop, R: Wait + Drop>(
    rt: R,
    alloc: Global,
    front: &Front<J>,
    first: W,
    second: W,
    places: u32,
) -> Result<WriteHandle<Pane<W, J>, Batch<J>, R>, OpenError>
    requires places { (1 ≤ places) × (places ≤ 16) }
    requires graphs { StandsFor (W.shown first) front.now × StandsFor (W.shown second) front.now }
    requires conf { (conf_of (W.shown first) ≡ J.conf) × (conf_of (W.shown second) ≡ J.conf) }
    ensures ok { IfOk result (λ copies. (pending copies ≡ []) × (published copies ≡ front.now)) }
    ensures err { IfErr result (λ why. why ≡ Memory) }
{
    let first = first_pane(first, front.again());
    let second = first_pane(second, front.again());
    match WriteHandle::new(alloc, rt, first, second, places as usize) {
        Ok(copies) => Ok(copies),
        Err(_) => Err(OpenError::Memory),
    }
}

// What an opening is made of.
struct Parts<J: Opening, W: Grow + Drop, C> {
    begun: Begun<J>,
    copies: C,
    ledger: Ledger<J>,
    seats: Vec<Seat<W, J>>,
}

// All that an opening makes but the writer: the copies show the history of the rows, and each seat has seen it.
fn parts_of<J: Opening, W: Grow + Drop, R: Wait + Drop>(
    rt: R,
    alloc: Global,
    naming: Naming,
    rows: &Snapshot<Vec<KeptItem>>,
    until: u64,
    first: W,
    second: W,
    places: u32,
    grants: &mut Grants,
) -> Result<Parts<J, W, WriteHandle<Pane<W, J>, Batch<J>, R>>, OpenError>
    requires places { (1 ≤ places) × (places ≤ 16) × (places ≡ J.places) × (places ≡ J.parts) }
    requires naming { (naming.history ≡ J.book) × (naming.blank.name ≡ J.name) × (naming.blank.parts ≡ J.parts) }
    requires until { (until ≡ length_of (opened rows.now.value.items)) × (until ≤ 2 ^ 48) }
    requires graphs { StandsFor (W.shown first) (opened rows.now.value.items) × StandsFor (W.shown second) (opened rows.now.value.items) }
    requires conf { (conf_of (W.shown first) ≡ J.conf) × (conf_of (W.shown second) ≡ J.conf) }
    requires grants { grants.old < 2 ^ 40 }
    ensures copies { IfOk result (λ r. (pending r.copies ≡ []) × (published r.copies ≡ opened rows.now.value.items)) }
    ensures scribe { IfOk result (λ r. r.begun.scribe ≡ record { opening = opened rows.now.value.items; history = opened rows.now.value.items; ready = false }) }
    ensures ledger { IfOk result (λ r. (r.ledger.total ≡ 0) × (r.begun.counted ≡ replicate places 0)) }
    ensures once { IfOk result (λ r. r.begun.once ≡ nothing_noted) }
    ensures all { IfOk result (λ r. length r.seats.items ≡ places) }
    ensures each { IfOk result (λ r. (i : ℕ) (d : _) → i < places → slice_index_or r.seats.items i d ≡ record { number = i + 1; front = opened rows.now.value.items; posted = 0; numbers = no_numbers }) }
    ensures same { IfOk result (λ _. grants.new ≡ grants.old) }
    ensures err { IfErr result (λ why. (why ≡ Memory) ⊎ (why ≡ Place)) }
    ensures place { IfErr result (λ why. why ≡ Place → grants.new ≡ grants.old + 1) }
    ensures others { IfErr result (λ why. why ≢ Place → grants.new ≡ grants.old) }
    ensures later { grants.old ≤ grants.new }
{
    let Naming { blank, history } = naming;
    let begun = begun_with::<J>(alloc, history, rows, until, places)?;
    let front = begun.scribe.front();
    let copies = copies_of::<J, W, R>(rt, alloc, &front, first, second, places)?;
    let (ledger, share) = blank.open::<J>();
    let seats = seated(alloc, &copies, &front, share, places, grants)?;
    Ok(Parts {
        begun,
        copies,
        ledger,
        seats,
    })
}

// The two graphs of a list of two.
fn pair_of<W: Drop>(mut graphs: Vec<W>) -> (W, W)
    requires { length graphs.items ≡ 2 }
    ensures { graphs.items ≡ result.0 ∷ result.1 ∷ [] }
{
    let second = graphs.pop().unwrap();
    let first = graphs.pop().unwrap();
    (first, second)
}

/// Opens an index over a keeper: the writer, and its seats with the numbers 1 to `places`. The caller is generic over
/// the opening `J`, and is called at `Brand`, with the members that the first clauses name. It takes all memory of both
/// copies.
pub fn open_index<J: Opening, K: Keeper + Drop, W: Grow + Drop, R: Wait + Drop>(
    rt: R,
    alloc: Global,
    naming: Naming,
    conf: Conf,
    keeper: K,
    places: u32,
    grants: &mut Grants,
) -> Result<(GraphWriter<J, K, W, R>, Vec<Seat<W, J>>), OpenRefused<K>>
    requires places { (1 ≤ places) × (places ≤ 16) }
    requires grants { grants.old < 2 ^ 40 }

    // The opening is named by what it is opened over.
    requires named { (naming.history ≡ J.book) × (naming.blank.name ≡ J.name) × (naming.blank.parts ≡ J.parts) }
    requires parts { (places ≡ J.places) × (places ≡ J.parts) }
    requires conf { conf ≡ J.conf }
    requires opening { J.opening ≡ opening_of (K.kept keeper) }

    // Ok: the history is that of the rows that were read, all of it is published, nothing is noted, and each seat has seen it.
    ensures rows { IfOk result (λ r. (rows : List KeptItem) × (r.0.accepted ≡ opened rows)) }
    ensures told { IsTrue (K.kept keeper).tells → IfOk result (λ r. r.0.accepted ≡ opened (told_rows (K.kept keeper))) }
    ensures bare { IsTrue (K.kept keeper).bare → IfOk result (λ r. r.0.accepted ≡ empty_history 0) }
    ensures published { IfOk result (λ r. (r.0.published ≡ r.0.accepted) × (r.0.start ≡ length_of r.0.accepted)) }
    ensures noted { IfOk result (λ r. r.0.noted ≡ nothing_noted) }
    ensures all { IfOk result (λ r. length r.1.items ≡ places) }
    ensures each { IfOk result (λ r. (i : ℕ) (d : _) → i < places → slice_index_or r.1.items i d ≡ record { number = i + 1; front = r.0.accepted; posted = 0; numbers = no_numbers }) }
    ensures kept { IfOk result (λ r. IsPrepared conf (K.kept keeper) r.0.kept) }

    // `Place` comes where the number of grants rose, and nowhere else. Every other refusal is one of opening a book.
    ensures place { IfErr result (λ r. r.why ≡ Place → grants.new ≡ grants.old + 1) }
    ensures granted { MatchResult result (λ _. grants.new ≡ grants.old) (λ r. r.why ≢ Place → grants.new ≡ grants.old) }
    ensures ok { IsTrue (K.kept keeper).tells → OnOk result (due conf (K.kept keeper) ≡ None) }
    ensures refused { IsTrue (K.kept keeper).tells → IfErr result (λ r. r.why ≢ Place → MayRefuse (due conf (K.kept keeper)) r.why) }
    ensures bare_refused { IsTrue (K.kept keeper).bare → IfErr result (λ r. r.why ≢ Place → MayRefuse None r.why) }
    ensures count { MatchResult result (λ r. r.0.faults ≡ K.faults keeper) (λ r. K.faults r.keeper ≡ faults_at r.why (K.faults keeper)) }
    ensures steady { IsTrue (K.steady keeper) → MatchResult result (λ r. IsTrue r.0.steady) (λ r. (r.why ≡ Store → ⊥) × IsTrue (K.steady r.keeper)) }
    ensures cause { IfErr result (λ r. (K.faults keeper ≤ K.faults r.keeper) × (r.why ≡ Store → Rose (K.faults keeper) (K.faults r.keeper))) }

    // What a refusal leaves: the keeper, as it was or prepared.
    ensures err { IfErr result (λ r. IsLeft conf (K.kept keeper) (K.kept r.keeper)) }
    ensures differs { IfErr result (λ r. (old now : KeptConf) → r.why ≡ ConfDiffers old now
        → (suits conf (Some old) ≡ false) × (now ≡ asked conf) × (K.kept r.keeper ≡ K.kept keeper)) }
    ensures bad { IfErr result (λ r. (row : ℕ) → r.why ≡ KeptRow row → IsBadRow conf row) }

    // A history that the keeper keeps, whatever call failed last before, is resumed, or still kept.
    ensures again { (h : History) → IsTrue (K.kept keeper).tells → Keeps conf (K.kept keeper) h → IfOk result (λ r. Resumes conf r.0.accepted h) }
    ensures again_err { (h : History) → IsTrue (K.kept keeper).tells → Keeps conf (K.kept keeper) h → IfErr result (λ r. Keeps conf (K.kept r.keeper) h × (r.why ≢ Place → MayRefuse None r.why)) }
    ensures later { grants.old ≤ grants.new }
{
    let (book, graphs, rows) = Book::<K>::open_book::<W>(alloc, conf, keeper, 2)?;
    let (first, second) = pair_of(graphs);
    match parts_of::<J, W, R>(
        rt,
        alloc,
        naming,
        &rows,
        book.length(),
        first,
        second,
        places,
        grants,
    ) {
        Ok(parts) => {
            let Parts {
                begun,
                copies,
                ledger,
                seats,
            } = parts;
            let Begun {
                scribe,
                counted,
                once,
            } = begun;
            Ok((
                Writer::new(alloc, copies, scribe, ledger, book, counted, once, &rows),
                seats,
            ))
        }
        Err(why) => Err(OpenRefused {
            keeper: book.into_keeper(),
            why,
        }),
    }
}
