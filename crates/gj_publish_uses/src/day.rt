//! One opening, from its keeper to what the keeper keeps at the end.
ghost use Rattle.std.specs.Prelude.{◌≡◌, ◌+◌, ◌≤◌, ◌<◌, ◌^◌, ℕ, false, length, IfOk, IfSome, IsTrue};
ghost use Rattle.gj_base.specs.declared.history.History.{History};
ghost use Rattle.gj_base.specs.History.{Begins, length_of};
ghost use Rattle.gj_keep.specs.Books.{Keeps, told_rows};
ghost use Rattle.gj_keep.specs.Openings.{opening_of};
ghost use Rattle.gj_keep.specs.Rows.{opened};

use crate::locked::{Desk, serve};
use gj_base::{Conf, Graph, Grow, Keeper};
use gj_keep::OpenRefused;
use gj_log::{Naming, Opening};
use gj_publish::{Batch, Copies, Grants, Seat, Writer, open_index};
use std::alloc::Global;
use std::marker::Brand;
use std::sync::{Mutex, Wait};
use std::thread::Threads;

/// What the day left.
#[derive(Drop)]
pub struct Evening<K: Drop> {
    /// The keeper, with all that was accepted.
    pub keeper: K,
    /// The length of the history.
    pub length: u64,
    /// Whether all desks found what they should.
    pub fine: bool,
}

/// Opens an index over the keeper, lets each seat post so many batches and look so often after each in a thread of its
/// own, and gives the keeper back. It then keeps a history of the length that is told, which begins with that of its rows
/// before. The call at `Brand` picks what the opening is named by.
pub fn one_day<
    K: Keeper + Drop + Send,
    W: Grow + Drop + Send + Sync,
    R: Threads + Wait + Copy + Drop + Send + Sync,
>(
    rt: R,
    alloc: Global,
    conf: Conf,
    keeper: K,
    places: u32,
    batches: u64,
    looks: u64,
    grants: &mut Grants,
) -> Result<Evening<K>, OpenRefused<K>>
    requires places { (1 ≤ places) × (places ≤ 16) }
    requires grants { grants.old < 2 ^ 40 }
    ensures keeps { IsTrue (K.kept keeper).tells → IfOk result (λ r. (h : History) × Keeps conf (K.kept r.keeper) h × (r.length ≡ length_of h) × Begins (opened (told_rows (K.kept keeper))) h) }
{
    named_day::<Brand, K, W, R>(
        rt,
        alloc,
        Naming::new(places),
        conf,
        keeper,
        places,
        batches,
        looks,
        grants,
    )
}

// The same under a name.
fn named_day<
    J: Opening + Send + Sync,
    K: Keeper + Drop + Send,
    W: Grow + Drop + Send + Sync,
    R: Threads + Wait + Copy + Drop + Send + Sync,
>(
    rt: R,
    alloc: Global,
    naming: Naming,
    conf: Conf,
    keeper: K,
    places: u32,
    batches: u64,
    looks: u64,
    grants: &mut Grants,
) -> Result<Evening<K>, OpenRefused<K>>
    requires places { (1 ≤ places) × (places ≤ 16) }
    requires grants { grants.old < 2 ^ 40 }
    requires named { (naming.history ≡ J.book) × (naming.blank.name ≡ J.name) × (naming.blank.parts ≡ J.parts) }
    requires parts { (places ≡ J.places) × (places ≡ J.parts) }
    requires conf { conf ≡ J.conf }
    requires opening { J.opening ≡ opening_of (K.kept keeper) }
    ensures keeps { IsTrue (K.kept keeper).tells → IfOk result (λ r. (h : History) × Keeps conf (K.kept r.keeper) h × (r.length ≡ length_of h) × Begins (opened (told_rows (K.kept keeper))) h) }
{
    not_bare(&keeper);
    let (writer, seats) = open_index::<J, K, W, R>(
        rt, alloc, naming, conf, keeper, places, grants,
    )?;
    Ok(held(&rt, alloc, writer, seats, batches, looks))
}

// A keeper that tells its rows is not bare. For proofs alone.
fn not_bare<K: Keeper>(_keeper: &K)
    ensures { IsTrue (K.kept _keeper.now).tells → (K.kept _keeper.now).bare ≡ false }
{}

// The writer goes under a lock, and comes out of it. With the seats back, what they posted is all that is new.
fn held<
    J: Opening + Send + Sync,
    C: Copies<Operation = Batch<J>> + Send,
    K: Keeper + Drop + Send,
    W: Grow + Drop + Send + Sync,
    R: Threads + Wait + Sync,
>(
    rt: &R,
    alloc: Global,
    writer: Writer<J, C, K>,
    seats: Vec<Seat<W, J>>,
    batches: u64,
    looks: u64,
) -> Evening<K>
    requires all { length seats.items ≡ J.parts }
    requires some { 0 < length seats.items }
    ensures { (h : History) × Keeps J.conf (K.kept result.keeper) h × (result.length ≡ length_of h) × IfSome J.opening (λ o. Begins o h) }
{
    let writer = Mutex::new(writer);
    let (seats, fine) = worked(rt, alloc, &writer, seats, batches, looks);
    let mut writer = writer.into_inner();
    let length = added(&mut writer, seats);
    let _ = writer.start();
    Evening {
        keeper: writer.into_keeper(),
        length,
        fine,
    }
}

// The length at opening and what the seats posted since, where they are back.
fn added<J: Opening, C: Copies<Operation = Batch<J>>, K: Keeper + Drop, W: Grow + Drop>(
    writer: &mut Writer<J, C, K>,
    seats: Option<Vec<Seat<W, J>>>,
) -> u64
    requires all { IfSome seats (λ back. (length back.items ≡ J.parts) × (0 < length back.items)) }
    ensures exact { result ≡ length_of writer.old.accepted }
    ensures same { writer.new ≡ writer.old }
{
    let length = writer.length();
    match seats {
        Some(seats) => writer.start() + writer.settle(seats),
        None => length,
    }
}

// Each seat gets a desk, and comes back from it; with them, whether all desks found what they should. `None` is want of
// memory.
fn worked<
    J: Opening + Send + Sync,
    C: Copies<Operation = Batch<J>> + Send,
    K: Keeper + Drop + Send,
    W: Grow + Drop + Send + Sync,
    R: Threads + Wait + Sync,
>(
    rt: &R,
    alloc: Global,
    writer: &Mutex<Writer<J, C, K>>,
    seats: Vec<Seat<W, J>>,
    batches: u64,
    looks: u64,
) -> (Option<Vec<Seat<W, J>>>, bool)
    requires { 0 < length seats.items }
    ensures { IfSome result.0 (λ back. length back.items ≡ length seats.items) }
{
    let mut seats = seats;
    let mut desks = Vec::new(alloc);
    while let Some(seat) = seats.pop() {
        let desk = Desk {
            seat,
            batches,
            looks,
            fine: true,
            alloc,
        };
        if desks.push(desk).is_err() {
            return (None, false);
        }
    }
    serve(rt, writer, desks.as_mut_slice());
    let mut all_fine = true;
    while let Some(desk) = desks.pop() {
        let Desk {
            seat,
            batches: _,
            looks: _,
            fine,
            alloc: _,
        } = desk;
        if !fine {
            all_fine = false;
        }
        if seats.push(seat).is_err() {
            return (None, false);
        }
    }
    (Some(seats), all_fine)
}
