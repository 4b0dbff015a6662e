//! Two workers over a door in memory, from the opening of an index to what is left of it.
ghost use Rattle.std.specs.Prelude.{◌≡◌, ◌+◌, ◌<◌, ◌≤◌, ◌^◌, [], false, Some, All, IfSome, sum_by, vec_len};
ghost use Rattle.gj_base.specs.History.{empty_history};
ghost use Rattle.gj_serve.specs.MemoryDoors.{handed_by, back_at, nones_of, entered_by, given_to, faults_at};
ghost use Rattle.gj_serve.specs.Passes.{no_tallies};

use gj_base::{Conf, Gate, ListGraph, MemoryLink};
use gj_http::{Framer, Routes};
use gj_keep::{NoKeeper, OpenRefused};
use gj_log::{Naming, Opening};
use gj_publish::{Batch, Copies, Grants, Seat, Writer, open_index};
use gj_serve::{Desk, DoorBook, MemoryDoor, Pass, Served, Stating, Tickets, open_door, serve_all};
use gj_session::Done;
use std::alloc::Global;
use std::marker::Brand;
use std::sync::ledger::Ledger;
use std::sync::{Mutex, Wait};
use std::thread::Threads;

/// What two workers left.
#[derive(Drop)]
pub(crate) struct Left {
    /// The links that came back, in the order of their return.
    pub back: Vec<Done<MemoryLink>>,
    /// What their passes add up to.
    pub served: Served,
    /// The length at opening, and what both seats posted since.
    pub settled: u64,
    /// The length of the history.
    pub length: u64,
}

/// A desk for each seat and pass.
fn set_up<J: Opening, T: Stating, B: Ledger, O: Ledger, E: Ledger>(
    alloc: Global,
    mut seats: Vec<Seat<ListGraph, J>>,
    mut passes: Vec<Pass<T, B, O, E>>,
) -> Option<Vec<Desk<ListGraph, J, T, B, O, E>>>
    requires same { vec_len passes ≡ vec_len seats }
    requires unused { All (λ p. p ≡ no_tallies) passes.items }
    ensures all { IfSome result (λ desks. vec_len desks ≡ vec_len seats) }
    ensures unused { IfSome result (λ desks. All (λ d. d.pass ≡ no_tallies) desks.items) }
{
    let mut desks = Vec::with_capacity(alloc, seats.len()).ok()?;
    while let Some(seat) = seats.pop() {
        let pass = passes.pop().unwrap();
        let framer = Framer::new(alloc).ok()?;
        desks.push_reserved(Desk { seat, framer, pass });
    }
    Some(desks)
}

/// The seats and the passes of desks whose workers have ended.
#[derive(Drop)]
struct Cleared<J: Opening, T: Stating, B: Ledger, O: Ledger, E: Ledger> {
    seats: Vec<Seat<ListGraph, J>>,
    passes: Vec<Pass<T, B, O, E>>,
}

/// Takes the desks apart.
fn clear<J: Opening, T: Stating, B: Ledger, O: Ledger, E: Ledger>(
    alloc: Global,
    mut desks: Vec<Desk<ListGraph, J, T, B, O, E>>,
) -> Option<Cleared<J, T, B, O, E>>
    requires some { 0 < vec_len desks }
    requires told { All (λ d. 0 < d.pass.overs) desks.items }
    ensures seats { IfSome result (λ c. vec_len c.seats ≡ vec_len desks) }
    ensures passes { IfSome result (λ c. vec_len c.passes ≡ vec_len desks) }
    ensures told { IfSome result (λ c. 0 < sum_by (λ p. p.overs) c.passes.items) }
{
    let mut seats = Vec::with_capacity(alloc, desks.len()).ok()?;
    let mut passes = Vec::with_capacity(alloc, desks.len()).ok()?;
    while let Some(desk) = desks.pop() {
        let Desk {
            seat,
            framer: _,
            pass,
        } = desk;
        passes.push_reserved(pass);
        seats.push_reserved(seat);
    }
    Some(Cleared { seats, passes })
}

/// Serves what comes through the door by these desks, and settles.
fn served_by<
    J: Opening + Send + Sync,
    C: Copies<Operation = Batch<J>> + Send,
    R: Threads + Wait + Sync,
    G: Gate + Sync,
    T: Stating + Send,
    B: Ledger + Send,
    O: Ledger + Send,
    E: Ledger + Send,
>(
    rt: &R,
    alloc: Global,
    writer: Writer<J, C, NoKeeper>,
    mut desks: Vec<Desk<ListGraph, J, T, B, O, E>>,
    routes: &Routes,
    book: DoorBook<MemoryDoor, J, T, B, O, E>,
    gate: &G,
) -> Option<Left>
    requires named { (T.passes ≡ T.parts) × (T.passes ≡ B.parts) × (T.passes ≡ O.parts) × (T.passes ≡ E.parts) }
    requires all { (vec_len desks ≡ T.passes) × (vec_len desks ≡ J.parts) }
    requires some { (0 < T.passes) × (T.passes ≤ 16) }
    requires unused { All (λ d. d.pass ≡ no_tallies) desks.items }
{
    let writer = Mutex::new(writer);
    let book = Mutex::new(book);
    serve_all(
        rt,
        alloc,
        &writer,
        desks.as_mut_slice(),
        routes,
        &book,
        gate,
    );
    let cleared = clear(alloc, desks);
    let mut writer = writer.into_inner();
    let mut book = book.into_inner();
    let length = writer.length();
    match cleared {
        None => {
            let _left = book.into_door();
            None
        }
        Some(Cleared { seats, passes }) => {
            let served = book.settle(passes);
            let settled = writer.start() + writer.settle(seats);
            Some(Left {
                back: book.into_door().0.into_back(),
                served,
                settled,
                length,
            })
        }
    }
}

/// The same for two seats and a door that is opened for two links.
fn over_door<
    J: Opening + Send + Sync,
    C: Copies<Operation = Batch<J>> + Send,
    R: Threads + Wait + Sync,
    G: Gate + Sync,
    T: Stating + Send,
    B: Ledger + Send,
    O: Ledger + Send,
    E: Ledger + Send,
>(
    rt: &R,
    alloc: Global,
    writer: Writer<J, C, NoKeeper>,
    seats: Vec<Seat<ListGraph, J>>,
    door: MemoryDoor,
    tickets: Tickets,
    gate: &G,
) -> Option<Left>
    requires seats { (vec_len seats ≡ 2) × (2 ≡ J.parts) }
    requires fresh { (handed_by door ≡ 0) × (back_at door ≡ 0) × (nones_of door ≡ 0) × (entered_by door ≡ 0) × (given_to door ≡ []) }
    requires names { (tickets.taken.name ≡ T.name) × (tickets.out.name ≡ B.name) × (tickets.overs.name ≡ O.name) × (tickets.entered.name ≡ E.name) }
    requires parts { (tickets.taken.parts ≡ T.parts) × (tickets.out.parts ≡ B.parts) × (tickets.overs.parts ≡ O.parts) × (tickets.entered.parts ≡ E.parts) }
    requires all { (2 ≡ T.parts) × (2 ≡ B.parts) × (2 ≡ O.parts) × (2 ≡ E.parts) }
    requires stated { (2 ≡ T.stated) × (2 ≡ T.passes) }
    requires opening { faults_at door ≡ T.opening }
    requires steady { T.steady ≡ false }
{
    let routes = Routes::new(alloc).ok()?;
    let front = seats[0].front().again();
    match open_door::<MemoryDoor, J, T, B, O, E>(alloc, door, front, tickets, 2, 2) {
        Err(_refused) => None,
        Ok((book, passes)) => match set_up(alloc, seats, passes) {
            None => {
                let _left = book.into_door();
                None
            }
            Some(desks) => served_by(rt, alloc, writer, desks, &routes, book, gate),
        },
    }
}

/// The same under the names of the passes.
fn by_seats<
    J: Opening + Send + Sync,
    C: Copies<Operation = Batch<J>> + Send,
    R: Threads + Wait + Sync,
    G: Gate + Sync,
>(
    rt: &R,
    alloc: Global,
    writer: Writer<J, C, NoKeeper>,
    seats: Vec<Seat<ListGraph, J>>,
    door: MemoryDoor,
    gate: &G,
) -> Option<Left>
    requires seats { (vec_len seats ≡ 2) × (2 ≡ J.parts) }
    requires fresh { (handed_by door ≡ 0) × (back_at door ≡ 0) × (nones_of door ≡ 0) × (entered_by door ≡ 0) × (given_to door ≡ []) }
{
    over_door::<J, C, R, G, Brand, Brand, Brand, Brand>(
        rt,
        alloc,
        writer,
        seats,
        door,
        Tickets::new(2),
        gate,
    )
}

/// The same over an index that is opened for two seats.
fn over_index<
    J: Opening + Send + Sync,
    R: Threads + Wait + Copy + Drop + Send + Sync,
    G: Gate + Sync,
>(
    rt: R,
    alloc: Global,
    naming: Naming,
    conf: Conf,
    door: MemoryDoor,
    gate: &G,
    grants: &mut Grants,
) -> Option<Left>
    requires grants { grants.old < 2 ^ 40 }
    requires named { (naming.history ≡ J.book) × (naming.blank.name ≡ J.name) × (naming.blank.parts ≡ J.parts) }
    requires parts { (2 ≡ J.places) × (2 ≡ J.parts) }
    requires conf { conf ≡ J.conf }
    requires opening { J.opening ≡ Some (empty_history 0) }
    requires fresh { (handed_by door ≡ 0) × (back_at door ≡ 0) × (nones_of door ≡ 0) × (entered_by door ≡ 0) × (given_to door ≡ []) }
{
    let opened = open_index::<J, NoKeeper, ListGraph, R>(
        rt, alloc, naming, conf, NoKeeper, 2, grants,
    );
    match opened {
        Ok((writer, seats)) => by_seats(&rt, alloc, writer, seats, door, gate),
        Err(_refused) => None,
    }
}

/// Serves what comes through the door by two workers over a new index. `None` is want of memory.
pub(crate) fn two_workers<R: Threads + Wait + Copy + Drop + Send + Sync, G: Gate + Sync>(
    rt: R,
    alloc: Global,
    door: MemoryDoor,
    gate: &G,
) -> Option<Left>
    requires fresh { (handed_by door ≡ 0) × (back_at door ≡ 0) × (nones_of door ≡ 0) × (entered_by door ≡ 0) × (given_to door ≡ []) }
{
    let conf = Conf::make(16, 2)?;
    let mut grants = Grants::new();
    over_index::<Brand, R, G>(rt, alloc, Naming::new(2), conf, door, gate, &mut grants)
}
