//! Workers, who serve what comes through the door.
ghost use Rattle.std.specs.Prelude.{◌≡◌, ◌+◌, ◌^◌, ◌<◌, ◌≤◌, ℕ, length, slice_index_or, All};
ghost use Rattle.std.specs.Thread.{IsSend};
ghost use Rattle.gj_serve.specs.Asking.{TakesLink};
ghost use Rattle.gj_serve.specs.Given.{HasServed};
ghost use Rattle.gj_serve.specs.Passes.{DeskServed, no_tallies};

use crate::desks::Desk;
use crate::door::Door;
use crate::door_book::DoorBook;
use crate::ends::Taken;
use crate::naming::Stating;
use crate::pass::Pass;
use gj_base::{Gate, Grow, Keeper};
use gj_http::Routes;
use gj_log::{Front, Opening};
use gj_publish::{Batch, Copies, Writer};
use gj_session::{Done, serve_session};
use std::alloc::Global;
use std::sync::ledger::Ledger;
use std::sync::{Mutex, Wait};
use std::thread;
use std::thread::Threads;

/// Takes the next connection under the door's lock.
fn take<R: Wait, D: Door, J: Opening, T: Stating, B: Ledger, O: Ledger, E: Ledger>(
    rt: &R,
    door: &Mutex<DoorBook<D, J, T, B, O, E>>,
    pass: &mut Pass<T, B, O, E>,
) -> Taken<D::Link>
    requires { pass.old.overs < 2 ^ 40 }
    ensures { TakesLink D.Link.tells D.Link.stream D.Link.written pass.old pass.new result }
{
    door.lock(rt).take_link(pass)
}

/// Gives a connection back under the door's lock.
fn give<R: Wait, D: Door, J: Opening, T: Stating, B: Ledger, O: Ledger, E: Ledger>(
    rt: &R,
    door: &Mutex<DoorBook<D, J, T, B, O, E>>,
    pass: &mut Pass<T, B, O, E>,
    done: Done<D::Link>,
    seen: Front<J>,
)
    requires served { HasServed D.Link.tells D.Link.stream D.Link.read_faults D.Link.reads D.Link.written D.Link.write_faults J.conf seen done }
    requires some { pass.old.back < pass.old.taken }
    requires few { pass.old.entered + done.entered ≤ 2 ^ 48 }
    ensures { pass.new ≡ record pass.old { back = pass.old.back + 1; entered = pass.old.entered + done.entered } }
{
    door.lock(rt).give_link(pass, done, seen)
}

/// One worker: it takes a connection, serves it and gives it back, until it is told an end.
fn work<
    R: Wait,
    D: Door,
    J: Opening,
    C: Copies<Operation = Batch<J>>,
    K: Keeper + Drop,
    W: Grow + Drop,
    G: Gate,
    T: Stating,
    B: Ledger,
    O: Ledger,
    E: Ledger,
>(
    rt: &R,
    alloc: Global,
    writer: &Mutex<Writer<J, C, K>>,
    desk: &mut Desk<W, J, T, B, O, E>,
    routes: &Routes,
    door: &Mutex<DoorBook<D, J, T, B, O, E>>,
    gate: &G,
)
    requires { desk.old.pass ≡ no_tallies }
    ensures { DeskServed desk.old.seat desk.new.seat desk.new.pass }
{
    let Desk { seat, framer, pass } = desk;
    for _ in rt.forever() {
        match take(rt, door, pass) {
            Taken::Over(_) => return,
            Taken::Link(link) => {
                let done = serve_session(rt, alloc, writer, seat, routes, framer, link, gate);
                give(rt, door, pass, done, seat.front().again());
            }
        }
    }
    unreachable!()
}

/// Serves what comes through the door: one worker for each desk, in a thread of its own where one can be made. It may
/// wait.
pub fn serve_all<
    R: Threads + Wait + Sync,
    D: Door + Send,
    J: Opening + Send + Sync,
    C: Copies<Operation = Batch<J>> + Send,
    K: Keeper + Drop + Send,
    W: Grow + Drop + Send + Sync,
    G: Gate + Sync,
    T: Stating + Send,
    B: Ledger + Send,
    O: Ledger + Send,
    E: Ledger + Send,
>(
    rt: &R,
    alloc: Global,
    writer: &Mutex<Writer<J, C, K>>,
    desks: &mut [Desk<W, J, T, B, O, E>],
    routes: &Routes,
    door: &Mutex<DoorBook<D, J, T, B, O, E>>,
    gate: &G,
)
    requires some { 0 < length desks.old }
    requires all { length desks.old ≡ T.passes }
    requires unused { All (λ d. d.pass ≡ no_tallies) desks.old }
    ensures { (i : ℕ) (d : _) → i < length desks.old
        → DeskServed (slice_index_or desks.old i d).seat (slice_index_or desks.new i d).seat (slice_index_or desks.new i d).pass }
{
    let threads = desks.len();
    thread::for_each_mut(
        rt,
        desks,
        threads,
        &|_, desk: &mut Desk<W, J, T, B, O, E>|
            requires { IsSend D.Link.row × (desk.now.pass ≡ no_tallies) }
        { work(rt, alloc, writer, desk, routes, door, gate) },
    );
}
