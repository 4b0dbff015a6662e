//! What the workers need, made before them.
ghost use Rattle.std.specs.Prelude.{◌≡◌, ◌+◌, ◌<◌, ◌≤◌, ◌^◌, [], All, IsTrue, vec_len, vec_capacity, IfOk, IfErr, IfSome};
ghost use Rattle.gj_serve.specs.Passes.{no_tallies};
ghost use Rattle.gj_service.specs.Desks.{IsFreshDesk};

use gj_base::Grow;
use gj_http::Framer;
use gj_log::Opening;
use gj_publish::Seat;
use gj_serve::{Desk, Door, DoorBook, NoDoor, Pass, Stating, Tickets, open_door};
use std::alloc::Global;
use std::sync::ledger::Ledger;

/// The door's book, the desks, and lists with room for their passes and seats.
pub(crate) struct Prepared<
    D: Door,
    W: Grow + Drop,
    J: Opening,
    T: Stating,
    B: Ledger,
    O: Ledger,
    E: Ledger,
> {
    pub book: DoorBook<D, J, T, B, O, E>,
    pub desks: Vec<Desk<W, J, T, B, O, E>>,
    pub passes: Vec<Pass<T, B, O, E>>,
    pub seats: Vec<Seat<W, J>>,
}

/// So many framers.
fn framers_for(alloc: Global, count: usize) -> Option<Vec<Framer>>
    ensures { IfSome result (λ framers. vec_len framers ≡ count) }
{
    let mut framers = Vec::with_capacity(alloc, count).ok()?;
    for _ in 0..count {
        framers.push_reserved(Framer::new(alloc).ok()?);
    }
    Some(framers)
}

/// A desk for each pass, with a seat and a framer.
fn set_up<W: Grow + Drop, J: Opening, T: Stating, B: Ledger, O: Ledger, E: Ledger>(
    mut desks: Vec<Desk<W, J, T, B, O, E>>,
    mut seats: Vec<Seat<W, J>>,
    mut passes: Vec<Pass<T, B, O, E>>,
    mut framers: Vec<Framer>,
) -> Vec<Desk<W, J, T, B, O, E>>
    requires none { vec_len desks ≡ 0 }
    requires room { vec_len seats ≤ vec_capacity desks }
    requires same { (vec_len passes ≡ vec_len seats) × (vec_len framers ≡ vec_len seats) }
    requires seats { All (λ s. s.posted ≡ 0) seats.items }
    requires passes { All (λ p. p ≡ no_tallies) passes.items }
    ensures len { vec_len result ≡ vec_len seats }
    ensures fresh { All (λ d. IsFreshDesk d.seat.posted d.pass) result.items }
{
    while let Some(seat) = seats.pop() {
        let pass = passes.pop().unwrap();
        let framer = framers.pop().unwrap();
        desks.push_reserved(Desk { seat, framer, pass });
    }
    desks
}

/// The door's book, the desks and the lists. It takes all memory that follows the number of workers.
pub(crate) fn prepare<
    D: Door,
    W: Grow + Drop,
    J: Opening,
    T: Stating,
    B: Ledger,
    O: Ledger,
    E: Ledger,
>(
    alloc: Global,
    door: D,
    tickets: Tickets,
    sessions: u64,
    seats: Vec<Seat<W, J>>,
) -> Result<Prepared<D, W, J, T, B, O, E>, NoDoor<D>>
    requires fresh { (D.handed door ≡ 0) × (D.back door ≡ 0) × (D.nones door ≡ 0) × (D.entered door ≡ 0) × (D.given door ≡ []) }
    requires sessions { (1 ≤ sessions) × (sessions ≤ 1000000000) }
    requires seats { (1 ≤ vec_len seats) × (vec_len seats ≤ 16) }
    requires names { (tickets.taken.name ≡ T.name) × (tickets.out.name ≡ B.name) × (tickets.overs.name ≡ O.name) × (tickets.entered.name ≡ E.name) }
    requires parts { (tickets.taken.parts ≡ T.parts) × (tickets.out.parts ≡ B.parts) × (tickets.overs.parts ≡ O.parts) × (tickets.entered.parts ≡ E.parts) }
    requires all { (vec_len seats ≡ T.parts) × (vec_len seats ≡ B.parts) × (vec_len seats ≡ O.parts) × (vec_len seats ≡ E.parts) }
    requires stated { sessions ≡ T.stated }
    requires opening { D.faults door ≡ T.opening }
    requires steady { IsTrue T.steady → IsTrue (D.steady door) }
    requires unused { All (λ s. s.posted ≡ 0) seats.items }
    ensures desks { IfOk result (λ p. vec_len p.desks ≡ vec_len seats) }
    ensures unused { IfOk result (λ p. All (λ d. IsFreshDesk d.seat.posted d.pass) p.desks.items) }
    ensures none { IfOk result (λ p. (vec_len p.passes ≡ 0) × (vec_len p.seats ≡ 0)) }
    ensures room { IfOk result (λ p. (vec_len seats ≤ vec_capacity p.passes) × (vec_len seats ≤ vec_capacity p.seats)) }
    ensures book { IfOk result (λ p. p.book.door ≡ door) }
    ensures door { IfErr result (λ r. r.door ≡ door) }
{
    let count = seats.len();
    let Some(framers) = framers_for(alloc, count) else {
        return Err(NoDoor { door });
    };
    let Ok(desks) = Vec::with_capacity(alloc, count) else {
        return Err(NoDoor { door });
    };
    let Ok(spare_passes) = Vec::with_capacity(alloc, count) else {
        return Err(NoDoor { door });
    };
    let Ok(spare_seats) = Vec::with_capacity(alloc, count) else {
        return Err(NoDoor { door });
    };
    let front = seats[0].front().again();
    match open_door(alloc, door, front, tickets, sessions, count as u32) {
        Err(refused) => Err(refused),
        Ok((book, passes)) => Ok(Prepared {
            book,
            desks: set_up(desks, seats, passes, framers),
            passes: spare_passes,
            seats: spare_seats,
        }),
    }
}
