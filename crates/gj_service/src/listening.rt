//! Serving, from the open door to the last line.
ghost use Rattle.std.specs.Prelude.{◌≡◌, ◌≢◌, ◌+◌, ◌<◌, ◌≤◌, [], All, IsTrue, vec_len};
ghost use Rattle.gj_base.specs.History.{length_of};
ghost use Rattle.gj_base.specs.Streams.{outgoing};
ghost use Rattle.gj_serve.specs.Given.{AreServed};
ghost use Rattle.gj_service.specs.Services.{IsPlan, Told, door_at};
ghost use Rattle.gj_service.specs.declared.end.ServiceEnd.TheVariants as ends;

use crate::closing::{Rest, serve_desks};
use crate::end::ServiceEnd;
use crate::lines::{send_end, send_ready};
use crate::plan::Plan;
use crate::prepared::{Prepared, prepare};
use gj_base::{Failed, Grow, Keeper, Sink};
use gj_http::Routes;
use gj_log::Opening;
use gj_publish::{Batch, Copies, Seat, Writer};
use gj_serve::{Door, NoDoor, Stating, Tickets};
use std::alloc::Global;
use std::sync::Wait;
use std::sync::ledger::Ledger;
use std::thread::Threads;

/// How serving ended, with the door and the writer.
pub struct Listened<D, J: Opening, C: Copies<Operation = Batch<J>>, K: Keeper + Drop> {
    pub end: ServiceEnd,
    pub door: D,
    pub writer: Writer<J, C, K>,
}

/// Serves so many connections of a door that is open, and writes the two lines. All memory that follows the number of
/// workers is taken before the first line. It may wait.
pub fn serve_listening<
    R: Threads + Wait + Sync,
    D: Door + Send,
    J: Opening + Send + Sync,
    C: Copies<Operation = Batch<J>> + Send,
    K: Keeper + Drop + Send,
    W: Grow + Drop + Send + Sync,
    X: Sink,
    T: Stating + Send,
    B: Ledger + Send,
    O: Ledger + Send,
    E: Ledger + Send,
>(
    rt: &R,
    alloc: Global,
    plan: Plan,
    door: D,
    tickets: Tickets,
    writer: Writer<J, C, K>,
    seats: Vec<Seat<W, J>>,
    routes: &Routes,
    out: &mut X,
) -> Listened<D, J, C, K>
    requires fresh { (D.handed door ≡ 0) × (D.back door ≡ 0) × (D.nones door ≡ 0) × (D.entered door ≡ 0) × (D.given door ≡ []) }
    requires plan { IsPlan plan }
    requires seats { (vec_len seats ≡ plan.workers) × (vec_len seats ≡ J.parts) }
    requires unused { All (λ s. s.posted ≡ 0) seats.items }
    requires opened { writer.start ≡ length_of writer.accepted }
    requires names { (tickets.taken.name ≡ T.name) × (tickets.out.name ≡ B.name) × (tickets.overs.name ≡ O.name) × (tickets.entered.name ≡ E.name) }
    requires parts { (tickets.taken.parts ≡ T.parts) × (tickets.out.parts ≡ B.parts) × (tickets.overs.parts ≡ O.parts) × (tickets.entered.parts ≡ E.parts) }
    requires all { (vec_len seats ≡ T.parts) × (vec_len seats ≡ B.parts) × (vec_len seats ≡ O.parts) × (vec_len seats ≡ E.parts) × (vec_len seats ≡ T.passes) }
    requires stated { plan.sessions ≡ T.stated }
    requires opening { D.faults door ≡ T.opening }
    requires steady { IsTrue T.steady → IsTrue (D.steady door) }

    // What was written, and what became of the door: each link that was handed out was served and came back.
    ensures told { Told plan (length_of result.writer.accepted)
        (door_at (D.handed door) (D.back door) (D.nones door) (D.faults door) (D.entered door))
        (door_at (D.handed result.door) (D.back result.door) (D.nones result.door) (D.faults result.door) (D.entered result.door))
        (outgoing (X.tells out.old) (X.written out.old) (X.faults out.old) (X.sure out.old))
        (outgoing (X.tells out.new) (X.written out.new) (X.faults out.new) (X.sure out.new)) result.end }
    ensures steady { IsTrue T.steady → result.end ≢ ends.DoorFault }

    // The history is what it was at opening, and what the sessions said that entered.
    ensures entered { length_of result.writer.accepted ≡ result.writer.start + D.entered result.door }

    // Each link that came back had a session in which all that was seen begins that history, where they are told.
    ensures given { AreServed D.Link.tells D.Link.stream D.Link.read_faults D.Link.reads D.Link.written D.Link.write_faults J.conf result.writer.accepted (IsTrue (D.tells result.door)) (D.back result.door) (D.given result.door) }

    // Without memory for the workers nothing is done.
    ensures untouched { result.end ≡ ends.Memory → (result.door ≡ door) × (result.writer ≡ writer) × (out.new ≡ out.old) }
{
    match prepare::<D, W, J, T, B, O, E>(alloc, door, tickets, plan.sessions, seats) {
        Err(NoDoor { door }) => Listened {
            end: ServiceEnd::Memory,
            door,
            writer,
        },
        Ok(
            Prepared {
                book,
                desks,
                passes,
                seats,
            },
        ) => {
            if let Err(Failed) = send_ready(out, plan.port) {
                return Listened {
                    end: ServiceEnd::WriteFault,
                    door: book.into_door().0,
                    writer,
                };
            }
            let Rest {
                sessions,
                length,
                end,
                door,
                writer,
            } = serve_desks(rt, alloc, writer, desks, passes, seats, routes, book);
            Listened {
                end: send_end(out, end, sessions, length),
                door,
                writer,
            }
        }
    }
}
