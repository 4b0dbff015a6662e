//! Sessions over connections, beside other seats.
ghost use Rattle.std.specs.Prelude.{◌≡◌, ◌≢◌, ◌⊎◌, ◌+◌, ◌^◌, ◌<◌, ◌≤◌, IsTrue, length};
ghost use Rattle.gj_base.specs.Causes.{Rose, RoseBy};
ghost use Rattle.gj_session.specs.SeatRuns.{SameSeat, SeatRan};
ghost use Rattle.gj_session.specs.Sessions.{Replayed, IsByInput, EndsByInput};
ghost use Rattle.gj_base.specs.Streams.{incoming, outgoing};
ghost use Rattle.gj_session.specs.declared.outcome.End.{End};

use crate::done::Done;
use crate::hall::Hall;
use crate::linked::{Beside, Wired};
use crate::session::run_session;
use gj_base::{Gate, Grow, Keeper, Link};
use gj_http::{Framer, Routes};
use gj_log::Opening;
use gj_publish::{Batch, Copies, Seat, Writer};
use std::alloc::Global;
use std::sync::{Mutex, Wait};

/// The most reads of a served session.
const TURNS: u64 = 1_099_511_627_776;

/// Answers the messages of the connection by the seat, in order, and says that nothing more is written. A query takes no
/// lock; a batch takes the writer's lock for its post alone. Before and after each message the gate is called. It takes
/// memory for the asks and the replies, and waits where the link, the lock and the gate do. What was held by the framer is
/// dropped.
pub fn serve_session<
    R: Wait,
    L: Link,
    J: Opening,
    C: Copies<Operation = Batch<J>>,
    K: Keeper + Drop,
    W: Grow + Drop,
    G: Gate,
>(
    rt: &R,
    alloc: Global,
    writer: &Mutex<Writer<J, C, K>>,
    seat: &mut Seat<W, J>,
    routes: &Routes,
    framer: &mut Framer,
    link: L,
    gate: &G,
) -> Done<L>
    // What was taken, answered and written, by the end: a run beside other seats, from where the seat was. Of the room of a
    // link that is finished nothing is said.
    ensures run { Replayed (SeatRan J.conf seat.old seat.new)
        (incoming (L.tells link) (L.stream link) (L.read_faults link) (L.reads link))
        (incoming (L.tells result.link) (L.stream result.link) (L.read_faults result.link) (L.reads result.link))
        (outgoing (L.tells link) (L.written link) (L.write_faults link) (L.sure link))
        (outgoing (L.tells result.link) (L.written result.link) (L.write_faults result.link) (L.sure link))
        1099511627776 result.end }

    // Without a fault the end is a function of the whole input, which was taken where it ended.
    ensures by_input { IsTrue (L.tells link) → IsByInput result.end → EndsByInput (L.stream link).left result.end }

    // It is the same seat, which has seen no less, and what entered is told.
    ensures seat { SameSeat seat.old seat.new }
    ensures entered { seat.new.posted ≡ seat.old.posted + result.entered }
    ensures in_range { (seat.new.posted ≡ seat.old.posted) ⊎ (seat.new.posted ≤ 2 ^ 48) }

    // The reads.
    ensures reads { L.reads result.link ≤ L.reads link + 1099511627776 }
    ensures turned { result.end ≡ End.Turns → RoseBy 1099511627776 (L.reads link) (L.reads result.link) }
    ensures short { IsTrue (L.tells link) → length (L.stream link).left < 1099511627776 → result.end ≢ End.Turns }

    // The causes of faults.
    ensures read_cause { result.end ≡ End.ReadFault → Rose (L.read_faults link) (L.read_faults result.link) }
    ensures write_cause { result.end ≡ End.WriteFault → Rose (L.write_faults link) (L.write_faults result.link) }
    ensures read_same { result.end ≢ End.ReadFault → L.read_faults result.link ≡ L.read_faults link }
    ensures write_same { result.end ≢ End.WriteFault → L.write_faults result.link ≡ L.write_faults link }
    ensures read_later { L.read_faults link ≤ L.read_faults result.link }
    ensures write_later { L.write_faults link ≤ L.write_faults result.link }
    ensures steady { L.steady link → result.end ≢ End.ReadFault }
    ensures room { IsTrue (L.tells link) → result.end ≡ End.WriteFault → L.sure link + length (L.written link) ≤ length (L.written result.link) }
    ensures told { L.tells result.link ≡ L.tells link }
{
    let before = seat.posted();
    let hall = Hall { rt, writer, gate };
    let mut wired = Wired { link };
    let end = run_session(
        alloc,
        seat,
        &hall,
        routes,
        framer,
        &mut wired,
        &mut Beside,
        TURNS,
    );
    let entered = seat.posted() - before;
    let Wired { mut link } = wired;
    link.finish();
    Done::new(link, end, entered)
}
