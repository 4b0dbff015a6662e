//! A service over a keeper.
ghost use Rattle.std.specs.Prelude.{◌≡◌, ◌≢◌, ◌+◌, ◌<◌, ◌≤◌, ◌^◌, [], All, IsTrue, IfSome, None, vec_len};
ghost use Rattle.gj_base.specs.Causes.{one_more};
ghost use Rattle.gj_base.specs.History.{length_of};
ghost use Rattle.gj_keep.specs.Books.{Keeps};
ghost use Rattle.gj_keep.specs.Openings.{IsLeft, due, opening_of};
ghost use Rattle.gj_keep.specs.declared.opening.OpenError.TheVariants as why;
ghost use Rattle.gj_base.specs.Streams.{outgoing};
ghost use Rattle.gj_serve.specs.Given.{AreServed};
ghost use Rattle.gj_service.specs.Services.{IsOpened, IsPlan, IsUnserved, Judges, Service, TellsConf, TellsRow, door_at};
ghost use Rattle.gj_service.specs.declared.end.ServiceEnd.TheVariants as ends;

use crate::end::ServiceEnd;
use crate::listening::{Listened, serve_listening};
use crate::plan::Plan;
use gj_base::{Conf, Failed, Grow, Keeper, Sink};
use gj_http::Routes;
use gj_keep::OpenRefused;
use gj_log::{Naming, Opening};
use gj_publish::{Batch, Copies, Grants, Seat, Writer, open_index};
use gj_serve::{Door, Tickets};
use std::alloc::Global;
use std::marker::Brand;
use std::sync::Wait;
use std::thread::Threads;

/// How a service ended, with the keeper and the door.
pub struct Over<K, D> {
    pub end: ServiceEnd,
    pub keeper: K,
    pub door: D,
}

/// Gives the keeper of the writer back. It may wait for looks that began before.
fn close<D, J: Opening, C: Copies<Operation = Batch<J>>, K: Keeper + Drop>(
    end: ServiceEnd,
    door: D,
    writer: Writer<J, C, K>,
) -> Over<K, D>
    ensures numbers { (result.end ≡ end) × (result.door ≡ door) }
    ensures keeps { Keeps J.conf (K.kept result.keeper) writer.accepted }
    ensures same { (K.kept result.keeper ≡ writer.kept) × (K.faults result.keeper ≡ writer.faults) }
    ensures bounded { length_of writer.accepted ≤ 2 ^ 48 }
    ensures known { (opening : History) × Begins opening writer.accepted × (writer.start ≡ length_of opening) × IfSome J.opening (λ o. o ≡ opening) }
{
    let _ = (writer.start(), writer.length());
    Over {
        end,
        keeper: writer.into_keeper(),
        door,
    }
}

ghost use Rattle.gj_base.specs.declared.history.History.{History};
ghost use Rattle.gj_base.specs.History.{Begins};

/// Opens the door at the port, and serves the index of an opening.
fn serve_index<
    R: Threads + Wait + Sync,
    D: Door + Send,
    J: Opening + Send + Sync,
    C: Copies<Operation = Batch<J>> + Send,
    K: Keeper + Drop + Send,
    W: Grow + Drop + Send + Sync,
    X: Sink,
>(
    rt: &R,
    alloc: Global,
    plan: Plan,
    door: D,
    writer: Writer<J, C, K>,
    seats: Vec<Seat<W, J>>,
    out: &mut X,
) -> Over<K, D>
    requires fresh { (D.handed door ≡ 0) × (D.back door ≡ 0) × (D.nones door ≡ 0) × (D.entered door ≡ 0) × (D.given door ≡ []) }
    requires plan { IsPlan plan }
    requires seats { (vec_len seats ≡ plan.workers) × (vec_len seats ≡ J.parts) }
    requires unused { All (λ s. s.posted ≡ 0) seats.items }
    requires opened { writer.start ≡ length_of writer.accepted }
    ensures service { Service plan (λ h. IfSome J.opening (λ o. o ≡ h)) (Keeps J.conf (K.kept result.keeper))
        (λ h. AreServed D.Link.tells D.Link.stream D.Link.read_faults D.Link.reads D.Link.written D.Link.write_faults J.conf h (IsTrue (D.tells result.door)) (D.back result.door) (D.given result.door))
        (door_at (D.handed door) (D.back door) (D.nones door) (D.faults door) (D.entered door))
        (door_at (D.handed result.door) (D.back result.door) (D.nones result.door) (D.faults result.door) (D.entered result.door))
        (outgoing (X.tells out.old) (X.written out.old) (X.faults out.old) (X.sure out.old))
        (outgoing (X.tells out.new) (X.written out.new) (X.faults out.new) (X.sure out.new)) result.end }
    ensures back { D.back result.door ≡ D.handed result.door }
    ensures steady { IsTrue (D.steady door) → result.end ≢ ends.DoorFault }
    ensures untouched { result.end ≡ ends.Memory → (K.kept result.keeper ≡ writer.kept) × (out.new ≡ out.old) × (D.handed result.door ≡ 0) }
{
    let mut door = door;
    let Ok(routes) = Routes::new(alloc) else {
        return close(ServiceEnd::Memory, door, writer);
    };
    if let Err(Failed) = door.listen(plan.port) {
        return close(ServiceEnd::DoorFault, door, writer);
    }
    let tickets = Tickets::new(plan.workers);
    let Listened { end, door, writer } = serve_listening::<
        R,
        D,
        J,
        C,
        K,
        W,
        X,
        Brand,
        Brand,
        Brand,
        Brand,
    >(rt, alloc, plan, door, tickets, writer, seats, &routes, out);
    close(end, door, writer)
}

/// The same from the opening of an index, which has a name.
fn serve_named<
    J: Opening + Send + Sync,
    R: Threads + Wait + Copy + Drop + Send + Sync,
    D: Door + Send,
    K: Keeper + Drop + Send,
    W: Grow + Drop + Send + Sync,
    X: Sink,
>(
    rt: R,
    alloc: Global,
    naming: Naming,
    conf: Conf,
    keeper: K,
    plan: Plan,
    door: D,
    out: &mut X,
    grants: &mut Grants,
) -> Over<K, D>
    requires fresh { (D.handed door ≡ 0) × (D.back door ≡ 0) × (D.nones door ≡ 0) × (D.entered door ≡ 0) × (D.given door ≡ []) }
    requires plan { IsPlan plan }
    requires grants { grants.old < 2 ^ 40 }
    requires named { (naming.history ≡ J.book) × (naming.blank.name ≡ J.name) × (naming.blank.parts ≡ J.parts) }
    requires parts { (plan.workers ≡ J.places) × (plan.workers ≡ J.parts) }
    requires conf { conf ≡ J.conf }
    requires opening { J.opening ≡ opening_of (K.kept keeper) }
    ensures service { IsOpened result.end → Service plan (λ h. IfSome (opening_of (K.kept keeper)) (λ o. o ≡ h)) (Keeps conf (K.kept result.keeper))
        (λ h. AreServed D.Link.tells D.Link.stream D.Link.read_faults D.Link.reads D.Link.written D.Link.write_faults conf h (IsTrue (D.tells result.door)) (D.back result.door) (D.given result.door))
        (door_at (D.handed door) (D.back door) (D.nones door) (D.faults door) (D.entered door))
        (door_at (D.handed result.door) (D.back result.door) (D.nones result.door) (D.faults result.door) (D.entered result.door))
        (outgoing (X.tells out.old) (X.written out.old) (X.faults out.old) (X.sure out.old))
        (outgoing (X.tells out.new) (X.written out.new) (X.faults out.new) (X.sure out.new)) result.end }
    ensures back { D.back result.door ≡ D.handed result.door }
    ensures judged { IsTrue (K.kept keeper).tells → Judges (due conf (K.kept keeper)) result.end }
    ensures bare { IsTrue (K.kept keeper).bare → Judges None result.end }
    ensures differs { TellsConf conf result.end }
    ensures bad { TellsRow conf result.end }
    ensures place { result.end ≡ ends.Refused why.Place → grants.new ≡ grants.old + 1 }
    ensures store { result.end ≡ ends.Refused why.Store → K.faults result.keeper ≡ one_more (K.faults keeper) }
    ensures steady_keeper { IsTrue (K.steady keeper) → result.end ≢ ends.Refused why.Store }
    ensures steady_door { IsTrue (D.steady door) → result.end ≢ ends.DoorFault }
    ensures left { IsUnserved result.end → IsLeft conf (K.kept keeper) (K.kept result.keeper) × (out.new ≡ out.old) × (D.handed result.door ≡ 0) }
    ensures untouched { (error : OpenError) → result.end ≡ ends.Refused error → result.door ≡ door }
    ensures later { grants.old ≤ grants.new }
{
    match open_index::<J, K, W, R>(rt, alloc, naming, conf, keeper, plan.workers, grants) {
        Err(OpenRefused { keeper, why }) => Over {
            end: ServiceEnd::Refused(why),
            keeper,
            door,
        },
        Ok((writer, seats)) => serve_index(&rt, alloc, plan, door, writer, seats, out),
    }
}

ghost use Rattle.gj_keep.specs.declared.opening.OpenError.{OpenError};

/// Opens an index over the keeper, opens the door at the port, serves so many connections by so many workers, and gives
/// the keeper back. Once the door is open and all memory for the workers is taken it writes `ready PORT`, and after them
/// `sessions N length M`, each with a line feed: N is how many connections were served, and M the length of the history.
/// It may wait.
pub fn serve_over<
    R: Threads + Wait + Copy + Drop + Send + Sync,
    D: Door + Send,
    K: Keeper + Drop + Send,
    W: Grow + Drop + Send + Sync,
    X: Sink,
>(
    rt: R,
    alloc: Global,
    conf: Conf,
    keeper: K,
    plan: Plan,
    door: D,
    out: &mut X,
    grants: &mut Grants,
) -> Over<K, D>
    requires fresh { (D.handed door ≡ 0) × (D.back door ≡ 0) × (D.nones door ≡ 0) × (D.entered door ≡ 0) × (D.given door ≡ []) }
    requires plan { IsPlan plan }
    requires grants { grants.old < 2 ^ 40 }

    // What was served, written and kept, where the index was opened.
    ensures service { IsOpened result.end → Service plan (λ h. IfSome (opening_of (K.kept keeper)) (λ o. o ≡ h)) (Keeps conf (K.kept result.keeper))
        (λ h. AreServed D.Link.tells D.Link.stream D.Link.read_faults D.Link.reads D.Link.written D.Link.write_faults conf h (IsTrue (D.tells result.door)) (D.back result.door) (D.given result.door))
        (door_at (D.handed door) (D.back door) (D.nones door) (D.faults door) (D.entered door))
        (door_at (D.handed result.door) (D.back result.door) (D.nones result.door) (D.faults result.door) (D.entered result.door))
        (outgoing (X.tells out.old) (X.written out.old) (X.faults out.old) (X.sure out.old))
        (outgoing (X.tells out.new) (X.written out.new) (X.faults out.new) (X.sure out.new)) result.end }
    ensures back { D.back result.door ≡ D.handed result.door }

    // When each refusal comes.
    ensures judged { IsTrue (K.kept keeper).tells → Judges (due conf (K.kept keeper)) result.end }
    ensures bare { IsTrue (K.kept keeper).bare → Judges None result.end }
    ensures differs { TellsConf conf result.end }
    ensures bad { TellsRow conf result.end }
    ensures place { result.end ≡ ends.Refused why.Place → grants.new ≡ grants.old + 1 }
    ensures store { result.end ≡ ends.Refused why.Store → K.faults result.keeper ≡ one_more (K.faults keeper) }
    ensures steady_keeper { IsTrue (K.steady keeper) → result.end ≢ ends.Refused why.Store }
    ensures steady_door { IsTrue (D.steady door) → result.end ≢ ends.DoorFault }

    // What is left where no worker worked.
    ensures left { IsUnserved result.end → IsLeft conf (K.kept keeper) (K.kept result.keeper) × (out.new ≡ out.old) × (D.handed result.door ≡ 0) }
    ensures untouched { (error : OpenError) → result.end ≡ ends.Refused error → result.door ≡ door }
    ensures later { grants.old ≤ grants.new }
{
    serve_named::<Brand, R, D, K, W, X>(
        rt,
        alloc,
        Naming::new(plan.workers),
        conf,
        keeper,
        plan,
        door,
        out,
        grants,
    )
}
