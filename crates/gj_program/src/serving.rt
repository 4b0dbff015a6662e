//! The service of connections, over a window that a store keeps or none.
ghost use Rattle.std.specs.Prelude.{◌≡◌, ◌≢◌, ◌⊎◌, ℕ, ◌+◌, ◌^◌, ◌<◌, ◌≤◌, ◌++◌, [], IsTrue, List, Option, Some, None, map, option_map, string_bytes, take};
ghost use Rattle.gj_base.specs.Causes.{Rose};
ghost use Rattle.gj_keep.specs.declared.opening.OpenError.{OpenError};
ghost use Rattle.gj_keep.specs.declared.opening.OpenError.TheVariants as why;
ghost use Rattle.gj_serve.specs.Given.{AreServed};
ghost use Rattle.gj_service.specs.Services.{HasRoom, IsPlan, IsUnserved, door_at};
ghost use Rattle.gj_service.specs.declared.end.ServiceEnd.TheVariants as ends;
ghost use Rattle.gj_base.specs.Streams.{outgoing};
ghost use Rattle.gj_words.specs.Tasks.{IsService, Serving, service_of, serving_by};
ghost use Rattle.gj_program.specs.Lines.{line_of};
ghost use Rattle.gj_program.specs.Replays.{StoresAt, stores_at};
ghost use Rattle.gj_program.specs.Serves.{Accepts, DoesServe, IsTurnedAway, IsUntaken, ObeysServe, Serves, plan_of, status_of_service};
ghost use Rattle.gj_program.specs.declared.run_status.RunStatus.TheVariants as statuses;

use crate::local::report;
use crate::run_status::{RunStatus, status_of_refusal};
use gj_base::{Conf, KeepError, Keeper, Keepers, Sink};
use gj_keep::{NoKeeper, OpenError};
use gj_publish::Grants;
use gj_serve::Door;
use gj_service::{Over, Plan, ServiceEnd, serve_over};
use gj_window::Window;
use gj_words::{Service, WordsError, read_service};
use std::alloc::Global;
use std::sync::Wait;
use std::thread::Threads;

/// How a service ended: the program's status, and the door.
pub struct Ended<D> {
    pub status: u8,
    pub door: D,
}

/// The door that comes back from a service, and how the service ended.
struct Closed<D> {
    end: ServiceEnd,
    door: D,
}

/// The status of a service.
fn status_of_end(end: ServiceEnd) -> RunStatus
    ensures { result ≡ status_of_service end }
{
    match end {
        ServiceEnd::Done => RunStatus::Done,
        ServiceEnd::WriteFault => RunStatus::WriteFault,
        ServiceEnd::DoorFault => RunStatus::DoorFault,
        ServiceEnd::Memory => RunStatus::Memory,
        ServiceEnd::Refused(OpenError::Memory) => RunStatus::Memory,
        ServiceEnd::Refused(OpenError::Store) => RunStatus::StoreFault,
        ServiceEnd::Refused(OpenError::ConfDiffers { kept, asked }) => RunStatus::ConfDiffers {
            kept,
            asked,
        },
        ServiceEnd::Refused(OpenError::KeptRow { row }) => RunStatus::KeptRow { row },
        ServiceEnd::Refused(OpenError::Place) => RunStatus::NoPlace,
    }
}

/// The window that a service asks for.
fn window_of(service: &Service) -> Conf
    requires { IsService service.now }
    ensures { result ≡ (serving_by service.now).conf }
{
    Conf::make(service.capacity, service.segments).unwrap()
}

/// The plan of a service.
fn plan_by(service: &Service) -> Plan
    requires { IsService service.now }
    ensures plan { IsPlan result }
    ensures exact { result ≡ plan_of (serving_by service.now) }
{
    Plan {
        workers: service.workers,
        sessions: service.sessions,
        port: service.port,
    }
}

/// Serves over no store: the window begins empty, and is let go at the end.
fn serve_bare<R: Threads + Wait + Copy + Drop + Send + Sync, D: Door + Send, O: Sink>(
    rt: R,
    alloc: Global,
    conf: Conf,
    plan: Plan,
    door: D,
    out: &mut O,
    grants: &mut Grants,
) -> Closed<D>
    requires fresh { (D.handed door ≡ 0) × (D.back door ≡ 0) × (D.nones door ≡ 0) × (D.entered door ≡ 0) × (D.given door ≡ []) }
    requires plan { IsPlan plan }
    requires grants { grants.old < 2 ^ 40 }
    ensures does { (a : StoresAt) → Serves conf None plan a a
        (door_at (D.handed door) (D.back door) (D.nones door) (D.faults door) (D.entered door))
        (door_at (D.handed result.door) (D.back result.door) (D.nones result.door) (D.faults result.door) (D.entered result.door))
        (λ conf h. AreServed D.Link.tells D.Link.stream D.Link.read_faults D.Link.reads D.Link.written D.Link.write_faults conf h (IsTrue (D.tells result.door)) (D.back result.door) (D.given result.door))
        (outgoing (O.tells out.old) (O.written out.old) (O.faults out.old) (O.sure out.old))
        (outgoing (O.tells out.new) (O.written out.new) (O.faults out.new) (O.sure out.new)) result.end }
    ensures place { result.end ≡ ends.Refused why.Place → grants.new ≡ grants.old + 1 }
    ensures steady { IsTrue (D.steady door) → result.end ≢ ends.DoorFault }
    ensures untouched { IsUnserved result.end → (out.new ≡ out.old) × (D.handed result.door ≡ 0) }
    ensures back { D.back result.door ≡ D.handed result.door }
    ensures refused { (error : OpenError) → result.end ≡ ends.Refused error → result.door ≡ door }
    ensures later { grants.old ≤ grants.new }
{
    let Over {
        end,
        keeper: _,
        door,
    } = serve_over::<R, D, NoKeeper, Window, O>(rt, alloc, conf, NoKeeper, plan, door, out, grants);
    Closed { end, door }
}

/// Serves over the window of the store at the path. The keeper comes home, however the service ended.
fn serve_stored<R: Threads + Wait + Copy + Drop + Send + Sync, D: Door + Send, O: Sink, P: Keepers>(
    rt: R,
    alloc: Global,
    conf: Conf,
    path: &str,
    plan: Plan,
    door: D,
    out: &mut O,
    stores: &mut P,
    grants: &mut Grants,
) -> Closed<D>
where
    P::Kept: Drop,
    requires home { IsTrue (P.home stores.old) }
    requires fresh { (D.handed door ≡ 0) × (D.back door ≡ 0) × (D.nones door ≡ 0) × (D.entered door ≡ 0) × (D.given door ≡ []) }
    requires plan { IsPlan plan }
    requires grants { grants.old < 2 ^ 40 }
    ensures does { Serves conf (Some path.now) plan (stores_at (P.stored stores.old) (P.faults stores.old) (P.steady stores.old)) (stores_at (P.stored stores.new) (P.faults stores.new) (P.steady stores.new))
        (door_at (D.handed door) (D.back door) (D.nones door) (D.faults door) (D.entered door))
        (door_at (D.handed result.door) (D.back result.door) (D.nones result.door) (D.faults result.door) (D.entered result.door))
        (λ conf h. AreServed D.Link.tells D.Link.stream D.Link.read_faults D.Link.reads D.Link.written D.Link.write_faults conf h (IsTrue (D.tells result.door)) (D.back result.door) (D.given result.door))
        (outgoing (O.tells out.old) (O.written out.old) (O.faults out.old) (O.sure out.old))
        (outgoing (O.tells out.new) (O.written out.new) (O.faults out.new) (O.sure out.new)) result.end }
    ensures store { result.end ≡ ends.Refused why.Store → Rose (P.faults stores.old) (P.faults stores.new) }
    ensures place { result.end ≡ ends.Refused why.Place → grants.new ≡ grants.old + 1 }
    ensures steady_stores { IsTrue (P.steady stores.old) → result.end ≢ ends.Refused why.Store }
    ensures steady_door { IsTrue (D.steady door) → result.end ≢ ends.DoorFault }
    ensures untouched { IsUnserved result.end → (out.new ≡ out.old) × (D.handed result.door ≡ 0) }
    ensures back { D.back result.door ≡ D.handed result.door }
    ensures refused { (error : OpenError) → result.end ≡ ends.Refused error → result.door ≡ door }
    ensures home { IsTrue (P.home stores.new) }
    ensures later { (P.faults stores.old ≤ P.faults stores.new) × (grants.old ≤ grants.new) }
{
    match stores.keeper_at(alloc, path) {
        Err(KeepError::Failed) => Closed {
            end: ServiceEnd::Refused(OpenError::Store),
            door,
        },
        Err(KeepError::Memory) => Closed {
            end: ServiceEnd::Refused(OpenError::Memory),
            door,
        },
        Ok(keeper) => {
            let Over { end, keeper, door } = serve_over::<R, D, P::Kept, Window, O>(
                rt, alloc, conf, keeper, plan, door, out, grants,
            );
            stores.take_back(keeper);
            Closed { end, door }
        }
    }
}

/// Serves what is asked for.
fn serve<R: Threads + Wait + Copy + Drop + Send + Sync, D: Door + Send, O: Sink, P: Keepers>(
    rt: R,
    alloc: Global,
    service: &Service,
    door: D,
    out: &mut O,
    stores: &mut P,
    grants: &mut Grants,
) -> Closed<D>
where
    P::Kept: Drop,
    requires service { IsService service.now }
    requires home { IsTrue (P.home stores.old) }
    requires fresh { (D.handed door ≡ 0) × (D.back door ≡ 0) × (D.nones door ≡ 0) × (D.entered door ≡ 0) × (D.given door ≡ []) }
    requires grants { grants.old < 2 ^ 40 }
    ensures does { Serves (serving_by service.now).conf (serving_by service.now).store (plan_of (serving_by service.now))
        (stores_at (P.stored stores.old) (P.faults stores.old) (P.steady stores.old)) (stores_at (P.stored stores.new) (P.faults stores.new) (P.steady stores.new))
        (door_at (D.handed door) (D.back door) (D.nones door) (D.faults door) (D.entered door))
        (door_at (D.handed result.door) (D.back result.door) (D.nones result.door) (D.faults result.door) (D.entered result.door))
        (λ conf h. AreServed D.Link.tells D.Link.stream D.Link.read_faults D.Link.reads D.Link.written D.Link.write_faults conf h (IsTrue (D.tells result.door)) (D.back result.door) (D.given result.door))
        (outgoing (O.tells out.old) (O.written out.old) (O.faults out.old) (O.sure out.old))
        (outgoing (O.tells out.new) (O.written out.new) (O.faults out.new) (O.sure out.new)) result.end }
    ensures store { result.end ≡ ends.Refused why.Store → Rose (P.faults stores.old) (P.faults stores.new) }
    ensures place { result.end ≡ ends.Refused why.Place → grants.new ≡ grants.old + 1 }
    ensures steady_stores { IsTrue (P.steady stores.old) → result.end ≢ ends.Refused why.Store }
    ensures steady_door { IsTrue (D.steady door) → result.end ≢ ends.DoorFault }
    ensures untouched { IsUnserved result.end → (out.new ≡ out.old) × (D.handed result.door ≡ 0) }
    ensures back { D.back result.door ≡ D.handed result.door }
    ensures refused { (error : OpenError) → result.end ≡ ends.Refused error → result.door ≡ door }
    ensures elsewhere { (serving_by service.now).store ≡ None → stores.new ≡ stores.old }
    ensures home { IsTrue (P.home stores.new) }
    ensures later { (P.faults stores.old ≤ P.faults stores.new) × (grants.old ≤ grants.new) }
{
    let conf = window_of(service);
    let plan = plan_by(service);
    match service.store {
        None => serve_bare(rt, alloc, conf, plan, door, out, grants),
        Some(path) => serve_stored(rt, alloc, conf, path, plan, door, out, stores, grants),
    }
}

/// The door that comes back, and the status of what the arguments ask for.
struct Obeyed<D> {
    status: RunStatus,
    door: D,
}

/// Does what the arguments ask for.
fn obey<R: Threads + Wait + Copy + Drop + Send + Sync, D: Door + Send, O: Sink, P: Keepers>(
    rt: R,
    alloc: Global,
    words: &[String],
    door: D,
    out: &mut O,
    stores: &mut P,
    grants: &mut Grants,
) -> Obeyed<D>
where
    P::Kept: Drop,
    requires home { IsTrue (P.home stores.old) }
    requires fresh { (D.handed door ≡ 0) × (D.back door ≡ 0) × (D.nones door ≡ 0) × (D.entered door ≡ 0) × (D.given door ≡ []) }
    requires grants { grants.old < 2 ^ 40 }
    ensures does { DoesServe (service_of (map (λ w. string_bytes w) words.now))
        (stores_at (P.stored stores.old) (P.faults stores.old) (P.steady stores.old)) (stores_at (P.stored stores.new) (P.faults stores.new) (P.steady stores.new))
        (door_at (D.handed door) (D.back door) (D.nones door) (D.faults door) (D.entered door))
        (door_at (D.handed result.door) (D.back result.door) (D.nones result.door) (D.faults result.door) (D.entered result.door))
        (λ conf h. AreServed D.Link.tells D.Link.stream D.Link.read_faults D.Link.reads D.Link.written D.Link.write_faults conf h (IsTrue (D.tells result.door)) (D.back result.door) (D.given result.door))
        (outgoing (O.tells out.old) (O.written out.old) (O.faults out.old) (O.sure out.old))
        (outgoing (O.tells out.new) (O.written out.new) (O.faults out.new) (O.sure out.new)) result.status }
    ensures usage { result.status ≡ statuses.Usage → service_of (map (λ w. string_bytes w) words.now) ≡ None }
    ensures back { D.back result.door ≡ D.handed result.door }

    ensures write_cause { result.status ≡ statuses.WriteFault → Rose (O.faults out.old) (O.faults out.new) }
    ensures store_cause { result.status ≡ statuses.StoreFault → Rose (P.faults stores.old) (P.faults stores.new) }
    ensures door_cause { result.status ≡ statuses.DoorFault → Rose (D.faults door) (D.faults result.door) }
    ensures place { result.status ≡ statuses.NoPlace → grants.new ≡ grants.old + 1 }
    ensures complete { (s : Serving) → service_of (map (λ w. string_bytes w) words.now) ≡ Some s → Accepts s.store s.conf (P.stored stores.old)
        → IsTrue (P.steady stores.old) → IsTrue (D.steady door) → HasRoom s.port (O.sure out.old)
        → (result.status ≡ statuses.Done) ⊎ ((result.status ≡ statuses.Memory) ⊎ (result.status ≡ statuses.NoPlace)) }

    ensures untouched { IsUntaken result.status → (out.new ≡ out.old) × (D.handed result.door ≡ 0) }
    ensures refused { IsTurnedAway result.status → result.door ≡ door }
    ensures elsewhere { ((s : Serving) (path : List ℕ) → service_of (map (λ w. string_bytes w) words.now) ≡ Some s → s.store ≡ Some path → ⊥) → stores.new ≡ stores.old }
    ensures home { IsTrue (P.home stores.new) }
    ensures later { (P.faults stores.old ≤ P.faults stores.new) × (grants.old ≤ grants.new) }
{
    match read_service(alloc, words) {
        Err(WordsError::Usage) => Obeyed {
            status: RunStatus::Usage,
            door,
        },
        Err(WordsError::Memory) => Obeyed {
            status: RunStatus::Memory,
            door,
        },
        Ok(service) => {
            let Closed { end, door } = serve(rt, alloc, &service, door, out, stores, grants);
            Obeyed {
                status: status_of_end(end),
                door,
            }
        }
    }
}

/// Serves connections as the arguments after the program's name ask, of which the first is `serve`, and answers the
/// program's status, with the door.
///
/// It opens an index over a window that begins empty, or that the keeper of `stores` keeps where a store is named, opens
/// the door at the port, and writes `ready PORT` and a line feed to `out`. Then so many workers serve so many connections,
/// or fewer where the door is closed, and at last it writes `sessions N length M` and a line feed: how many connections
/// were served, and the length of the history. The keeper comes home, however the run ended. For each status but 0 one line
/// goes to `err`. All memory that follows the number of workers is taken before the first line. It waits where the door,
/// its links, the stores and the writer's lock do.
pub fn run_serve<
    R: Threads + Wait + Copy + Drop + Send + Sync,
    D: Door + Send,
    O: Sink,
    E: Sink,
    P: Keepers,
>(
    rt: R,
    alloc: Global,
    words: &[String],
    door: D,
    out: &mut O,
    err: &mut E,
    stores: &mut P,
    grants: &mut Grants,
) -> Ended<D>
where
    P::Kept: Drop,
    requires home { IsTrue (P.home stores.old) }
    requires fresh { (D.handed door ≡ 0) × (D.back door ≡ 0) × (D.nones door ≡ 0) × (D.entered door ≡ 0) × (D.given door ≡ []) }
    requires grants { grants.old < 2 ^ 40 }

    // What was asked for was done, and told on `err`; each link that was handed out was served and came back, and its session
    // was answered over beginnings of the last history.
    ensures obeys { ObeysServe (service_of (map (λ w. string_bytes w) words.now))
        (stores_at (P.stored stores.old) (P.faults stores.old) (P.steady stores.old)) (stores_at (P.stored stores.new) (P.faults stores.new) (P.steady stores.new))
        (door_at (D.handed door) (D.back door) (D.nones door) (D.faults door) (D.entered door))
        (door_at (D.handed result.door) (D.back result.door) (D.nones result.door) (D.faults result.door) (D.entered result.door))
        (λ conf h. AreServed D.Link.tells D.Link.stream D.Link.read_faults D.Link.reads D.Link.written D.Link.write_faults conf h (IsTrue (D.tells result.door)) (D.back result.door) (D.given result.door))
        (outgoing (O.tells out.old) (O.written out.old) (O.faults out.old) (O.sure out.old))
        (outgoing (O.tells out.new) (O.written out.new) (O.faults out.new) (O.sure out.new))
        (outgoing (E.tells err.old) (E.written err.old) (E.faults err.old) (E.sure err.old))
        (outgoing (E.tells err.new) (E.written err.new) (E.faults err.new) (E.sure err.new)) result.status }
    ensures usage { result.status ≡ 2 → service_of (map (λ w. string_bytes w) words.now) ≡ None }
    ensures back { D.back result.door ≡ D.handed result.door }

    // The causes of faults.
    ensures write_cause { result.status ≡ 4 → Rose (O.faults out.old) (O.faults out.new) }
    ensures store_cause { result.status ≡ 5 → Rose (P.faults stores.old) (P.faults stores.new) }
    ensures door_cause { result.status ≡ 8 → Rose (D.faults door) (D.faults result.door) }
    ensures place { result.status ≡ 13 → grants.new ≡ grants.old + 1 }

    // Over what fails no call, with room for both lines, and a store that an opening accepts, all is served, or memory or a
    // reader's place is wanting.
    ensures complete { (s : Serving) → service_of (map (λ w. string_bytes w) words.now) ≡ Some s → Accepts s.store s.conf (P.stored stores.old)
        → IsTrue (P.steady stores.old) → IsTrue (D.steady door) → HasRoom s.port (O.sure out.old)
        → (result.status ≡ 0) ⊎ ((result.status ≡ 7) ⊎ (result.status ≡ 13)) }

    // What stays: the output and the door where no worker worked, and stores that were not asked for.
    ensures untouched { (result.status ≡ 2) ⊎ (result.status ≡ 5) ⊎ (result.status ≡ 7) ⊎ (result.status ≡ 11) ⊎ (result.status ≡ 12) ⊎ (result.status ≡ 13)
        → (out.new ≡ out.old) × (D.handed result.door ≡ 0) }
    ensures refused { (result.status ≡ 2) ⊎ (result.status ≡ 5) ⊎ (result.status ≡ 11) ⊎ (result.status ≡ 12) ⊎ (result.status ≡ 13) → result.door ≡ door }
    ensures elsewhere { ((s : Serving) (path : List ℕ) → service_of (map (λ w. string_bytes w) words.now) ≡ Some s → s.store ≡ Some path → ⊥) → stores.new ≡ stores.old }
    ensures home { IsTrue (P.home stores.new) }
    ensures later { (P.faults stores.old ≤ P.faults stores.new) × (grants.old ≤ grants.new) }
{
    let Obeyed { status, door } = obey(rt, alloc, words, door, out, stores, grants);
    report(err, status);
    Ended {
        status: status.code(),
        door,
    }
}
