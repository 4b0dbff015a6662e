//! The replay of a recorded stream, over a window that a store keeps or none.
ghost use Rattle.std.specs.Prelude.{◌≡◌, ◌≢◌, ◌+◌, ◌^◌, ◌<◌, ◌≤◌, IsTrue, None, false, length, option_map};
ghost use Rattle.gj_base.specs.Causes.{Rose, one_more};
ghost use Rattle.gj_keep.specs.Books.{Keeps};
ghost use Rattle.gj_keep.specs.Openings.{IsLeft, due};
ghost use Rattle.gj_once.specs.Judging.{nothing_noted};
ghost use Rattle.gj_base.specs.Streams.{incoming, outgoing};
ghost use Rattle.gj_program.specs.Replays.{Headline, Judges, OpensOver, Replays, TellsConf, TellsRow, stores_at};
ghost use Rattle.gj_program.specs.Statuses.{is_session};
ghost use Rattle.gj_program.specs.declared.run_status.RunStatus.TheVariants as statuses;

use crate::run_status::{RunStatus, TURNS, status_of, status_of_refusal};
use gj_base::{Conf, Grow, KeepError, Keeper, Keepers, Memory, Sink, Source};
use gj_http::{Framer, Routes};
use gj_keep::{Local, NoKeeper, OpenRefused};
use gj_once::{Once, OnceIndex};
use gj_session::replay_session;
use gj_window::Window;
use std::alloc::Global;

/// What a session needs beside its index and its streams. No batch of a producer is noted yet.
#[derive(Drop)]
struct Tools {
    routes: Routes,
    framer: Framer,
    once: Once,
    ghost fresh: { once ≡ nothing_noted },
}

impl Tools {
    fn new(alloc: Global) -> Result<Tools, Memory> {
        let routes = Routes::new(alloc)?;
        let framer = Framer::new(alloc)?;
        let once = Once::new(alloc)?;
        Ok(Tools {
            routes,
            framer,
            once,
        })
    }
}

/// The keeper that comes back from a replay, and how the replay ended.
struct Over<K> {
    keeper: K,
    status: RunStatus,
}

/// Replays the stream over the window that the keeper keeps, where each numbered batch of a producer acts once. It takes
/// the memory of the window before the session.
fn replay_over<K: Keeper, W: Grow + Drop, S: Source, O: Sink>(
    alloc: Global,
    conf: Conf,
    keeper: K,
    tools: Tools,
    input: &mut S,
    out: &mut O,
) -> Over<K>
    ensures session { IsTrue (is_session result.status)
        → Headline conf (OpensOver (K.kept keeper)) (Keeps conf (K.kept result.keeper)) (K.faults keeper) (K.faults result.keeper) (K.steady keeper)
        (incoming (S.tells input.old) (S.stream input.old) (S.faults input.old) (S.reads input.old))
        (incoming (S.tells input.new) (S.stream input.new) (S.faults input.new) (S.reads input.new))
        (outgoing (O.tells out.old) (O.written out.old) (O.faults out.old) (O.sure out.old))
        (outgoing (O.tells out.new) (O.written out.new) (O.faults out.new) (O.sure out.new)) result.status }

    // Without a session nothing is taken and nothing written, and the opening is right.
    ensures untouched { is_session result.status ≡ false → (input.new ≡ input.old) × (out.new ≡ out.old) }
    ensures left { is_session result.status ≡ false → IsLeft conf (K.kept keeper) (K.kept result.keeper) }
    ensures judged { IsTrue (K.kept keeper).tells → Judges (due conf (K.kept keeper)) result.status }
    ensures bare { IsTrue (K.kept keeper).bare → Judges None result.status }
    ensures differs { TellsConf conf result.status }
    ensures bad { TellsRow conf result.status }
    ensures asked { result.status ≢ statuses.Usage }
    ensures local { (result.status ≢ statuses.DoorFault) × (result.status ≢ statuses.NoPlace) }

    // The causes of faults.
    ensures store_cause { result.status ≡ statuses.StoreFault → K.faults result.keeper ≡ one_more (K.faults keeper) }
    ensures store_steady { IsTrue (K.steady keeper) → (result.status ≢ statuses.StoreFault) × IsTrue (K.steady result.keeper) }
    ensures causes { Causes
        (incoming (S.tells input.old) (S.stream input.old) (S.faults input.old) (S.reads input.old))
        (incoming (S.tells input.new) (S.stream input.new) (S.faults input.new) (S.reads input.new))
        (outgoing (O.tells out.old) (O.written out.old) (O.faults out.old) (O.sure out.old))
        (outgoing (O.tells out.new) (O.written out.new) (O.faults out.new) (O.sure out.new)) (S.steady input.old) result.status }
    ensures room { IsTrue (O.tells out.old) → result.status ≡ statuses.WriteFault → O.sure out.old + length (O.written out.old) ≤ length (O.written out.new) }
{
    match Local::<K, W>::open_local(alloc, conf, keeper) {
        Err(OpenRefused { keeper, why }) => Over {
            keeper,
            status: status_of_refusal(why),
        },
        Ok(index) => {
            let Tools {
                routes,
                mut framer,
                once,
            } = tools;
            let mut index = OnceIndex::new(index, once);
            let end = replay_session(alloc, &mut index, &routes, &mut framer, input, out, TURNS);
            Over {
                keeper: index.into_index().into_keeper(),
                status: status_of(end),
            }
        }
    }
}

/// Replays the stream over no store: its window begins empty, and is let go at the end.
fn replay_bare<S: Source, O: Sink>(
    alloc: Global,
    conf: Conf,
    tools: Tools,
    input: &mut S,
    out: &mut O,
) -> RunStatus
    ensures does { (a : StoresAt) → Replays conf None a a
        (incoming (S.tells input.old) (S.stream input.old) (S.faults input.old) (S.reads input.old))
        (incoming (S.tells input.new) (S.stream input.new) (S.faults input.new) (S.reads input.new))
        (outgoing (O.tells out.old) (O.written out.old) (O.faults out.old) (O.sure out.old))
        (outgoing (O.tells out.new) (O.written out.new) (O.faults out.new) (O.sure out.new)) result }
    ensures local { (result ≢ statuses.DoorFault) × (result ≢ statuses.NoPlace) }
    ensures untouched { is_session result ≡ false → (input.new ≡ input.old) × (out.new ≡ out.old) }
    ensures causes { Causes
        (incoming (S.tells input.old) (S.stream input.old) (S.faults input.old) (S.reads input.old))
        (incoming (S.tells input.new) (S.stream input.new) (S.faults input.new) (S.reads input.new))
        (outgoing (O.tells out.old) (O.written out.old) (O.faults out.old) (O.sure out.old))
        (outgoing (O.tells out.new) (O.written out.new) (O.faults out.new) (O.sure out.new)) (S.steady input.old) result }
    ensures room { IsTrue (O.tells out.old) → result ≡ statuses.WriteFault → O.sure out.old + length (O.written out.old) ≤ length (O.written out.new) }
{
    let Over { keeper: _, status } = replay_over::<NoKeeper, Window, S, O>(
        alloc, conf, NoKeeper, tools, input, out,
    );
    status
}

ghost use Rattle.gj_program.specs.Replays.{Causes, StoresAt};
ghost use Rattle.std.specs.Prelude.{Some};

/// Replays the stream over the window of the store at the path. The keeper comes home, however the replay ended.
fn replay_stored<P: Keepers, S: Source, O: Sink>(
    alloc: Global,
    conf: Conf,
    path: &str,
    tools: Tools,
    input: &mut S,
    out: &mut O,
    stores: &mut P,
) -> RunStatus
    requires { IsTrue (P.home stores.old) }
    ensures does { Replays conf (Some path.now) (stores_at (P.stored stores.old) (P.faults stores.old) (P.steady stores.old)) (stores_at (P.stored stores.new) (P.faults stores.new) (P.steady stores.new))
        (incoming (S.tells input.old) (S.stream input.old) (S.faults input.old) (S.reads input.old))
        (incoming (S.tells input.new) (S.stream input.new) (S.faults input.new) (S.reads input.new))
        (outgoing (O.tells out.old) (O.written out.old) (O.faults out.old) (O.sure out.old))
        (outgoing (O.tells out.new) (O.written out.new) (O.faults out.new) (O.sure out.new)) result }
    ensures local { (result ≢ statuses.DoorFault) × (result ≢ statuses.NoPlace) }
    ensures untouched { is_session result ≡ false → (input.new ≡ input.old) × (out.new ≡ out.old) }
    ensures home { IsTrue (P.home stores.new) }
    ensures later { P.faults stores.old ≤ P.faults stores.new }
    ensures store_cause { result ≡ statuses.StoreFault → Rose (P.faults stores.old) (P.faults stores.new) }
    ensures store_steady { IsTrue (P.steady stores.old) → (result ≢ statuses.StoreFault) × IsTrue (P.steady stores.new) }
    ensures causes { Causes
        (incoming (S.tells input.old) (S.stream input.old) (S.faults input.old) (S.reads input.old))
        (incoming (S.tells input.new) (S.stream input.new) (S.faults input.new) (S.reads input.new))
        (outgoing (O.tells out.old) (O.written out.old) (O.faults out.old) (O.sure out.old))
        (outgoing (O.tells out.new) (O.written out.new) (O.faults out.new) (O.sure out.new)) (S.steady input.old) result }
    ensures room { IsTrue (O.tells out.old) → result ≡ statuses.WriteFault → O.sure out.old + length (O.written out.old) ≤ length (O.written out.new) }
{
    match stores.keeper_at(alloc, path) {
        Err(KeepError::Failed) => RunStatus::StoreFault,
        Err(KeepError::Memory) => RunStatus::Memory,
        Ok(keeper) => {
            let Over { keeper, status } = replay_over::<P::Kept, Window, S, O>(
                alloc, conf, keeper, tools, input, out,
            );
            stores.take_back(keeper);
            status
        }
    }
}

/// Replays the stream, over the window of a store where one is named. The memory that it needs beside the asks and replies
/// is taken before the session.
pub fn replay<P: Keepers, S: Source, O: Sink>(
    alloc: Global,
    conf: Conf,
    store: Option<&str>,
    input: &mut S,
    out: &mut O,
    stores: &mut P,
) -> RunStatus
    requires { IsTrue (P.home stores.old) }
    ensures does { Replays conf (option_map (λ path. path.now) store.entry) (stores_at (P.stored stores.old) (P.faults stores.old) (P.steady stores.old)) (stores_at (P.stored stores.new) (P.faults stores.new) (P.steady stores.new))
        (incoming (S.tells input.old) (S.stream input.old) (S.faults input.old) (S.reads input.old))
        (incoming (S.tells input.new) (S.stream input.new) (S.faults input.new) (S.reads input.new))
        (outgoing (O.tells out.old) (O.written out.old) (O.faults out.old) (O.sure out.old))
        (outgoing (O.tells out.new) (O.written out.new) (O.faults out.new) (O.sure out.new)) result }
    ensures local { (result ≢ statuses.DoorFault) × (result ≢ statuses.NoPlace) }
    ensures untouched { is_session result ≡ false → (input.new ≡ input.old) × (out.new ≡ out.old) }
    ensures home { IsTrue (P.home stores.new) }
    ensures later { P.faults stores.old ≤ P.faults stores.new }
    ensures store_cause { result ≡ statuses.StoreFault → Rose (P.faults stores.old) (P.faults stores.new) }
    ensures store_steady { IsTrue (P.steady stores.old) → (result ≢ statuses.StoreFault) × IsTrue (P.steady stores.new) }
    ensures elsewhere { store.entry ≡ None → stores.new ≡ stores.old }
    ensures causes { Causes
        (incoming (S.tells input.old) (S.stream input.old) (S.faults input.old) (S.reads input.old))
        (incoming (S.tells input.new) (S.stream input.new) (S.faults input.new) (S.reads input.new))
        (outgoing (O.tells out.old) (O.written out.old) (O.faults out.old) (O.sure out.old))
        (outgoing (O.tells out.new) (O.written out.new) (O.faults out.new) (O.sure out.new)) (S.steady input.old) result }
    ensures room { IsTrue (O.tells out.old) → result ≡ statuses.WriteFault → O.sure out.old + length (O.written out.old) ≤ length (O.written out.new) }
{
    let Ok(tools) = Tools::new(alloc) else {
        return RunStatus::Memory;
    };
    match store {
        None => replay_bare(alloc, conf, tools, input, out),
        Some(path) => replay_stored(alloc, conf, path, tools, input, out, stores),
    }
}
