//! A workload that is made from a number, over an index in memory.
ghost use Rattle.std.specs.Prelude.{◌≡◌, ◌<◌, ◌≤◌, length, IfSome};
ghost use Rattle.gj_base.specs.Causes.{Rose};
ghost use Rattle.gj_load.specs.Totals.{totals_of};
ghost use Rattle.gj_base.specs.Streams.{outgoing};
ghost use Rattle.gj_program.specs.Lines.{summary_of};
ghost use Rattle.gj_program.specs.Runs.{Loads};
ghost use Rattle.gj_program.specs.declared.run_status.RunStatus.TheVariants as statuses;

use crate::lines::summary;
use crate::run_status::RunStatus;
use gj_base::{Conf, Failed, IndexError, Sink};
use gj_keep::{Local, NoKeeper};
use gj_load::{Totals, run_load};
use gj_session::send;
use gj_window::Window;
use std::alloc::Global;

/// What comes of the workload. `None` is want of memory: a keeper that keeps nothing fails no call.
fn totals(alloc: Global, conf: Conf, number: u64, count: u64) -> Option<Totals>
    requires { (0 < count) × (count ≤ 1000000) }
    ensures { IfSome result (λ totals. totals ≡ totals_of conf number count) }
{
    let mut index = match Local::<NoKeeper, Window>::open_local(alloc, conf, NoKeeper) {
        Ok(index) => index,
        Err(_) => return None,
    };
    let loaded = run_load(alloc, &mut index, number, count);
    let _keeper = index.into_keeper();
    match loaded {
        Ok(totals) => Some(totals),
        Err(IndexError::Memory) => None,
        Err(IndexError::Store | IndexError::Full { .. }) => unreachable!(),
    }
}

/// Makes the workload, and writes what comes of it.
pub fn load<O: Sink>(alloc: Global, conf: Conf, number: u64, count: u64, out: &mut O) -> RunStatus
    requires { (0 < count) × (count ≤ 1000000) }
    ensures does { Loads (summary_of (totals_of conf number count))
        (outgoing (O.tells out.old) (O.written out.old) (O.faults out.old) (O.sure out.old))
        (outgoing (O.tells out.new) (O.written out.new) (O.faults out.new) (O.sure out.new)) result }
    ensures untouched { result ≡ statuses.Memory → out.new ≡ out.old }
    ensures cause { result ≡ statuses.WriteFault → Rose (O.faults out.old) (O.faults out.new) }
    ensures room { result ≡ statuses.WriteFault → O.sure out.old < length (summary_of (totals_of conf number count)) }
{
    let Some(totals) = totals(alloc, conf, number, count) else {
        return RunStatus::Memory;
    };
    let text = summary(&totals);
    match send(out, text.as_str().as_bytes()) {
        Ok(()) => RunStatus::Done,
        Err(Failed) => RunStatus::WriteFault,
    }
}
