//! A window that follows the history of another server by pages of it.
ghost use Rattle.std.specs.Prelude.{◌≡◌, ◌≢◌, ◌+◌, ◌%◌, ◌^◌, ◌<◌, ◌≤◌, IsTrue, length};
ghost use Rattle.gj_base.specs.Streams.{incoming, outgoing};
ghost use Rattle.gj_program.specs.Follows.{Follows, status_of_follow};
ghost use Rattle.gj_program.specs.Replays.{Causes};
ghost use Rattle.gj_program.specs.declared.run_status.RunStatus.TheVariants as statuses;

use crate::run_status::{RunStatus, TURNS};
use gj_base::{Conf, Grow, Sink, Source};
use gj_follow::Follower;
use gj_pages::{FollowEnd, follow_lines};
use std::alloc::Global;

/// The status of a follower by its end.
fn status_of_follow(end: FollowEnd) -> RunStatus
    ensures exact { result ≡ status_of_follow end }
    ensures local { (result ≢ statuses.Usage) × (result ≢ statuses.DoorFault) × (result ≢ statuses.NoPlace) }
{
    match end {
        FollowEnd::Done => RunStatus::Done,
        FollowEnd::Truncated => RunStatus::Truncated,
        FollowEnd::LongLine => RunStatus::StoppedEarly,
        FollowEnd::TooManyReads => RunStatus::TooManyReads,
        FollowEnd::ReadFault => RunStatus::ReadFault,
        FollowEnd::WriteFault => RunStatus::WriteFault,
        FollowEnd::Memory => RunStatus::Memory,
    }
}

/// Applies the pages that the input's lines are to a window that is empty at the place, and answers each line on `out`. It
/// takes the memory of the window and of a line before it reads, and that of each page as it is read.
pub fn follow<W: Grow + Drop, S: Source, O: Sink>(
    alloc: Global,
    conf: Conf,
    start: u64,
    input: &mut S,
    out: &mut O,
) -> RunStatus
    requires aligned { start % conf.capacity ≡ 0 }
    requires in_range { start < 2 ^ 48 }
    ensures does { Follows conf start
        (incoming (S.tells input.old) (S.stream input.old) (S.faults input.old) (S.reads input.old))
        (incoming (S.tells input.new) (S.stream input.new) (S.faults input.new) (S.reads input.new))
        (outgoing (O.tells out.old) (O.written out.old) (O.faults out.old) (O.sure out.old))
        (outgoing (O.tells out.new) (O.written out.new) (O.faults out.new) (O.sure out.new)) result }
    ensures local { (result ≢ statuses.Usage) × (result ≢ statuses.DoorFault) × (result ≢ statuses.NoPlace) }
    ensures causes { Causes
        (incoming (S.tells input.old) (S.stream input.old) (S.faults input.old) (S.reads input.old))
        (incoming (S.tells input.new) (S.stream input.new) (S.faults input.new) (S.reads input.new))
        (outgoing (O.tells out.old) (O.written out.old) (O.faults out.old) (O.sure out.old))
        (outgoing (O.tells out.new) (O.written out.new) (O.faults out.new) (O.sure out.new)) (S.steady input.old) result }
    ensures room { IsTrue (O.tells out.old) → result ≡ statuses.WriteFault → O.sure out.old + length (O.written out.old) ≤ length (O.written out.new) }
{
    let Ok(mut follower) = Follower::<W>::new(alloc, conf, start) else {
        return RunStatus::Memory;
    };
    status_of_follow(follow_lines(alloc, &mut follower, input, out, TURNS))
}
