//! How a run ended, as a script sees it.

use gj_base::KeptConf;
use gj_keep::OpenError;
use gj_session::End;

/// The most reads of a run over an input.
pub const TURNS: u64 = 1_099_511_627_776;

/// How a run ended. The number of each is the program's status.
#[derive(Clone, Copy, Debug, PartialEq, Eq)]
pub enum RunStatus {
    /// 0: the whole input was answered, or the summary written, or all connections served and both lines written.
    Done,
    /// 2: the arguments ask for nothing that the program does.
    Usage,
    /// 3: reading the input failed.
    ReadFault,
    /// 4: writing to the output failed. After a fault of the door that one is told.
    WriteFault,
    /// 5: a call of the store failed before the session or the workers.
    StoreFault,
    /// 6: the input ended inside a message or a line.
    Truncated,
    /// 7: no memory was found before the session, the workers or the summary, or for a page.
    Memory,
    /// 8: the door could not be opened at the port, or a call of it failed.
    DoorFault,
    /// 9: a refusal, or a message that asks for close, ended the session, or a line is longer than one may be.
    StoppedEarly,
    /// 10: more reads were needed than are allowed.
    TooManyReads,
    /// 11: a store keeps another configuration than the asked one.
    ConfDiffers { kept: KeptConf, asked: KeptConf },
    /// 12: the row with this index is the first that is none of a history.
    KeptRow { row: u64 },
    /// 13: no place for a reader was granted.
    NoPlace,
}

impl RunStatus {
    ghost use Rattle.std.specs.Prelude.{◌≡◌};
    ghost use Rattle.gj_program.specs.Statuses.{code_of};

    /// The program's status.
    pub fn code(self) -> u8
        ensures { result ≡ code_of self }
    {
        match self {
            RunStatus::Done => 0,
            RunStatus::Usage => 2,
            RunStatus::ReadFault => 3,
            RunStatus::WriteFault => 4,
            RunStatus::StoreFault => 5,
            RunStatus::Truncated => 6,
            RunStatus::Memory => 7,
            RunStatus::DoorFault => 8,
            RunStatus::StoppedEarly => 9,
            RunStatus::TooManyReads => 10,
            RunStatus::ConfDiffers { .. } => 11,
            RunStatus::KeptRow { .. } => 12,
            RunStatus::NoPlace => 13,
        }
    }
}

ghost use Rattle.std.specs.Prelude.{◌≡◌, ◌≢◌};
ghost use Rattle.gj_program.specs.Statuses.{status_of_end, status_of_refusal};
ghost use Rattle.gj_keep.specs.declared.opening.OpenError.TheVariants.{Place};
ghost use Rattle.gj_program.specs.declared.run_status.RunStatus.TheVariants as statuses;

/// The status of a session by its end.
pub fn status_of(end: End) -> RunStatus
    ensures exact { result ≡ status_of_end end }
    ensures local { (result ≢ statuses.DoorFault) × (result ≢ statuses.NoPlace) }
{
    match end {
        End::Finished => RunStatus::Done,
        End::Closed | End::Stopped(_) => RunStatus::StoppedEarly,
        End::Truncated => RunStatus::Truncated,
        End::ReadFault => RunStatus::ReadFault,
        End::WriteFault => RunStatus::WriteFault,
        End::Turns => RunStatus::TooManyReads,
    }
}

/// The status of a refused opening of a local index, which asks for no reader's place.
pub fn status_of_refusal(why: OpenError) -> RunStatus
    requires { why ≢ Place }
    ensures exact { result ≡ status_of_refusal why }
    ensures local { (result ≢ statuses.DoorFault) × (result ≢ statuses.NoPlace) }
{
    match why {
        OpenError::Memory => RunStatus::Memory,
        OpenError::Store => RunStatus::StoreFault,
        OpenError::ConfDiffers { kept, asked } => RunStatus::ConfDiffers { kept, asked },
        OpenError::KeptRow { row } => RunStatus::KeptRow { row },
        OpenError::Place => unreachable!(),
    }
}
