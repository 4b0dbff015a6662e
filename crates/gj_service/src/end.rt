//! How a service ends.
ghost use Rattle.std.specs.Prelude.{◌≡◌};
ghost use Rattle.gj_service.specs.Services.{end_of};

use gj_keep::OpenError;
use gj_serve::DoorEnd;

/// How a service ended.
#[derive(Clone, Copy, Debug, Drop, PartialEq, Eq)]
pub enum ServiceEnd {
    /// The stated number of connections was served, or the door was closed, and both lines were written.
    Done,
    /// A line was not written whole.
    WriteFault,
    /// The door could not be opened, or a call of it failed, whatever became of the last line.
    DoorFault,
    /// No memory was found for the workers.
    Memory,
    /// The index was not opened.
    Refused(OpenError),
}

/// The end of a service after its workers, by the end of the door and by whether the last line was written.
pub fn end_after(end: DoorEnd, wrote: bool) -> ServiceEnd
    ensures { result ≡ end_of end wrote }
{
    match end {
        DoorEnd::Fault => ServiceEnd::DoorFault,
        DoorEnd::Spent | DoorEnd::Closed => {
            if wrote {
                ServiceEnd::Done
            } else {
                ServiceEnd::WriteFault
            }
        }
    }
}
