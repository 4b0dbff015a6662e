//! The program's arguments.

use crate::run_status::RunStatus;
use std::alloc::Global;
use std::env;
use std::io::ErrorKind;
use std::rt::Env;

/// The arguments after the program's name. One that isn't UTF-8 is a faulty command line, `Usage`; the list and its texts
/// take memory, and where none is found the error is `Memory`.
pub fn words_of(rt: &(impl Env + Alloc<A = Global>)) -> Result<Vec<String>, RunStatus> {
    let mut all = match env::args(rt) {
        Ok(all) => all,
        Err(error) => return Err(status_of(error.kind())),
    };
    let _program = all.next();
    let mut words = Vec::new(rt.alloc());
    for word in all {
        if words.push(word).is_err() {
            return Err(RunStatus::Memory);
        }
    }
    Ok(words)
}

/// The status of arguments that can't be told.
fn status_of(kind: ErrorKind) -> RunStatus {
    match kind {
        ErrorKind::OutOfMemory => RunStatus::Memory,
        _ => RunStatus::Usage,
    }
}
