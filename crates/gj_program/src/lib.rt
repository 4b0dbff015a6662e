//! What the program does, over whatever streams, stores and doors its `main` hands in: a service, a replay, a workload, or a
//! window that follows another server's history.
//!
//! Contracts see a run as what its arguments ask for, what it took and wrote, what the stores keep then, and its status.
//! Memory is taken for the window and the workers before the first answer or line, and for the asks, pages and replies later.
#![tactic(auto)]

mod arguments;
mod devices;
mod following;
mod lines;
mod loading;
mod local;
mod replaying;
mod run_status;
mod serving;

pub use arguments::words_of;
pub use devices::{StreamSink, StreamSource};
pub use local::{report, run_local};
pub use run_status::RunStatus;
pub use serving::{Ended, run_serve};
