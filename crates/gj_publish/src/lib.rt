//! Publication: one writer, and seats that look at one history without waiting.
//!
//! Two copies of a graph are kept. Seats look at one of them by `Seat::look`, which takes no lock and no memory; the
//! writer, under a lock of its caller's, changes the other and then swaps them. `Writer::post` keeps a batch, then lets
//! it enter the history, then shows it. Contracts see the history as a list of entries; a seat's front is a beginning of
//! it, and the copies stand for one. `open_index` takes the memory of both copies; after it a post takes that of one
//! operation.
#![tactic(auto)]

mod batch;
mod copies;
mod counted;
mod counts;
mod grants;
mod opening;
mod pane;
mod refusal;
mod seat;
mod writer;

pub use batch::Batch;
pub use copies::Copies;
pub use grants::Grants;
pub use opening::{GraphWriter, open_index};
pub use pane::Pane;
pub use refusal::{NoLook, NotedError, PostError};
pub use seat::Seat;
pub use writer::{Answer, SeatCall, Writer};
