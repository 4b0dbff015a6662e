//! The book of what is accepted, kept by a keeper; the local index over it; and keepers in memory.
//!
//! Contracts see a book by its configuration, the first place that is kept, the length of the history, what its keeper
//! keeps, and the keeper's faults. Opening takes memory for the rows and the graphs; `keep` takes what the keeper takes.
#![tactic(auto)]

mod book;
mod filling;
mod local;
mod memory_keeper;
mod memory_keepers;
mod no_keeper;
mod opening;
mod reading;

pub use book::Book;
pub use local::Local;
pub use memory_keeper::MemoryKeeper;
pub use memory_keepers::MemoryKeepers;
pub use no_keeper::{NoKeeper, NoKeepers};
pub use opening::{OpenError, OpenRefused};
