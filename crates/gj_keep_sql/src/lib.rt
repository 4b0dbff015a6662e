//! A store in an SQLite file, as a keeper. The `sqlite3` tool reads the file.
//!
//! Its types tell nothing of what the file holds: contracts say when a call fails and how the faults are counted,
//! and tests show the rows. Opening, reading and the calls of `sqlite` take memory. No call waits for another process.
#![tactic(auto)]

mod answers;
mod append;
mod calls;
mod file_keeper;
mod migrate;
mod numbers;
mod reading;
mod sql_keeper;
mod sql_keepers;
mod tables;

pub use file_keeper::FileKeeper;
pub use sql_keeper::SqlKeeper;
pub use sql_keepers::SqlKeepers;
pub use tables::make_tables;
