//! What the arguments of the program ask for: a command with the values of its options.
//!
//! Contracts see the arguments as their texts. `clap` says which options the arguments give; their values are read
//! here. `read_words` and `read_service` take memory for what `clap` keeps while it reads.
#![tactic(auto)]

mod numbers;
mod options;
mod reading;
mod serving;
mod task;

pub use reading::read_words;
pub use serving::read_service;
pub use task::{Service, Task, WordsError};
