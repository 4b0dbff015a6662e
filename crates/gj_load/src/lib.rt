//! A workload made from a number: interactions that are posted to an index, and walks over its window.
//!
//! Contracts see the workload as the list of its interactions, and what comes of it as totals over their history.
//! `run_load` takes memory for one batch and for one walk at a time, beside what the index takes.
#![tactic(auto)]

mod generator;
mod posting;
mod totals;
mod walks;

pub use posting::run_load;
pub use totals::Totals;
