//! How publication is called: the writer under a lock, seats in threads, and one opening from a keeper to the keeper.
//!
//! `accept` says what survives the lock. `one_day` opens, lets each seat work, settles, and hands the keeper back with
//! what is known of it: the forms that a server takes. The tests of publication stand here, so that the crate that they
//! test is proved once.
#![tactic(auto)]

mod day;
mod locked;
#[cfg(test)]
mod noted_tests;
#[cfg(test)]
mod tests;

pub use day::one_day;
pub use locked::{Desk, accept, serve};
