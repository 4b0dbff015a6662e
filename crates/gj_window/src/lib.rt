//! The window: its newest interactions lie in pools, and the full segments before them in one contiguous form, where each
//! vertex is found once.
//!
//! Contracts see a `Window` as what it shows, with the forms of its segments. `make` takes all its memory; beside it only
//! `edges_of` takes any, for its answer.
#![tactic(auto)]

mod reading;
mod segments;
mod turning;
mod window;

pub use window::Window;
