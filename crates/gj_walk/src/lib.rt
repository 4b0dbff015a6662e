//! Random walks from seed users to posts, by the words of a generator.
//!
//! Contracts see a walk as the posts that it visits, one step a word. `walk` takes memory for the visits alone.
#![tactic(auto)]

mod state;
mod steps;

pub use state::State;
pub use steps::{Visits, walk};
