//! A producer's numbered batch acts once.
//!
//! Contracts see a `Once` as a list of what was noted last of each producer. `Once::new` takes all its memory, and
//! `post_all` that of its answers; posts take what the index takes.
#![tactic(auto)]

mod noted_index;
mod once;
mod once_index;
mod posting;
#[cfg(test)]
mod shaky;
#[cfg(test)]
mod tests;
mod verdict;

pub use noted_index::{Noted, NotedIndex, OnceError};
pub use once::Once;
pub use once_index::OnceIndex;
pub use posting::{Answer, Call, post_all};
pub use verdict::{LastBatch, Verdict};
