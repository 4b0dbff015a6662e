//! The segment that takes writes.
//!
//! Contracts see a `PoolSegment` as the list of its interactions, beside the number that it may hold. `new` takes all
//! memory; no other call takes any.
#![tactic(auto)]

mod edge;
mod half;
mod pool_segment;
mod view;

pub use pool_segment::PoolSegment;
