//! The cells of each vertex of one side of a segment, in memory that is taken once.
//!
//! Contracts see a pool as one list of cells per vertex, an [`EdgePool`] with the number of pushes between two clears
//! beside it. `new` takes all memory, and cells are touched as slices are cut; no other call takes any, and none has an
//! answer for want of room.
#![tactic(auto)]

mod edge_pool;
pub mod laws;
mod levels;
mod regular_pool;
mod slices;

pub use edge_pool::EdgePool;
pub use regular_pool::RegularPool;
