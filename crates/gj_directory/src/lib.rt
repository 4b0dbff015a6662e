//! The interactions of a window by its vertices: those of its older part contiguous for each vertex, and of the others how
//! many each vertex has.
//!
//! Contracts see a `Directory` as two lists of interactions beside its names. `new` takes all its memory; beside it only
//! `edges_of` takes any, for its answer.
#![tactic(auto)]

mod directory;
mod half;
mod parts;
mod picking;
mod reads;

pub use directory::Directory;
