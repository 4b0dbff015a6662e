//! Subgraph SALSA: posts by the mass that the seed users' own interactions spread, without any randomness.
//!
//! Contracts see the masses as pairs of a post and its units, in ascending order of the posts. `subgraph` takes memory
//! for the edges, the vertices and the masses.
#![tactic(auto)]

mod lists;
mod masses;
mod number;
mod relaid;
mod step;
mod vertices;

pub use masses::{Masses, subgraph};
