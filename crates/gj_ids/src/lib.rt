//! The identifiers of one side of a segment, numbered in the order of their first appearance.
//!
//! Contracts see an `IdMap` as that list, beside the room that it was made with. `new` takes all memory; no other call
//! takes any.
#![tactic(auto)]

mod id_map;
mod table;
#[cfg(test)]
mod tests;

pub use id_map::IdMap;
