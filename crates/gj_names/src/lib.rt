//! The identifiers of one side of a window or of a segment, numbered in the order of their first appearance.
//!
//! Contracts see `Names` as that list, beside the room that they were made with. `new` takes all memory; no other call
//! takes any. What isn't used isn't touched: the table by which an identifier is found has two to four slots for each, and
//! is doubled inside the memory that `new` took.
#![tactic(auto)]

mod names;
mod table;
#[cfg(test)]
mod tests;

pub use names::Names;
