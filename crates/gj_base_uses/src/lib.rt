//! What all crates share, as its callers use it, in tests.
#![tactic(auto)]

#[cfg(test)]
mod base_tests;
