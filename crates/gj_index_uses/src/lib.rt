//! The parts of the index and the window, as their callers use them, in tests.
#![tactic(auto)]

#[cfg(test)]
mod compact_tests;
#[cfg(test)]
mod pool_tests;
#[cfg(test)]
mod segment_tests;
#[cfg(test)]
mod window_tests;
