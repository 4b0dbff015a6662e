//! The program as its `main` calls it, in tests: runs over streams, stores and doors in memory, some of which fail.
#![tactic(auto)]

#[cfg(test)]
mod edge_tests;
#[cfg(test)]
mod follow_tests;
#[cfg(test)]
mod number_tests;
#[cfg(test)]
mod serve_tests;
#[cfg(test)]
mod store_tests;
#[cfg(test)]
mod tests;
#[cfg(test)]
mod window_tests;
