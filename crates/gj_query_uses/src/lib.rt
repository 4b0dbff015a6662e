//! Walks, subgraphs, similar posts, counts and proofs over the plain graph, in tests.
#![tactic(auto)]

#[cfg(test)]
mod count_tests;
#[cfg(test)]
mod proof_tests;
#[cfg(test)]
mod similar_tests;
#[cfg(test)]
mod subgraph_tests;
#[cfg(test)]
mod walk_tests;
