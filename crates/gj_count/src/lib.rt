//! Second degree by count: the posts that seed users interacted with, by the sum of the weights of these seeds.
//!
//! Contracts see the weights as pairs of a post and its weight, in ascending order of the posts. `count_second` takes
//! memory for each distinct post that a seed interacted with.
#![tactic(auto)]

mod counting;
mod post_sums;
mod seed_sum;

pub use counting::{Weights, count_second};
