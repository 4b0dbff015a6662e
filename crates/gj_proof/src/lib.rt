//! Rankings of posts by their numbers of visits or units, and the seed users that explain them.
//!
//! Contracts see a ranking as the list of its posts, each with its number and its proof. Each call takes memory for its
//! result, and the calls that look at the seed users' interactions for these too.
#![tactic(auto)]

mod across;
mod best;
mod explain;
mod laws;
mod order;
mod ranked;

pub use explain::{explained, proofs};
pub use laws::ranking_law;
pub use order::rank;
pub use ranked::{Ranked, RankedList};
