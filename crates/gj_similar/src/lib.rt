//! Posts that share users with a post, by the words of a generator, and their order.
//!
//! Contracts see a query as the posts that it shares, one step a word, and a score as its three numbers. `similar` takes
//! memory for the co-visits, and `order_scores` for the best scores alone.
#![tactic(auto)]

mod order;
mod score;
mod state;
mod steps;

pub use order::order_scores;
pub use score::{Score, ScoreList};
pub use state::State;
pub use steps::{Shared, similar};
