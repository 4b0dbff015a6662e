//! A service: an index over a keeper, served to the connections of a door by workers, and told by two lines.
//!
//! Contracts see how a service ended, what it wrote, the door that comes back, and the history that the keeper keeps then.
//! All memory that follows the number of workers is taken before the first line, and none after the workers.
#![tactic(auto)]

mod closing;
mod end;
mod lines;
mod listening;
mod opened;
mod plan;
mod prepared;

pub use closing::{Rest, serve_desks};
pub use end::{ServiceEnd, end_after};
pub use listening::{Listened, serve_listening};
pub use opened::{Over, serve_over};
pub use plan::Plan;
