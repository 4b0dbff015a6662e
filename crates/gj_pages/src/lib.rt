//! Lines of pages, as they are applied to a follower.
//!
//! Contracts see the input and the output as the bytes that were taken and written, and the follower as what its graph
//! shows. `follow_lines` takes room for one line, and memory for each page as it is read.
#![tactic(auto)]

mod answering;
mod end;
mod following;
mod line;
mod sending;

pub use end::FollowEnd;
pub use following::follow_lines;
pub use line::MAX_LINE;
