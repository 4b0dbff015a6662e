//! The texts of replies: each reply's status, and its body byte for byte.
//!
//! Contracts see a body as a list of codes, which `body_of` says apart from the writer. `write_reply` takes the memory of
//! the body; `fixed_body` takes none.
#![tactic(auto)]

mod arrays;
mod bodies;
mod edge;
mod fixed;
mod pieces;
mod reply;
mod room;
mod status;
mod text;

pub use edge::{EdgeList, EdgeOf};
pub use fixed::{Fixed, fixed_body};
pub use reply::{KindCounts, Reply};
pub use status::Status;
pub use text::{Text, write_reply};
