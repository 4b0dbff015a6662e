//! What the bodies and paths of messages ask for.
//!
//! Contracts see a body as the JSON value that `serde_json` promises for its bytes, and say which ask or which refusal
//! it is. `read_request` takes memory; the names take none.
#![tactic(auto)]

mod batch;
mod count;
mod fields;
mod forms;
mod items;
mod least;
mod name;
mod path;
mod plain;
mod plain_items;
mod refusal;
mod request;
mod seeds;

pub use name::Name;
pub use refusal::{Reason, Refusal};
pub use request::read_request;
