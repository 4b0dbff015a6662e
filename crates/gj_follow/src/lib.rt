//! Pages of a history, and a follower that applies them.
//!
//! Contracts see a `Follower` as what its graph shows. `page_of` and `read_page` take memory, and `Follower::new` all that
//! the follower will need; taking pages takes none.
#![tactic(auto)]

mod follower;
mod page;
mod paging;
mod reading;
mod table;

pub use follower::{Follower, PageTaken};
pub use page::{MAX_PAGE, Page};
pub use paging::{PageError, page_of};
pub use reading::{PageRefusal, read_page};
