//! An interaction by numbers.

use gj_base::Kind;

/// An interaction by the numbers of its vertices. Both are below 65536.
#[derive(Clone, Copy)]
pub struct Edge {
    pub user: u16,
    pub post: u16,
    pub kind: Kind,
    pub at: u64,
}
