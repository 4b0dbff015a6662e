//! Interactions by numbers.

use gj_base::Kind;

/// An interaction by the numbers of its vertices.
#[derive(Clone, Copy)]
pub struct Edge {
    pub user: u32,
    pub post: u32,
    pub kind: Kind,
    pub at: u64,
}

/// Where an interaction leads: the number of the vertex across, the kind and the moment.
#[derive(Clone, Copy, Debug, PartialEq, Eq)]
pub struct End {
    pub vertex: u32,
    pub kind: Kind,
    pub at: u64,
}
