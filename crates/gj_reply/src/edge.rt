//! What a vertex's latest interactions lead to.

use gj_base::{Kind, List};

/// The vertex across an interaction, and the interaction's kind.
#[derive(Clone, Copy, Debug)]
pub struct EdgeOf {
    pub id: u64,
    pub kind: Kind,
}

/// Interactions of a vertex, newest first.
pub type EdgeList = List<EdgeOf>;
