//! What a ranking has.

use gj_base::{IdList, List};

/// A post of a ranking with its number of visits or units, and the seed users that explain it, ascending.
#[derive(Debug, Drop)]
pub struct Ranked {
    pub id: u64,
    pub number: u64,
    pub proof: IdList,
}

/// A ranking, the first first.
pub type RankedList = List<Ranked>;
