//! The contiguous form: the ends of each vertex beside each other, oldest first.
//!
//! Contracts see a `Lane` as one list of ends a vertex, and a `CompactSegment` as the list of its interactions. `new` takes
//! all memory, which is touched as it is used; no other call takes any. Once a lane is sealed, the kinds before each block
//! of 64 cells are counted and the moments of each block bounded, so that a heavy vertex is counted and searched by blocks;
//! no clause speaks of that.
#![tactic(auto)]

mod cells;
mod compact_segment;
mod counts;
mod edge;
mod lane;
mod part;
mod spans;
mod sums;
mod totals;
mod turns;
mod view;

pub use compact_segment::CompactSegment;
pub use counts::{Counts, NO_COUNTS};
pub use edge::{Edge, End};
pub use lane::Lane;
pub use turns::{fill, note_all, shed};
