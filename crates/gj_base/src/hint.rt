//! Where a vertex may be.

/// Where a graph looks for a vertex first. Any place is right; a good one saves a lookup.
#[derive(Clone, Copy, Debug, PartialEq, Eq)]
pub struct Hint {
    pub place: u32,
}

/// No vertex has this place.
pub const NO_HINT: Hint = Hint { place: u32::MAX };
