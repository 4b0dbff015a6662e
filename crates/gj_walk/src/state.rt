//! Where a walk stands.

/// Where a walk stands: about to take a seed user, at a user, or at a post.
#[derive(Clone, Copy, Debug, PartialEq, Eq)]
pub enum State {
    Seed,
    User(u64),
    Post(u64),
}
