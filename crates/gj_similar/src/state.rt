//! Where a similarity query stands.

/// Where it stands: at its post, or at a user of it.
#[derive(Clone, Copy, Debug, PartialEq, Eq)]
pub enum State {
    Post,
    User(u64),
}
