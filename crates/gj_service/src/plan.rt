//! How much a service does.

/// How much a service does, and where.
#[derive(Clone, Copy, Debug)]
pub struct Plan {
    /// How many connections are served at once, 1 to 16.
    pub workers: u32,
    /// How many connections are served in all, 1 to 1000000000.
    pub sessions: u64,
    /// The port, 1 to 65535.
    pub port: u16,
}
