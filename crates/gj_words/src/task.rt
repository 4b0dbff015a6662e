//! The commands.

/// What the arguments ask for. The capacity and the segments of the window are those of a configuration.
#[derive(Clone, Copy, Debug)]
pub enum Task<'a> {
    /// To answer a recorded stream of messages, over a window that the store at this path keeps, if one is named.
    Replay {
        capacity: u32,
        segments: u32,
        store: Option<&'a str>,
    },
    /// To make `count` interactions from a number, post them and walk over them.
    Load {
        capacity: u32,
        segments: u32,
        number: u64,
        count: u64,
    },
    /// To apply pages of a history to a follower whose first place is `start`, 0 to 281474976710655 and a multiple of the
    /// capacity.
    Follow {
        capacity: u32,
        segments: u32,
        start: u64,
    },
}

/// What the arguments of `serve` ask for: to serve connections at the port of this machine, over a window that the store
/// at this path keeps, if one is named. The capacity and the segments of the window are those of a configuration.
#[derive(Clone, Copy, Debug)]
pub struct Service<'a> {
    pub capacity: u32,
    pub segments: u32,
    pub store: Option<&'a str>,
    /// 1 to 16.
    pub workers: u32,
    /// How many connections are served, 1 to 1000000000.
    pub sessions: u64,
    /// 1 to 65535.
    pub port: u16,
}

/// Why arguments ask for nothing.
#[derive(Clone, Copy, Debug, Drop, PartialEq, Eq)]
pub enum WordsError {
    /// There is no first argument, or it is no command, or its options are not of their form and range.
    Usage,
    /// No memory was found.
    Memory,
}
