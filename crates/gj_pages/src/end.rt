//! How the lines of an input end.

/// How applying the lines of an input ended.
#[derive(Clone, Copy, Debug, Drop, PartialEq, Eq)]
pub enum FollowEnd {
    /// The whole input was taken, and it ended between lines: the last line was written.
    Done,
    /// The input ended inside a line that isn't empty.
    Truncated,
    /// A line is longer than `MAX_LINE`. Those before it were answered.
    LongLine,
    /// As many reads as are allowed were made, and each took at least one byte.
    TooManyReads,
    /// A read failed.
    ReadFault,
    /// A write failed.
    WriteFault,
    /// No memory was found for the line's room or for a page. It may come in place of any other end.
    Memory,
}
