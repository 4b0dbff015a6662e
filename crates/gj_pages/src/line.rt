//! The line that is being read.
ghost use Rattle.std.specs.Prelude.{◌≡◌, ◌≢◌, ◌+◌, ◌<◌, ◌≤◌, ◌↔◌, [], ◌∷◌, ◌++◌, IfOk, OnOk, OnErr, IfSome, IsTrue, MatchOption, length};
ghost use Rattle.gj_pages.specs.Lines.{IsPart};

use gj_base::Memory;
use memchr::memchr;
use std::alloc::Global;
use std::marker::Model;

/// The most bytes of a line, without its line feed.
pub const MAX_LINE: usize = 1_048_576;

/// There is no room for a line that is longer than `MAX_LINE`.
#[derive(Clone, Copy, Debug, Drop, PartialEq, Eq)]
pub(crate) struct TooLong;

/// A line as far as it was read, which contracts see as its bytes. It takes all its room at once.
#[derive(Drop)]
pub(crate) struct Line {
    bytes: Vec<u8>,
}

impl Model for Line {
    ghost use Rattle.std.specs.Prelude.{ℕ, List, ◌≤◌};
    ghost use Rattle.std.specs.Vec.{vec_len, vec_capacity};

    ghost Value = { List ℕ };

    ghost view = { λ l. l.bytes.items };

    ghost invariant = { λ l. (vec_len l.bytes ≤ 1048576) × (1048576 ≤ vec_capacity l.bytes) };
}

impl Line {
    /// The empty line. It takes room for `MAX_LINE` bytes, which is all the memory that it takes.
    pub fn new(alloc: Global) -> Result<Line, Memory>
        ensures { IfOk result (λ line. line ≡ []) }
    {
        match Vec::with_capacity(alloc, MAX_LINE) {
            Ok(bytes) => Ok(Line { bytes }),
            Err(_) => Err(Memory),
        }
    }

    /// Puts the part at the end, where there is room for all of it.
    pub fn put(&mut self, part: &[u8]) -> Result<(), TooLong>
        ensures ok { OnOk result (self.new ≡ self.old ++ part.now) }
        ensures room { OnOk result (length self.old + length part.now ≤ 1048576) }
        ensures long { OnErr result (1048576 < length self.old + length part.now) }
        ensures err { OnErr result (self.new ≡ self.old) }
    {
        if part.len() > MAX_LINE - self.bytes.len() {
            return Err(TooLong);
        }
        match self.bytes.extend_from_slice(part) {
            Ok(()) => Ok(()),
            Err(_) => unreachable!(),
        }
    }

    /// Drops all of it.
    pub fn clear(&mut self)
        ensures { self.new ≡ [] }
    {
        self.bytes.clear();
    }

    /// Its bytes.
    pub fn as_slice(&self) -> &[u8]
        ensures { result.now ≡ self.now }
    {
        self.bytes.as_slice()
    }
}

/// Bytes that were cut at their first line feed.
#[derive(Clone, Copy)]
pub(crate) struct Cut<'a> {
    pub part: &'a [u8],
    pub next: &'a [u8],
}

/// What stands before the first line feed, and what after it; `None` where there is none.
pub(crate) fn cut_line(bytes: &[u8]) -> Option<Cut<'_>>
    ensures cut { IfSome result (λ cut. bytes.now ≡ cut.part.now ++ 10 ∷ cut.next.now) }
    ensures first { MatchOption result (IsPart bytes.now) (λ cut. IsPart cut.part.now) }
{
    let at = memchr(b'\n', bytes)?;
    Some(Cut {
        part: &bytes[..at],
        next: &bytes[at + 1..],
    })
}
