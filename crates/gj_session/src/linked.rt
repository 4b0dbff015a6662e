//! A link as where a session's bytes come in and go out.
ghost use Rattle.std.specs.Prelude.{◌≡◌, ◌<◌, ◌≤◌, IsTrue, IsOk, IfOk, length};

use crate::wire::Wire;
use gj_base::{Failed, Link};

/// A link, by itself.
pub(crate) struct Wired<L> {
    pub link: L,
}

/// What is beside a link: nothing.
#[derive(Drop)]
pub(crate) struct Beside;

impl<L: Link> Wire<Beside> for Wired<L> {
    ghost use Rattle.gj_base.specs.Streams.{incoming, outgoing};

    ghost coming = { λ s o. incoming (L.tells s.link) (L.stream s.link) (L.read_faults s.link) (L.reads s.link) };

    ghost going = { λ s o. outgoing (L.tells s.link) (L.written s.link) (L.write_faults s.link) (L.sure s.link) };

    ghost steady = { λ s o. L.steady s.link };

    fn take(&mut self, _out: &mut Beside, into: &mut [u8]) -> Result<usize, Failed> {
        self.link.read(into)
    }

    fn put(&mut self, _out: &mut Beside, piece: &[u8]) -> Result<usize, Failed> {
        self.link.write(piece)
    }
}
