//! A client that waits for each reply.

use gj_base::{Failed, Link, MemoryLink};

/// A client that sends a message only once the replies to all before have come whole: a read before that fails. All its
/// messages come in one piece each, and all replies to them have one length.
#[derive(Drop)]
pub(crate) struct Waiting {
    link: MemoryLink,
    reply: usize,
    due: usize,
    reads: u64,
    read_faults: u64,
}

impl Waiting {
    pub(crate) fn new(link: MemoryLink, reply: usize) -> Self {
        Waiting {
            link,
            reply,
            due: 0,
            reads: 0,
            read_faults: 0,
        }
    }

    /// How many bytes have come.
    pub(crate) fn came(&self) -> usize {
        self.link.sink().written().len()
    }
}

impl Link for Waiting {
    ghost use Rattle.std.specs.Prelude.{true};
    ghost use Rattle.gj_base.specs.MemoryLinks.{source_of, sink_of};
    ghost use Rattle.gj_base.specs.MemoryStreams.{reading_of};
    ghost use Rattle.gj_base.specs.MemorySinks.{bytes_in, faults_in, sure_of};

    ghost tells = { λ _. true };

    ghost stream = { λ l. reading_of (source_of l.link) };

    ghost written = { λ l. bytes_in (sink_of l.link) };

    ghost reads = { λ l. l.reads };

    ghost read_faults = { λ l. l.read_faults };

    ghost write_faults = { λ l. faults_in (sink_of l.link) };

    ghost steady = { λ _. ⊥ };

    ghost sure = { λ l. sure_of (sink_of l.link) };

    fn read(&mut self, into: &mut [u8]) -> Result<usize, Failed> {
        self.reads = self.reads.saturating_add(1);
        if self.came() != self.due {
            self.read_faults = self.read_faults.saturating_add(1);
            return Err(Failed);
        }
        match self.link.read(into) {
            Ok(n) => {
                self.due = self.due.saturating_add(self.reply);
                Ok(n)
            }
            Err(Failed) => {
                self.read_faults = self.read_faults.saturating_add(1);
                Err(Failed)
            }
        }
    }

    fn write(&mut self, piece: &[u8]) -> Result<usize, Failed> {
        self.link.write(piece)
    }
}
