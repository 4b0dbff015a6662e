//! A link over two streams in memory.
ghost use Rattle.std.specs.Prelude.{◌≡◌};

use crate::link::Link;
use crate::memory_sink::MemorySink;
use crate::memory_source::MemorySource;
use crate::outside::Failed;
use crate::sink::Sink;
use crate::source::Source;

/// A link that reads from a source in memory and writes to a sink in memory.
#[derive(Debug, Drop)]
pub struct MemoryLink {
    source: MemorySource,
    sink: MemorySink,
}

impl MemoryLink {
    ghost use Rattle.gj_base.specs.MemoryLinks.{source_of, sink_of};

    /// The link of the two. It takes no memory.
    pub fn new(source: MemorySource, sink: MemorySink) -> Self
        ensures source { source_of result ≡ source }
        ensures sink { sink_of result ≡ sink }
    {
        MemoryLink { source, sink }
    }

    /// Its sink. It takes no memory.
    pub fn sink(&self) -> &MemorySink
        ensures { result.now ≡ sink_of self.now }
    {
        &self.sink
    }
}

impl Link for MemoryLink {
    ghost use Rattle.std.specs.Prelude.{true};
    ghost use Rattle.gj_base.specs.MemoryLinks.{source_of, sink_of};
    ghost use Rattle.gj_base.specs.MemoryStreams.{reading_of, reads_of, faults_of, IsSteady};
    ghost use Rattle.gj_base.specs.MemorySinks.{bytes_in, faults_in, sure_of};

    ghost tells = { λ _. true };

    ghost stream = { λ l. reading_of (source_of l) };

    ghost written = { λ l. bytes_in (sink_of l) };

    ghost reads = { λ l. reads_of (source_of l) };

    ghost read_faults = { λ l. faults_of (source_of l) };

    ghost write_faults = { λ l. faults_in (sink_of l) };

    ghost steady = { λ l. IsSteady (source_of l) };

    ghost sure = { λ l. sure_of (sink_of l) };

    fn read(&mut self, into: &mut [u8]) -> Result<usize, Failed> {
        self.source.read(into)
    }

    fn write(&mut self, piece: &[u8]) -> Result<usize, Failed> {
        self.sink.write(piece)
    }
}
