//! Where a session's bytes come in and go out: a source with a sink beside it.
ghost use Rattle.std.specs.Prelude.{◌≡◌, ◌<◌, ◌≤◌, IsTrue, IsOk, IfOk, length};

use gj_base::{Failed, Sink, Source};

/// Where a session's bytes come in and go out. `O` is what stands beside it: the sink of a source.
pub(crate) trait Wire<O> {
    ghost use Rattle.std.specs.Prelude.{ℕ, Bool, List, ◌≡◌, ◌+◌, ◌<◌, ◌≤◌, IsTrue, IfOk, IsOk, length};
    ghost use Rattle.gj_base.specs.Causes.{HasCause, one_more};
    ghost use Rattle.gj_base.specs.Stream.{ReadsFrom, WritesTo};
    ghost use Rattle.gj_base.specs.Streams.{Incoming, Outgoing};

    ghost coming: { Self → O → Incoming };

    ghost going: { Self → O → Outgoing };

    // No read fails from here on.
    ghost steady: { Self → O → Type 0 };

    /// Takes the next bytes to the front of `into`, and answers how many; 0 is the end of the input.
    fn take(&mut self, out: &mut O, into: &mut [u8]) -> Result<usize, Failed>
        ensures in_range { IfOk result (λ n. n ≤ length into.old) }
        ensures told { (coming self.new out.new).tells ≡ (coming self.old out.old).tells }
        ensures bytes { IsTrue (coming self.old out.old).tells → ReadsFrom (coming self.old out.old).stream (coming self.new out.new).stream result into.new }
        ensures made { (coming self.new out.new).reads ≡ one_more (coming self.old out.old).reads }
        ensures cause { HasCause (coming self.old out.old).faults (coming self.new out.new).faults result }
        ensures steady { steady self.old out.old → IsOk result × steady self.new out.new }
        ensures others { going self.new out.new ≡ going self.old out.old };

    /// Takes a first part of the piece, of at least one byte, and answers its length.
    fn put(&mut self, out: &mut O, piece: &[u8]) -> Result<usize, Failed>
        requires { 0 < length piece.now }
        ensures in_range { IfOk result (λ n. (0 < n) × (n ≤ length piece.now)) }
        ensures told { (going self.new out.new).tells ≡ (going self.old out.old).tells }
        ensures bytes { IsTrue (going self.old out.old).tells → WritesTo (going self.old out.old).written (going self.new out.new).written result piece.now }
        ensures cause { HasCause (going self.old out.old).faults (going self.new out.new).faults result }
        ensures sure { 0 < (going self.old out.old).sure → IsOk result }
        ensures spent { IfOk result (λ n. (going self.old out.old).sure ≤ (going self.new out.new).sure + n) }
        ensures steady { steady self.old out.old → steady self.new out.new }
        ensures others { coming self.new out.new ≡ coming self.old out.old };
}

impl<S: Source, O: Sink> Wire<O> for S {
    ghost use Rattle.gj_base.specs.Streams.{incoming, outgoing};

    ghost coming = { λ s o. incoming (S.tells s) (S.stream s) (S.faults s) (S.reads s) };

    ghost going = { λ s o. outgoing (O.tells o) (O.written o) (O.faults o) (O.sure o) };

    ghost steady = { λ s o. S.steady s };

    fn take(&mut self, _out: &mut O, into: &mut [u8]) -> Result<usize, Failed> {
        self.read(into)
    }

    fn put(&mut self, out: &mut O, piece: &[u8]) -> Result<usize, Failed> {
        out.write(piece)
    }
}
