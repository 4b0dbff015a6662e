//! Bytes that come in and go out over one connection.
ghost use Rattle.std.specs.Prelude.{◌≡◌, ◌<◌, ◌≤◌, IsTrue, IsOk, IfOk, length};
ghost use Rattle.gj_base.specs.Causes.{HasCause, one_more};
ghost use Rattle.gj_base.specs.Stream.{ReadsFrom, WritesTo};

use crate::outside::Failed;

/// A connection: bytes that come in and bytes that go out, piece by piece.
pub trait Link {
    ghost use Rattle.std.specs.Prelude.{ℕ, Bool, List, ◌≡◌, ◌+◌, ◌<◌, ◌≤◌, IsTrue, IfOk, IsOk, length};
    ghost use Rattle.gj_base.specs.Causes.{HasCause, one_more};
    ghost use Rattle.gj_base.specs.Stream.{Reading, ReadsFrom, WritesTo};

    // Whether it tells its bytes. Memory does, a real connection doesn't.
    ghost tells: { Self → Bool };

    // The bytes taken so far and the bytes left, where they are told.
    ghost stream: { Self → Reading };

    // The bytes written, where they are told.
    ghost written: { Self → List ℕ };

    // How many reads were made.
    ghost reads: { Self → ℕ };

    // How often a read failed.
    ghost read_faults: { Self → ℕ };

    // How often a write failed.
    ghost write_faults: { Self → ℕ };

    // No read fails from here on.
    ghost steady: { Self → Type 0 };

    // How many bytes it takes from here on before a write may fail.
    ghost sure: { Self → ℕ };

    /// Takes the next bytes to the front of `into`, and answers how many. For a slice that isn't empty, 0 is the end of
    /// the input. It may wait where the connection is real.
    fn read(&mut self, into: &mut [u8]) -> Result<usize, Failed>
        ensures in_range { IfOk result (λ n. n ≤ length into.old) }
        ensures told { tells self.new ≡ tells self.old }
        ensures bytes { IsTrue (tells self.old) → ReadsFrom (stream self.old) (stream self.new) result into.new }
        ensures made { reads self.new ≡ one_more (reads self.old) }
        ensures cause { HasCause (read_faults self.old) (read_faults self.new) result }
        ensures steady { steady self.old → IsOk result × steady self.new }
        ensures others { (written self.new ≡ written self.old) × (write_faults self.new ≡ write_faults self.old) × (sure self.new ≡ sure self.old) };

    /// Takes a first part of the piece, of at least one byte, and answers its length. It may wait where the connection is
    /// real.
    fn write(&mut self, piece: &[u8]) -> Result<usize, Failed>
        requires { 0 < length piece.now }
        ensures in_range { IfOk result (λ n. (0 < n) × (n ≤ length piece.now)) }
        ensures told { tells self.new ≡ tells self.old }
        ensures bytes { IsTrue (tells self.old) → WritesTo (written self.old) (written self.new) result piece.now }
        ensures cause { HasCause (write_faults self.old) (write_faults self.new) result }
        ensures sure { 0 < sure self.old → IsOk result }
        ensures spent { IfOk result (λ n. sure self.old ≤ sure self.new + n) }
        ensures others { (stream self.new ≡ stream self.old) × (reads self.new ≡ reads self.old) × (read_faults self.new ≡ read_faults self.old) × (steady self.old → steady self.new) };

    /// Says that nothing more is written. A real connection tells its peer, so that one who reads to the end of the
    /// connection needn't wait until it is closed; memory does nothing.
    fn finish(&mut self)
        ensures told { tells self.new ≡ tells self.old }
        ensures bytes { (stream self.new ≡ stream self.old) × (written self.new ≡ written self.old) }
        ensures made { reads self.new ≡ reads self.old }
        ensures faults { (read_faults self.new ≡ read_faults self.old) × (write_faults self.new ≡ write_faults self.old) }
        ensures steady { steady self.old → steady self.new }
        ensures sure { sure self.new ≡ sure self.old }
    {}
}
