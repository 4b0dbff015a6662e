//! A connection over TCP, which tells no bytes.

use gj_base::{Failed, Link};
use std::io::{Read, Write};
use std::net::{Shutdown, TcpStream};
use std::time::Duration;

/// How many reads of what a client still sends are made at most once its session has ended, and their size in bytes:
/// together 16 MiB.
const LAST_READS: u32 = 256;

const LAST_PIECE: usize = 65_536;

/// How many milliseconds such a read waits at most.
const LAST_WAIT: u64 = 100;

/// A connection over TCP. What it gives and takes is not told. A write that takes nothing is a fault.
#[derive(Drop)]
pub struct TcpLink {
    stream: TcpStream,
    reads: u64,
    read_faults: u64,
    write_faults: u64,
}

impl TcpLink {
    /// The connection, of which no call has failed yet. Each reply goes out at once, whatever its length.
    pub(crate) fn over(stream: TcpStream) -> Self {
        let _ = stream.set_nodelay(true);
        TcpLink {
            stream,
            reads: 0,
            read_faults: 0,
            write_faults: 0,
        }
    }
}

/// Reads away what still comes, a bounded number of times, so that the peer reads its reply and not a reset.
fn read_away(stream: &mut TcpStream) {
    if stream
        .set_read_timeout(Some(Duration::from_millis(LAST_WAIT)))
        .is_err()
    {
        return;
    }
    let mut into = [0u8; LAST_PIECE];
    for _ in 0..LAST_READS {
        match stream.read(&mut into) {
            Ok(0) => return,
            Ok(_) => {}
            Err(_) => return,
        }
    }
}

impl Link for TcpLink {
    ghost use Rattle.std.specs.Prelude.{false, []};

    ghost tells = { λ _. false };

    ghost stream = { λ _. record { taken = []; left = [] } };

    ghost written = { λ _. [] };

    ghost reads = { λ l. l.reads };

    ghost read_faults = { λ l. l.read_faults };

    ghost write_faults = { λ l. l.write_faults };

    ghost steady = { λ _. ⊥ };

    ghost sure = { λ _. 0 };

    fn read(&mut self, into: &mut [u8]) -> Result<usize, Failed> {
        self.reads = self.reads.saturating_add(1);
        match self.stream.read(into) {
            Ok(n) => Ok(n),
            Err(_) => {
                self.read_faults = self.read_faults.saturating_add(1);
                Err(Failed)
            }
        }
    }

    fn write(&mut self, piece: &[u8]) -> Result<usize, Failed> {
        match self.stream.write(piece) {
            Ok(n) => {
                if n > 0 {
                    return Ok(n);
                }
                self.write_faults = self.write_faults.saturating_add(1);
                Err(Failed)
            }
            Err(_) => {
                self.write_faults = self.write_faults.saturating_add(1);
                Err(Failed)
            }
        }
    }

    fn finish(&mut self) {
        let _ = self.stream.shutdown(Shutdown::Write);
        read_away(&mut self.stream);
    }
}
