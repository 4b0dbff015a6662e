//! A door over TCP on this machine alone.
ghost use Rattle.std.specs.Prelude.{◌≡◌, ◌+◌, ◌*◌, ◌^◌, ◌<◌, ◌≤◌};

use crate::door::Door;
use crate::tcp_link::TcpLink;
use gj_base::Failed;
use gj_session::Done;
use std::io::ErrorKind;
use std::net::{Ipv4Addr, Net, SocketAddr, TcpListener, TcpStream};
use std::rt::Clock;
use std::time::Duration;
use std::{io, thread};

/// How often one call tries again after an error that passes.
const TRIES: u32 = 1000;

/// The system's numbers for too many open files, of the process and of the machine.
const OPEN_FILES: [i32; 2] = [24, 23];

/// How many milliseconds pass before a try that waits for a file to be closed.
const PAUSE: u64 = 1;

/// A door over TCP, on 127.0.0.1. It is never closed.
#[derive(Drop)]
pub struct TcpDoor<R> {
    rt: R,
    listener: Option<TcpListener>,
    handed: u64,
    back: u64,
    nones: u64,
    faults: u64,
    entered: u128,
    ghost fits: { entered ≤ 2 ^ 48 * back },
}

impl<R: Net<Listener = TcpListener, Stream = TcpStream>> TcpDoor<R> {
    /// A door that is not open yet.
    pub fn new(rt: R) -> Self
        ensures { (result.handed ≡ 0) × (result.back ≡ 0) × (result.nones ≡ 0) × (result.faults ≡ 0) × (result.entered ≡ 0) }
    {
        TcpDoor {
            rt,
            listener: None,
            handed: 0,
            back: 0,
            nones: 0,
            faults: 0,
            entered: 0,
        }
    }
}

/// The next connection. After an error that passes it tries again, a bounded number of times.
fn accept_one<R: Clock>(rt: &R, listener: &TcpListener) -> io::Result<TcpStream> {
    for _ in 0..TRIES {
        match listener.accept() {
            Ok((stream, _)) => return Ok(stream),
            Err(e) => {
                if is_full(&e) {
                    thread::sleep(rt, Duration::from_millis(PAUSE));
                } else if !is_gone(e.kind()) {
                    return Err(e);
                }
            }
        }
    }
    Err(io::Error::from(ErrorKind::TimedOut))
}

/// Too many files are open for a moment.
fn is_full(e: &io::Error) -> bool {
    match e.raw_os_error() {
        Some(code) => OPEN_FILES.contains(&code),
        None => false,
    }
}

/// The connection was gone before it was taken, or a signal came.
fn is_gone(kind: ErrorKind) -> bool {
    matches!(
        kind,
        ErrorKind::ConnectionAborted | ErrorKind::ConnectionReset | ErrorKind::Interrupted
    )
}

impl<R: Net<Listener = TcpListener, Stream = TcpStream> + Clock> Door for TcpDoor<R> {
    type Link = TcpLink;

    ghost use Rattle.std.specs.Prelude.{◌++◌, ◌∷◌, [], false, IsTrue};

    ghost handed = { λ d. d.handed };

    ghost back = { λ d. d.back };

    ghost nones = { λ d. d.nones };

    ghost faults = { λ d. d.faults };

    ghost entered = { λ d. d.entered };

    ghost tells = { λ _. false };

    ghost given = { λ _. [] };

    ghost steady = { λ _. false };

    fn listen(&mut self, port: u16) -> Result<(), Failed> {
        match TcpListener::bind(&self.rt, SocketAddr::from((Ipv4Addr::LOCALHOST, port))) {
            Ok(listener) => {
                self.listener = Some(listener);
                Ok(())
            }
            Err(_) => {
                self.faults = self.faults.saturating_add(1);
                Err(Failed)
            }
        }
    }

    fn next_link(&mut self) -> Result<Option<TcpLink>, Failed> {
        let Some(listener) = &self.listener else {
            self.nones += 1;
            return Ok(None);
        };
        match accept_one(&self.rt, listener) {
            Ok(stream) => {
                self.handed += 1;
                Ok(Some(TcpLink::over(stream)))
            }
            Err(_) => {
                self.faults = self.faults.saturating_add(1);
                Err(Failed)
            }
        }
    }

    fn give_back(&mut self, done: Done<TcpLink>)
        requires some { self.old.back < self.old.handed }
        requires in_range { self.old.back < 2 ^ 40 }
        ensures back { self.new.back ≡ self.old.back + 1 }
        ensures entered { self.new.entered ≡ self.old.entered + done.entered }
        ensures told { false ≡ false }
        ensures given { IsTrue false → [] ≡ [] ++ done ∷ [] }
        ensures others { (self.new.handed ≡ self.old.handed) × (self.new.nones ≡ self.old.nones) }
        ensures later { self.old.faults ≤ self.new.faults }
        ensures steady { IsTrue false → IsTrue false }
    {
        let entered = done.entered();
        drop(done.into_link());
        self.back += 1;
        self.entered += u128::from(entered);
    }
}
