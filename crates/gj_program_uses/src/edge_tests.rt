//! Streams that fail, and arguments that are no text.
ghost use Rattle.std.specs.Prelude.{◌≤◌, IfOk};

use gj_base::{Sink, Source};
use gj_program::{RunStatus, StreamSink, StreamSource, words_of};
use std::env::FillError;
use std::io;
use std::io::{Read, Write};
use std::rt::Env;
use std::test::Fail;

/// A stream that gives or takes one byte a call, and fails its second call.
#[derive(Drop)]
struct Failing {
    calls: u64,
}

impl Failing {
    fn call(&mut self, room: usize) -> io::Result<usize>
        ensures { IfOk result (λ n. n ≤ room) }
    {
        self.calls = self.calls.saturating_add(1);
        if self.calls == 2 {
            return Err(io::Error::from(io::ErrorKind::Other));
        }
        Ok(room.min(1))
    }
}

impl Read for Failing {
    fn read(&mut self, buf: &mut [u8]) -> io::Result<usize> {
        self.call(buf.len())
    }
}

impl Write for Failing {
    fn write(&mut self, buf: &[u8]) -> io::Result<usize> {
        self.call(buf.len())
    }

    fn flush(&mut self) -> io::Result<()> {
        Ok(())
    }
}

/// A stream that takes nothing.
#[derive(Drop)]
struct Full;

impl Write for Full {
    fn write(&mut self, _buf: &[u8]) -> io::Result<usize> {
        Ok(0)
    }

    fn flush(&mut self) -> io::Result<()> {
        Ok(())
    }
}

#[test]
fn a_failed_read_is_a_fault_and_not_the_end(rt: HostRuntime) {
    let mut source = StreamSource::new(Failing { calls: 0 });
    let mut into = [0; 4];
    for (call, gave) in [(1, Some(1)), (2, None), (3, Some(1))] {
        assert_eq!(rt; source.read(&mut into).ok(), gave, "call {call}");
    }
    assert_eq!(rt; source.read(&mut []).ok(), Some(0));
}

#[test]
fn a_failed_write_is_a_fault_and_so_is_one_that_takes_nothing(rt: HostRuntime) {
    let mut sink = StreamSink::new(Failing { calls: 0 });
    for (call, took) in [(1, Some(1)), (2, None), (3, Some(1))] {
        assert_eq!(rt; sink.write(b"ab").ok(), took, "call {call}");
    }
    let mut full = StreamSink::new(Full);
    assert_eq!(rt; full.write(b"ab").ok(), None);
}

/// A program's name and one argument, a byte that is no text.
#[derive(Drop)]
struct NoText;

impl Env for NoText {
    fn arg(&self, i: usize, buf: &mut [u8]) -> Result<usize, FillError> {
        if i > 1 || buf.is_empty() {
            return Err(FillError::NotPresent);
        }
        buf[0] = if i == 0 { b'g' } else { 0xff };
        Ok(1)
    }

    fn var(&self, _name: &str, _buf: &mut [u8]) -> Result<usize, FillError> {
        Err(FillError::NotPresent)
    }

    fn var_at(&self, _i: usize, _buf: &mut [u8]) -> Result<usize, FillError> {
        Err(FillError::NotPresent)
    }
}

#[test]
fn an_argument_that_is_no_text_is_a_faulty_command_line(rt: HostRuntime) -> Result<(), Fail> {
    match words_of(&(NoText, rt.alloc())) {
        Ok(_) => Err(Fail::from("words")),
        Err(status) => {
            assert_eq!(rt; status, RunStatus::Usage);
            Ok(())
        }
    }
}
