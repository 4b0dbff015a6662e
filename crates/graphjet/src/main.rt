//! graphjet: the program. It serves connections over loopback, answers a recorded stream of HTTP requests from standard
//! input to standard output, makes workloads, and follows the pages of another server's history; with `--store` the window
//! is kept in an SQLite file.
#![tactic(auto)]

use gj_base::Sink;
use gj_keep_sql::SqlKeepers;
use gj_program::{Ended, StreamSink, StreamSource, report, run_local, run_serve, words_of};
use gj_publish::Grants;
use gj_serve::TcpDoor;
use std::net::{Net, TcpListener, TcpStream};
use std::process::ExitCode;
use std::rt::Clock;
use std::sync::Wait;
use std::thread::Threads;

/// Whether the arguments ask for a service.
fn is_serve(words: &[String]) -> bool {
    match words.first() {
        Some(name) => name.as_str() == "serve",
        None => false,
    }
}

/// Serves connections of this machine as the arguments ask, over its files.
fn serve<
    R: Threads
        + Wait
        + Net<Listener = TcpListener, Stream = TcpStream>
        + Clock
        + Copy
        + Drop
        + Send
        + Sync,
    O: Sink,
    E: Sink,
>(rt: R, host: &HostRuntime, words: &[String], out: &mut O, err: &mut E) -> u8 {
    let Ended { status, door: _ } = run_serve(
        rt,
        host.alloc(),
        words,
        TcpDoor::new(rt),
        out,
        err,
        &mut SqlKeepers::new(host),
        &mut Grants::new(),
    );
    status
}

/// Replays standard input, makes a workload, or follows the pages of standard input, as the arguments ask, over files of this
/// machine.
fn run<O: Sink, E: Sink>(rt: &HostRuntime, words: &[String], out: &mut O, err: &mut E) -> u8 {
    run_local(
        rt.alloc(),
        words,
        &mut StreamSource::new(rt.stdin()),
        out,
        err,
        &mut SqlKeepers::new(rt),
    )
}

fn main(rt: HostRuntime) -> ExitCode {
    let mut out = StreamSink::new(rt.stdout());
    let mut err = StreamSink::new(rt.stderr());
    let status = match words_of(&rt) {
        Err(status) => {
            report(&mut err, status);
            status.code()
        }
        Ok(words) => {
            if is_serve(&words) {
                serve(&rt, &rt, &words, &mut out, &mut err)
            } else {
                run(&rt, &words, &mut out, &mut err)
            }
        }
    };
    ExitCode::from(status)
}
