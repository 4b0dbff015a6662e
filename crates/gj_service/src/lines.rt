//! The two lines of a service, which take no memory.
ghost use Rattle.std.specs.Prelude.{◌≡◌, ◌≢◌, ◌⊎◌, ℕ, ◌+◌, ◌≤◌, ◌++◌, codes, length};
ghost use Rattle.arrayvec.specs.ArrayString.{array_string_len};
ghost use Rattle.gj_serve.specs.declared.ends.DoorEnd.TheVariants as doors;
ghost use Rattle.gj_base.specs.Streams.{Outgoing, Wrote, outgoing};
ghost use Rattle.gj_service.specs.Lines.{Went, numbered, ready_line, last_line};
ghost use Rattle.gj_service.specs.Services.{Writes};
ghost use Rattle.gj_service.specs.declared.end.ServiceEnd.TheVariants as ends;

use crate::end::{ServiceEnd, end_after};
use arrayvec::ArrayString;
use gj_base::{Failed, Sink};
use gj_serve::DoorEnd;
use gj_session::send;
use itoa::Buffer;

/// Puts the words and the number at the end.
fn put(text: &mut ArrayString<128>, words: &str, number: u64)
    requires { array_string_len text.old + length words.now + 20 ≤ 128 }
    ensures bytes { text.new.bytes ≡ text.old.bytes ++ numbered words.now number }
    ensures len { array_string_len text.new ≤ array_string_len text.old + length words.now + 20 }
{
    text.push_str(words);
    let mut buffer = Buffer::new();
    text.push_str(buffer.format(number));
}

/// The line of the open port.
#[tactic(auto, using(std::proofs::Common::append_assoc), unfolding(crate::specs::Lines::ready_line))]
fn ready_text(port: u16) -> ArrayString<128>
    ensures { result.bytes ≡ ready_line port }
{
    let mut text = ArrayString::new();
    put(&mut text, "ready ", port as u64);
    text.push_str("\n");
    text
}

/// The line of what was served.
#[tactic(auto, using(std::proofs::Common::append_assoc), unfolding(crate::specs::Lines::last_line))]
fn last_text(sessions: u64, length: u64) -> ArrayString<128>
    ensures { result.bytes ≡ last_line sessions length }
{
    let mut text = ArrayString::new();
    put(&mut text, "sessions ", sessions);
    put(&mut text, " length ", length);
    text.push_str("\n");
    text
}

/// Writes the text.
fn send_text<O: Sink>(out: &mut O, text: &ArrayString<128>) -> Result<(), Failed>
    ensures { Went (outgoing (O.tells out.old) (O.written out.old) (O.faults out.old) (O.sure out.old))
        (outgoing (O.tells out.new) (O.written out.new) (O.faults out.new) (O.sure out.new)) text.now.bytes result }
{
    match send(out, text.as_str().as_bytes()) {
        Ok(()) => Ok(()),
        Err(Failed) => Err(Failed),
    }
}

/// Writes that the port is open.
pub(crate) fn send_ready<O: Sink>(out: &mut O, port: u16) -> Result<(), Failed>
    ensures { Went (outgoing (O.tells out.old) (O.written out.old) (O.faults out.old) (O.sure out.old))
        (outgoing (O.tells out.new) (O.written out.new) (O.faults out.new) (O.sure out.new)) (ready_line port) result }
{
    send_text(out, &ready_text(port))
}

/// Writes how many connections were served, and the length of the history then.
fn send_last<O: Sink>(out: &mut O, sessions: u64, length: u64) -> Result<(), Failed>
    ensures { Went (outgoing (O.tells out.old) (O.written out.old) (O.faults out.old) (O.sure out.old))
        (outgoing (O.tells out.new) (O.written out.new) (O.faults out.new) (O.sure out.new)) (last_line sessions length) result }
{
    send_text(out, &last_text(sessions, length))
}

/// Writes the last line, and says how the service ended.
pub(crate) fn send_end<O: Sink>(
    out: &mut O,
    door: DoorEnd,
    sessions: u64,
    length: u64,
) -> ServiceEnd
    ensures wrote { (first : Outgoing) (port : ℕ) → Wrote first (outgoing (O.tells out.old) (O.written out.old) (O.faults out.old) (O.sure out.old)) (ready_line port)
        → Writes result port sessions length first (outgoing (O.tells out.new) (O.written out.new) (O.faults out.new) (O.sure out.new)) }
    ensures done { result ≡ ends.Done → (door ≡ doors.Spent) ⊎ (door ≡ doors.Closed) }
    ensures fault { result ≡ ends.DoorFault → door ≡ doors.Fault }
    ensures served { result ≢ ends.Memory }
{
    match send_last(out, sessions, length) {
        Ok(()) => end_after(door, true),
        Err(Failed) => end_after(door, false),
    }
}
