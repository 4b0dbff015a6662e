// The bytes of a connection, handed out as messages.

ghost use Rattle.std.specs.Prelude.{◌≡◌, ℕ, ◌+◌, ◌≤◌, ◌++◌, [], length, IfOk, IsTrue, ◌↔◌};
ghost use Rattle.std.specs.Str.{IsUtf8};
ghost use Rattle.gj_http.specs.Cut.{IsBetween};

use crate::front::{Front, Hint, MessageSpans, NO_HINT, empty_lines_at, look};
use crate::message::{Message, Step};
use gj_base::Memory;
use std::alloc::Global;
use std::marker::Model;

/// The longest head and body, and a read beside them.
const ROOM: usize = 1_064_960;

/// The room that is there for a read after `NeedMore`.
const READ: usize = 8192;

/// Holds the bytes of one connection that are not handed out yet.
///
/// A byte of a head is looked at when it comes, and again when the message is whole; a body is not looked at. Bytes are
/// moved only where the room for a read is missing, so at most once for each message.
#[derive(Drop)]
pub struct Framer {
    bytes: Vec<u8>,
    /// Where the held bytes begin.
    start: usize,
    /// Of the held bytes, so that none is looked at again for each piece.
    hint: Hint,
}

impl Model for Framer {
    ghost use Rattle.std.specs.Prelude.{◌≡◌, ◌-◌, ◌≤◌, length, drop};
    ghost use Rattle.std.specs.Vec.{vec_len, vec_capacity};
    ghost use Rattle.gj_http.specs.Held.{Held};

    ghost Value = { Held };

    ghost view = { λ f. record { bytes = drop f.start f.bytes.items; room = 1064960 - vec_len f.bytes } };

    ghost use Rattle.gj_http.specs.Hints.{Knows};

    ghost invariant = { λ f. (f.start ≤ vec_len f.bytes) × (vec_len f.bytes ≤ 1064960) × (1064960 ≤ vec_capacity f.bytes)
        × Knows (drop f.start f.bytes.items) f.hint };
}

impl Framer {
    ghost use Rattle.std.specs.Borrow.{sem};
    ghost use Rattle.gj_http.specs.Held.{Held};
    ghost use Rattle.gj_http.specs.Lent.{EndsWith, HoldsAfter, Says, Takes};
    ghost use Rattle.gj_http.specs.Fronts.{IsFront, IsWhole, spans_request};
    ghost use Rattle.gj_http.specs.Request.{request};

    /// A framer that holds nothing. It takes room for 1064960 bytes, which is all the memory that it takes.
    pub fn new(alloc: Global) -> Result<Framer, Memory>
        ensures ok { IfOk result (λ framer. framer ≡ record { bytes = []; room = 1064960 }) }
    {
        match Vec::with_capacity(alloc, ROOM) {
            Ok(bytes) => Ok(Framer {
                bytes,
                start: 0,
                hint: NO_HINT,
            }),
            Err(_) => Err(Memory),
        }
    }

    /// How many bytes may be fed.
    pub fn room(&self) -> usize
        ensures { result ≡ self.now.room }
    {
        ROOM - self.bytes.len()
    }

    /// Puts the piece after the held bytes.
    pub fn feed(&mut self, piece: &[u8])
        requires { length piece.now ≤ self.old.room }
        ensures bytes { self.new.bytes ≡ self.old.bytes ++ piece.now }
        ensures room { self.new.room + length piece.now ≡ self.old.room }
    {
        match self.bytes.extend_from_slice(piece) {
            Ok(()) => {}
            Err(_) => unreachable!(),
        }
    }

    /// Takes the message at the front, and lends it until the next call. After `NeedMore` there is room for 8192 bytes.
    pub fn take_next(&mut self) -> Step<'_>
        ensures* lends { sem 𝓛 (EndsWith self.entry (HoldsAfter self.old result)) }
        ensures says { Says self.old.bytes result }
    {
        match self.front() {
            Front::Whole(found) => Step::Message(self.lend(found)),
            Front::Partial(hint) => {
                self.hint = hint;
                self.make_room();
                Step::NeedMore
            }
            Front::Bad(why) => Step::Refused(why),
        }
    }

    /// What stands at the front.
    fn front(&self) -> Front
        ensures { IsFront self.now.bytes result }
    {
        look(&self.bytes[self.start..], self.hint)
    }

    /// Takes the message that was found, and lends it.
    fn lend(&mut self, found: MessageSpans) -> Message<'_>
        requires { IsWhole self.old.bytes found }
        ensures* lends { sem 𝓛 (EndsWith self.entry (Takes self.old found)) }
        ensures request { request result ≡ spans_request self.old.bytes found }
    {
        let from = self.start;
        self.start += found.body.end;
        self.hint = NO_HINT;
        let bytes = &self.bytes[from..];
        Message {
            method: found.method,
            path: text_of(found.path.of(bytes)),
            body: found.body.of(bytes),
            close: found.close,
        }
    }

    /// Whether nothing but empty lines is held. Then no message is cut short where the bytes end.
    pub fn is_between(&self) -> bool
        ensures { IsTrue result ↔ IsBetween self.now.bytes }
    {
        empty_lines_at(&self.bytes[self.start..], 0) == self.bytes.len() - self.start
    }

    /// Drops all that is held.
    pub fn reset(&mut self)
        ensures { self.new ≡ record { bytes = []; room = 1064960 } }
    {
        self.bytes.clear();
        self.start = 0;
        self.hint = NO_HINT;
    }

    /// Moves the held bytes to the front where the room for a read is missing.
    fn make_room(&mut self)
        requires { length self.old.bytes ≤ 1056768 }
        ensures bytes { self.new.bytes ≡ self.old.bytes }
        ensures room { 8192 ≤ self.new.room }
    {
        if ROOM - self.bytes.len() < READ {
            let held = self.bytes.len() - self.start;
            self.bytes.rotate_left(self.start);
            self.bytes.truncate(held);
            self.start = 0;
        }
    }
}

/// The text of the bytes.
fn text_of(bytes: &[u8]) -> &str
    requires { IsUtf8 bytes.now }
    ensures { result.now ≡ bytes.now }
{
    match str::from_utf8(bytes) {
        Ok(text) => text,
        Err(_) => unreachable!(),
    }
}
