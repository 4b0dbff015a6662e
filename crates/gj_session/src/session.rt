//! A session: it takes bytes, answers the messages in them, and writes the answers.
ghost use Rattle.std.specs.Prelude.{◌≡◌, ◌≢◌, ◌<◌, ◌≤◌, length, IfOk, IfSome, OnErr, IsOk, IsTrue, Some, None, true, if◌then◌else◌};
ghost use Rattle.gj_http.specs.Request.{request};
ghost use Rattle.gj_session.specs.declared.outcome.End.{End};
ghost use Rattle.gj_session.specs.declared.outcome.End.TheVariants as ends;
ghost use Rattle.gj_session.specs.Heard.{framing_reply, heard, lack_of};
ghost use Rattle.gj_session.specs.Loop.{Answered, Drained, EndsInput, IsByMessages, LedBy, RefusalEnds, TookNone, TookPiece};
ghost use Rattle.gj_session.specs.Sessions.{Replayed, IsByInput, EndsByInput};

use crate::answering::Answering;
use crate::message::{Answer, answer_message};
use crate::outcome::{End, Outcome};
use crate::sending::send_answer;
use crate::wire::Wire;
use gj_base::Failed;
use gj_http::{Framer, Message, Refused, Routes, Step, beginnings, loop_keeps, one_cut, one_front};
use gj_reply::{Fixed, Reply};
use std::alloc::Global;

/// The most bytes that one read asks for.
const PIECE: usize = 8192;

/// The reply to bytes that are no message.
fn reply_to_bytes(why: Refused) -> Reply
    ensures { result ≡ framing_reply why }
{
    match why {
        Refused::Head => Reply::BadHead,
        Refused::HeadLong => Reply::HeadLong,
        Refused::Coded => Reply::Coded,
        Refused::Length => Reply::BadLength,
        Refused::BodyLong => Reply::BodyLong,
    }
}

/// Answers one message. The session ends where it asks for close, and where the write fails.
fn exchange<C, A: Answering<C>, O, B: Wire<O>>(
    alloc: Global,
    answerer: &mut A,
    shared: &C,
    routes: &Routes,
    wire: &mut B,
    out: &mut O,
    message: Message,
    number: u64,
) -> Option<End>
    ensures answered { Answered (λ outcome. A.answers answerer.old (heard (request message.entry)) (lack_of (request message.entry)) outcome answerer.new)
        (B.going wire.old out.old) (B.going wire.new out.new) (request message.entry).close result }
    ensures steady { B.steady wire.old out.old → B.steady wire.new out.new }
    ensures others { B.coming wire.new out.new ≡ B.coming wire.old out.old }
{
    let close = message.close;
    answerer.before(shared, number);
    let answer = answer_message(answerer, shared, alloc, routes, message);
    answerer.after(shared, number);
    match send_answer(alloc, wire, out, &answer, close) {
        Err(Failed) => Some(End::WriteFault),
        Ok(()) => ended_by(close),
    }
}

/// The end of a session whose message was answered.
fn ended_by(close: bool) -> Option<End>
    ensures { result ≡ (if close then Some ends.Closed else None) }
{
    if close { Some(End::Closed) } else { None }
}

/// Writes the reply to bytes that are no message, with close.
fn refuse<O, B: Wire<O>>(alloc: Global, wire: &mut B, out: &mut O, why: Refused) -> End
    ensures ends { RefusalEnds result (B.going wire.old out.old) (B.going wire.new out.new) why }
    ensures steady { B.steady wire.old out.old → B.steady wire.new out.new }
    ensures others { B.coming wire.new out.new ≡ B.coming wire.old out.old }
{
    let answer = Answer {
        outcome: Outcome::Says(reply_to_bytes(why)),
        lack: Fixed::Memory,
    };
    match send_answer(alloc, wire, out, &answer, true) {
        Err(Failed) => End::WriteFault,
        Ok(()) => End::Stopped(why),
    }
}

/// Answers the messages that are held, in order, until more bytes are needed or the session ends.
fn drain<C, A: Answering<C>, O, B: Wire<O>>(
    alloc: Global,
    answerer: &mut A,
    shared: &C,
    routes: &Routes,
    framer: &mut Framer,
    wire: &mut B,
    out: &mut O,
    number: &mut u64,
) -> Option<End>
    ensures drained { Drained (LedBy A A.answers answerer.old answerer.new) (B.going wire.old out.old) (B.going wire.new out.new)
        framer.old.bytes framer.new.bytes result }
    ensures room { result ≡ None → 8192 ≤ framer.new.room }
    ensures by_messages { IfSome result IsByMessages }
    ensures steady { B.steady wire.old out.old → B.steady wire.new out.new }
    ensures others { B.coming wire.new out.new ≡ B.coming wire.old out.old }
{
    loop_keeps();
    one_front();
    'messages: loop {
        match framer.take_next() {
            Step::NeedMore => return None,
            Step::Refused(why) => return Some(refuse(alloc, wire, out, why)),
            Step::Message(message) => {
                *number = number.saturating_add(1);
                if let Some(end) = exchange(
                    alloc, answerer, shared, routes, wire, out, message, *number,
                ) {
                    return Some(end);
                }
            }
        }
    }
}

/// Takes the next bytes of the wire to the framer, and answers how many.
fn take_piece<O, B: Wire<O>>(
    wire: &mut B,
    out: &mut O,
    framer: &mut Framer,
    piece: &mut [u8],
) -> Result<usize, Failed>
    requires some { 0 < length piece.old }
    requires room { length piece.old ≤ framer.old.room }
    ensures ok { IfOk result (λ n. TookPiece (B.coming wire.old out.old) (B.coming wire.new out.new) framer.old.bytes framer.new.bytes n) }
    ensures err { OnErr result (TookNone (B.coming wire.old out.old) (B.coming wire.new out.new)) }
    ensures same { OnErr result (framer.new ≡ framer.old) }
    ensures steady { B.steady wire.old out.old → IsOk result × B.steady wire.new out.new }
    ensures others { B.going wire.new out.new ≡ B.going wire.old out.old }
{
    let n = wire.take(out, piece)?;
    framer.feed(&piece[..n]);
    Ok(n)
}

/// How a session ends where its input does.
fn at_end(framer: &Framer) -> End
    ensures { EndsInput result framer.now.bytes }
{
    if framer.is_between() {
        End::Finished
    } else {
        End::Truncated
    }
}

/// Takes, answers and writes, turn by turn: every session's loop. What was held by the framer is dropped.
pub(crate) fn run_session<C, A: Answering<C>, O, B: Wire<O>>(
    alloc: Global,
    answerer: &mut A,
    shared: &C,
    routes: &Routes,
    framer: &mut Framer,
    wire: &mut B,
    out: &mut O,
    turns: u64,
) -> End
    ensures replayed { Replayed (LedBy A A.answers answerer.old answerer.new) (B.coming wire.old out.old) (B.coming wire.new out.new)
        (B.going wire.old out.old) (B.going wire.new out.new) turns result }
    ensures by_input { IsTrue (B.coming wire.old out.old).tells → IsByInput result → EndsByInput (B.coming wire.old out.old).stream.left result }
    ensures steady { B.steady wire.old out.old → result ≢ End.ReadFault }
{
    let end = take_turns(alloc, answerer, shared, routes, framer, wire, out, turns);
    loop_keeps();
    one_cut();
    beginnings();
    end
}

/// The same, of which the end is not known yet by the whole input.
fn take_turns<C, A: Answering<C>, O, B: Wire<O>>(
    alloc: Global,
    answerer: &mut A,
    shared: &C,
    routes: &Routes,
    framer: &mut Framer,
    wire: &mut B,
    out: &mut O,
    turns: u64,
) -> End
    ensures replayed { Replayed (LedBy A A.answers answerer.old answerer.new) (B.coming wire.old out.old) (B.coming wire.new out.new)
        (B.going wire.old out.old) (B.going wire.new out.new) turns result }
    ensures steady { B.steady wire.old out.old → result ≢ End.ReadFault }
{
    loop_keeps();
    one_front();
    framer.reset();
    let mut piece = [0u8; PIECE];
    let mut number = 0;
    'turns: for turn in 0..turns {
        let Ok(n) = take_piece(wire, out, framer, &mut piece) else {
            return End::ReadFault;
        };
        if n == 0 {
            return at_end(framer);
        }
        if let Some(end) = drain(
            alloc,
            answerer,
            shared,
            routes,
            framer,
            wire,
            out,
            &mut number,
        ) {
            return end;
        }
    }
    End::Turns
}
