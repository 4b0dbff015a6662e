//! The pages of an input, line by line.
ghost use Rattle.std.specs.Prelude.{◌≡◌, ◌≢◌, ℕ, ◌+◌, ◌<◌, ◌≤◌, ◌++◌, List, IfErr, IfOk, IsOk, IsTrue, OnErr, OnOk, length, take};
ghost use Rattle.std.specs.List.{All};
ghost use Rattle.gj_base.specs.declared.history.History.{History};
ghost use Rattle.gj_base.specs.declared.history.Shown.{Shown};
ghost use Rattle.gj_base.specs.Causes.{Rose, RoseBy};
ghost use Rattle.gj_base.specs.History.{StandsFor, end_of};
ghost use Rattle.gj_follow.specs.Follows.{IsOf, part, reach};
ghost use Rattle.gj_pages.specs.Answers.{pages_in, text_of};
ghost use Rattle.gj_pages.specs.Following.{Followed, IsByInput};
ghost use Rattle.gj_pages.specs.Lines.{end_by, lines_of};
ghost use Rattle.gj_pages.specs.Loop.{AtEnd, Fed, GoesOn, IsByLine, LineTaken, TookNone, TookPiece};
ghost use Rattle.gj_base.specs.Streams.{Outgoing, incoming, outgoing};

use crate::answering::{last_text, take_line};
use crate::end::FollowEnd;
use crate::line::{Line, cut_line};
use crate::sending::send;
use gj_base::{Failed, Grow, Sink, Source};
use gj_follow::Follower;
use std::alloc::Global;

/// The most bytes that one read asks for.
const PIECE: usize = 8192;

/// Takes the line, and writes its answer.
fn answer_line<W: Grow, O: Sink>(
    alloc: Global,
    follower: &mut Follower<W>,
    line: &[u8],
    out: &mut O,
) -> Result<(), FollowEnd>
    ensures { LineTaken follower.old follower.new (outgoing (O.tells out.old) (O.written out.old) (O.faults out.old) (O.sure out.old))
        (outgoing (O.tells out.new) (O.written out.new) (O.faults out.new) (O.sure out.new)) line.now result }
{
    let Ok(text) = take_line(alloc, follower, line) else {
        return Err(FollowEnd::Memory);
    };
    match send(out, text.as_str().as_bytes()) {
        Ok(()) => Ok(()),
        Err(Failed) => Err(FollowEnd::WriteFault),
    }
}

/// Takes and answers the lines that end in the piece, the first of which began with the held line, and holds what follows
/// them.
fn take_piece<W: Grow, O: Sink>(
    alloc: Global,
    follower: &mut Follower<W>,
    line: &mut Line,
    piece: &[u8],
    out: &mut O,
) -> Result<(), FollowEnd>
    ensures fed { (a : Shown) (o : Outgoing) (bytes : List ℕ)
        → GoesOn a follower.old o (outgoing (O.tells out.old) (O.written out.old) (O.faults out.old) (O.sure out.old)) bytes line.old
        → Fed a follower.new o (outgoing (O.tells out.new) (O.written out.new) (O.faults out.new) (O.sure out.new)) (bytes ++ piece.now) line.new result }
    ensures by_line { IfErr result IsByLine }
{
    let mut rest = piece;
    'lines: while let Some(cut) = cut_line(rest) {
        let Ok(()) = line.put(cut.part) else {
            return Err(FollowEnd::LongLine);
        };
        if let Err(end) = answer_line(alloc, follower, line.as_slice(), out) {
            return Err(end);
        }
        line.clear();
        rest = cut.next;
    }
    match line.put(rest) {
        Ok(()) => Ok(()),
        Err(_) => Err(FollowEnd::LongLine),
    }
}

/// How a follower ends where its input does. Between lines it writes the last line.
fn at_end<W: Grow, O: Sink>(follower: &Follower<W>, line: &Line, out: &mut O) -> FollowEnd
    ensures { AtEnd result follower.now (outgoing (O.tells out.old) (O.written out.old) (O.faults out.old) (O.sure out.old))
        (outgoing (O.tells out.new) (O.written out.new) (O.faults out.new) (O.sure out.new)) line.now }
{
    if !line.as_slice().is_empty() {
        return FollowEnd::Truncated;
    }
    match send(out, last_text(follower.graph()).as_str().as_bytes()) {
        Ok(()) => FollowEnd::Done,
        Err(Failed) => FollowEnd::WriteFault,
    }
}

/// Takes the next bytes of the input to the front of the piece, and answers how many.
fn read_piece<S: Source>(input: &mut S, piece: &mut [u8]) -> Result<usize, Failed>
    requires { 0 < length piece.old }
    ensures in_range { IfOk result (λ n. n ≤ length piece.new) }
    ensures ok { IfOk result (λ n. TookPiece (incoming (S.tells input.old) (S.stream input.old) (S.faults input.old) (S.reads input.old))
        (incoming (S.tells input.new) (S.stream input.new) (S.faults input.new) (S.reads input.new)) (take n piece.new)) }
    ensures err { OnErr result (TookNone (incoming (S.tells input.old) (S.stream input.old) (S.faults input.old) (S.reads input.old))
        (incoming (S.tells input.new) (S.stream input.new) (S.faults input.new) (S.reads input.new))) }
    ensures steady { S.steady input.old → IsOk result × S.steady input.new }
{
    input.read(piece)
}

/// Takes and answers, read by read.
fn take_turns<S: Source, O: Sink, W: Grow>(
    alloc: Global,
    follower: &mut Follower<W>,
    line: &mut Line,
    input: &mut S,
    out: &mut O,
    turns: u64,
) -> FollowEnd
    requires { length line.old ≤ 0 }
    ensures followed { Followed follower.old follower.new (incoming (S.tells input.old) (S.stream input.old) (S.faults input.old) (S.reads input.old))
        (incoming (S.tells input.new) (S.stream input.new) (S.faults input.new) (S.reads input.new))
        (outgoing (O.tells out.old) (O.written out.old) (O.faults out.old) (O.sure out.old))
        (outgoing (O.tells out.new) (O.written out.new) (O.faults out.new) (O.sure out.new)) turns result }
    ensures steady { S.steady input.old → result ≢ FollowEnd.ReadFault }
{
    let mut piece = [0u8; PIECE];
    'turns: for turn in 0..turns {
        let Ok(n) = read_piece(input, &mut piece) else {
            return FollowEnd::ReadFault;
        };
        if n == 0 {
            return at_end(follower, line, out);
        }
        if let Err(end) = take_piece(alloc, follower, line, &piece[..n], out) {
            return end;
        }
    }
    FollowEnd::TooManyReads
}

/// Applies each line of the input as a page to the follower, and writes a line for each: `added N` with the number of
/// interactions that were added, `old`, `ahead`, or `bad` where the line is no page. Where the input ends it writes the
/// length and the base of the follower's graph. `turns` is the most reads, each of at most 8192 bytes; each line is
/// answered before the next read. It takes room for one line, and memory for each page as it is read; it waits where the
/// input or the output does.
pub fn follow_lines<S: Source, O: Sink, W: Grow>(
    alloc: Global,
    follower: &mut Follower<W>,
    input: &mut S,
    out: &mut O,
    turns: u64,
) -> FollowEnd
    // What was taken, answered and written, by the end.
    ensures followed { Followed follower.old follower.new (incoming (S.tells input.old) (S.stream input.old) (S.faults input.old) (S.reads input.old))
        (incoming (S.tells input.new) (S.stream input.new) (S.faults input.new) (S.reads input.new))
        (outgoing (O.tells out.old) (O.written out.old) (O.faults out.old) (O.sure out.old))
        (outgoing (O.tells out.new) (O.written out.new) (O.faults out.new) (O.sure out.new)) turns result }

    // Without a fault and want of memory the end is a function of the whole input, and so is what was written.
    ensures by_input { IsTrue (S.tells input.old) → IsByInput result → result ≡ end_by (S.stream input.old).left }
    ensures wrote { IsTrue (S.tells input.old) → IsTrue (O.tells out.old) → result ≡ FollowEnd.Done
        → O.written out.new ≡ O.written out.old ++ text_of follower.old (S.stream input.old).left }

    // Where all pages of a whole input are of one history, the follower stands for it from its start to what they reach.
    ensures stands { (h : History) (start : ℕ) → IsTrue (S.tells input.old) → result ≡ FollowEnd.Done → h.first ≤ start
        → All (IsOf h) (pages_in (lines_of (S.stream input.old).left)) → StandsFor follower.old (part h start (end_of follower.old))
        → StandsFor follower.new (part h start (reach (end_of follower.old) (pages_in (lines_of (S.stream input.old).left)))) }
    ensures later { end_of follower.old ≤ end_of follower.new }

    // The reads.
    ensures reads { S.reads input.new ≤ S.reads input.old + turns }
    ensures turned { result ≡ FollowEnd.TooManyReads → RoseBy turns (S.reads input.old) (S.reads input.new) }
    ensures short { IsTrue (S.tells input.old) → length (S.stream input.old).left < turns → result ≢ FollowEnd.TooManyReads }

    // The causes of faults.
    ensures read_cause { result ≡ FollowEnd.ReadFault → Rose (S.faults input.old) (S.faults input.new) }
    ensures write_cause { result ≡ FollowEnd.WriteFault → Rose (O.faults out.old) (O.faults out.new) }
    ensures read_same { result ≢ FollowEnd.ReadFault → S.faults input.new ≡ S.faults input.old }
    ensures write_same { result ≢ FollowEnd.WriteFault → O.faults out.new ≡ O.faults out.old }
    ensures read_later { S.faults input.old ≤ S.faults input.new }
    ensures write_later { O.faults out.old ≤ O.faults out.new }
    ensures steady { S.steady input.old → result ≢ FollowEnd.ReadFault }
    ensures room { IsTrue (O.tells out.old) → result ≡ FollowEnd.WriteFault → O.sure out.old + length (O.written out.old) ≤ length (O.written out.new) }

    // What stays.
    ensures read_told { S.tells input.new ≡ S.tells input.old }
    ensures write_told { O.tells out.new ≡ O.tells out.old }
{
    let Ok(mut line) = Line::new(alloc) else {
        return FollowEnd::Memory;
    };
    take_turns(alloc, follower, &mut line, input, out, turns)
}
