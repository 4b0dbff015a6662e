//! The session of a source and a sink, over an index alone.
ghost use Rattle.std.specs.Prelude.{◌≡◌, ◌≢◌, ◌+◌, ◌<◌, ◌≤◌, IsTrue, length};
ghost use Rattle.gj_base.specs.Causes.{Rose, RoseBy};
ghost use Rattle.gj_base.specs.History.{conf_of};
ghost use Rattle.gj_session.specs.declared.outcome.End.{End};
ghost use Rattle.gj_session.specs.IndexRuns.{IndexRan, index_at};
ghost use Rattle.gj_session.specs.Sessions.{Replayed, IsByInput, EndsByInput};
ghost use Rattle.gj_base.specs.Streams.{incoming, outgoing};

use crate::answering::Alone;
use crate::outcome::End;
use crate::session::run_session;
use gj_base::{Sink, Source};
use gj_http::{Framer, Routes};
use gj_once::NotedIndex;
use std::alloc::Global;

/// Answers the messages of the source in order, and writes the answers to the sink. `turns` is the most reads, each of at
/// most 8192 bytes. It takes memory for the asks and the replies, and for each reply of its own one write is made; it
/// waits where the source or the sink does. What was held by the framer is dropped.
pub fn replay_session<S: Source, O: Sink, I: NotedIndex>(
    alloc: Global,
    index: &mut I,
    routes: &Routes,
    framer: &mut Framer,
    input: &mut S,
    out: &mut O,
    turns: u64,
) -> End
    // What was taken, answered and written, by the end.
    ensures replayed { Replayed
        (IndexRan (index_at (I.viewed index.old) (I.keeps index.old) (I.faults index.old) (I.steady index.old) (I.noted index.old)) (index_at (I.viewed index.new) (I.keeps index.new) (I.faults index.new) (I.steady index.new) (I.noted index.new)))
        (incoming (S.tells input.old) (S.stream input.old) (S.faults input.old) (S.reads input.old))
        (incoming (S.tells input.new) (S.stream input.new) (S.faults input.new) (S.reads input.new))
        (outgoing (O.tells out.old) (O.written out.old) (O.faults out.old) (O.sure out.old))
        (outgoing (O.tells out.new) (O.written out.new) (O.faults out.new) (O.sure out.new))
        turns result }

    // Without a fault the end is a function of the whole input.
    ensures by_input { IsTrue (S.tells input.old) → IsByInput result → EndsByInput (S.stream input.old).left result }

    // The reads.
    ensures reads { S.reads input.new ≤ S.reads input.old + turns }
    ensures turned { result ≡ End.Turns → RoseBy turns (S.reads input.old) (S.reads input.new) }
    ensures short { IsTrue (S.tells input.old) → length (S.stream input.old).left < turns → result ≢ End.Turns }

    // The causes of faults.
    ensures read_cause { result ≡ End.ReadFault → Rose (S.faults input.old) (S.faults input.new) }
    ensures write_cause { result ≡ End.WriteFault → Rose (O.faults out.old) (O.faults out.new) }
    ensures read_same { result ≢ End.ReadFault → S.faults input.new ≡ S.faults input.old }
    ensures write_same { result ≢ End.WriteFault → O.faults out.new ≡ O.faults out.old }
    ensures read_later { S.faults input.old ≤ S.faults input.new }
    ensures write_later { O.faults out.old ≤ O.faults out.new }
    ensures steady { S.steady input.old → result ≢ End.ReadFault }
    ensures store_steady { IsTrue (I.steady index.old) → IsTrue (I.steady index.new) }
    ensures room { IsTrue (O.tells out.old) → result ≡ End.WriteFault → O.sure out.old + length (O.written out.old) ≤ length (O.written out.new) }

    // What stays.
    ensures read_told { S.tells input.new ≡ S.tells input.old }
    ensures write_told { O.tells out.new ≡ O.tells out.old }
    ensures conf { conf_of (I.viewed index.new) ≡ conf_of (I.viewed index.old) }
{
    run_session(alloc, index, &Alone, routes, framer, input, out, turns)
}
