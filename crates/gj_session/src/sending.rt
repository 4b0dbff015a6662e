//! The bytes of answers, as they go out.
ghost use Rattle.std.specs.Prelude.{◌≡◌, ◌⊎◌, ◌+◌, ◌<◌, ◌≤◌, [], IsTrue, IfOk, OnOk, OnErr, IsErr, length};
ghost use Rattle.gj_base.specs.Causes.{HasCause};
ghost use Rattle.gj_session.specs.declared.outcome.Outcome.{Outcome};
ghost use Rattle.gj_session.specs.Outcomes.{outcome_bytes};
ghost use Rattle.gj_session.specs.Loop.{GaveOut};
ghost use Rattle.gj_base.specs.Streams.{Sent};

use crate::message::Answer;
use crate::outcome::Outcome;
use crate::wire::Wire;
use gj_base::{Failed, Memory, Sink, Source};
use gj_http::{fixed_response, response};
use gj_reply::{Fixed, Reply, write_reply};
use std::alloc::Global;

/// Writes all of the bytes, in as many writes as the wire takes them in.
fn send_over<O, B: Wire<O>>(wire: &mut B, out: &mut O, bytes: &[u8]) -> Result<(), Failed>
    ensures gave { GaveOut (B.going wire.old out.old) (B.going wire.new out.new) bytes.now result }
    ensures steady { B.steady wire.old out.old → B.steady wire.new out.new }
    ensures others { B.coming wire.new out.new ≡ B.coming wire.old out.old }
{
    let mut at = 0;
    while at < bytes.len() {
        let n = wire.put(out, &bytes[at..])?;
        at += n;
    }
    Ok(())
}

/// A source of nothing, beside a sink.
#[derive(Drop)]
struct Silent {
    reads: u64,
}

impl Source for Silent {
    ghost use Rattle.std.specs.Prelude.{false, []};

    ghost tells = { λ _. false };

    ghost stream = { λ _. record { taken = []; left = [] } };

    ghost reads = { λ s. s.reads };

    ghost faults = { λ _. 0 };

    ghost steady = { λ _. Unit {0} };

    fn read(&mut self, _into: &mut [u8]) -> Result<usize, Failed> {
        self.reads = self.reads.saturating_add(1);
        Ok(0)
    }
}

/// Writes all of the bytes, in as many writes as the sink takes them in. It takes no memory, and waits where the sink does.
pub fn send<O: Sink>(out: &mut O, bytes: &[u8]) -> Result<(), Failed>
    ensures told { O.tells out.new ≡ O.tells out.old }
    ensures bytes { IsTrue (O.tells out.old) → Sent (O.written out.old) (O.written out.new) bytes.now result }
    ensures cause { HasCause (O.faults out.old) (O.faults out.new) result }
    ensures sure { IsErr result → O.sure out.old < length bytes.now }
    ensures spent { OnOk result (O.sure out.old ≤ O.sure out.new + length bytes.now) }
{
    send_over(&mut Silent { reads: 0 }, out, bytes)
}

/// The bytes of a reply.
#[tactic(auto, unfolding(crate::specs::Outcomes::outcome_bytes))]
fn reply_bytes(alloc: Global, reply: &Reply, close: bool) -> Result<Vec<u8>, Memory>
    ensures { IfOk result (λ bytes. bytes.items ≡ outcome_bytes (Outcome.Says reply.now) close) }
{
    let text = write_reply(alloc, reply)?;
    response(alloc, text.status, &text.body, close)
}

/// The bytes of a fixed reply.
#[tactic(auto, unfolding(crate::specs::Outcomes::outcome_bytes))]
fn fixed_bytes(which: Fixed, close: bool) -> &'static [u8]
    ensures { result.now ≡ outcome_bytes (Outcome.Stands which) close }
{
    fixed_response(which, close)
}

/// Writes the answer; where it finds no memory, the fixed reply in its place.
pub(crate) fn send_answer<O, B: Wire<O>>(
    alloc: Global,
    wire: &mut B,
    out: &mut O,
    answer: &Answer,
    close: bool,
) -> Result<(), Failed>
    ensures gave { (final : Outcome) × (((final ≡ answer.now.outcome) ⊎ (final ≡ Outcome.Stands answer.now.lack))
        × GaveOut (B.going wire.old out.old) (B.going wire.new out.new) (outcome_bytes final close) result) }
    ensures steady { B.steady wire.old out.old → B.steady wire.new out.new }
    ensures others { B.coming wire.new out.new ≡ B.coming wire.old out.old }
{
    match &answer.outcome {
        Outcome::Stands(which) => send_over(wire, out, fixed_bytes(*which, close)),
        Outcome::Says(reply) => match reply_bytes(alloc, reply, close) {
            Ok(bytes) => send_over(wire, out, &bytes),
            Err(_) => send_over(wire, out, fixed_bytes(answer.lack, close)),
        },
    }
}
