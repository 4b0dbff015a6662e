//! The commands that serve no connection.
ghost use Rattle.std.specs.Prelude.{◌≡◌, ◌≢◌, ◌⊎◌, ℕ, ◌+◌, ◌^◌, ◌<◌, ◌≤◌, ◌++◌, IsTrue, List, Option, Some, None, false, length, map, string_bytes, take};
ghost use Rattle.gj_base.specs.Causes.{Rose};
ghost use Rattle.gj_base.specs.Configuration.{Configuration, IsConfiguration};
ghost use Rattle.gj_load.specs.Totals.{totals_of};
ghost use Rattle.gj_base.specs.Streams.{incoming, outgoing};
ghost use Rattle.gj_words.specs.Tasks.{Follow, Load, Replay, asked_of};
ghost use Rattle.gj_program.specs.Lines.{line_of, summary_of};
ghost use Rattle.gj_program.specs.Replays.{Causes, stores_at};
ghost use Rattle.gj_program.specs.Runs.{Does, Obeys};
ghost use Rattle.gj_program.specs.Statuses.{is_session};
ghost use Rattle.gj_program.specs.declared.run_status.RunStatus.TheVariants as statuses;

use crate::following::follow;
use crate::lines::status_line;
use crate::loading::load;
use crate::replaying::replay;
use crate::run_status::RunStatus;
use gj_base::{Conf, Keepers, Sink, Source};
use gj_session::send;
use gj_window::Window;
use gj_words::{Task, WordsError, read_words};
use std::alloc::Global;

/// The configuration of these numbers.
fn window(capacity: u32, segments: u32) -> Conf
    requires { IsConfiguration capacity segments }
    ensures { result ≡ record { capacity = capacity; segments = segments } }
{
    Conf::make(capacity, segments).unwrap()
}

/// Does what the arguments ask for.
fn obey<S: Source, O: Sink, P: Keepers>(
    alloc: Global,
    words: &[String],
    input: &mut S,
    out: &mut O,
    stores: &mut P,
) -> RunStatus
    requires { IsTrue (P.home stores.old) }
    ensures does { Does (asked_of (map (λ w. string_bytes w) words.now))
        (stores_at (P.stored stores.old) (P.faults stores.old) (P.steady stores.old)) (stores_at (P.stored stores.new) (P.faults stores.new) (P.steady stores.new))
        (incoming (S.tells input.old) (S.stream input.old) (S.faults input.old) (S.reads input.old))
        (incoming (S.tells input.new) (S.stream input.new) (S.faults input.new) (S.reads input.new))
        (outgoing (O.tells out.old) (O.written out.old) (O.faults out.old) (O.sure out.old))
        (outgoing (O.tells out.new) (O.written out.new) (O.faults out.new) (O.sure out.new)) result }
    ensures usage { result ≡ statuses.Usage → asked_of (map (λ w. string_bytes w) words.now) ≡ None }
    ensures local { (result ≢ statuses.DoorFault) × (result ≢ statuses.NoPlace) }
    ensures untouched { is_session result ≡ false → result ≢ statuses.Memory → (input.new ≡ input.old) × (out.new ≡ out.old) }
    ensures unfound { ((conf : Configuration) (start : ℕ) → asked_of (map (λ w. string_bytes w) words.now) ≡ Some (Follow conf start) → ⊥)
        → result ≡ statuses.Memory → (input.new ≡ input.old) × (out.new ≡ out.old) }
    ensures causes { Causes
        (incoming (S.tells input.old) (S.stream input.old) (S.faults input.old) (S.reads input.old))
        (incoming (S.tells input.new) (S.stream input.new) (S.faults input.new) (S.reads input.new))
        (outgoing (O.tells out.old) (O.written out.old) (O.faults out.old) (O.sure out.old))
        (outgoing (O.tells out.new) (O.written out.new) (O.faults out.new) (O.sure out.new)) (S.steady input.old) result }
    ensures room { (conf : Configuration) (store : Option (List ℕ)) → asked_of (map (λ w. string_bytes w) words.now) ≡ Some (Replay conf store)
        → IsTrue (O.tells out.old) → result ≡ statuses.WriteFault → O.sure out.old + length (O.written out.old) ≤ length (O.written out.new) }
    ensures follow_room { (conf : Configuration) (start : ℕ) → asked_of (map (λ w. string_bytes w) words.now) ≡ Some (Follow conf start)
        → IsTrue (O.tells out.old) → result ≡ statuses.WriteFault → O.sure out.old + length (O.written out.old) ≤ length (O.written out.new) }
    ensures load_room { (conf : Configuration) (number count : ℕ) → asked_of (map (λ w. string_bytes w) words.now) ≡ Some (Load conf number count)
        → result ≡ statuses.WriteFault → O.sure out.old < length (summary_of (totals_of conf number count)) }
    ensures store_cause { result ≡ statuses.StoreFault → Rose (P.faults stores.old) (P.faults stores.new) }
    ensures store_steady { IsTrue (P.steady stores.old) → (result ≢ statuses.StoreFault) × IsTrue (P.steady stores.new) }
    ensures home { IsTrue (P.home stores.new) }
    ensures later { P.faults stores.old ≤ P.faults stores.new }
    ensures elsewhere { ((conf : Configuration) (path : List ℕ) → asked_of (map (λ w. string_bytes w) words.now) ≡ Some (Replay conf (Some path)) → ⊥) → stores.new ≡ stores.old }
    ensures unread { (conf : Configuration) (number count : ℕ) → asked_of (map (λ w. string_bytes w) words.now) ≡ Some (Load conf number count) → input.new ≡ input.old }
{
    match read_words(alloc, words) {
        Err(WordsError::Usage) => RunStatus::Usage,
        Err(WordsError::Memory) => RunStatus::Memory,
        Ok(
            Task::Replay {
                capacity,
                segments,
                store,
            },
        ) => replay(alloc, window(capacity, segments), store, input, out, stores),
        Ok(
            Task::Load {
                capacity,
                segments,
                number,
                count,
            },
        ) => load(alloc, window(capacity, segments), number, count, out),
        Ok(
            Task::Follow {
                capacity,
                segments,
                start,
            },
        ) => follow::<Window, S, O>(alloc, window(capacity, segments), start, input, out),
    }
}

/// Writes the status's line. A write that fails is passed over. It takes no memory, and waits where the sink does.
pub fn report<E: Sink>(err: &mut E, status: RunStatus)
    ensures part { IsTrue (E.tells err.old) → (k : ℕ) × (E.written err.new ≡ E.written err.old ++ take k (line_of status)) }
    ensures whole { IsTrue (E.tells err.old) → (Rose (E.faults err.old) (E.faults err.new) → ⊥) → E.written err.new ≡ E.written err.old ++ line_of status }
{
    let line = status_line(status);
    let _ = send(err, line.as_str().as_bytes());
}

/// Does what the arguments after the program's name ask for, and answers the program's status.
///
/// `replay` answers the messages of `input` on `out`, over a window that begins empty, or that the keeper of `stores`
/// keeps where a store is named; the keeper comes home, however the run ended. `load` makes interactions from a number and
/// writes what comes of them. `follow` applies the pages that the lines of `input` are to a window that begins empty, and
/// answers each line on `out`. For each status but 0 one line goes to `err`. It takes the memory of the window before the
/// session, and of the asks, pages and replies in it; it waits where the streams and the stores do.
pub fn run_local<S: Source, O: Sink, E: Sink, P: Keepers>(
    alloc: Global,
    words: &[String],
    input: &mut S,
    out: &mut O,
    err: &mut E,
    stores: &mut P,
) -> u8
    requires home { IsTrue (P.home stores.old) }

    // What was asked for was done, and told on `err`.
    ensures obeys { Obeys (asked_of (map (λ w. string_bytes w) words.now))
        (stores_at (P.stored stores.old) (P.faults stores.old) (P.steady stores.old)) (stores_at (P.stored stores.new) (P.faults stores.new) (P.steady stores.new))
        (incoming (S.tells input.old) (S.stream input.old) (S.faults input.old) (S.reads input.old))
        (incoming (S.tells input.new) (S.stream input.new) (S.faults input.new) (S.reads input.new))
        (outgoing (O.tells out.old) (O.written out.old) (O.faults out.old) (O.sure out.old))
        (outgoing (O.tells out.new) (O.written out.new) (O.faults out.new) (O.sure out.new))
        (outgoing (E.tells err.old) (E.written err.old) (E.faults err.old) (E.sure err.old))
        (outgoing (E.tells err.new) (E.written err.new) (E.faults err.new) (E.sure err.new)) result }
    ensures usage { result ≡ 2 → asked_of (map (λ w. string_bytes w) words.now) ≡ None }

    // The causes of faults.
    ensures read_cause { result ≡ 3 → Rose (S.faults input.old) (S.faults input.new) }
    ensures write_cause { result ≡ 4 → Rose (O.faults out.old) (O.faults out.new) }
    ensures store_cause { result ≡ 5 → Rose (P.faults stores.old) (P.faults stores.new) }

    // What doesn't come: the statuses of a service, a fault of a source or of stores that fail no more, a fault of a sink before
    // a replay or a follower has spent its room or with room for a summary, and too many reads of fewer than 2^40 bytes.
    ensures local { (result ≢ 8) × (result ≢ 13) }
    ensures steady { S.steady input.old → result ≢ 3 }
    ensures store_steady { IsTrue (P.steady stores.old) → (result ≢ 5) × IsTrue (P.steady stores.new) }
    ensures room { (conf : Configuration) (store : Option (List ℕ)) → asked_of (map (λ w. string_bytes w) words.now) ≡ Some (Replay conf store)
        → IsTrue (O.tells out.old) → result ≡ 4 → O.sure out.old + length (O.written out.old) ≤ length (O.written out.new) }
    ensures follow_room { (conf : Configuration) (start : ℕ) → asked_of (map (λ w. string_bytes w) words.now) ≡ Some (Follow conf start)
        → IsTrue (O.tells out.old) → result ≡ 4 → O.sure out.old + length (O.written out.old) ≤ length (O.written out.new) }
    ensures load_room { (conf : Configuration) (number count : ℕ) → asked_of (map (λ w. string_bytes w) words.now) ≡ Some (Load conf number count)
        → result ≡ 4 → O.sure out.old < length (summary_of (totals_of conf number count)) }
    ensures short { IsTrue (S.tells input.old) → length (S.stream input.old).left < 2 ^ 40 → result ≢ 10 }

    // What stays: the streams where no session ran and no summary was written, and stores that were not asked for.
    ensures untouched { (result ≡ 2) ⊎ (result ≡ 5) ⊎ (result ≡ 11) ⊎ (result ≡ 12) → (input.new ≡ input.old) × (out.new ≡ out.old) }
    ensures unfound { ((conf : Configuration) (start : ℕ) → asked_of (map (λ w. string_bytes w) words.now) ≡ Some (Follow conf start) → ⊥)
        → result ≡ 7 → (input.new ≡ input.old) × (out.new ≡ out.old) }
    ensures unread { (conf : Configuration) (number count : ℕ) → asked_of (map (λ w. string_bytes w) words.now) ≡ Some (Load conf number count) → input.new ≡ input.old }
    ensures elsewhere { ((conf : Configuration) (path : List ℕ) → asked_of (map (λ w. string_bytes w) words.now) ≡ Some (Replay conf (Some path)) → ⊥) → stores.new ≡ stores.old }
    ensures home { IsTrue (P.home stores.new) }
    ensures later { P.faults stores.old ≤ P.faults stores.new }
{
    let status = obey(alloc, words, input, out, stores);
    report(err, status);
    status.code()
}
