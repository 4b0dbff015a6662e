//! The lines that the program writes of its own. They are put together without memory.
ghost use Rattle.std.specs.Prelude.{◌≡◌, ◌+◌, ◌≤◌, ◌++◌, codes, length};
ghost use Rattle.std.specs.Fmt.{decimal};
ghost use Rattle.arrayvec.specs.ArrayString.{array_string_len};
ghost use Rattle.gj_program.specs.Lines.{numbered, conf_text, kept_line, row_line, line_of, number_line, best_line, history_lines, summary_of};

use crate::run_status::RunStatus;
use arrayvec::ArrayString;
use gj_base::KeptConf;
use gj_load::Totals;
use itoa::Buffer;

/// Puts the words and the number at the end.
fn put(text: &mut ArrayString<256>, words: &str, number: u64)
    requires { array_string_len text.old + length words.now + 20 ≤ 256 }
    ensures bytes { text.new.bytes ≡ text.old.bytes ++ numbered words.now number }
    ensures len { array_string_len text.new ≤ array_string_len text.old + length words.now + 20 }
{
    text.push_str(words);
    let mut buffer = Buffer::new();
    text.push_str(buffer.format(number));
}

/// Puts a configuration at the end.
#[tactic(auto, using(std::proofs::Common::append_assoc), unfolding(crate::specs::Lines::conf_text))]
fn put_conf(text: &mut ArrayString<256>, words: &str, conf: KeptConf)
    requires { array_string_len text.old + length words.now + 80 ≤ 256 }
    ensures bytes { text.new.bytes ≡ text.old.bytes ++ conf_text words.now conf }
    ensures len { array_string_len text.new ≤ array_string_len text.old + length words.now + 80 }
{
    put(text, words, conf.version);
    put(text, " capacity ", conf.capacity);
    put(text, " segments ", conf.segments);
}

/// The line for a store that keeps another configuration.
#[tactic(auto, using(std::proofs::Common::append_assoc), unfolding(crate::specs::Lines::kept_line))]
fn differing(kept: KeptConf, asked: KeptConf) -> ArrayString<256>
    ensures { result.bytes ≡ kept_line kept asked }
{
    let mut text = ArrayString::new();
    put_conf(&mut text, "kept version ", kept);
    put_conf(&mut text, ", asked version ", asked);
    text.push_str("\n");
    text
}

/// The line for a bad row.
#[tactic(auto, using(std::proofs::Common::append_assoc), unfolding(crate::specs::Lines::row_line))]
fn bad_row(row: u64) -> ArrayString<256>
    ensures { result.bytes ≡ row_line row }
{
    let mut text = ArrayString::new();
    put(&mut text, "kept row ", row);
    text.push_str("\n");
    text
}

/// A line without numbers.
fn plain(words: &str) -> ArrayString<256>
    requires { length words.now ≤ 256 }
    ensures { result.bytes ≡ words.now }
{
    let mut text = ArrayString::new();
    text.push_str(words);
    text
}

/// The line that says why a run ended so, with its line feed; empty where all is well.
pub fn status_line(status: RunStatus) -> ArrayString<256>
    ensures { result.bytes ≡ line_of status }
{
    match status {
        RunStatus::Done => plain(""),
        RunStatus::Usage => plain("usage: graphjet replay|serve|load|follow [options]\n"),
        RunStatus::ReadFault => plain("read fault\n"),
        RunStatus::WriteFault => plain("write fault\n"),
        RunStatus::StoreFault => plain("store fault\n"),
        RunStatus::Truncated => plain("truncated input\n"),
        RunStatus::Memory => plain("out of memory\n"),
        RunStatus::DoorFault => plain("door fault\n"),
        RunStatus::StoppedEarly => plain("stopped early\n"),
        RunStatus::TooManyReads => plain("too many reads\n"),
        RunStatus::ConfDiffers { kept, asked } => differing(kept, asked),
        RunStatus::KeptRow { row } => bad_row(row),
        RunStatus::NoPlace => plain("no reader place\n"),
    }
}

/// Puts a line of a number at the end.
#[tactic(auto, using(std::proofs::Common::append_assoc), unfolding(crate::specs::Lines::number_line))]
fn put_line(text: &mut ArrayString<256>, words: &str, number: u64)
    requires { array_string_len text.old + length words.now + 21 ≤ 256 }
    ensures bytes { text.new.bytes ≡ text.old.bytes ++ number_line words.now number }
    ensures len { array_string_len text.new ≤ array_string_len text.old + length words.now + 21 }
{
    put(text, words, number);
    text.push_str("\n");
}

/// Puts the lines of the history at the end.
#[tactic(auto, using(std::proofs::Common::append_assoc), unfolding(crate::specs::Lines::history_lines))]
fn put_history(text: &mut ArrayString<256>, totals: &Totals)
    requires { array_string_len text.old ≤ 0 }
    ensures bytes { text.new.bytes ≡ text.old.bytes ++ history_lines totals.now }
    ensures len { array_string_len text.new ≤ 150 }
{
    put_line(text, "accepted ", totals.accepted);
    put_line(text, "batches ", totals.batches);
    put_line(text, "length ", totals.length);
    put_line(text, "base ", totals.base);
    put_line(text, "window ", totals.window);
}

/// Puts the line of the best post at the end.
#[tactic(auto, using(std::proofs::Common::append_assoc), unfolding(crate::specs::Lines::best_line))]
fn put_best(text: &mut ArrayString<256>, best: Option<(u64, u64)>)
    requires { array_string_len text.old ≤ 200 }
    ensures bytes { text.new.bytes ≡ text.old.bytes ++ best_line best }
{
    match best {
        None => text.push_str("best none\n"),
        Some((post, visits)) => {
            put(text, "best ", post);
            put_line(text, " ", visits);
        }
    }
}

/// The summary of a workload.
#[tactic(auto, using(std::proofs::Common::append_assoc), unfolding(crate::specs::Lines::summary_of))]
pub fn summary(totals: &Totals) -> ArrayString<256>
    ensures { result.bytes ≡ summary_of totals.now }
{
    let mut text = ArrayString::new();
    put_history(&mut text, totals);
    text.push_str("walks 100\n");
    put_line(&mut text, "visits ", totals.visits);
    put_best(&mut text, totals.best);
    text
}
