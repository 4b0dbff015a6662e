//! The answers to lines. They are put together without memory.
ghost use Rattle.std.specs.Prelude.{◌≡◌, ◌+◌, ◌≤◌, ◌∷◌, [], ◌++◌, IfOk, OnOk, OnErr, codes, length};
ghost use Rattle.std.specs.Fmt.{decimal};
ghost use Rattle.arrayvec.specs.ArrayString.{array_string_len};
ghost use Rattle.gj_base.specs.History.{end_of};
ghost use Rattle.gj_pages.specs.Answers.{answer_at, last_line, page_in, pages_in, taken_line};
ghost use Rattle.gj_pages.specs.Following.{Grown};

use arrayvec::ArrayString;
use gj_base::{Graph, Grow, Memory};
use gj_follow::{Follower, PageRefusal, PageTaken, read_page};
use itoa::Buffer;
use std::alloc::Global;

/// Puts the words and the number at the end.
fn put(text: &mut ArrayString<64>, words: &str, number: u64)
    requires { array_string_len text.old + length words.now + 20 ≤ 64 }
    ensures bytes { text.new.bytes ≡ text.old.bytes ++ (words.now ++ decimal number) }
    ensures len { array_string_len text.new ≤ array_string_len text.old + length words.now + 20 }
{
    text.push_str(words);
    let mut buffer = Buffer::new();
    text.push_str(buffer.format(number));
}

/// A line without numbers.
fn plain(words: &str) -> ArrayString<64>
    requires { length words.now ≤ 64 }
    ensures { result.bytes ≡ words.now }
{
    let mut text = ArrayString::new();
    text.push_str(words);
    text
}

/// The answer to a page of which so many interactions were added.
#[tactic(auto, using(std::proofs::Common::append_assoc))]
fn added(items: u64) -> ArrayString<64>
    ensures { result.bytes ≡ taken_line (PageTaken.Added items) }
{
    let mut text = ArrayString::new();
    put(&mut text, "added ", items);
    text.push_str("\n");
    text
}

/// The answer by what became of a page.
fn taken_text(taken: PageTaken) -> ArrayString<64>
    ensures { result.bytes ≡ taken_line taken }
{
    match taken {
        PageTaken::Added { items } => added(items),
        PageTaken::Old => plain("old\n"),
        PageTaken::Ahead => plain("ahead\n"),
    }
}

/// The line at the end of the input.
#[tactic(auto, using(std::proofs::Common::append_assoc))]
pub(crate) fn last_text<W: Graph>(graph: &W) -> ArrayString<64>
    ensures { result.bytes ≡ last_line (W.shown graph.now) }
{
    let mut text = ArrayString::new();
    put(&mut text, "length ", graph.length());
    put(&mut text, " base ", graph.base());
    text.push_str("\n");
    text
}

/// Takes the page that the line is, if it is one, and gives the line's answer. It takes memory while it reads the page.
pub(crate) fn take_line<W: Grow>(
    alloc: Global,
    follower: &mut Follower<W>,
    line: &[u8],
) -> Result<ArrayString<64>, Memory>
    ensures answer { IfOk result (λ text. text.bytes ≡ answer_at (end_of follower.old) (page_in line.now)) }
    ensures grown { OnOk result (Grown follower.old follower.new (pages_in (line.now ∷ []))) }
    ensures err { OnErr result (follower.new ≡ follower.old) }
{
    match read_page(alloc, line) {
        Ok(page) => Ok(taken_text(follower.take_page(&page))),
        Err(PageRefusal::Json | PageRefusal::Shape) => Ok(plain("bad\n")),
        Err(PageRefusal::Memory) => Err(Memory),
    }
}
