//! The reading of the arguments.
ghost use Rattle.std.specs.Prelude.{◌≡◌, ◌≤◌, [], ◌∷◌, IfOk, IsErrOf, IsTrue, ◌↔◌, IfSome, Some, None, true, false, map, option_map, string_bytes, codes};
ghost use Rattle.clap.specs.Words.{app_of, fault_of, found_of, is_simple_and_free, kind_of, first_of, matches_of, rows_of};
ghost use Rattle.clap.specs.Walk.{is_empty};
ghost use Rattle.clap.specs.declared.error.kind.ErrorKind.TheVariants as kind;
ghost use Rattle.gj_words.specs.Options.{replay_app, load_app, follow_app};
ghost use Rattle.gj_words.specs.Values.{number_in, path_in};
ghost use Rattle.gj_words.specs.Tasks.{IsTask, asked_by, asked_of, conf_in, follow_in, load_in, replay_in, under};
ghost use Rattle.gj_words.specs.declared.task.WordsError.TheVariants as why;

use crate::numbers::{Range, number_of};
use crate::options::{follow_command, load_command, replay_command};
use crate::task::{Task, WordsError};
use clap::error::ErrorKind;
use clap::{ArgMatches, Command, Error};
use std::alloc::Global;

/// Why `clap` gives no matches.
fn why_of(error: &Error) -> WordsError
    ensures usage { result ≡ why.Usage → kind_of error.now ≡ kind.OutOfMemory → ⊥ }
{
    match error.kind() {
        ErrorKind::OutOfMemory => WordsError::Memory,
        _ => WordsError::Usage,
    }
}

/// What `clap` finds in the arguments by a command.
pub(crate) fn matches_by<'a>(
    mut command: Command<'a>,
    words: &'a [String],
) -> Result<ArgMatches<'a>, WordsError>
    requires { is_simple_and_free (app_of command) ≡ true }
    ensures taken { IfOk result (λ m. is_empty (fault_of (app_of command.entry) (map (λ w. string_bytes w) words.entry.now)) ≡ true) }
    ensures rows { IfOk result (λ m. rows_of (found_of m) ≡ matches_of (app_of command.entry) (map (λ w. string_bytes w) words.entry.now)) }
    ensures usage { IsErrOf result why.Usage → is_empty (fault_of (app_of command.entry) (map (λ w. string_bytes w) words.entry.now)) ≡ false }
{
    match command.try_get_matches_from_mut(words) {
        Ok(matches) => Ok(matches),
        Err(error) => Err(why_of(&error)),
    }
}

/// The number of an option, or its default where it isn't given.
pub(crate) fn number_option(
    matches: &ArgMatches,
    name: &str,
    range: Range,
    default: u64,
) -> Option<u64>
    requires low { range.least ≤ default }
    requires high { default ≤ range.most }
    ensures exact { result ≡ number_in range default (first_of name.now (rows_of (found_of matches.now))) }
    ensures in_range { IfSome result (λ n. (range.least ≤ n) × (n ≤ range.most)) }
{
    match matches.get_str(name) {
        None => Some(default),
        Some(text) => number_of(range, text),
    }
}

/// The path that is given, if it isn't empty; `Some(None)` where none is given.
pub(crate) fn path_option<'a>(matches: &ArgMatches<'a>) -> Option<Option<&'a str>>
    ensures { option_map (λ path. option_map (λ text. text.now) path) result ≡ path_in (first_of (codes "store") (rows_of (found_of matches.now))) }
{
    match matches.get_str("store") {
        None => Some(None),
        Some(path) => {
            if path.is_empty() {
                None
            } else {
                Some(Some(path))
            }
        }
    }
}

/// The numbers of a window.
#[derive(Clone, Copy)]
pub(crate) struct Size {
    pub capacity: u32,
    pub segments: u32,
}

/// The window that the options ask for.
pub(crate) fn size_option(matches: &ArgMatches) -> Option<Size>
    ensures exact { option_map (λ size. record { capacity = size.capacity; segments = size.segments }) result ≡ conf_in (rows_of (found_of matches.now)) }
    ensures in_range { IfSome result (λ size. IsConfiguration size.capacity size.segments) }
{
    let capacities = Range {
        least: 16,
        most: 65_536,
    };
    let capacity = number_option(matches, "capacity", capacities, 4096)?;
    let segments = number_option(matches, "segments", Range { least: 1, most: 64 }, 4)?;
    Some(Size {
        capacity: capacity as u32,
        segments: segments as u32,
    })
}

ghost use Rattle.gj_base.specs.Configuration.{IsConfiguration};

fn replay_option<'a>(matches: &ArgMatches<'a>) -> Option<Task<'a>>
    ensures in_range { IfSome result IsTask }
    ensures exact { option_map asked_by result ≡ replay_in (rows_of (found_of matches.now)) }
{
    let Size { capacity, segments } = size_option(matches)?;
    let store = path_option(matches)?;
    Some(Task::Replay {
        capacity,
        segments,
        store,
    })
}

fn load_option<'a>(matches: &ArgMatches<'a>) -> Option<Task<'a>>
    ensures exact { option_map asked_by result ≡ load_in (rows_of (found_of matches.now)) }
    ensures in_range { IfSome result IsTask }
{
    let Size { capacity, segments } = size_option(matches)?;
    let numbers = Range {
        least: 0,
        most: u64::MAX,
    };
    let number = number_option(matches, "number", numbers, 1)?;
    let counts = Range {
        least: 1,
        most: 1_000_000,
    };
    let count = number_option(matches, "count", counts, 10_000)?;
    Some(Task::Load {
        capacity,
        segments,
        number,
        count,
    })
}

fn follow_option<'a>(matches: &ArgMatches<'a>) -> Option<Task<'a>>
    ensures exact { option_map asked_by result ≡ follow_in (rows_of (found_of matches.now)) }
    ensures in_range { IfSome result IsTask }
{
    let Size { capacity, segments } = size_option(matches)?;
    let places = Range {
        least: 0,
        most: 281_474_976_710_655,
    };
    let start = number_option(matches, "start", places, 0)?;
    if start % u64::from(capacity) == 0 {
        Some(Task::Follow {
            capacity,
            segments,
            start,
        })
    } else {
        None
    }
}

fn read_replay<'a>(alloc: Global, words: &'a [String]) -> Result<Task<'a>, WordsError>
    ensures ok { IfOk result (λ t. under replay_app replay_in (map (λ w. string_bytes w) words.entry.now) ≡ Some (asked_by t)) }
    ensures usage { IsErrOf result why.Usage → under replay_app replay_in (map (λ w. string_bytes w) words.entry.now) ≡ None }
    ensures in_range { IfOk result IsTask }
{
    let Ok(command) = replay_command(alloc) else {
        return Err(WordsError::Memory);
    };
    let matches = matches_by(command, words)?;
    match replay_option(&matches) {
        Some(task) => Ok(task),
        None => Err(WordsError::Usage),
    }
}

fn read_load<'a>(alloc: Global, words: &'a [String]) -> Result<Task<'a>, WordsError>
    ensures ok { IfOk result (λ t. under load_app load_in (map (λ w. string_bytes w) words.entry.now) ≡ Some (asked_by t)) }
    ensures usage { IsErrOf result why.Usage → under load_app load_in (map (λ w. string_bytes w) words.entry.now) ≡ None }
    ensures in_range { IfOk result IsTask }
{
    let Ok(command) = load_command(alloc) else {
        return Err(WordsError::Memory);
    };
    let matches = matches_by(command, words)?;
    match load_option(&matches) {
        Some(task) => Ok(task),
        None => Err(WordsError::Usage),
    }
}

fn read_follow<'a>(alloc: Global, words: &'a [String]) -> Result<Task<'a>, WordsError>
    ensures ok { IfOk result (λ t. under follow_app follow_in (map (λ w. string_bytes w) words.entry.now) ≡ Some (asked_by t)) }
    ensures usage { IsErrOf result why.Usage → under follow_app follow_in (map (λ w. string_bytes w) words.entry.now) ≡ None }
    ensures in_range { IfOk result IsTask }
{
    let Ok(command) = follow_command(alloc) else {
        return Err(WordsError::Memory);
    };
    let matches = matches_by(command, words)?;
    match follow_option(&matches) {
        Some(task) => Ok(task),
        None => Err(WordsError::Usage),
    }
}

/// What the options ask for under a command's name.
#[tactic(auto, unfolding(crate::specs::Tasks::asked_of))]
fn read_named<'a>(alloc: Global, name: &str, options: &'a [String]) -> Result<Task<'a>, WordsError>
    ensures ok { IfOk result (λ t. asked_of (name.now ∷ map (λ w. string_bytes w) options.entry.now) ≡ Some (asked_by t)) }
    ensures usage { IsErrOf result why.Usage → asked_of (name.now ∷ map (λ w. string_bytes w) options.entry.now) ≡ None }
    ensures in_range { IfOk result IsTask }
{
    if name == "replay" {
        read_replay(alloc, options)
    } else if name == "load" {
        read_load(alloc, options)
    } else if name == "follow" {
        read_follow(alloc, options)
    } else {
        Err(WordsError::Usage)
    }
}

/// What the arguments after the program's name ask for. It takes memory while it reads.
pub fn read_words<'a>(alloc: Global, words: &'a [String]) -> Result<Task<'a>, WordsError>
    ensures ok { IfOk result (λ t. asked_of (map (λ w. string_bytes w) words.entry.now) ≡ Some (asked_by t)) }
    ensures usage { IsErrOf result why.Usage → asked_of (map (λ w. string_bytes w) words.entry.now) ≡ None }
    ensures in_range { IfOk result IsTask }
{
    match words.split_first() {
        None => Err(WordsError::Usage),
        Some((name, options)) => read_named(alloc, name.as_str(), options),
    }
}
