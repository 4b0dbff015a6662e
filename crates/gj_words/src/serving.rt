//! The reading of the arguments of `serve`.
ghost use Rattle.std.specs.Prelude.{◌≡◌, ◌≤◌, [], ◌∷◌, IfOk, IsErrOf, IfSome, Some, None, map, option_map, string_bytes};
ghost use Rattle.clap.specs.Words.{found_of, rows_of};
ghost use Rattle.gj_words.specs.Options.{serve_app};
ghost use Rattle.gj_words.specs.Tasks.{IsService, service_in, service_of, serving_by, under};
ghost use Rattle.gj_words.specs.declared.task.WordsError.TheVariants as why;

use crate::numbers::Range;
use crate::options::serve_command;
use crate::reading::{Size, matches_by, number_option, path_option, size_option};
use crate::task::{Service, WordsError};
use clap::ArgMatches;
use std::alloc::Global;

fn service_option<'a>(matches: &ArgMatches<'a>) -> Option<Service<'a>>
    ensures exact { option_map serving_by result ≡ service_in (rows_of (found_of matches.now)) }
    ensures in_range { IfSome result IsService }
{
    let Size { capacity, segments } = size_option(matches)?;
    let store = path_option(matches)?;
    let workers = number_option(matches, "workers", Range { least: 1, most: 16 }, 4)?;
    let many = Range {
        least: 1,
        most: 1_000_000_000,
    };
    let sessions = number_option(matches, "sessions", many, 1_000_000_000)?;
    let ports = Range {
        least: 1,
        most: 65_535,
    };
    let port = number_option(matches, "port", ports, 8017)?;
    Some(Service {
        capacity,
        segments,
        store,
        workers: workers as u32,
        sessions,
        port: port as u16,
    })
}

fn read_options<'a>(alloc: Global, words: &'a [String]) -> Result<Service<'a>, WordsError>
    ensures ok { IfOk result (λ s. under serve_app service_in (map (λ w. string_bytes w) words.entry.now) ≡ Some (serving_by s)) }
    ensures usage { IsErrOf result why.Usage → under serve_app service_in (map (λ w. string_bytes w) words.entry.now) ≡ None }
    ensures in_range { IfOk result IsService }
{
    let Ok(command) = serve_command(alloc) else {
        return Err(WordsError::Memory);
    };
    let matches = matches_by(command, words)?;
    match service_option(&matches) {
        Some(service) => Ok(service),
        None => Err(WordsError::Usage),
    }
}

/// What the options ask for, where the command's name is `serve`.
#[tactic(auto, unfolding(crate::specs::Tasks::service_of))]
fn read_named<'a>(
    alloc: Global,
    name: &str,
    options: &'a [String],
) -> Result<Service<'a>, WordsError>
    ensures ok { IfOk result (λ s. service_of (name.now ∷ map (λ w. string_bytes w) options.entry.now) ≡ Some (serving_by s)) }
    ensures usage { IsErrOf result why.Usage → service_of (name.now ∷ map (λ w. string_bytes w) options.entry.now) ≡ None }
    ensures in_range { IfOk result IsService }
{
    if name == "serve" {
        read_options(alloc, options)
    } else {
        Err(WordsError::Usage)
    }
}

/// Which service the arguments after the program's name ask for; the first of them is `serve`. It takes memory while it
/// reads.
pub fn read_service<'a>(alloc: Global, words: &'a [String]) -> Result<Service<'a>, WordsError>
    ensures ok { IfOk result (λ s. service_of (map (λ w. string_bytes w) words.entry.now) ≡ Some (serving_by s)) }
    ensures usage { IsErrOf result why.Usage → service_of (map (λ w. string_bytes w) words.entry.now) ≡ None }
    ensures in_range { IfOk result IsService }
{
    match words.split_first() {
        None => Err(WordsError::Usage),
        Some((name, options)) => read_named(alloc, name.as_str(), options),
    }
}
