//! The options of each command, as `clap` reads them.
ghost use Rattle.std.specs.Prelude.{◌≡◌, ◌≢◌, [], IfOk, IfErr, IsErrOf, true, false, map, string_bytes};
ghost use Rattle.clap.specs.Words.{app_of, fault_of, found_of, is_simple_and_free, matches_of, rows_of, rule_of};
ghost use Rattle.gj_words.specs.Options.{option, plain_app, window_app, replay_app, load_app, follow_app, serve_app};
ghost use Rattle.gj_words.specs.declared.task.WordsError.TheVariants as why;

use crate::task::WordsError;
use clap::error::ErrorKind;
use clap::{Arg, ArgAction, ArgMatches, Command, Error};
use std::alloc::{AllocError, Global};

/// A command with no option yet.
fn plain_command<'a>(alloc: Global, name: &'a str) -> Command<'a>
    ensures { app_of result ≡ plain_app name.entry.now }
{
    Command::new(alloc, name)
        .no_binary_name(true)
        .disable_help_flag(true)
        .disable_version_flag(true)
}

/// An option of one value.
fn option<'a>(alloc: Global, name: &'a str) -> Arg<'a>
    ensures rule { rule_of result ≡ option name.entry.now }
    ensures local { result.global ≡ false }
{
    Arg::new(alloc, name).long(name).action(ArgAction::Set)
}

/// A command with the options of the window.
fn window_command<'a>(alloc: Global, name: &'a str) -> Result<Command<'a>, AllocError>
    ensures { IfOk result (λ c. app_of c ≡ window_app name.entry.now) }
{
    plain_command(alloc, name)
        .arg(option(alloc, "segments"))?
        .arg(option(alloc, "capacity"))
}

/// The command that replays.
#[tactic(auto, unfolding(crate::specs::Options::replay_app))]
pub fn replay_command<'a>(alloc: Global) -> Result<Command<'a>, AllocError>
    ensures { IfOk result (λ c. app_of c ≡ replay_app) }
{
    window_command(alloc, "replay")?.arg(option(alloc, "store"))
}

/// The command that makes a load.
#[tactic(auto, unfolding(crate::specs::Options::load_app))]
pub fn load_command<'a>(alloc: Global) -> Result<Command<'a>, AllocError>
    ensures { IfOk result (λ c. app_of c ≡ load_app) }
{
    window_command(alloc, "load")?
        .arg(option(alloc, "number"))?
        .arg(option(alloc, "count"))
}

/// The command that applies pages.
#[tactic(auto, unfolding(crate::specs::Options::follow_app))]
pub fn follow_command<'a>(alloc: Global) -> Result<Command<'a>, AllocError>
    ensures { IfOk result (λ c. app_of c ≡ follow_app) }
{
    window_command(alloc, "follow")?.arg(option(alloc, "start"))
}

/// The command that serves connections.
#[tactic(auto, unfolding(crate::specs::Options::serve_app))]
pub fn serve_command<'a>(alloc: Global) -> Result<Command<'a>, AllocError>
    ensures { IfOk result (λ c. app_of c ≡ serve_app) }
{
    window_command(alloc, "serve")?
        .arg(option(alloc, "store"))?
        .arg(option(alloc, "workers"))?
        .arg(option(alloc, "sessions"))?
        .arg(option(alloc, "port"))
}
