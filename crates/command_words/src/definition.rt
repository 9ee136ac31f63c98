//! The commands as clap defines them, and what these definitions find in the words.

ghost use Rattle.std.specs.Prelude.{◌≡◌, true, [], ◌∷◌, codes, map, string_bytes, option_map, IfOk};
ghost use Rattle.clap.specs.Faults.{is_simple_and_free};
ghost use Rattle.clap.specs.Matches.{found_of};
ghost use Rattle.clap.specs.Simple.{app_of};
ghost use Rattle.clap.specs.Walk.{rows_of};
ghost use Rattle.command_words.specs.Words.{check_app, code_app, found_rows, list_rule, plain_app, run_app, trace_rule, turns_rule};

use clap::error::ErrorKind;
use clap::{Arg, ArgAction, ArgMatches, Command};
use std::alloc::{AllocError, Global};
use vba_base::NoMemory;

// A command of this name that has a list, with help, version and the `help` subcommand switched off.
fn plain_command<'a>(alloc: Global, name: &'a str) -> Result<Command<'a>, AllocError>
    ensures { IfOk result (λ made. app_of made ≡ plain_app name.entry.now (list_rule ∷ [])) }
{
    let list = Arg::new(alloc, "list").required(true);
    Command::new(alloc, name)
        .disable_help_flag(true)
        .disable_help_subcommand(true)
        .disable_version_flag(true)
        .arg(list)
}

/// `check LIST`.
pub fn check_definition<'a>(alloc: Global) -> Result<Command<'a>, AllocError>
    ensures { IfOk result (λ made. app_of made ≡ check_app) }
{
    plain_command(alloc, "check")
}

/// `code LIST`.
pub fn code_definition<'a>(alloc: Global) -> Result<Command<'a>, AllocError>
    ensures { IfOk result (λ made. app_of made ≡ code_app) }
{
    plain_command(alloc, "code")
}

/// `run [--turns N] [--trace] [--save SUFFIX] LIST`.
pub fn run_definition<'a>(alloc: Global) -> Result<Command<'a>, AllocError>
    ensures { IfOk result (λ made. app_of made ≡ run_app) }
{
    let save = Arg::new(alloc, "save").long("save");
    unsaved_command(alloc)?.arg(save)
}

// `run [--turns N] [--trace] LIST`.
fn unsaved_command<'a>(alloc: Global) -> Result<Command<'a>, AllocError>
    ensures { IfOk result (λ made. app_of made ≡ plain_app (codes "run") (list_rule ∷ turns_rule ∷ trace_rule ∷ [])) }
{
    let turns = Arg::new(alloc, "turns").long("turns");
    let trace = Arg::new(alloc, "trace")
        .long("trace")
        .action(ArgAction::SetTrue);
    plain_command(alloc, "run")?.arg(turns)?.arg(trace)
}

/// What a definition finds in the words, of which the first is the command's name; none where it finds a fault in
/// them.
pub fn found_in<'a>(
    definition: Command<'a>,
    words: &'a [String],
) -> Result<Option<ArgMatches<'a>>, NoMemory>
    requires { is_simple_and_free (app_of definition) ≡ true }
    ensures { IfOk result (λ found. option_map (λ matches. rows_of (found_of matches)) found ≡ found_rows (app_of definition.entry) (map string_bytes words.entry.now)) }
{
    match definition.try_get_matches_from(words) {
        Ok(matches) => Ok(Some(matches)),
        Err(error) => refused(error.kind()),
    }
}

// No matches for a fault in the words, and want of memory as it is.
fn refused<'a>(kind: ErrorKind) -> Result<Option<ArgMatches<'a>>, NoMemory>
    ensures { IfOk result (λ found. (kind ≡ ErrorKind.OutOfMemory → ⊥) × (found ≡ None)) }
{
    match kind {
        ErrorKind::OutOfMemory => Err(NoMemory),
        _ => Ok(None),
    }
}
