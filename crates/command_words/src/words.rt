//! The command that the words name.

ghost use Rattle.std.specs.Prelude.{◌≡◌, map, string_bytes, option_map, option_and_then, IfOk};
ghost use Rattle.clap.specs.Matches.{found_of};
ghost use Rattle.clap.specs.Walk.{rows_of};
ghost use Rattle.command_words.specs.View.{command_view};
ghost use Rattle.command_words.specs.Words.{check_app, check_in, code_app, code_in, command_named, command_of, found_rows, run_app, run_in, save_in, trace_in, turns_in};

use crate::command::Command;
use crate::definition::{check_definition, code_definition, found_in, run_definition};
use crate::turns::turns_named;
use clap::ArgMatches;
use std::alloc::Global;
use vba_base::NoMemory;

/// The bound on turns where the words name none.
const DEFAULT_TURNS: u64 = 10_000_000;

/// The command that the words name, where they are a command form:
/// `run [--turns N] [--trace] [--save SUFFIX] LIST`, `check LIST` or `code LIST`.
pub fn command_of<'a>(alloc: Global, words: &'a [String]) -> Result<Option<Command<'a>>, NoMemory>
    ensures { IfOk result (λ found. option_map command_view found ≡ command_of (map string_bytes words.entry.now)) }
{
    match words.first() {
        Some(name) => command_named(alloc, name.as_str(), words),
        None => Ok(None),
    }
}

// The command of this name whose words these are.
fn command_named<'a>(
    alloc: Global,
    name: &str,
    words: &'a [String],
) -> Result<Option<Command<'a>>, NoMemory>
    ensures { IfOk result (λ found. option_map command_view found ≡ command_named name.now (map string_bytes words.entry.now)) }
{
    if name == "run" {
        run_of(alloc, words)
    } else if name == "check" {
        check_of(alloc, words)
    } else if name == "code" {
        code_of(alloc, words)
    } else {
        Ok(None)
    }
}

// The run that the words of `run` name.
#[tactic(auto, using(crate::proofs::Found::run_is_simple))]
fn run_of<'a>(alloc: Global, words: &'a [String]) -> Result<Option<Command<'a>>, NoMemory>
    ensures { IfOk result (λ found. option_map command_view found ≡ option_and_then run_in (found_rows run_app (map string_bytes words.entry.now))) }
{
    let definition = run_definition(alloc)?;
    match found_in(definition, words)? {
        Some(matches) => Ok(run_in(&matches)),
        None => Ok(None),
    }
}

// The check that the words of `check` name.
#[tactic(auto, using(crate::proofs::Found::check_is_simple))]
fn check_of<'a>(alloc: Global, words: &'a [String]) -> Result<Option<Command<'a>>, NoMemory>
    ensures { IfOk result (λ found. option_map command_view found ≡ option_and_then check_in (found_rows check_app (map string_bytes words.entry.now))) }
{
    let definition = check_definition(alloc)?;
    match found_in(definition, words)? {
        Some(matches) => Ok(check_in(&matches)),
        None => Ok(None),
    }
}

// The listing that the words of `code` ask for.
#[tactic(auto, using(crate::proofs::Found::code_is_simple))]
fn code_of<'a>(alloc: Global, words: &'a [String]) -> Result<Option<Command<'a>>, NoMemory>
    ensures { IfOk result (λ found. option_map command_view found ≡ option_and_then code_in (found_rows code_app (map string_bytes words.entry.now))) }
{
    let definition = code_definition(alloc)?;
    match found_in(definition, words)? {
        Some(matches) => Ok(code_in(&matches)),
        None => Ok(None),
    }
}

// A run of these arguments.
#[tactic(auto, using(crate::proofs::Found::value_of_row))]
fn run_in<'a>(matches: &ArgMatches<'a>) -> Option<Command<'a>>
    ensures { option_map command_view result ≡ run_in (rows_of (found_of matches.now)) }
{
    let file = matches.get_str("list")?;
    let turns = turns_in(matches)?;
    let trace = is_traced(matches);
    let save = save_in(matches);
    Some(Command::Run {
        file,
        turns,
        trace,
        save,
    })
}

// A check of these arguments.
#[tactic(auto, using(crate::proofs::Found::value_of_row))]
fn check_in<'a>(matches: &ArgMatches<'a>) -> Option<Command<'a>>
    ensures { option_map command_view result ≡ check_in (rows_of (found_of matches.now)) }
{
    let file = matches.get_str("list")?;
    Some(Command::Check { file })
}

// A listing of these arguments.
#[tactic(auto, using(crate::proofs::Found::value_of_row))]
fn code_in<'a>(matches: &ArgMatches<'a>) -> Option<Command<'a>>
    ensures { option_map command_view result ≡ code_in (rows_of (found_of matches.now)) }
{
    let file = matches.get_str("list")?;
    Some(Command::Code { file })
}

// The bound on turns of a run.
#[tactic(auto, using(crate::proofs::Found::value_of_row))]
fn turns_in(matches: &ArgMatches) -> Option<u64>
    ensures { result ≡ turns_in (rows_of (found_of matches.now)) }
{
    match matches.get_str("turns") {
        Some(text) => turns_named(text),
        None => Some(DEFAULT_TURNS),
    }
}

// Is the run traced?
#[tactic(auto, using(crate::proofs::Found::value_of_row))]
fn is_traced(matches: &ArgMatches) -> bool
    ensures { result ≡ trace_in (rows_of (found_of matches.now)) }
{
    match matches.get_str("trace") {
        Some(text) => text == "true",
        None => false,
    }
}

// The suffix with which a run saves its sheets.
#[tactic(auto, using(crate::proofs::Found::value_of_row))]
fn save_in<'a>(matches: &ArgMatches<'a>) -> Option<&'a str>
    ensures { option_map (λ suffix. suffix.now) result ≡ save_in (rows_of (found_of matches.now)) }
{
    matches.get_str("save")
}
