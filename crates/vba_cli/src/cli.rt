ghost use Rattle.std.specs.Prelude.{◌≡◌, Option, map, string_bytes, option_map, None};
ghost use Rattle.command_words.specs.View.{command_view};
ghost use Rattle.command_words.specs.Words as words;
ghost use Rattle.vba_cli.specs.Answer.{path_of, turns_of};
ghost use Rattle.vba_cli.specs.Contract.{World, Commands};
ghost use Rattle.vba_cli.specs.Named.{nothing_named};
ghost use Rattle.vba_cli.specs.Steps.{Performs, Puts, Tells};
ghost use Rattle.vba_cli.specs.Told.{named_of};

use crate::command::{path_of, turns_of};
use crate::lists::{Performed, alone, take_file};
use crate::messages::{Told, status_line};
use crate::status::Status;
use command_words::{Command, command_of};
use list_file::{ModulePath, SheetPath};
use std::alloc::Global;
use vba_base::{Files, Sink, WriteAnswer};

/// Performs a command: reads the file that its words name, and the modules that it lists where it is a list; runs them
/// over the sheets of the list with their output on `out`, saves these where the run came to its end and that is asked,
/// or checks the modules or lists their code; and writes the text of the status on `err`. The commands so far are
/// `run [--turns N] [--trace] [--save SUFFIX] LIST`, `check LIST` and `code LIST`, of lists of standard modules and sheets.
pub fn run_cli<F: Files, O: Sink, E: Sink>(
    alloc: Global,
    words: &Vec<String>,
    files: &mut F,
    out: &mut O,
    err: &mut E,
) -> Status
    ensures { let old : World = record { told = F.told files.old; counts = F.counts files.old; out = O.taken out.old; out_faults = O.faults out.old; err = E.taken err.old; err_faults = E.faults err.old } in
        let new : World = record { told = F.told files.new; counts = F.counts files.new; out = O.taken out.new; out_faults = O.faults out.new; err = E.taken err.new; err_faults = E.faults err.new } in
        Commands (map string_bytes words.now.items) result old new }
{
    match command_of(alloc, words.as_slice()) {
        Ok(command) => {
            let performed = perform(alloc, command, files, out);
            tell(
                alloc,
                command,
                performed.modules.as_slice(),
                performed.sheets.as_slice(),
                performed.status,
                err,
            )
        }
        Err(_) => tell_want(err),
    }
}

// Performs a command, or none, up to the text on `err`.
fn perform<F: Files, O: Sink>(
    alloc: Global,
    command: Option<Command>,
    files: &mut F,
    out: &mut O,
) -> Performed
    ensures { let old : World = record { told = F.told files.old; counts = F.counts files.old; out = O.taken out.old; out_faults = O.faults out.old; err = None; err_faults = 0 } in
        let new : World = record { told = F.told files.new; counts = F.counts files.new; out = O.taken out.new; out_faults = O.faults out.new; err = None; err_faults = 0 } in
        Performs (option_map command_view command.entry) (named_of result.modules.items result.sheets.items) result.status old new }
{
    match command {
        None => alone(alloc, Status::Usage),
        Some(command) => take_file(alloc, command, files, out),
    }
}

// Puts the text of a status on `err`. Want of memory is told by a text that needs none.
fn tell<E: Sink>(
    alloc: Global,
    command: Option<Command>,
    modules: &[ModulePath],
    sheets: &[SheetPath],
    status: Status,
    err: &mut E,
) -> Status
    ensures { Tells (option_map command_view command.entry) (named_of modules.now sheets.now) status result (E.taken err.old) (E.taken err.new) (E.faults err.old) (E.faults err.new) }
{
    match status {
        Status::NoMemory => put_line(OUT_OF_MEMORY, status, err),
        _ => match status_line(alloc, told_of(command, modules, sheets), status) {
            Ok(line) => put_line(line.as_bytes(), status, err),
            Err(_) => put_line(OUT_OF_MEMORY, Status::NoMemory, err),
        },
    }
}

// What the texts of a command tell of it.
fn told_of<'a>(
    command: Option<Command<'a>>,
    modules: &'a [ModulePath],
    sheets: &'a [SheetPath],
) -> Told<'a>
    ensures path { result.path.now ≡ path_of (option_map command_view command.entry) }
    ensures modules { result.modules.now ≡ modules.now }
    ensures sheets { result.sheets.now ≡ sheets.now }
    ensures turns { result.turns ≡ turns_of (option_map command_view command.entry) }
{
    Told {
        path: path_of(command),
        modules,
        sheets,
        turns: turns_of(command),
    }
}

// Tells want of memory, whatever the command is.
fn tell_want<E: Sink>(err: &mut E) -> Status
    ensures { (command : Option words.Command) → Tells command nothing_named (Status.NoMemory) result (E.taken err.old) (E.taken err.new) (E.faults err.old) (E.faults err.new) }
{
    put_line(OUT_OF_MEMORY, Status::NoMemory, err)
}

const OUT_OF_MEMORY: &[u8] = b"vbarun: out of memory\n";

// Puts a line on `err`, unless it is empty.
fn put_line<E: Sink>(line: &[u8], status: Status, err: &mut E) -> Status
    ensures { Puts line.now status result (E.taken err.old) (E.taken err.new) (E.faults err.old) (E.faults err.new) }
{
    if line.is_empty() {
        return status;
    }
    match err.put(line) {
        Ok(()) => status,
        Err(WriteAnswer::Failed) => Status::WriteFault,
        Err(WriteAnswer::NoMemory) => Status::NoMemory,
    }
}
