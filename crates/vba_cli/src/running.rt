//! Running, checking and listing the files of standard modules.

ghost use Rattle.std.specs.Prelude.{◌≡◌, ℕ, IfOk, List, None, Option, length, ◌≤◌, option_map};
ghost use Rattle.bound_project.specs.Bodies.{Fits, project_view};
ghost use Rattle.command_words.specs.View.{command_view};
ghost use Rattle.command_words.specs.Words as words;
ghost use Rattle.list_file.specs.Files.{FilesAt};
ghost use Rattle.list_file.specs.Sources.{files_view, sheets_view};
ghost use Rattle.list_file.specs.View.{start_view};
ghost use Rattle.code_listing.specs.Listing.{listing_of};
ghost use Rattle.project_run.specs.pcode.specs.Layout.{code_of};
ghost use Rattle.vba_cli.specs.Answer.{all_right, no_book, saved_by, shown_of_code, shown_of_run, shows_of, status_of, unread};
ghost use Rattle.vba_cli.specs.Contract.{World};
ghost use Rattle.vba_cli.specs.Program.{program_of};
ghost use Rattle.vba_cli.specs.Steps.{EndsSaved, IsReadable, PutsShown, Ran, RanAlone, RanOver, RanProject, RanSources};

use crate::reading::program;
use crate::sheets::{ListedSheets, RunWords};
use crate::status::Status;
use bind_project::Bound;
use book_files::{BookStop, read_book, save_book};
use bound_project::Project;
use code_listing::listing;
use command_words::Command;
use list_file::{ModuleBytes, ReadStop, SheetPath, Startup};
use project_run::codegen::compile;
use project_run::pcode_run::Shows;
use project_run::{Outcome, RunFault, run_project};
use sheet_host::Book;
use std::alloc::Global;
use vba_base::{Files, NoMemory, OrMemory, Sink, WriteAnswer};

/// Does with the files of standard modules what is asked. A run reads the sheets of the list before it begins, and saves
/// them where it came to its end and that is asked.
pub fn take_sources<F: Files, O: Sink>(
    alloc: Global,
    command: Command,
    sources: &[ModuleBytes],
    start: Option<&Startup>,
    listed: ListedSheets,
    files: &mut F,
    out: &mut O,
) -> Status
    requires count { length sources.now ≤ 67108865 }
    requires readable { IsReadable listed }
    ensures { let old : World = record { told = F.told files.old; counts = F.counts files.old; out = O.taken out.old; out_faults = O.faults out.old; err = None; err_faults = 0 } in
        let new : World = record { told = F.told files.new; counts = F.counts files.new; out = O.taken out.new; out_faults = O.faults out.new; err = None; err_faults = 0 } in
        RanSources (command_view command.entry) (sheets_view listed.entry.sheets.now) listed.entry.number listed.entry.taken (program_of (option_map (λ s. start_view s.now) start.entry) (files_view sources.now)) result old new }
{
    match command {
        Command::Run {
            turns,
            trace,
            save,
            ..
        } => {
            let run = RunWords { turns, trace, save };
            run_sources(alloc, run, sources, start, listed, files, out)
        }
        Command::Check { .. } => check_sources(alloc, sources, start, out),
        Command::Code { .. } => code_sources(alloc, sources, start, out),
    }
}

// Runs the files of standard modules.
#[tactic(auto, using(crate::proofs::Taken::sources_refused, crate::proofs::Taken::sources_wanting))]
fn run_sources<F: Files, O: Sink>(
    alloc: Global,
    run: RunWords,
    sources: &[ModuleBytes],
    start: Option<&Startup>,
    listed: ListedSheets,
    files: &mut F,
    out: &mut O,
) -> Status
    requires count { length sources.now ≤ 67108865 }
    requires readable { IsReadable listed }
    ensures { let old : World = record { told = F.told files.old; counts = F.counts files.old; out = O.taken out.old; out_faults = O.faults out.old; err = None; err_faults = 0 } in
        let new : World = record { told = F.told files.new; counts = F.counts files.new; out = O.taken out.new; out_faults = O.faults out.new; err = None; err_faults = 0 } in
        (path : List ℕ) → RanSources (words.run path run.entry.turns run.entry.trace (option_map (λ s. s.now) run.entry.save)) (sheets_view listed.entry.sheets.now) listed.entry.number listed.entry.taken (program_of (option_map (λ s. start_view s.now) start.entry) (files_view sources.now)) result old new }
{
    match program(alloc, sources, start) {
        Ok(Bound::Runs(project)) => run_bound(alloc, run, project, listed, files, out),
        Ok(Bound::NotBuilt(place)) => Status::NotBuilt(place),
        Err(OrMemory::Fault(refusal)) => Status::Refused(refusal),
        Err(OrMemory::NoMemory) => Status::NoMemory,
    }
}

// Checks the files of standard modules.
#[tactic(auto, using(crate::proofs::Shown::checked, crate::proofs::Shown::check_refused, crate::proofs::Shown::check_wanted))]
fn check_sources<O: Sink>(
    alloc: Global,
    sources: &[ModuleBytes],
    start: Option<&Startup>,
    out: &mut O,
) -> Status
    requires { length sources.now ≤ 67108865 }
    ensures { (path : List ℕ) → RanAlone (words.check path) (program_of (option_map (λ s. start_view s.now) start.entry) (files_view sources.now)) result (O.taken out.old) (O.taken out.new) (O.faults out.old) (O.faults out.new) }
{
    match program(alloc, sources, start) {
        Ok(_) => put_ok(out),
        Err(OrMemory::Fault(refusal)) => Status::Refused(refusal),
        Err(OrMemory::NoMemory) => Status::NoMemory,
    }
}

// Says on `out` that no rule is broken.
fn put_ok<O: Sink>(out: &mut O) -> Status
    ensures { Ran all_right result (O.taken out.old) (O.taken out.new) (O.faults out.old) (O.faults out.new) }
{
    put_shown(b"ok\n", out)
}

// Lists the code of the files of standard modules.
#[tactic(auto, using(crate::proofs::Shown::code_refused, crate::proofs::Shown::code_wanted))]
fn code_sources<O: Sink>(
    alloc: Global,
    sources: &[ModuleBytes],
    start: Option<&Startup>,
    out: &mut O,
) -> Status
    requires { length sources.now ≤ 67108865 }
    ensures { (path : List ℕ) → RanAlone (words.code path) (program_of (option_map (λ s. start_view s.now) start.entry) (files_view sources.now)) result (O.taken out.old) (O.taken out.new) (O.faults out.old) (O.faults out.new) }
{
    match program(alloc, sources, start) {
        Ok(Bound::Runs(project)) => list_code(alloc, project, out),
        Ok(Bound::NotBuilt(place)) => Status::NotBuilt(place),
        Err(OrMemory::Fault(refusal)) => Status::Refused(refusal),
        Err(OrMemory::NoMemory) => Status::NoMemory,
    }
}

// Puts the listing of a project's code on `out`.
fn list_code<O: Sink>(alloc: Global, project: Project, out: &mut O) -> Status
    requires { Fits project }
    ensures { Ran (shown_of_code (project_view project)) result (O.taken out.old) (O.taken out.new) (O.faults out.old) (O.faults out.new) }
{
    match listed(alloc, project) {
        Ok(text) => put_shown(text.as_slice(), out),
        Err(_) => Status::NoMemory,
    }
}

// The listing of a project's code. More instructions than a number of 32 bits counts are answered by NoMemory.
fn listed(alloc: Global, project: Project) -> Result<Vec<u8>, NoMemory>
    requires { Fits project }
    ensures { IfOk result (λ text. text.items ≡ listing_of (code_of (project_view project))) }
{
    match compile(alloc, project) {
        Ok(code) => listing(alloc, &code),
        Err(_) => Err(NoMemory),
    }
}

// Puts on `out` all that a command shows.
fn put_shown<O: Sink>(shown: &[u8], out: &mut O) -> Status
    ensures { PutsShown shown.now result (O.taken out.old) (O.taken out.new) (O.faults out.old) (O.faults out.new) }
{
    match out.put(shown) {
        Ok(()) => Status::Ended,
        Err(WriteAnswer::Failed) => Status::WriteFault,
        Err(WriteAnswer::NoMemory) => Status::NoMemory,
    }
}

// Reads the sheets of a project's list, and runs it over them.
fn run_bound<F: Files, O: Sink>(
    alloc: Global,
    run: RunWords,
    project: Project,
    listed: ListedSheets,
    files: &mut F,
    out: &mut O,
) -> Status
    requires fits { Fits project }
    requires readable { IsReadable listed }
    ensures { let old : World = record { told = F.told files.old; counts = F.counts files.old; out = O.taken out.old; out_faults = O.faults out.old; err = None; err_faults = 0 } in
        let new : World = record { told = F.told files.new; counts = F.counts files.new; out = O.taken out.new; out_faults = O.faults out.new; err = None; err_faults = 0 } in
        RanProject run.entry.turns (shows_of run.entry.trace) (option_map (λ s. s.now) run.entry.save) (sheets_view listed.entry.sheets.now) listed.entry.number listed.entry.taken (project_view project) result old new }
{
    match read_book(alloc, files, listed.sheets, listed.number, listed.taken) {
        Ok(book) => run_over(alloc, run, project, book, listed.sheets, files, out),
        Err(reason) => no_book(reason),
    }
}

// Runs a project over a book, puts what it shows on `out`, and saves the sheets where it came to its end and that is
// asked.
fn run_over<F: Files, O: Sink>(
    alloc: Global,
    run: RunWords,
    project: Project,
    book: Book,
    sheets: &[SheetPath],
    files: &mut F,
    out: &mut O,
) -> Status
    requires { Fits project }
    ensures { let old : World = record { told = F.told files.old; counts = F.counts files.old; out = O.taken out.old; out_faults = O.faults out.old; err = None; err_faults = 0 } in
        let new : World = record { told = F.told files.new; counts = F.counts files.new; out = O.taken out.new; out_faults = O.faults out.new; err = None; err_faults = 0 } in
        RanOver (shown_of_run run.entry.turns (shows_of run.entry.trace) (option_map (λ s. s.now) run.entry.save) (sheets_view sheets.now) book (project_view project)) result old new }
{
    match run_project(alloc, project, book, run.turns, shows_of(run.trace), out) {
        Ok((Outcome::Ended, left)) => saved(alloc, run.save, sheets, &left, files),
        Ok((outcome, _)) => ended_as(outcome),
        Err(RunFault::WriteFault) => Status::WriteFault,
        Err(RunFault::NoMemory) => Status::NoMemory,
    }
}

// Saves the sheets of a run that came to its end, where a suffix is given.
fn saved<F: Files>(
    alloc: Global,
    save: Option<&str>,
    sheets: &[SheetPath],
    book: &Book,
    files: &mut F,
) -> Status
    ensures { let old : FilesAt = record { told = F.told files.old; counts = F.counts files.old } in
        let new : FilesAt = record { told = F.told files.new; counts = F.counts files.new } in
        EndsSaved (saved_by (option_map (λ s. s.now) save.entry) Outcome.Ended (sheets_view sheets.now) book.now) result old new }
{
    let Some(suffix) = save else {
        return Status::Ended;
    };
    match save_book(alloc, files, sheets, suffix, book) {
        Ok(()) => Status::Ended,
        Err(WriteAnswer::Failed) => Status::WriteFault,
        Err(WriteAnswer::NoMemory) => Status::NoMemory,
    }
}

// What a run shows: its trace where that is asked for.
fn shows_of(trace: bool) -> Shows
    ensures { result ≡ shows_of trace }
{
    if trace { Shows::Trace } else { Shows::Plain }
}

// The status of a run that ended so.
fn ended_as(outcome: Outcome) -> Status
    ensures { result ≡ status_of outcome }
{
    match outcome {
        Outcome::Ended => Status::Ended,
        Outcome::Faulted(number, place) => Status::Faulted(number, place),
        Outcome::Stopped(why, place) => Status::Stopped(why, place),
        Outcome::Going => Status::Going,
    }
}

/// The status where a file can't be read, or has more bytes than it may.
pub fn unread(reason: ReadStop) -> Status
    ensures { result ≡ unread reason }
{
    match reason {
        ReadStop::Failed(number) => Status::ReadFault(number),
        ReadStop::TooLong(number) => Status::TooLong(number),
        ReadStop::NoMemory => Status::NoMemory,
    }
}

// The status where the file of a sheet can't be read, or is no sheet.
fn no_book(reason: BookStop) -> Status
    ensures { result ≡ no_book reason }
{
    match reason {
        BookStop::Unread(reason) => unread(reason),
        BookStop::BadSheet(sheet, fault) => Status::BadBook(sheet, fault),
    }
}
