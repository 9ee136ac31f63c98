//! Reading the files of a command: one standard module, or a list and its modules.

ghost use Rattle.std.specs.Prelude.{◌≡◌, ◌≤◌, ◌+◌, ℕ, List, false, [], IfOk, None, Some, length};
ghost use Rattle.command_words.specs.View.{command_view};
ghost use Rattle.list_file.specs.Files.{call_limit, file_limit, total};
ghost use Rattle.list_file.specs.Lists.{HaveNewNames};
ghost use Rattle.list_file.specs.Plans as plans;
ghost use Rattle.list_file.specs.Sources.{IsListable, IsProper, bytes_view, modules_view, plan_view, sheets_view};
ghost use Rattle.list_file.specs.View.{start_view};
ghost use Rattle.vba_base.specs.Decode.{decoded};
ghost use Rattle.vba_cli.specs.Command.{ends_in_bas, path_in};
ghost use Rattle.vba_cli.specs.Contract.{World};
ghost use Rattle.vba_cli.specs.Steps.{GoesOn, IsListOf, IsReadable, Performs};
ghost use Rattle.vba_cli.specs.Told.{named_of};

use crate::command::{names_module, path_in};
use crate::running::{take_sources, unread};
use crate::sheets::ListedSheets;
use crate::status::Status;
use command_words::Command;
use list_file::{
    FileBytes, ListFile, ModuleBytes, ModulePath, Plan, SheetPath, Startup, plan_of, read_file,
    read_modules, size_of,
};
use std::alloc::Global;
use vba_base::{Files, NoMemory, Sink, decode_source};

/// How a command ended, with the modules and sheets of its list as far as the list was read.
#[derive(Drop)]
pub struct Performed {
    pub status: Status,
    pub modules: Vec<ModulePath>,
    pub sheets: Vec<SheetPath>,
}

/// A status of a command whose list names nothing.
pub fn alone(alloc: Global, status: Status) -> Performed
    ensures status { result.status ≡ status }
    ensures modules { result.modules.items ≡ [] }
    ensures sheets { result.sheets.items ≡ [] }
{
    Performed {
        status,
        modules: Vec::new(alloc),
        sheets: Vec::new(alloc),
    }
}

/// Reads the file that a command names, and does with it what is asked.
pub fn take_file<F: Files, O: Sink>(
    alloc: Global,
    command: Command,
    files: &mut F,
    out: &mut O,
) -> Performed
    ensures { let old : World = record { told = F.told files.old; counts = F.counts files.old; out = O.taken out.old; out_faults = O.faults out.old; err = None; err_faults = 0 } in
        let new : World = record { told = F.told files.new; counts = F.counts files.new; out = O.taken out.new; out_faults = O.faults out.new; err = None; err_faults = 0 } in
        Performs (Some (command_view command.entry)) (named_of result.modules.items result.sheets.items) result.status old new }
{
    match read_file(alloc, files, path_in(command), 0, 0) {
        Ok(file) => take_bytes(alloc, command, file, files, out),
        Err(reason) => alone(alloc, unread(reason)),
    }
}

// Does with the file that a command names what is asked.
fn take_bytes<F: Files, O: Sink>(
    alloc: Global,
    command: Command,
    file: FileBytes,
    files: &mut F,
    out: &mut O,
) -> Performed
    ensures { let old : World = record { told = F.told files.old; counts = F.counts files.old; out = O.taken out.old; out_faults = O.faults out.old; err = None; err_faults = 0 } in
        let new : World = record { told = F.told files.new; counts = F.counts files.new; out = O.taken out.new; out_faults = O.faults out.new; err = None; err_faults = 0 } in
        GoesOn (command_view command.entry) file.bytes.items (named_of result.modules.items result.sheets.items) result.status old new }
{
    if !names_module(command) {
        return take_list(alloc, command, &file, files, out);
    }
    let none = ListedSheets {
        sheets: &[],
        number: 1,
        taken: file.bytes.len() as u64,
    };
    let source = file.of_module(false);
    let status = take_sources(alloc, command, &[source], None, none, files, out);
    alone(alloc, status)
}

// What a list of these bytes asks for.
fn plan_in(alloc: Global, bytes: &[u8]) -> Result<Plan, NoMemory>
    requires { length bytes.now ≤ file_limit }
    ensures plan { IfOk result (λ plan. plan_view plan ≡ plans.plan_of (decoded bytes.now)) }
    ensures proper { IfOk result (λ plan. IsProper plan) }
{
    let text = decode_source(alloc, bytes)?;
    plan_of(alloc, &text)
}

// Does with the list of a command what is asked.
fn take_list<F: Files, O: Sink>(
    alloc: Global,
    command: Command,
    file: &FileBytes,
    files: &mut F,
    out: &mut O,
) -> Performed
    requires { ends_in_bas (path_in (command_view command)) ≡ false }
    ensures { let old : World = record { told = F.told files.old; counts = F.counts files.old; out = O.taken out.old; out_faults = O.faults out.old; err = None; err_faults = 0 } in
        let new : World = record { told = F.told files.new; counts = F.counts files.new; out = O.taken out.new; out_faults = O.faults out.new; err = None; err_faults = 0 } in
        GoesOn (command_view command.entry) file.now.bytes.items (named_of result.modules.items result.sheets.items) result.status old new }
{
    match plan_in(alloc, file.bytes.as_slice()) {
        Ok(Plan::BadLine(line)) => alone(alloc, Status::BadList(line)),
        Ok(Plan::Project(list)) => take_project(alloc, command, file, list, files, out),
        Err(_) => alone(alloc, Status::NoMemory),
    }
}

// Reads the modules of a list, and does with them and its sheets what is asked.
fn take_project<F: Files, O: Sink>(
    alloc: Global,
    command: Command,
    file: &FileBytes,
    list: ListFile,
    files: &mut F,
    out: &mut O,
) -> Performed
    requires not_alone { ends_in_bas (path_in (command_view command)) ≡ false }
    requires planned { plans.plan_of (decoded file.now.bytes.items) ≡ plans.project_at (modules_view list.modules.items) (sheets_view list.sheets.items) (start_view list.startup) }
    requires listable { IsListable list }
    ensures { let old : World = record { told = F.told files.old; counts = F.counts files.old; out = O.taken out.old; out_faults = O.faults out.old; err = None; err_faults = 0 } in
        let new : World = record { told = F.told files.new; counts = F.counts files.new; out = O.taken out.new; out_faults = O.faults out.new; err = None; err_faults = 0 } in
        GoesOn (command_view command.entry) file.now.bytes.items (named_of result.modules.items result.sheets.items) result.status old new }
{
    let taken = file.bytes.len() as u64;
    let ListFile {
        modules,
        sheets,
        startup,
    } = list;
    let listed = Listed {
        modules: modules.as_slice(),
        sheets: sheets.as_slice(),
        startup: &startup,
    };
    let status = take_listed(alloc, command, listed, taken, files, out);
    Performed {
        status,
        modules,
        sheets,
    }
}

/// What a list says.
#[derive(Clone, Copy)]
struct Listed<'a> {
    modules: &'a [ModulePath],
    sheets: &'a [SheetPath],
    startup: &'a Startup,
}

// Reads the modules of a list that has so many bytes, and does with them and its sheets what is asked.
fn take_listed<F: Files, O: Sink>(
    alloc: Global,
    command: Command,
    listed: Listed,
    taken: u64,
    files: &mut F,
    out: &mut O,
) -> Status
    requires count { length listed.modules.now + length listed.sheets.now ≤ 67108865 }
    requires names { HaveNewNames [] (sheets_view listed.sheets.now) }
    requires within { taken ≤ call_limit }
    ensures { let old : World = record { told = F.told files.old; counts = F.counts files.old; out = O.taken out.old; out_faults = O.faults out.old; err = None; err_faults = 0 } in
        let new : World = record { told = F.told files.new; counts = F.counts files.new; out = O.taken out.new; out_faults = O.faults out.new; err = None; err_faults = 0 } in
        (bytes : List ℕ) → IsListOf (command_view command.entry) bytes taken (modules_view listed.entry.modules.now) (sheets_view listed.entry.sheets.now) (start_view listed.entry.startup.now)
        → GoesOn (command_view command.entry) bytes (named_of listed.entry.modules.now listed.entry.sheets.now) result old new }
{
    match read_modules(alloc, files, listed.modules, taken) {
        Ok(sources) => {
            let modules = sources.as_slice();
            let sheets = behind(modules, listed.sheets, taken);
            take_sources(
                alloc,
                command,
                modules,
                Some(listed.startup),
                sheets,
                files,
                out,
            )
        }
        Err(reason) => unread(reason),
    }
}

// The sheets of a list whose files come behind the list, of so many bytes, and its modules.
fn behind<'a>(sources: &[ModuleBytes], sheets: &'a [SheetPath], taken: u64) -> ListedSheets<'a>
    requires count { length sources.now + length sheets.now ≤ 67108865 }
    requires within { taken + total (bytes_view sources.now) ≤ call_limit }
    requires names { HaveNewNames [] (sheets_view sheets.now) }
    ensures sheets { result.sheets.now ≡ sheets.entry.now }
    ensures number { result.number ≡ length sources.now + 1 }
    ensures taken { result.taken ≡ taken + total (bytes_view sources.now) }
    ensures readable { IsReadable result }
{
    ListedSheets {
        sheets,
        number: sources.len() as u32 + 1,
        taken: taken + size_of(sources),
    }
}
