//! Reading a list file.

ghost use Rattle.std.specs.Prelude.{◌≡◌, ◌≤◌, ◌+◌, [], not, Ok, IfOk, OnOk, Some, string_bytes, bytes_eq, length, map};
ghost use Rattle.std.specs.List.{list_any};
ghost use Rattle.vba_base.specs.Answer.{Gives};
ghost use Rattle.vba_lexer.specs.Lines.{lines_of};
ghost use Rattle.list_file.specs.Lines as lines;
ghost use Rattle.list_file.specs.Lists as lists;
ghost use Rattle.list_file.specs.Seen.{HasFolds, count_of, if_added};
ghost use Rattle.list_file.specs.View.{entry_view, module_view, sheet_view, start_view, partial_view, list_view};

use crate::line::{Entry, entry_of};
use crate::list::{ListFile, ModulePath, Partial, SheetPath, Startup};
use std::alloc::Global;
use vba_base::{Name, NoMemory, OrMemory, Units, name_of};
use vba_lexer::{Ending, first_line};

/// Does a sheet with this case fold stand among those with these folds?
fn is_among(fold: &Name, folds: &[Name]) -> bool
    ensures { result ≡ list_any (λ other. bytes_eq fold.now other) folds.now }
{
    folds.iter().any(|other| fold == other)
}

/// Adds a sheet, and tells whether it did: none of that name may have been listed.
#[tactic(auto, using(crate::proofs::Reading::among_folds))]
fn add_sheet(
    alloc: Global,
    partial: &mut Partial,
    name: Units,
    path: String,
) -> Result<bool, NoMemory>
    requires { HasFolds partial.old }
    ensures folds { OnOk result (HasFolds partial.new) }
    ensures count { OnOk result (count_of partial.new ≤ count_of partial.old + 1) }
    ensures added { IfOk result (λ was_added.
        lists.with_entry (partial_view partial.old) (lines.a_sheet name (string_bytes path)) ≡ if_added was_added (partial_view partial.new)) }
{
    let fold = name_of(alloc, name.units())?;
    if is_among(&fold, partial.folds.as_slice()) {
        return Ok(false);
    }
    partial.folds.push(fold)?;
    partial.sheets.push(SheetPath { name, path })?;
    Ok(true)
}

/// Adds a module.
fn add_module(partial: &mut Partial, added: ModulePath) -> Result<(), NoMemory>
    requires { HasFolds partial.old }
    ensures folds { OnOk result (HasFolds partial.new) }
    ensures count { OnOk result (count_of partial.new ≡ count_of partial.old + 1) }
    ensures added { OnOk result
        (lists.with_entry (partial_view partial.old) (lines.a_module added.is_class (string_bytes added.path)) ≡ Some (partial_view partial.new)) }
{
    partial.modules.push(added)?;
    Ok(())
}

/// Adds the startup, and tells whether it did: there may be one only.
fn add_startup(partial: &mut Partial, startup: Startup) -> bool
    requires { HasFolds partial.old }
    ensures folds { HasFolds partial.new }
    ensures count { count_of partial.new ≡ count_of partial.old }
    ensures added { lists.with_entry (partial_view partial.old) (lines.a_startup startup.in_module startup.procedure) ≡ if_added result (partial_view partial.new) }
{
    if partial.startup.is_some() {
        return false;
    }
    partial.startup = Some(startup);
    true
}

/// Adds what a line says, and tells whether that may stand there.
fn add(alloc: Global, partial: &mut Partial, entry: Entry) -> Result<bool, NoMemory>
    requires { HasFolds partial.old }
    ensures folds { OnOk result (HasFolds partial.new) }
    ensures count { OnOk result (count_of partial.new ≤ count_of partial.old + 1) }
    ensures added { IfOk result (λ was_added.
        lists.with_entry (partial_view partial.old) (entry_view entry) ≡ if_added was_added (partial_view partial.new)) }
{
    match entry {
        Entry::Nothing => Ok(true),
        Entry::Module { path, is_class } => {
            add_module(partial, ModulePath { path, is_class })?;
            Ok(true)
        }
        Entry::Sheet { name, path } => add_sheet(alloc, partial, name, path),
        Entry::Startup {
            in_module,
            procedure,
        } => Ok(add_startup(
            partial,
            Startup {
                in_module,
                procedure,
            },
        )),
        Entry::None => Ok(false),
    }
}

/// What the lines of a list file say, or the number of the first one that says nothing that may stand there.
fn read_lines(alloc: Global, source: &[u16]) -> Result<Partial, OrMemory<u32>>
    requires { length source.now ≤ 67108864 }
    ensures read { Gives partial_view result (lists.listed_from 1 lists.nothing_listed (lines_of source.now)) }
    ensures count { IfOk result (λ partial. count_of partial ≤ length source.now + 1) }
    ensures folds { IfOk result (λ partial. HasFolds partial) }
{
    let mut partial = Partial {
        modules: Vec::new(alloc),
        sheets: Vec::new(alloc),
        startup: None,
        folds: Vec::new(alloc),
    };
    let mut rest = source;
    let mut number = 1;
    loop {
        let (size, ending) = first_line(rest);
        let entry = entry_of(alloc, &rest[..size])?;
        if !add(alloc, &mut partial, entry)? {
            return Err(OrMemory::Fault(number));
        }
        if let Ending::FileEnd = ending {
            return Ok(partial);
        }
        rest = &rest[size + ending.size()..];
        number += 1;
    }
}

/// Is any of the modules no class?
fn is_any_standard(modules: &[ModulePath]) -> bool
    ensures { result ≡ list_any (λ (m : ModulePath). not m.is_class) modules.now }
{
    modules.iter().any(|module| !module.is_class)
}

/// Is there a standard module?
fn has_module(modules: &[ModulePath]) -> bool
    ensures { result ≡ lists.has_module (map module_view modules.now) }
{
    is_any_standard(modules)
}

/// A list with a startup: it needs a standard module besides.
fn with_startup(
    modules: Vec<ModulePath>,
    sheets: Vec<SheetPath>,
    startup: Startup,
) -> Result<ListFile, OrMemory<u32>>
    ensures modules { IfOk result (λ list. list.modules.items ≡ modules.items) }
    ensures sheets { IfOk result (λ list. list.sheets.items ≡ sheets.items) }
    ensures whole { Gives list_view result (lists.whole_list (Ok (record {
      modules = map module_view modules.items;
      sheets = map sheet_view sheets.items;
      startup = Some (start_view startup);
    }))) }
{
    if !has_module(modules.as_slice()) {
        return Err(OrMemory::Fault(0));
    }
    Ok(ListFile {
        modules,
        sheets,
        startup,
    })
}

/// The list, where it is whole: it has a startup and a standard module.
fn whole(partial: Partial) -> Result<ListFile, OrMemory<u32>>
    ensures modules { IfOk result (λ list. list.modules.items ≡ partial.modules.items) }
    ensures sheets { IfOk result (λ list. list.sheets.items ≡ partial.sheets.items) }
    ensures whole { Gives list_view result (lists.whole_list (Ok (partial_view partial))) }
{
    let Partial {
        modules,
        sheets,
        startup,
        folds: _folds,
    } = partial;
    match startup {
        Some(startup) => with_startup(modules, sheets, startup),
        None => Err(OrMemory::Fault(0)),
    }
}

/// Reads a list file of at most 67108864 units. The fault is the number, from 1, of the first line that says nothing
/// that may stand there: it is no line of a list, repeats the name of a sheet without regard to case, or is a second
/// startup. It is 0 where no line is wrong, but there is no startup or no standard module. For each sheet it looks
/// through the names of those before it.
#[tactic(auto, using(crate::proofs::Reading::fails_whole))]
pub fn read_list(alloc: Global, text: &Units) -> Result<ListFile, OrMemory<u32>>
    requires { length text.now ≤ 67108864 }
    ensures list { Gives list_view result (lists.list_of text.now) }
    ensures count { IfOk result (λ list. length list.modules.items + length list.sheets.items ≤ length text.now + 1) }
    ensures names { IfOk result (λ list. lists.HaveNewNames [] (map sheet_view list.sheets.items)) }
{
    match read_lines(alloc, text.units()) {
        Ok(partial) => whole(partial),
        Err(fault) => Err(fault),
    }
}
