ghost use Rattle.std.specs.Prelude.{◌≡◌, ◌++◌, IfOk, slice_get, suc, string_bytes, codes, unwrap_or};
ghost use Rattle.std.specs.Fmt.{decimal, signed_decimal};
ghost use Rattle.list_file.specs.Sources.{sheets_view};
ghost use Rattle.book_files.specs.Book.{sheet_paths};
ghost use Rattle.vba_cli.specs.Messages.{path_at, place_text, fault_text, rule_word, refusal_text, sheet_fault, sheet_name, sheet_text, why_text, stop_text, status_text, error_line};
ghost use Rattle.vba_cli.specs.Named.{paths_named};
ghost use Rattle.vba_cli.specs.Told.{named_of};

use crate::status::Status;
use csv_book::BookFault;
use list_file::{ModulePath, SheetPath};
use project_run::pcode_vm::Why;
use std::alloc::{AllocError, Global};
use vba_base::{NoMemory, Place};
use vba_values::{OutKind, message_of};

// PATH:LINE:COLUMN
fn place_named(alloc: Global, path: &str, place: Place) -> Result<String, AllocError>
    ensures { IfOk result (λ text. string_bytes text ≡ place_text path.now place) }
{
    let on_line = numbered(alloc, path, place.line)?;
    numbered(alloc, on_line.as_str(), place.column)
}

// A text, a colon and a number.
fn numbered(alloc: Global, text: &str, number: u32) -> Result<String, AllocError>
    ensures { IfOk result (λ numbered. string_bytes numbered ≡ text.now ++ codes ":" ++ decimal number) }
{
    format!(in alloc; "{text}:{number}")
}

// The text of a run that an error ended.
fn fault_message(alloc: Global, path: &str, number: i32, place: Place) -> Result<String, AllocError>
    ensures { IfOk result (λ text. string_bytes text ≡ fault_text path.now number place) }
{
    let fault = fault_number(alloc, number)?;
    let at = place_named(alloc, path, place)?;
    let fault = joined(alloc, fault.as_str(), " at ", at.as_str())?;
    joined(alloc, fault.as_str(), ": ", message_of(number))
}

// The number of an error, as the text of a run that it ended begins.
fn fault_number(alloc: Global, number: i32) -> Result<String, AllocError>
    ensures { IfOk result (λ text. string_bytes text ≡ codes "vbarun: fault " ++ signed_decimal number) }
{
    format!(in alloc; "vbarun: fault {number}")
}

// Two texts with a third between them.
fn joined(alloc: Global, left: &str, between: &str, right: &str) -> Result<String, AllocError>
    ensures { IfOk result (λ text. string_bytes text ≡ left.now ++ between.now ++ right.now) }
{
    format!(in alloc; "{left}{between}{right}")
}

// Why a run was stopped.
fn why_message(why: Why) -> &'static str
    ensures { result.now ≡ why_text why }
{
    match why {
        Why::StopStatement => "Stop statement",
        Why::Outside(OutKind::DoubleResult) => "Double result",
        Why::Outside(OutKind::NumberText) => "number text",
        Why::Outside(OutKind::Elements) => "too many elements",
        Why::Outside(OutKind::Objects) => "too many objects",
        Why::Outside(OutKind::Cells) => "too many cells",
        Why::Outside(OutKind::TextLength) => "text too long",
        Why::Outside(OutKind::Links) => "too many links",
    }
}

// The text of a run that was stopped.
fn stop_message(alloc: Global, path: &str, why: Why, place: Place) -> Result<String, AllocError>
    ensures { IfOk result (λ text. string_bytes text ≡ stop_text path.now why place) }
{
    let at = place_named(alloc, path, place)?;
    let stopped = joined(alloc, "vbarun: stopped: ", why_message(why), " at ")?;
    joined(alloc, stopped.as_str(), "", at.as_str())
}

// The word of a rule that is built.
#[tactic(auto, unfolding(crate::specs::Messages::rule_word))]
fn rule_word(rule: u8) -> &'static str
    ensures { result.now ≡ rule_word rule }
{
    match rule {
        1 => "bad character",
        2 => "unclosed string",
        3 => "identifier too long",
        4 => "number out of range",
        5 => "Double literal",
        6 => "Date literal",
        7 => "directive form",
        8 => "unmatched directive",
        9 => "bad constant",
        10 => "no line tree",
        11 => "unmatched block",
        12 => "misplaced declaration",
        13 => "form outside the profile",
        14 => "header form",
        15 => "duplicate name",
        16 => "unknown type",
        17 => "unknown name",
        18 => "unknown label",
        19 => "duplicate label",
        20 => "bad constant expression",
        21 => "recursive type",
        22 => "bad WithEvents",
        23 => "outside type",
        24 => "Double result",
        25 => "argument count",
        26 => "ByRef type",
        27 => "not assignable",
        28 => "Set needed on a non-object",
        29 => "For control",
        30 => "array assignment",
        31 => "property signatures differ",
        32 => "event signature",
        33 => "startup",
        34 => "member unknown",
        _ => "",
    }
}

// The text of a rule that the source breaks.
fn refusal_message(alloc: Global, path: &str, rule: u8, place: Place) -> Result<String, AllocError>
    ensures { IfOk result (λ text. string_bytes text ≡ refusal_text path.now rule place) }
{
    let refusal = refusal_rule(alloc, rule)?;
    let at = place_named(alloc, path, place)?;
    let refusal = joined(alloc, refusal.as_str(), " at ", at.as_str())?;
    joined(alloc, refusal.as_str(), ": ", rule_word(rule))
}

// The number of a rule, as the text of a refusal begins.
fn refusal_rule(alloc: Global, rule: u8) -> Result<String, AllocError>
    ensures { IfOk result (λ text. string_bytes text ≡ codes "vbarun: refused S" ++ decimal rule) }
{
    format!(in alloc; "vbarun: refused S{rule}")
}

/// What the texts of a command tell of it: the path of the file that it names, the modules and sheets of its list, and
/// the bound on its turns.
#[derive(Clone, Copy)]
pub struct Told<'a> {
    pub path: &'a str,
    pub modules: &'a [ModulePath],
    pub sheets: &'a [SheetPath],
    pub turns: u64,
}

// The path of a file by its number: 0 is the file that the command names, and behind it come the modules and the sheets
// of its list.
#[tactic(auto, using(crate::proofs::Paths::path_behind))]
fn path_at<'a>(told: Told<'a>, number: u32) -> &'a str
    ensures { result.now ≡ path_at told.entry.path.now (paths_named (named_of told.entry.modules.now told.entry.sheets.now)) number }
{
    match number.checked_sub(1) {
        Some(place) => path_behind(told, place as usize),
        None => told.path,
    }
}

// The path of the file at a place behind the one that the command names, or that one's where none is there.
fn path_behind<'a>(told: Told<'a>, place: usize) -> &'a str
    ensures { result.now ≡ unwrap_or (slice_get (paths_named (named_of told.entry.modules.now told.entry.sheets.now)) place) told.entry.path.now }
{
    match told.modules.get(place) {
        Some(module) => module.path.as_str(),
        None => sheet_path(told, place - told.modules.len()),
    }
}

// The path of the sheet at a place, or the path that the command names where none is there.
fn sheet_path<'a>(told: Told<'a>, place: usize) -> &'a str
    ensures { result.now ≡ unwrap_or (slice_get (sheet_paths (sheets_view told.entry.sheets.now)) place) told.entry.path.now }
{
    match told.sheets.get(place) {
        Some(sheet) => sheet.path.as_str(),
        None => told.path,
    }
}

// The name of a sheet by its number, from 1.
fn sheet_name<'a>(sheets: &'a [SheetPath], number: u32) -> &'a [u16]
    ensures { result.now ≡ sheet_name (sheets_view sheets.now) number }
{
    match number.checked_sub(1) {
        Some(place) => name_there(sheets, place as usize),
        None => &[],
    }
}

// The name of the sheet at a place, or no units where none is there.
fn name_there<'a>(sheets: &'a [SheetPath], place: usize) -> &'a [u16]
    ensures { result.now ≡ sheet_name (sheets_view sheets.now) (suc place) }
{
    match sheets.get(place) {
        Some(sheet) => sheet.name.units(),
        None => &[],
    }
}

// Why the file of a sheet is none.
fn sheet_fault(alloc: Global, fault: BookFault) -> Result<String, AllocError>
    ensures { IfOk result (λ text. string_bytes text ≡ sheet_fault fault) }
{
    match fault {
        BookFault::NotUtf8(row) => row_fault(alloc, row, "not UTF-8"),
        BookFault::TooManyRows => String::from_str(alloc, "too many rows"),
        BookFault::TooManyColumns(row) => row_fault(alloc, row, "too many columns"),
    }
}

// The fault of a row.
fn row_fault(alloc: Global, row: u32, fault: &str) -> Result<String, AllocError>
    ensures { IfOk result (λ text. string_bytes text ≡ codes "row " ++ decimal row ++ codes ": " ++ fault.now) }
{
    let row = row_number(alloc, row)?;
    joined(alloc, row.as_str(), ": ", fault)
}

// The number of a row.
fn row_number(alloc: Global, row: u32) -> Result<String, AllocError>
    ensures { IfOk result (λ text. string_bytes text ≡ codes "row " ++ decimal row) }
{
    format!(in alloc; "row {row}")
}

// The text of a sheet whose file is none.
fn sheet_message(alloc: Global, name: &[u16], fault: BookFault) -> Result<String, AllocError>
    ensures { IfOk result (λ text. string_bytes text ≡ sheet_text name.now fault) }
{
    let name = String::from_utf16_lossy(alloc, name)?;
    let sheet = joined(alloc, "vbarun: sheet ", "", name.as_str())?;
    let fault = sheet_fault(alloc, fault)?;
    joined(alloc, sheet.as_str(), ": ", fault.as_str())
}

/// The text of a status of a command.
pub fn status_message(alloc: Global, told: Told, status: Status) -> Result<String, AllocError>
    ensures { IfOk result (λ text. string_bytes text ≡ status_text told.entry.path.now (named_of told.entry.modules.now told.entry.sheets.now) told.entry.turns status) }
{
    match status {
        Status::Ended => Ok(String::new(alloc)),
        Status::Faulted(number, place) => {
            fault_message(alloc, path_at(told, place.module), number, place)
        }
        Status::Usage => String::from_str(alloc, USAGE),
        Status::Refused(refusal) => {
            let path = path_at(told, refusal.place.module);
            refusal_message(alloc, path, refusal.rule, refusal.place)
        }
        Status::Stopped(why, place) => {
            stop_message(alloc, path_at(told, place.module), why, place)
        }
        Status::Going => going_message(alloc, told.turns),
        Status::ReadFault(number) => {
            joined(alloc, "vbarun: cannot read ", "", path_at(told, number))
        }
        Status::WriteFault => String::from_str(alloc, "vbarun: cannot write"),
        Status::BadList(line) => bad_list_message(alloc, told.path, line),
        Status::TooLong(number) => {
            joined(alloc, "vbarun: too long: ", "", path_at(told, number))
        }
        Status::BadBook(sheet, fault) => {
            sheet_message(alloc, sheet_name(told.sheets, sheet), fault)
        }
        Status::NotBuilt(place) => { not_built_message(alloc, path_at(told, place.module), place) }
        Status::NoMemory => String::from_str(alloc, OUT_OF_MEMORY),
    }
}

// The text of a run that came to its bound on turns.
fn going_message(alloc: Global, turns: u64) -> Result<String, AllocError>
    ensures { IfOk result (λ text. string_bytes text ≡ codes "vbarun: going after " ++ decimal turns ++ codes " turns") }
{
    format!(in alloc; "vbarun: going after {turns} turns")
}

// The text of a list that a line breaks.
fn bad_list_message(alloc: Global, path: &str, line: u32) -> Result<String, AllocError>
    ensures { IfOk result (λ text. string_bytes text ≡ codes "vbarun: bad list line " ++ decimal line ++ codes " in " ++ path.now) }
{
    let at_line = format!(in alloc; "vbarun: bad list line {line}")?;
    joined(alloc, at_line.as_str(), " in ", path)
}

// The text of a part that isn't built yet.
fn not_built_message(alloc: Global, path: &str, place: Place) -> Result<String, AllocError>
    ensures { IfOk result (λ text. string_bytes text ≡ codes "vbarun: not built at " ++ place_text path.now place) }
{
    let at = place_named(alloc, path, place)?;
    format!(in alloc; "vbarun: not built at {at}")
}

const USAGE: &str =
    "vbarun: usage: run [--turns N] [--trace] [--save SUFFIX] LIST, check LIST, code LIST, gen N";

const OUT_OF_MEMORY: &str = "vbarun: out of memory";

/// What is written on `err` for a status: its text and a line end, or nothing where it has no text.
pub fn status_line(alloc: Global, told: Told, status: Status) -> Result<String, NoMemory>
    ensures { IfOk result (λ line. string_bytes line ≡ error_line (status_text told.entry.path.now (named_of told.entry.modules.now told.entry.sheets.now) told.entry.turns status)) }
{
    let mut line = status_message(alloc, told, status)?;
    if !line.is_empty() {
        line.push('\n')?;
    }
    Ok(line)
}
