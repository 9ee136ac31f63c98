//! What a line of a list file says.

ghost use Rattle.std.specs.Prelude.{◌≡◌, IfOk, option_map, length, drop, ◌≤◌, string_bytes};
ghost use Rattle.vba_base.specs.Text.{encoded};
ghost use Rattle.list_file.specs.Lines as lines;
ghost use Rattle.list_file.specs.View.{entry_view};

use crate::identifier::is_identifier;
use std::alloc::Global;
use vba_base::{Name, NoMemory, Units, name_of};

/// What a line says.
#[derive(Drop)]
pub enum Entry {
    Nothing,
    Module { path: String, is_class: bool },
    Sheet { name: Units, path: String },
    Startup { in_module: Name, procedure: Name },
    None,
}

/// What stands behind an ASCII word at the front of a line, where it stands there.
pub fn behind<'a>(word: &[u8], line: &'a [u16]) -> Option<&'a [u16]>
    ensures { option_map (λ rest. rest.now) result ≡ lines.behind word.now line.now }
{
    match word {
        [] => Some(line),
        [letter, word @ ..] => match line {
            [unit, rest @ ..] if *unit == u16::from(*letter) => behind(word, rest),
            _ => None,
        },
    }
}

/// How many units stand before the first mark of a kind.
fn size_before(mark: u16, text: &[u16]) -> usize
    ensures size { result ≡ lines.size_before mark text.now }
    ensures within { result ≤ length text.now }
{
    text.iter().take_while(|unit| **unit != mark).count()
}

/// What stands before the mark at a place, and behind it.
fn parted(text: &[u16], size: usize) -> Option<(&[u16], &[u16])>
    requires { size ≤ length text.now }
    ensures { option_map (λ parts. (parts.0.now, parts.1.now)) result ≡ lines.parted text.now size (drop size text.now) }
{
    match &text[size..] {
        [_, rest @ ..] => Some((&text[..size], rest)),
        [] => None,
    }
}

/// What stands before the first mark of a kind, and behind it.
fn cut(mark: u16, text: &[u16]) -> Option<(&[u16], &[u16])>
    ensures { option_map (λ parts. (parts.0.now, parts.1.now)) result ≡ lines.cut mark text.now }
{
    parted(text, size_before(mark, text))
}

/// A path, in UTF-8.
fn path_of(alloc: Global, path: &[u16]) -> Result<String, NoMemory>
    ensures { IfOk result (λ text. string_bytes text ≡ encoded path.now) }
{
    Ok(String::from_utf16_lossy(alloc, path)?)
}

/// What `Module=` or `Class=` says with what stands behind it.
fn module_entry(alloc: Global, is_class: bool, path: &[u16]) -> Result<Entry, NoMemory>
    ensures { IfOk result (λ entry. entry_view entry ≡ lines.module_entry is_class path.now) }
{
    match path {
        [] => Ok(Entry::None),
        [_, ..] => Ok(Entry::Module {
            path: path_of(alloc, path)?,
            is_class,
        }),
    }
}

/// What `Sheet=` says with what stands behind it.
fn sheet_entry(alloc: Global, text: &[u16]) -> Result<Entry, NoMemory>
    ensures { IfOk result (λ entry. entry_view entry ≡ lines.sheet_entry text.now) }
{
    match cut(SEMICOLON, text) {
        Some((name, path)) => named_sheet(alloc, name, path),
        None => Ok(Entry::None),
    }
}

const SEMICOLON: u16 = 59;

/// A sheet, where neither its name nor its path is empty.
fn named_sheet(alloc: Global, name: &[u16], path: &[u16]) -> Result<Entry, NoMemory>
    ensures { IfOk result (λ entry. entry_view entry ≡ lines.sheet_named name.now path.now) }
{
    match (name, path) {
        ([_, ..], [_, ..]) => Ok(Entry::Sheet {
            name: Units::from_units(alloc, name)?,
            path: path_of(alloc, path)?,
        }),
        _ => Ok(Entry::None),
    }
}

/// What `Startup=` says with what stands behind it.
fn startup_entry(alloc: Global, text: &[u16]) -> Result<Entry, NoMemory>
    ensures { IfOk result (λ entry. entry_view entry ≡ lines.startup_entry text.now) }
{
    match cut(DOT, text) {
        Some((in_module, procedure)) => named_startup(alloc, in_module, procedure),
        None => Ok(Entry::None),
    }
}

const DOT: u16 = 46;

/// A startup, where both are identifiers.
fn named_startup(alloc: Global, in_module: &[u16], procedure: &[u16]) -> Result<Entry, NoMemory>
    ensures { IfOk result (λ entry. entry_view entry ≡ lines.startup_named in_module.now procedure.now) }
{
    if !(is_identifier(in_module) && is_identifier(procedure)) {
        return Ok(Entry::None);
    }
    Ok(Entry::Startup {
        in_module: name_of(alloc, in_module)?,
        procedure: name_of(alloc, procedure)?,
    })
}

/// What a line that may be a startup says.
fn startup_line(alloc: Global, line: &[u16]) -> Result<Entry, NoMemory>
    ensures { IfOk result (λ entry. entry_view entry ≡ lines.startup_line line.now) }
{
    match behind(b"Startup=", line) {
        Some(text) => startup_entry(alloc, text),
        None => Ok(Entry::None),
    }
}

/// What a line that may be a sheet says.
fn sheet_line(alloc: Global, line: &[u16]) -> Result<Entry, NoMemory>
    ensures { IfOk result (λ entry. entry_view entry ≡ lines.sheet_line line.now) }
{
    match behind(b"Sheet=", line) {
        Some(text) => sheet_entry(alloc, text),
        None => startup_line(alloc, line),
    }
}

/// What a line that may be a class says.
fn class_line(alloc: Global, line: &[u16]) -> Result<Entry, NoMemory>
    ensures { IfOk result (λ entry. entry_view entry ≡ lines.class_line line.now) }
{
    match behind(b"Class=", line) {
        Some(path) => module_entry(alloc, true, path),
        None => sheet_line(alloc, line),
    }
}

/// What a line that may be a standard module says.
fn module_line(alloc: Global, line: &[u16]) -> Result<Entry, NoMemory>
    ensures { IfOk result (λ entry. entry_view entry ≡ lines.module_line line.now) }
{
    match behind(b"Module=", line) {
        Some(path) => module_entry(alloc, false, path),
        None => class_line(alloc, line),
    }
}

/// What a line says.
pub fn entry_of(alloc: Global, line: &[u16]) -> Result<Entry, NoMemory>
    ensures { IfOk result (λ entry. entry_view entry ≡ lines.entry_of line.now) }
{
    match line {
        [] | [HASH, ..] => Ok(Entry::Nothing),
        [_, ..] => module_line(alloc, line),
    }
}

const HASH: u16 = 35;
