//! The phases of the rules of single modules, each over all modules of a project.

ghost use Rattle.std.specs.Prelude.{◌≤◌, ℕ, length, map};
ghost use Rattle.cond_compile.specs.Selection.{selected};
ghost use Rattle.list_file.specs.Sources.{files_view};
ghost use Rattle.vba_base.specs.Answer.{Gives};
ghost use Rattle.vba_lexer.specs.Lexed.{lexed};
ghost use Rattle.vba_cli.specs.Program.{each, kept_as, kept_of, module_of};
ghost use Rattle.vba_cli.specs.Programs.{kept_view, kepts_view, module_view, modules_view};

use crate::kept::Kept;
use crate::modules::ReadModule;
use cond_compile::select_lines;
use list_file::ModuleBytes;
use module_parser::read_module;
use std::alloc::Global;
use vba_base::{OrMemory, Refusal, Units, decode_source};
use vba_lexer::lex;

/// The modules of files behind the rules of tokens and directives.
pub fn keep_all(alloc: Global, files: &[ModuleBytes]) -> Result<Vec<Kept>, OrMemory<Refusal>>
    requires { length files.now ≤ 67108865 }
    ensures { Gives kepts_view result (each kept_of 1 (files_view files.now)) }
{
    let mut kept = Vec::new(alloc);
    let mut left = files;
    let mut number = 1;
    while let Some((file, rest)) = left.split_first() {
        kept.push(keep(alloc, file.is_class, file.bytes.as_slice(), number)?)?;
        left = rest;
        number += 1;
    }
    Ok(kept)
}

// The module with this number behind the rules of tokens and directives.
fn keep(alloc: Global, is_class: bool, bytes: &[u8], number: u32) -> Result<Kept, OrMemory<Refusal>>
    requires { length bytes.now ≤ 67108864 }
    ensures { Gives kept_view result (kept_of number (record { is_class = is_class; bytes = bytes.now })) }
{
    let text = decode_source(alloc, bytes)?;
    keep_lines(alloc, is_class, text, number)
}

// The module with this text and number behind the rules of tokens and directives.
fn keep_lines(
    alloc: Global,
    is_class: bool,
    text: Units,
    number: u32,
) -> Result<Kept, OrMemory<Refusal>>
    requires { length text ≤ 67108864 }
    ensures { Gives kept_view result (kept_as is_class text (selected text (lexed number text))) }
{
    let lines = lex(alloc, &text, number)?;
    let kept = select_lines(alloc, &text, &lines)?;
    Ok(Kept {
        is_class,
        text,
        lines: kept,
    })
}

/// Modules behind the rules of lines and modules.
pub fn read_all<'a>(
    alloc: Global,
    kept: &'a [Kept],
) -> Result<Vec<ReadModule<'a>>, OrMemory<Refusal>>
    ensures { Gives modules_view result (each module_of 1 (map kept_view kept.now)) }
{
    let mut modules = Vec::new(alloc);
    let mut left = kept;
    while let Some((first, rest)) = left.split_first() {
        modules.push(read_one(alloc, first)?)?;
        left = rest;
    }
    Ok(modules)
}

// A module behind the rules of lines and modules.
fn read_one<'a>(alloc: Global, kept: &'a Kept) -> Result<ReadModule<'a>, OrMemory<Refusal>>
    ensures { (number : ℕ) → Gives module_view result (module_of number (kept_view kept.now)) }
{
    let parts = read_module(alloc, &kept.text, kept.lines.as_slice(), kept.is_class)?;
    Ok(ReadModule {
        is_class: kept.is_class,
        text: &kept.text,
        parts,
    })
}
