//! The tree of a module, or the first rule of lines and modules that it breaks.

ghost use Rattle.std.specs.Prelude.{◌≡◌, ◌++◌, ◌∷◌, [], None, flat_map, IfOk, IfErr, OnOk};
ghost use Rattle.vba_lexer.specs.Inside.{LiesIn, AllLieIn};
ghost use Rattle.vba_lexer.specs.Lexed.{lines_view};
ghost use Rattle.vba_words.specs.Readings as readings;
ghost use Rattle.refusal_order.specs.Least.{least_of, least_of_both};
ghost use Rattle.vba_module.specs.Blocks.{block_faults};
ghost use Rattle.vba_module.specs.Parts.{parts_of_lines};
ghost use Rattle.vba_module.specs.Verdict.{trees_of, unread_line};
ghost use Rattle.module_parts.specs.View.{part_view, parts_view};
ghost use Rattle.module_tree.specs.View.{tree_view};
ghost use Rattle.module_parser.specs.Parsed.{read_lexed, verdict, IsModule, IsRefused};

use module_parts::{Part, push_parts};
use module_rules::part_refusal;
use module_tree::{ModuleTree, bracket};
use refusal_order::{note, note_both};
use std::alloc::Global;
use vba_base::{NoMemory, OrMemory, Refusal, Units};
use vba_lexer::Line;
use vba_parser::parse_line;

/// The tree of the module with these lines, in a class or not ([MS-VBAL] 4.2, 5.1 to 5.4). The tokens of the lines have to lie in the source,
/// as those do that `lex` gives of it.
///
/// Refuses exactly where one of the rules S10 to S14 is broken, with the least by place and then rule: a line without a tree (S10,
/// S13), an unmatched opening, arm, end or Exit (S11), a misplaced part (S12), a header of a form that may not be (S14).
pub fn parse_module(
    alloc: Global,
    source: &Units,
    lines: &[Line],
    is_class: bool,
) -> Result<ModuleTree<Part>, OrMemory<Refusal>>
    requires { AllLieIn source.now lines.now }
    ensures tree { IfOk result (λ tree. IsModule is_class (read_lexed source.now (lines_view lines.now)) (tree_view part_view tree)) }
    ensures refused { IfErr result (IsRefused is_class (read_lexed source.now (lines_view lines.now))) }
{
    let parts = read_module(alloc, source, lines, is_class)?;
    Ok(bracket(alloc, parts)?)
}

/// Whether the module with these lines breaks one of the rules S10 to S14, in a class or not: what `parse_module` refuses, with the same
/// refusal, without the tree. The tokens of the lines have to lie in the source.
pub fn check_module(
    alloc: Global,
    source: &Units,
    lines: &[Line],
    is_class: bool,
) -> Result<(), OrMemory<Refusal>>
    requires { AllLieIn source.now lines.now }
    ensures unbroken { IfOk result (λ done. verdict is_class (read_lexed source.now (lines_view lines.now)) ≡ None) }
    ensures refused { IfErr result (IsRefused is_class (read_lexed source.now (lines_view lines.now))) }
{
    read_module(alloc, source, lines, is_class)?;
    Ok(())
}

/// The parts of the module with these lines, in a class or not: what `parse_module` reads, with the same refusals, before it is
/// bracketed. The tokens of the lines have to lie in the source.
pub fn read_module(
    alloc: Global,
    source: &Units,
    lines: &[Line],
    is_class: bool,
) -> Result<Vec<Part>, OrMemory<Refusal>>
    requires { AllLieIn source.now lines.now }
    ensures unbroken { IfOk result (λ parts. verdict is_class (read_lexed source.now (lines_view lines.now)) ≡ None) }
    ensures parts { IfOk result (λ parts. parts_view parts.items ≡ parts_of_lines (trees_of (read_lexed source.now (lines_view lines.now)))) }
    ensures matched { IfOk result (λ parts. block_faults [] (parts_view parts.items) ≡ []) }
    ensures refused { IfErr result (IsRefused is_class (read_lexed source.now (lines_view lines.now))) }
{
    let (parts, unread) = read_parts(alloc, source, lines)?;
    let broken = part_refusal(alloc, parts.as_slice(), is_class)?;
    match lesser_of(unread, broken) {
        Some(refusal) => Err(OrMemory::Fault(refusal)),
        None => Ok(parts),
    }
}

/// The lesser of two refusals, of which each may be missing.
fn lesser_of(first: Option<Refusal>, second: Option<Refusal>) -> Option<Refusal>
    ensures { result ≡ least_of_both first second }
{
    let mut least = first;
    note_both(&mut least, second);
    least
}

/// The parts of the lines that have a tree, and the least refusal of the others.
fn read_parts(
    alloc: Global,
    source: &Units,
    lines: &[Line],
) -> Result<(Vec<Part>, Option<Refusal>), NoMemory>
    requires { AllLieIn source.now lines.now }
    ensures parts { IfOk result (λ read. parts_view read.0.items ≡ parts_of_lines (trees_of (read_lexed source.now (lines_view lines.now)))) }
    ensures least { IfOk result (λ read. read.1 ≡ least_of None (flat_map unread_line (read_lexed source.now (lines_view lines.now)))) }
{
    let mut parts = Vec::new(alloc);
    let mut least = None;
    let mut left = lines;
    while let [line, rest @ ..] = left {
        add_line(alloc, source, line, &mut parts, &mut least)?;
        left = rest;
    }
    Ok((parts, least))
}

/// Adds the parts of a line, or notes its refusal.
#[tactic(auto, using(crate::proofs::Parses::parts_more, crate::proofs::Parses::parts_none, crate::proofs::Parses::unread_more, crate::proofs::Parses::unread_none))]
fn add_line(
    alloc: Global,
    source: &Units,
    line: &Line,
    parts: &mut Vec<Part>,
    least: &mut Option<Refusal>,
) -> Result<(), NoMemory>
    requires { LiesIn source.now line.now }
    ensures parts { OnOk result (parts_view parts.new.items ≡ parts_view parts.old.items ++ parts_of_lines (trees_of (readings.read_line source.now line.now.tokens.items ∷ []))) }
    ensures least { OnOk result (least.new ≡ least_of least.old (unread_line (readings.read_line source.now line.now.tokens.items))) }
{
    match parse_line(alloc, source, line) {
        Ok(tree) => push_parts(parts, tree),
        Err(OrMemory::Fault(refusal)) => {
            note(least, refusal);
            Ok(())
        }
        Err(OrMemory::NoMemory) => Err(NoMemory),
    }
}
