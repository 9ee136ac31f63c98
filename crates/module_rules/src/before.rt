//! What stood before a part of a module.

ghost use Rattle.std.specs.Prelude.{◌≡◌};
ghost use Rattle.module_parts.specs.View.{part_view};
ghost use Rattle.module_rules.specs.Seen.{before_view, inside_view};
ghost use Rattle.vba_module.specs.Misplaced as places;
ghost use Rattle.vba_module.specs.Parts as parts;
ghost use Rattle.vba_tree.specs.View.{view};

use crate::inside::Inside;
use module_parts::Part;
use vba_tree::{LineTree, OptionChoice};

/// What stood before a part of the module: an option of each kind, a declaration, a procedure.
#[derive(Clone, Copy, Debug, PartialEq, Eq)]
pub struct Before {
    pub has_explicit: bool,
    pub has_base: bool,
    pub has_compare: bool,
    pub has_private_module: bool,
    pub has_declaration: bool,
    pub has_procedure: bool,
}

/// At the front of a module.
pub fn nothing_before() -> Before
    ensures { before_view result ≡ places.nothing_before }
{
    Before {
        has_explicit: false,
        has_base: false,
        has_compare: false,
        has_private_module: false,
        has_declaration: false,
        has_procedure: false,
    }
}

/// Stood an option of this kind there?
pub fn has_option(before: &Before, choice: &OptionChoice) -> bool
    ensures { result ≡ places.has_option (before_view before.now) choice.now }
{
    match choice {
        OptionChoice::Explicit(_) => before.has_explicit,
        OptionChoice::BaseZero { .. } | OptionChoice::BaseOne { .. } => before.has_base,
        OptionChoice::CompareBinary { .. } | OptionChoice::CompareText { .. } => before.has_compare,
        OptionChoice::PrivateModule { .. } => before.has_private_module,
    }
}

/// Behind an option.
fn pass_option(before: &mut Before, choice: &OptionChoice)
    ensures { before_view before.new ≡ places.with_option (before_view before.old) choice.now }
{
    match choice {
        OptionChoice::Explicit(_) => before.has_explicit = true,
        OptionChoice::BaseZero { .. } | OptionChoice::BaseOne { .. } => before.has_base = true,
        OptionChoice::CompareBinary { .. } | OptionChoice::CompareText { .. } => {
            before.has_compare = true;
        }
        OptionChoice::PrivateModule { .. } => before.has_private_module = true,
    }
}

/// Behind a line outside of procedures, Enums and Types that is no statements.
fn pass_line(before: &mut Before, line: &LineTree)
    ensures { before_view before.new ≡ places.behind (before_view before.old) places.at_module (parts.whole_line (view line.now)) }
{
    match line {
        LineTree::Option(option) => pass_option(before, &option.choice),
        LineTree::ProcedureHeader(_) => before.has_procedure = true,
        LineTree::Attribute(_) => {}
        _ => before.has_declaration = true,
    }
}

/// Behind a part.
pub fn go_behind(before: &mut Before, inside: Inside, part: &Part)
    ensures { before_view before.new ≡ places.behind (before_view before.old) (inside_view inside) (part_view part.now) }
{
    let Inside::Module = inside else {
        return;
    };
    match part {
        Part::WholeLine(line) => pass_line(before, line),
        Part::Label(_) | Part::Statement(_) => before.has_declaration = true,
    }
}
