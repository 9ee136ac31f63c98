//! What is declared outside of procedures and Enums.

ghost use Rattle.std.specs.Prelude.{◌≡◌, List, ◌++◌, map, OnOk};
ghost use Rattle.module_parts.specs.View.{part_view, parts_view};
ghost use Rattle.vba_module.specs.Parts as parts;
ghost use Rattle.vba_module.specs.Parts.{whole_line};
ghost use Rattle.vba_tree.specs.Tree.{simple};
ghost use Rattle.vba_tree.specs.View.{simple_view, view};
ghost use Rattle.declared_names.specs.View.{entry_view};
ghost use Rattle.declared_names.specs.Entries.{after_in_module, declared_at_top, inside_view, optional_entry};
ghost use Rattle.declared_names.specs.Range.{range_items};

use crate::access::is_public;
use crate::body::body_of;
use crate::entry::{Entry, What, Written};
use crate::inside::Inside;
use crate::pushing::{push_constants, push_entry, push_variables};
use crate::range::PartRange;
use module_parts::{Part, place_of};
use vba_base::NoMemory;
use vba_tree::{LineTree, SimpleStatement, Statement};

/// The entry that a line declares outside of procedures and Enums, before other parts.
fn entry_of_line<'a>(part: &'a Part, line: &'a LineTree, behind: PartRange<'a>) -> Option<Entry<'a>>
    requires { part_view part.now ≡ whole_line (view line.now) }
    ensures { optional_entry result ≡ declared_at_top (whole_line (view line.now)) (parts_view (range_items behind.entry)) }
{
    let (name, is_public, what) = match line {
        LineTree::EnumHeader(header) => (&header.name, is_public(header.access), What::Enum),
        LineTree::TypeHeader(header) => {
            (&header.name, is_public(header.access), What::Type(behind))
        }
        LineTree::Event(event) => (&event.name, true, What::Event(event)),
        LineTree::ProcedureHeader(header) => {
            let written = Written {
                place: place_of(part),
                header,
                body: body_of(behind),
            };
            (
                &header.name,
                is_public(header.access),
                What::Procedure(written),
            )
        }
        _ => return None,
    };
    Some(Entry {
        name,
        is_public,
        what,
    })
}

/// Adds the variables or the constants that a statement declares.
fn push_of_simple<'a>(
    entries: &mut Vec<Entry<'a>>,
    statement: &'a SimpleStatement,
) -> Result<(), NoMemory>
    ensures { (behind : List parts.Part) → OnOk result (map entry_view entries.new.items
        ≡ map entry_view entries.old.items ++ declared_at_top (parts.statement (simple (simple_view statement.now))) behind) }
{
    match statement {
        SimpleStatement::Variables(variables) => push_variables(entries, variables),
        SimpleStatement::Constants(constants) => push_constants(entries, constants),
        _ => Ok(()),
    }
}

/// Adds what a part declares outside of procedures and Enums, before other parts.
pub(crate) fn push_at_top<'a>(
    entries: &mut Vec<Entry<'a>>,
    part: &'a Part,
    behind: PartRange<'a>,
) -> Result<(), NoMemory>
    ensures { OnOk result (map entry_view entries.new.items ≡ map entry_view entries.old.items ++ declared_at_top (part_view part.now) (parts_view (range_items behind.entry))) }
{
    match part {
        Part::WholeLine(line) => match entry_of_line(part, line, behind) {
            Some(entry) => push_entry(entries, entry),
            None => Ok(()),
        },
        Part::Statement(Statement::Simple(simple)) => push_of_simple(entries, simple),
        Part::Statement(_) | Part::Label(_) => Ok(()),
    }
}

/// Where the part behind one outside of procedures and Enums stands.
pub(crate) fn after_in_module<'a>(part: &Part) -> Inside<'a>
    ensures { inside_view result ≡ after_in_module (part_view part.now) }
{
    match part {
        Part::WholeLine(LineTree::EnumHeader(header)) => Inside::Enum {
            is_public: is_public(header.access),
            value: None,
            steps: 0,
        },
        Part::WholeLine(LineTree::ProcedureHeader(_)) => Inside::Procedure,
        _ => Inside::Module,
    }
}
