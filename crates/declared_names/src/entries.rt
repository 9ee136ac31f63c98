//! The entries of a module.

ghost use Rattle.std.specs.Prelude.{◌≡◌, ◌++◌, map, IfOk, OnOk};
ghost use Rattle.module_parts.specs.View.{part_view, parts_view};
ghost use Rattle.binder.specs.Declarations.{entries_in, in_module};
ghost use Rattle.declared_names.specs.View.{entry_view};
ghost use Rattle.declared_names.specs.Entries.{after, declared, inside_view};
ghost use Rattle.declared_names.specs.Range.{range_items};

use crate::at_top::{after_in_module, push_at_top};
use crate::body::is_procedure_end;
use crate::entry::Entry;
use crate::inside::Inside;
use crate::member::{after_in_enum, push_member};
use crate::range::PartRange;
use module_parts::Part;
use std::alloc::Global;
use vba_base::NoMemory;

/// Adds what a part declares, before other parts.
fn push_declared<'a>(
    entries: &mut Vec<Entry<'a>>,
    inside: Inside<'a>,
    part: &'a Part,
    behind: PartRange<'a>,
) -> Result<(), NoMemory>
    ensures { OnOk result (map entry_view entries.new.items
        ≡ map entry_view entries.old.items ++ declared (inside_view inside.entry) (part_view part.now) (parts_view (range_items behind.entry))) }
{
    match inside {
        Inside::Module => push_at_top(entries, part, behind),
        Inside::Procedure => Ok(()),
        Inside::Enum {
            is_public,
            value,
            steps,
        } => push_member(entries, is_public, value, steps, part),
    }
}

/// Where the part behind one stands.
fn after<'a>(inside: Inside<'a>, part: &'a Part) -> Result<Inside<'a>, NoMemory>
    ensures { IfOk result (λ behind. inside_view behind ≡ after (inside_view inside.entry) (part_view part.now)) }
{
    match inside {
        Inside::Module => Ok(after_in_module(part)),
        Inside::Procedure if is_procedure_end(part) => Ok(Inside::Module),
        Inside::Procedure => Ok(Inside::Procedure),
        Inside::Enum {
            is_public,
            value,
            steps,
        } => after_in_enum(is_public, value, steps, part),
    }
}

/// What a module declares, in text order.
///
/// It fails only for want of memory.
#[tactic(auto, using(crate::proofs::Steps::entries_step))]
pub fn entries_of<'a>(alloc: Global, parts: &'a Vec<Part>) -> Result<Vec<Entry<'a>>, NoMemory>
    ensures { IfOk result (λ entries. map entry_view entries.items ≡ entries_in in_module (parts_view parts.now.items)) }
{
    let mut entries = Vec::new(alloc);
    let mut inside = Inside::Module;
    for (number, part) in parts.iter().enumerate() {
        push_declared(
            &mut entries,
            inside,
            part,
            PartRange::behind(parts, number + 1),
        )?;
        inside = after(inside, part)?;
    }
    Ok(entries)
}
