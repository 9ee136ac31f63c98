//! S11 at a part: openings, arms, ends and Exits.

ghost use Rattle.std.specs.Prelude.{◌≡◌, OnOk};
ghost use Rattle.module_parts.specs.Brackets.{kind_view};
ghost use Rattle.module_parts.specs.View.{part_view};
ghost use Rattle.module_rules.specs.Found.{noted};
ghost use Rattle.module_rules.specs.Statements.{exits_in};
ghost use Rattle.module_rules.specs.Seen.{stack};
ghost use Rattle.vba_module.specs.Blocks as blocks;
ghost use Rattle.vba_module.specs.Parts as parts;

use crate::noting::note_place;
use crate::open::{Open, close_nearest, nearest};
use crate::statements::{Check, note_statement};
use module_parts::{BlockKind, Bracket, Part, bracket_of};
use vba_base::{NoMemory, Place, Refusal};

/// An opening opens its block.
fn open_block(opened: &mut Vec<Open>, kind: BlockKind, place: Place) -> Result<(), NoMemory>
    ensures { OnOk result (stack opened.new.items ≡ (blocks.step place (stack opened.old.items) (blocks.opens (kind_view kind))).opened) }
{
    opened.push(Open {
        kind,
        place,
        is_last: false,
    })?;
    Ok(())
}

/// An arm belongs to the nearest block of its kind, unless that has read its last arm.
#[tactic(auto, using(crate::proofs::Stacks::divided_found, crate::proofs::Stacks::divided_last, crate::proofs::Stacks::divided_nowhere))]
fn divide(
    opened: &mut Vec<Open>,
    kind: BlockKind,
    is_last: bool,
    place: Place,
    least: &mut Option<Refusal>,
) -> Result<(), NoMemory>
    ensures opened { OnOk result (stack opened.new.items ≡ (blocks.step place (stack opened.old.items) (blocks.divides (kind_view kind) is_last)).opened) }
    ensures least { OnOk result (least.new ≡ noted 11 least.old (blocks.step place (stack opened.old.items) (blocks.divides (kind_view kind) is_last)).faults) }
{
    match nearest(opened.as_slice(), kind) {
        Some(found) if !found.is_last => {
            close_nearest(opened, kind, least);
            opened.push(Open {
                kind: found.kind,
                place: found.place,
                is_last,
            })?;
        }
        _ => note_place(least, true, 11, place),
    }
    Ok(())
}

/// An end belongs to the nearest of its kind.
#[tactic(auto, using(crate::proofs::Stacks::closed_found, crate::proofs::Stacks::closed_nowhere))]
fn close_block(opened: &mut Vec<Open>, kind: BlockKind, place: Place, least: &mut Option<Refusal>)
    ensures opened { stack opened.new.items ≡ (blocks.step place (stack opened.old.items) (blocks.closes (kind_view kind))).opened }
    ensures least { least.new ≡ noted 11 least.old (blocks.step place (stack opened.old.items) (blocks.closes (kind_view kind))).faults }
{
    match nearest(opened.as_slice(), kind) {
        Some(_) => close_nearest(opened, kind, least),
        None => note_place(least, true, 11, place),
    }
}

/// Notes each Exit in a part that stands in nothing that it leaves.
#[tactic(auto, using(crate::proofs::ExitsFound::statement_exits, crate::proofs::ExitsFound::line_exits))]
fn note_exits(opened: &[Open], part: &Part, least: &mut Option<Refusal>)
    ensures { least.new ≡ noted 11 least.old (blocks.exit_faults (stack opened.now) (exits_in (blocks.role_of (part_view part.now)))) }
{
    if let Part::Statement(statement) = part {
        note_statement(Check::Exits(opened), statement, least);
    }
}

/// Goes behind a part: notes where it breaks S11, and opens and closes what it brackets.
pub fn pass_brackets(
    opened: &mut Vec<Open>,
    part: &Part,
    place: Place,
    least: &mut Option<Refusal>,
) -> Result<(), NoMemory>
    ensures opened { OnOk result (stack opened.new.items ≡ (blocks.step place (stack opened.old.items) (blocks.role_of (part_view part.now))).opened) }
    ensures least { OnOk result (least.new ≡ noted 11 least.old (blocks.step place (stack opened.old.items) (blocks.role_of (part_view part.now))).faults) }
{
    match bracket_of(part) {
        Bracket::Opens(kind) => open_block(opened, kind, place),
        Bracket::Divides { kind, is_last } => divide(opened, kind, is_last, place, least),
        Bracket::Closes(kind) => {
            close_block(opened, kind, place, least);
            Ok(())
        }
        Bracket::Stands => {
            note_exits(opened.as_slice(), part, least);
            Ok(())
        }
    }
}
