//! Bodies, bound part by part.

ghost use Rattle.std.specs.Prelude.{◌≡◌, ℕ, [], OnOk};
ghost use Rattle.bound_lines.specs.Round.{StandsAt, around_view};
ghost use Rattle.statement_nodes.specs.Walks.{Added, BodyAdded, PartAdded, statements_of};
ghost use Rattle.binder.specs.Blocks.{next_number};
ghost use Rattle.bound_project.specs.DraftView.{draft_view};
ghost use Rattle.bound_names.specs.View.{EnvStands};
ghost use Rattle.module_parts.specs.View.{part_view};
ghost use Rattle.statement_nodes.specs.statement_numbers.specs.View.{standing_view};

use crate::built_parts::is_built_part;
use crate::single_line_ifs::bind_statement;
use crate::statements::bind_simple;
use bound_lines::{Around, around_at};
use bound_names::bound_members::bound_calls::bound_declarations::NotYet;
use bound_project::Draft;
use module_parts::{Part, place_of};
use statement_nodes::statement_numbers::{Standing, Walk};
use std::alloc::Global;
use vba_base::{OrMemory, Place};
use vba_tree::Statement;

/// Adds the statements of a part.
#[tactic(auto, using(statement_nodes::proofs::Walked::none_added, statement_nodes::proofs::Ifs::simple_part_added))]
fn bind_statements<'a>(
    alloc: Global,
    draft: &mut Draft,
    around: Around<'a>,
    standing: Standing<'a>,
    part: &'a Part,
) -> Result<(), OrMemory<NotYet>>
    requires env { EnvStands around.env }
    requires empty { (draft_view draft.old).pieces ≡ [] }
    requires placed { StandsAt around (standing_view standing) }
    ensures { OnOk result ((next : ℕ) → next ≡ next_number (standing_view standing.entry)
        → Added (statements_of (around_view around.entry) (standing_view standing.entry) next (part_view part.now)) (draft_view draft.old) (draft_view draft.new)) }
{
    let next = standing.next_number()?;
    match part {
        Part::Statement(Statement::Simple(simple)) => {
            bind_simple(alloc, draft, around, standing, simple, place_of(part), next)
        }
        Part::Statement(statement) => {
            bind_statement(
                alloc,
                draft,
                around,
                standing,
                statement,
                standing.number,
                next,
            )
        }
        Part::Label(_) | Part::WholeLine(_) => Ok(()),
    }
}

/// Adds the statements of a part, in its scope.
fn bind_there<'a>(
    alloc: Global,
    draft: &mut Draft,
    around: Around<'a>,
    standing: Standing<'a>,
    part: &'a Part,
) -> Result<(), OrMemory<NotYet>>
    requires env { EnvStands around.env }
    requires empty { (draft_view draft.old).pieces ≡ [] }
    ensures { OnOk result ((next : ℕ) → next ≡ next_number (standing_view standing.entry)
        → Added (statements_of (around_view around.entry) (standing_view standing.entry) next (part_view part.now)) (draft_view draft.old) (draft_view draft.new)) }
{
    let there = around_at(alloc, around, standing)?;
    bind_statements(alloc, draft, there, standing, part)?;
    Ok(())
}

/// Binds a part.
#[tactic(auto, using(statement_nodes::proofs::Ifs::part_added))]
fn bind_part<'a>(
    alloc: Global,
    draft: &mut Draft,
    around: Around<'a>,
    standing: Standing<'a>,
) -> Result<(), OrMemory<Place>>
    requires env { EnvStands around.env }
    requires empty { (draft_view draft.old).pieces ≡ [] }
    ensures { OnOk result (PartAdded (around_view around.entry) (standing_view standing.entry) (draft_view draft.old) (draft_view draft.new)) }
{
    let part = standing.part();
    let place = place_of(part);
    if !is_built_part(around.env.constants.scope, part)? {
        return Err(OrMemory::Fault(place));
    }
    match bind_there(alloc, draft, around, standing, part) {
        Ok(()) => Ok(()),
        Err(OrMemory::Fault(_)) => Err(OrMemory::Fault(place)),
        Err(OrMemory::NoMemory) => Err(OrMemory::NoMemory),
    }
}

/// Binds the parts of a body.
#[tactic(auto, using(statement_nodes::proofs::Walked::walk_begins, statement_nodes::proofs::Walked::walk_goes_on, statement_nodes::proofs::Walked::walk_ends))]
pub(crate) fn bind_body<'a>(
    alloc: Global,
    draft: &mut Draft,
    around: Around<'a>,
) -> Result<(), OrMemory<Place>>
    requires env { EnvStands around.env }
    requires empty { (draft_view draft.old).pieces ≡ [] }
    ensures { OnOk result (BodyAdded (around_view around.entry) (around_view around.entry).parts (draft_view draft.old) (draft_view draft.new)) }
{
    let mut walk = Walk::start(alloc, around.body.slice());
    'parts: while let Some(standing) = walk.standing() {
        bind_part(alloc, draft, around, standing)?;
        walk.advance()?;
    }
    Ok(())
}
