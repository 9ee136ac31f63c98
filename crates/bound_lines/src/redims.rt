//! ReDim.

ghost use Rattle.std.specs.Prelude.{◌≡◌, [], ◌∷◌, List, Option, Some, IfOk, OnOk, map, option_map};
ghost use Rattle.statement_nodes.specs.Reads.{ItemPushed, Read};
ghost use Rattle.bound_terms.specs.bound_accesses.specs.bound_names.specs.bound_members.specs.bound_calls.specs.bound_forms.specs.StatementsBound as plain;
ghost use Rattle.bound_project.specs.DraftView.{draft_view};
ghost use Rattle.bound_project.specs.Drafts.{Drafted};
ghost use Rattle.bound_project.specs.Expressions.{no_exprs};
ghost use Rattle.bound_project.specs.Pieces as piece;
ghost use Rattle.bound_project.specs.Pieces.{resizes_off};
ghost use Rattle.bound_project.specs.Statements as plain_to;
ghost use Rattle.bound_project.specs.Statements.{Resizes, no_resizes};
ghost use Rattle.bound_project.specs.View.{declared_view};
ghost use Rattle.statement_nodes.specs.Pushed.{ActionPushed};
ghost use Rattle.bound_terms.specs.bound_accesses.specs.bound_names.specs.View.{EnvStands, env_view};
ghost use Rattle.vba_module.specs.Headers.{all_of, items_of};
ghost use Rattle.vba_tree.specs.Tree as tree;
ghost use Rattle.vba_tree.specs.View.{array_view, listed_view, type_clause_view};

use crate::bounds::push_bounds;
use crate::resized::bind_resized;
use bound_project::{ActionKind, DeclaredType, Draft, Node, NodeKind};
use bound_terms::bound_accesses::bound_names::Env;
use bound_terms::bound_accesses::bound_names::bound_members::bound_calls::bound_declarations::NotYet;
use constant_values::written_type;
use statement_nodes::statement_numbers::plus;
use statement_nodes::{blank_node, mark_bounds};
use std::alloc::Global;
use vba_base::{NoMemory, OrMemory};
use vba_tree::{Listed, Next, ReDimArray, TypeClause};

/// The type of the elements, where it is written.
fn resized_type<'a>(
    alloc: Global,
    env: Env<'a>,
    clause: &Option<TypeClause>,
) -> Result<Option<DeclaredType>, NoMemory>
    requires { EnvStands env }
    ensures { IfOk result (λ of. option_map declared_view of ≡ plain.redim_type (env_view env.entry) (option_map type_clause_view clause.now)) }
{
    match clause {
        None => Ok(None),
        Some(clause) => Ok(Some(written_type(alloc, env.constants, &clause.declared_type)?)),
    }
}

/// Ends an array: the place and so many bounds behind it were pushed.
fn end_array(draft: &mut Draft, bounds: u32, of: Option<DeclaredType>) -> Result<(), NoMemory>
    ensures { OnOk result (draft_view draft.new ≡ record (draft_view draft.old) {
      pieces = piece.of_place_found (λ x es. piece.a_resize x es (option_map declared_view of)) (piece.exprs_off bounds (draft_view draft.old).pieces no_exprs);
    }) }
{
    draft.push(Node {
        kind: NodeKind::Resize { bounds, of },
        ..blank_node()
    })
}

/// Pushes an array.
fn push_array<'a>(
    alloc: Global,
    draft: &mut Draft,
    env: Env<'a>,
    array: &'a ReDimArray,
) -> Result<(), OrMemory<NotYet>>
    requires { EnvStands env }
    ensures { OnOk result ((rest : List tree.ReDimArray)
        → ItemPushed Resizes resizes_off (plain.redim_arrays (env_view env.entry) (array_view array.now ∷ rest)) (plain.redim_arrays (env_view env.entry) rest)
        (draft_view draft.old) (draft_view draft.new)) }
{
    let of = resized_type(alloc, env, &array.type_clause)?;
    let told = bind_resized(alloc, draft, env, &array.place)?;
    let bounds = push_bounds(alloc, draft, env, &array.dims)?;
    mark_bounds(draft, bounds, told.of, of, told.place)?;
    end_array(draft, bounds, of)?;
    Ok(())
}

/// Pushes an array behind so many; answers how many there are then.
#[tactic(auto, using(statement_nodes::proofs::Items::read_more))]
fn push_next<'a>(
    alloc: Global,
    draft: &mut Draft,
    env: Env<'a>,
    array: &'a ReDimArray,
    before: u32,
) -> Result<u32, OrMemory<NotYet>>
    requires { EnvStands env }
    ensures { IfOk result (λ count. (all : Option Resizes) (rest : List tree.ReDimArray) (base : Drafted)
        → Read Resizes resizes_off all (plain.redim_arrays (env_view env.entry) (array_view array.now ∷ rest)) before base (draft_view draft.old)
        → Read Resizes resizes_off all (plain.redim_arrays (env_view env.entry) rest) count base (draft_view draft.new)) }
{
    push_array(alloc, draft, env, array)?;
    Ok(plus(before, 1)?)
}

/// Pushes the arrays behind commas behind so many; answers how many there are then.
fn push_behind<'a>(
    alloc: Global,
    draft: &mut Draft,
    env: Env<'a>,
    others: &'a [Next<ReDimArray>],
    before: u32,
) -> Result<u32, OrMemory<NotYet>>
    requires { EnvStands env }
    ensures { IfOk result (λ count. (all : Option Resizes) (base : Drafted)
        → Read Resizes resizes_off all (plain.redim_arrays (env_view env.entry) (items_of (map (λ next. (next.mark, array_view next.item)) others.now))) before base (draft_view draft.old)
        → Read Resizes resizes_off all (Some no_resizes) count base (draft_view draft.new)) }
{
    let mut pushed = before;
    let mut left = others;
    'arrays: while let [next, behind @ ..] = left {
        pushed = push_next(alloc, draft, env, &next.item, pushed)?;
        left = behind;
    }
    Ok(pushed)
}

/// Pushes arrays; answers how many they are.
fn push_arrays<'a>(
    alloc: Global,
    draft: &mut Draft,
    env: Env<'a>,
    list: &'a Listed<ReDimArray>,
) -> Result<u32, OrMemory<NotYet>>
    requires { EnvStands env }
    ensures { IfOk result (λ count. Read Resizes resizes_off (plain.redim_arrays (env_view env.entry) (all_of (listed_view array_view list.now))) (Some no_resizes) count
        (draft_view draft.old) (draft_view draft.new)) }
{
    let pushed = push_next(alloc, draft, env, &list.first, 0)?;
    let count = push_behind(alloc, draft, env, list.others.as_slice(), pushed)?;
    Ok(count)
}

/// `ReDim [Preserve] arrays`
#[tactic(auto, using(statement_nodes::proofs::Ended::redim_pushed))]
pub(crate) fn bind_redim<'a>(
    alloc: Global,
    draft: &mut Draft,
    env: Env<'a>,
    preserve: bool,
    list: &'a Listed<ReDimArray>,
) -> Result<ActionKind, OrMemory<NotYet>>
    requires env { EnvStands env }
    requires empty { (draft_view draft.old).pieces ≡ [] }
    ensures { IfOk result (λ kind. ActionPushed kind
        (option_map (plain_to.redim preserve) (plain.redim_arrays (env_view env.entry) (all_of (listed_view array_view list.now))))
        (draft_view draft.old) (draft_view draft.new)) }
{
    let arrays = push_arrays(alloc, draft, env, list)?;
    Ok(ActionKind::ReDim { preserve, arrays })
}
