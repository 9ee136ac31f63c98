//! Erase.

ghost use Rattle.std.specs.Prelude.{◌≡◌, [], ◌∷◌, List, Option, Some, IfOk, OnOk, option_map};
ghost use Rattle.statement_nodes.specs.Reads.{ItemPushed, Read};
ghost use Rattle.bound_terms.specs.bound_accesses.specs.bound_names.specs.bound_members.specs.bound_calls.specs.bound_forms.specs.StatementsBound as plain;
ghost use Rattle.bound_project.specs.DraftView.{draft_view};
ghost use Rattle.bound_project.specs.Drafts.{Drafted};
ghost use Rattle.bound_project.specs.Pieces as piece;
ghost use Rattle.bound_project.specs.Pieces.{arrays_off};
ghost use Rattle.bound_project.specs.Statements as plain_to;
ghost use Rattle.bound_project.specs.Statements.{Arrays, no_arrays};
ghost use Rattle.statement_nodes.specs.Pushed.{ActionPushed};
ghost use Rattle.bound_terms.specs.bound_accesses.specs.bound_names.specs.View.{EnvStands, env_view};
ghost use Rattle.vba_expression.specs.Tree.{Expr};
ghost use Rattle.vba_expression.specs.View.{view as expression_view};
ghost use Rattle.vba_module.specs.Headers.{all_of};
ghost use Rattle.vba_tree.specs.View.{listed_view};

use crate::places::bind_place;
use bound_project::{ActionKind, Draft, Node, NodeKind};
use bound_terms::bound_accesses::bound_names::Env;
use bound_terms::bound_accesses::bound_names::bound_members::bound_calls::bound_declarations::NotYet;
use statement_nodes::blank_node;
use statement_nodes::statement_numbers::plus;
use std::alloc::Global;
use vba_base::{NoMemory, OrMemory};
use vba_expression::Expression;
use vba_tree::Listed;

/// Ends an array: its place was pushed.
fn end_array(draft: &mut Draft) -> Result<(), NoMemory>
    ensures { OnOk result (draft_view draft.new ≡ record (draft_view draft.old) { pieces = piece.of_place (λ x. piece.an_erased x) (draft_view draft.old).pieces }) }
{
    draft.push(Node {
        kind: NodeKind::Erased,
        ..blank_node()
    })
}

/// Pushes an array.
fn push_array<'a>(
    alloc: Global,
    draft: &mut Draft,
    env: Env<'a>,
    array: &'a Expression,
) -> Result<(), OrMemory<NotYet>>
    requires { EnvStands env }
    ensures { OnOk result ((rest : List Expr)
        → ItemPushed Arrays arrays_off (plain.erased_arrays (env_view env.entry) (expression_view array.now ∷ rest)) (plain.erased_arrays (env_view env.entry) rest)
        (draft_view draft.old) (draft_view draft.new)) }
{
    bind_place(alloc, draft, env, array)?;
    end_array(draft)?;
    Ok(())
}

/// Pushes an array behind so many; answers how many there are then.
#[tactic(auto, using(statement_nodes::proofs::Items::read_more))]
fn push_next<'a>(
    alloc: Global,
    draft: &mut Draft,
    env: Env<'a>,
    array: &'a Expression,
    before: u32,
) -> Result<u32, OrMemory<NotYet>>
    requires { EnvStands env }
    ensures { IfOk result (λ count. (all : Option Arrays) (rest : List Expr) (base : Drafted)
        → Read Arrays arrays_off all (plain.erased_arrays (env_view env.entry) (expression_view array.now ∷ rest)) before base (draft_view draft.old)
        → Read Arrays arrays_off all (plain.erased_arrays (env_view env.entry) rest) count base (draft_view draft.new)) }
{
    push_array(alloc, draft, env, array)?;
    Ok(plus(before, 1)?)
}

/// Pushes arrays; answers how many they are.
#[tactic(auto, using(statement_nodes::proofs::Arrays::arrays_begin))]
fn push_arrays<'a>(
    alloc: Global,
    draft: &mut Draft,
    env: Env<'a>,
    list: &'a Listed<Expression>,
) -> Result<u32, OrMemory<NotYet>>
    requires { EnvStands env }
    ensures { IfOk result (λ count. Read Arrays arrays_off (plain.erased_arrays (env_view env.entry) (all_of (listed_view expression_view list.now))) (Some no_arrays) count
        (draft_view draft.old) (draft_view draft.new)) }
{
    let mut count = push_next(alloc, draft, env, &list.first, 0)?;
    let mut left = list.others.as_slice();
    'others: while let [next, behind @ ..] = left {
        count = push_next(alloc, draft, env, &next.item, count)?;
        left = behind;
    }
    Ok(count)
}

/// `Erase arrays`
#[tactic(auto, using(statement_nodes::proofs::Ended::erase_pushed))]
pub(crate) fn bind_erase<'a>(
    alloc: Global,
    draft: &mut Draft,
    env: Env<'a>,
    list: &'a Listed<Expression>,
) -> Result<ActionKind, OrMemory<NotYet>>
    requires env { EnvStands env }
    requires empty { (draft_view draft.old).pieces ≡ [] }
    ensures { IfOk result (λ kind. ActionPushed kind
        (option_map plain_to.erase (plain.erased_arrays (env_view env.entry) (all_of (listed_view expression_view list.now))))
        (draft_view draft.old) (draft_view draft.new)) }
{
    let arrays = push_arrays(alloc, draft, env, list)?;
    Ok(ActionKind::Erase { arrays })
}
