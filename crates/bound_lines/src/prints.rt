//! Debug.Print.

ghost use Rattle.std.specs.Prelude.{◌≡◌, [], Option, Some, IfOk, OnOk, map, option_map};
ghost use Rattle.statement_nodes.specs.Reads.{ItemPushed, Read};
ghost use Rattle.bound_terms.specs.bound_accesses.specs.bound_names.specs.bound_members.specs.bound_calls.specs.bound_forms.specs.ExpressionsBound.{bound_operand};
ghost use Rattle.constant_values.specs.declared_names.specs.binder.specs.Options.{from_two};
ghost use Rattle.bound_terms.specs.bound_accesses.specs.bound_names.specs.bound_members.specs.bound_calls.specs.bound_forms.specs.StatementsBound as plain;
ghost use Rattle.bound_project.specs.DraftView.{draft_view};
ghost use Rattle.bound_project.specs.Drafts.{Drafted};
ghost use Rattle.bound_project.specs.Expressions.{Prints, no_prints, shown};
ghost use Rattle.bound_project.specs.Pieces.{prints_off};
ghost use Rattle.bound_project.specs.Statements as plain_to;
ghost use Rattle.statement_nodes.specs.Pushed.{ActionPushed};
ghost use Rattle.bound_terms.specs.bound_accesses.specs.bound_names.specs.View.{EnvStands, env_view};
ghost use Rattle.vba_expression.specs.View.{view as expression_view};
ghost use Rattle.vba_tree.specs.View.{print_item_view};

use crate::values::push_operand;
use bound_project::{ActionKind, Draft};
use bound_terms::bound_accesses::bound_names::Env;
use bound_terms::bound_accesses::bound_names::bound_members::bound_calls::bound_declarations::NotYet;
use statement_nodes::statement_numbers::plus;
use statement_nodes::{ends_line, push_mark, show};
use std::alloc::Global;
use vba_base::OrMemory;
use vba_expression::Expression;
use vba_tree::PrintItem;

/// Pushes a value that is shown.
fn push_shown<'a>(
    alloc: Global,
    draft: &mut Draft,
    env: Env<'a>,
    value: &'a Expression,
) -> Result<(), OrMemory<NotYet>>
    requires { EnvStands env }
    ensures { OnOk result ((rest : Option Prints)
        → ItemPushed Prints prints_off (from_two shown (bound_operand (env_view env.entry) (expression_view value.now)) rest) rest
        (draft_view draft.old) (draft_view draft.new)) }
{
    push_operand(alloc, draft, env, value)?;
    show(draft)?;
    Ok(())
}

/// Pushes a value, where there is one, behind so many items; answers how many there are then.
#[tactic(auto, using(statement_nodes::proofs::Items::read_more))]
fn push_value<'a>(
    alloc: Global,
    draft: &mut Draft,
    env: Env<'a>,
    value: &'a Option<Expression>,
    before: u32,
) -> Result<u32, OrMemory<NotYet>>
    requires { EnvStands env }
    ensures { IfOk result (λ count. (all rest : Option Prints) (base : Drafted)
        → Read Prints prints_off all (plain.value_shown (env_view env.entry) (option_map expression_view value.now) rest) before base (draft_view draft.old)
        → Read Prints prints_off all rest count base (draft_view draft.new)) }
{
    match value {
        None => Ok(before),
        Some(value) => {
            push_shown(alloc, draft, env, value)?;
            Ok(plus(before, 1)?)
        }
    }
}

/// Pushes an item behind others; answers how many there are then.
fn push_item<'a>(
    alloc: Global,
    draft: &mut Draft,
    env: Env<'a>,
    item: &'a PrintItem,
    before: u32,
) -> Result<u32, OrMemory<NotYet>>
    requires { EnvStands env }
    ensures { IfOk result (λ count. (all rest : Option Prints) (base : Drafted)
        → Read Prints prints_off all
        (plain.mark_shown item.now.mark (plain.value_shown (env_view env.entry) (option_map expression_view item.now.value) rest)) before base (draft_view draft.old)
        → Read Prints prints_off all rest count base (draft_view draft.new)) }
{
    let marked = push_mark(draft, item.mark, before)?;
    let pushed = push_value(alloc, draft, env, &item.value, marked)?;
    Ok(pushed)
}

/// Pushes items behind others; answers how many there are then.
fn push_items<'a>(
    alloc: Global,
    draft: &mut Draft,
    env: Env<'a>,
    items: &'a [PrintItem],
    before: u32,
) -> Result<u32, OrMemory<NotYet>>
    requires { EnvStands env }
    ensures { IfOk result (λ count. (all : Option Prints) (base : Drafted)
        → Read Prints prints_off all (plain.items_shown (env_view env.entry) (map print_item_view items.now)) before base (draft_view draft.old)
        → Read Prints prints_off all (Some no_prints) count base (draft_view draft.new)) }
{
    let mut pushed = before;
    let mut left = items;
    'items: while let [item, behind @ ..] = left {
        pushed = push_item(alloc, draft, env, item, pushed)?;
        left = behind;
    }
    Ok(pushed)
}

/// `Debug.Print ..`
pub fn bind_print<'a>(
    alloc: Global,
    draft: &mut Draft,
    env: Env<'a>,
    first: &'a Option<Expression>,
    others: &'a [PrintItem],
) -> Result<ActionKind, OrMemory<NotYet>>
    requires env { EnvStands env }
    requires empty { (draft_view draft.old).pieces ≡ [] }
    ensures { IfOk result (λ kind. ActionPushed kind
        (option_map (λ ps. plain_to.print ps (plain.ends_line (map print_item_view others.now)))
        (plain.value_shown (env_view env.entry) (option_map expression_view first.now) (plain.items_shown (env_view env.entry) (map print_item_view others.now))))
        (draft_view draft.old) (draft_view draft.new)) }
{
    let pushed = push_value(alloc, draft, env, first, 0)?;
    let items = push_items(alloc, draft, env, others, pushed)?;
    Ok(ActionKind::Print {
        items,
        ends: ends_line(others),
    })
}
