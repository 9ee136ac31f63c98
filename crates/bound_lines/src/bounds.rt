//! The bounds of a ReDim: the low and the high one of each dimension.

ghost use Rattle.std.specs.Prelude.{◌∷◌, List, Option, Some, IfOk, map};
ghost use Rattle.statement_nodes.specs.Reads.{Read};
ghost use Rattle.constant_values.specs.declared_names.specs.binder.specs.Constants.{place_of_expression};
ghost use Rattle.bound_terms.specs.bound_accesses.specs.bound_names.specs.bound_members.specs.bound_calls.specs.bound_forms.specs.ExpressionsBound.{bound_operand};
ghost use Rattle.constant_values.specs.declared_names.specs.binder.specs.Options.{from_two};
ghost use Rattle.constant_values.specs.declared_names.specs.binder.specs.Sources.{base_of};
ghost use Rattle.bound_terms.specs.bound_accesses.specs.bound_names.specs.bound_members.specs.bound_calls.specs.bound_forms.specs.StatementsBound as plain;
ghost use Rattle.bound_project.specs.DraftView.{draft_view};
ghost use Rattle.bound_project.specs.Drafts.{Drafted};
ghost use Rattle.bound_project.specs.Expressions.{Exprs, also, no_exprs};
ghost use Rattle.bound_project.specs.Pieces.{exprs_off};
ghost use Rattle.bound_terms.specs.bound_accesses.specs.bound_names.specs.View.{EnvStands, env_view};
ghost use Rattle.vba_expression.specs.View.{view as expression_view};
ghost use Rattle.vba_lexer.specs.declared.token.Token.{Token};
ghost use Rattle.vba_module.specs.Headers.{all_of, items_of};
ghost use Rattle.vba_tree.specs.Tree as tree;
ghost use Rattle.vba_tree.specs.View.{dim_view, listed_view};

use crate::values::push_operand;
use bound_project::Draft;
use bound_terms::bound_accesses::bound_names::Env;
use bound_terms::bound_accesses::bound_names::bound_members::bound_calls::bound_declarations::NotYet;
use constant_values::declared_names::module_parts::expression_place;
use statement_nodes::push_integer;
use statement_nodes::statement_numbers::plus;
use std::alloc::Global;
use vba_base::{NoMemory, OrMemory};
use vba_expression::Expression;
use vba_tree::{Dim, Listed, Next};

/// Pushes a bound behind so many; answers how many there are then.
fn push_bound<'a>(
    alloc: Global,
    draft: &mut Draft,
    env: Env<'a>,
    bound: &'a Expression,
    before: u32,
) -> Result<u32, OrMemory<NotYet>>
    requires { EnvStands env }
    ensures { IfOk result (λ count. (all rest : Option Exprs) (base : Drafted)
        → Read Exprs exprs_off all (from_two also (bound_operand (env_view env.entry) (expression_view bound.now)) rest) before base (draft_view draft.old)
        → Read Exprs exprs_off all rest count base (draft_view draft.new)) }
{
    push_operand(alloc, draft, env, bound)?;
    Ok(plus(before, 1)?)
}

/// Pushes the low bound of a dimension that has this high one alone, behind so many; answers how many there are then.
fn push_base<'a>(
    draft: &mut Draft,
    env: Env<'a>,
    high: &'a Expression,
    before: u32,
) -> Result<u32, NoMemory>
    ensures { IfOk result (λ count. (all rest : Option Exprs) (base : Drafted)
        → Read Exprs exprs_off all
        (from_two also (Some (plain.integer (place_of_expression (expression_view high.now)) (base_of (env_view env.entry).scope.here.source))) rest) before base (draft_view draft.old)
        → Read Exprs exprs_off all rest count base (draft_view draft.new)) }
{
    let source = env.constants.scope.here.source;
    push_integer(draft, expression_place(high), source.base())?;
    let count = plus(before, 1)?;
    Ok(count)
}

/// Pushes the bounds of a dimension that has the high one alone, behind so many; answers how many there are then.
fn push_upper<'a>(
    alloc: Global,
    draft: &mut Draft,
    env: Env<'a>,
    high: &'a Expression,
    before: u32,
) -> Result<u32, OrMemory<NotYet>>
    requires { EnvStands env }
    ensures { IfOk result (λ count. (all : Option Exprs) (rest : List tree.Dim) (base : Drafted)
        → Read Exprs exprs_off all (plain.redim_bounds (env_view env.entry) (tree.upper (expression_view high.now) ∷ rest)) before base (draft_view draft.old)
        → Read Exprs exprs_off all (plain.redim_bounds (env_view env.entry) rest) count base (draft_view draft.new)) }
{
    let low = push_base(draft, env, high, before)?;
    let both = push_bound(alloc, draft, env, high, low)?;
    Ok(both)
}

/// Pushes the bounds of a dimension that has both, behind so many; answers how many there are then.
fn push_range<'a>(
    alloc: Global,
    draft: &mut Draft,
    env: Env<'a>,
    lower: &'a Expression,
    upper: &'a Expression,
    before: u32,
) -> Result<u32, OrMemory<NotYet>>
    requires { EnvStands env }
    ensures { IfOk result (λ count. (all : Option Exprs) (rest : List tree.Dim) (base : Drafted) (to_word : Token)
        → Read Exprs exprs_off all (plain.redim_bounds (env_view env.entry) (tree.Dim.range (expression_view lower.now) to_word (expression_view upper.now) ∷ rest)) before base (draft_view draft.old)
        → Read Exprs exprs_off all (plain.redim_bounds (env_view env.entry) rest) count base (draft_view draft.new)) }
{
    let low = push_bound(alloc, draft, env, lower, before)?;
    let both = push_bound(alloc, draft, env, upper, low)?;
    Ok(both)
}

/// Pushes the bounds of a dimension behind so many; answers how many there are then.
fn push_dim<'a>(
    alloc: Global,
    draft: &mut Draft,
    env: Env<'a>,
    dim: &'a Dim,
    before: u32,
) -> Result<u32, OrMemory<NotYet>>
    requires { EnvStands env }
    ensures { IfOk result (λ count. (all : Option Exprs) (rest : List tree.Dim) (base : Drafted)
        → Read Exprs exprs_off all (plain.redim_bounds (env_view env.entry) (dim_view dim.now ∷ rest)) before base (draft_view draft.old)
        → Read Exprs exprs_off all (plain.redim_bounds (env_view env.entry) rest) count base (draft_view draft.new)) }
{
    match dim {
        Dim::Upper(high) => Ok(push_upper(alloc, draft, env, high, before)?),
        Dim::Range { lower, upper, .. } => {
            Ok(push_range(alloc, draft, env, lower, upper, before)?)
        }
    }
}

/// Pushes the bounds of the dimensions behind commas behind so many; answers how many there are then.
fn push_behind<'a>(
    alloc: Global,
    draft: &mut Draft,
    env: Env<'a>,
    others: &'a [Next<Dim>],
    before: u32,
) -> Result<u32, OrMemory<NotYet>>
    requires { EnvStands env }
    ensures { IfOk result (λ count. (all : Option Exprs) (base : Drafted)
        → Read Exprs exprs_off all (plain.redim_bounds (env_view env.entry) (items_of (map (λ next. (next.mark, dim_view next.item)) others.now))) before base (draft_view draft.old)
        → Read Exprs exprs_off all (Some no_exprs) count base (draft_view draft.new)) }
{
    let mut pushed = before;
    let mut left = others;
    'dims: while let [next, behind @ ..] = left {
        pushed = push_dim(alloc, draft, env, &next.item, pushed)?;
        left = behind;
    }
    Ok(pushed)
}

/// Pushes the bounds of dimensions; answers how many they are.
pub(crate) fn push_bounds<'a>(
    alloc: Global,
    draft: &mut Draft,
    env: Env<'a>,
    list: &'a Listed<Dim>,
) -> Result<u32, OrMemory<NotYet>>
    requires { EnvStands env }
    ensures { IfOk result (λ count. Read Exprs exprs_off (plain.redim_bounds (env_view env.entry) (all_of (listed_view dim_view list.now))) (Some no_exprs) count
        (draft_view draft.old) (draft_view draft.new)) }
{
    let pushed = push_dim(alloc, draft, env, &list.first, 0)?;
    let count = push_behind(alloc, draft, env, list.others.as_slice(), pushed)?;
    Ok(count)
}
