//! What arguments lead to in a value, as the run says, where it is assigned to or set.

ghost use Rattle.std.specs.Prelude.{◌≡◌, true, IfOk, MatchBool};
ghost use Rattle.bound_project.specs.DraftView.{draft_view};
ghost use Rattle.bound_project.specs.Drafts.{NodeNamed};
ghost use Rattle.statement_terms.specs.Heights.{AddsOne};
ghost use Rattle.bound_actions.specs.LateItems.{LeadsFrom, ReadsIndexed};
ghost use Rattle.bound_terms.specs.bound_accesses.specs.bound_names.specs.bound_members.specs.bound_calls.specs.declared.term.Target.TheVariants as target_kind;
ghost use Rattle.bound_terms.specs.bound_accesses.specs.bound_names.specs.bound_members.specs.bound_calls.specs.References.{IsFoundLate};
ghost use Rattle.bound_terms.specs.bound_accesses.specs.bound_names.specs.View.{EnvStands, env_view};

use bound_project::Draft;
use bound_terms::bound_accesses::bound_names::Env;
use bound_terms::bound_accesses::bound_names::bound_members::bound_calls::bound_declarations::NotYet;
use bound_terms::bound_accesses::bound_names::bound_members::bound_calls::{
    Ending, Indexed, Item, Target, put_item, take_item,
};
use bound_terms::bound_operands::push_as_place;
use bound_terms::run;
use std::alloc::Global;
use vba_base::{OrMemory, Place};
use vba_expression::ExpressionNode;

/// Reads arguments behind what they index, which was pushed.
pub fn read_indexed<'a>(
    alloc: Global,
    draft: &mut Draft,
    env: Env<'a>,
    indexed: Indexed,
    nodes: &'a [ExpressionNode],
) -> Result<Indexed, OrMemory<NotYet>>
    requires env { EnvStands env }
    ensures { IfOk result (λ more. ReadsIndexed (env_view env.entry) indexed nodes.now (draft_view draft.old) (draft_view draft.new) more) }
{
    let Some((ExpressionNode::NoArguments, nodes)) = nodes.split_first() else {
        return Err(OrMemory::NoMemory);
    };
    let mut stack = Vec::new(alloc);
    put_item(&mut stack, Item::Indexed(indexed))?;
    run(alloc, draft, env, &mut stack, nodes)?;
    let Some(Item::Indexed(more)) = take_item(&mut stack) else {
        return Err(OrMemory::Fault(NotYet));
    };
    if stack.is_empty() {
        Ok(more)
    } else {
        Err(OrMemory::NoMemory)
    }
}

/// Is it a value as a place, of which the run says what arguments lead to?
fn is_as_place(target: Target) -> bool
    ensures { MatchBool result (target ≡ target_kind.ValueAsPlace) (Unit {0}) }
{
    match target {
        Target::ValueAsPlace => true,
        _ => false,
    }
}

/// The place of a value is pushed, and the arguments that lead on from it: so many.
pub fn lead_from<'a>(
    alloc: Global,
    draft: &mut Draft,
    env: Env<'a>,
    ending: Ending,
    place: Place,
    nodes: &'a [ExpressionNode],
) -> Result<u32, OrMemory<NotYet>>
    requires env { EnvStands env }
    requires named { NodeNamed (draft_view draft.old).tables ending.kind }
    requires late { IsFoundLate env.has_class (draft_view draft.old).tables ending true }
    requires one { AddsOne nodes.now }
    ensures { IfOk result (λ numbers. LeadsFrom (env_view env.entry) ending place nodes.now (draft_view draft.old) (draft_view draft.new) numbers) }
{
    let indexed = push_as_place(draft, ending, place)?;
    let more = read_indexed(alloc, draft, env, indexed, nodes)?;
    if more.count == 0 || !is_as_place(more.target) {
        return Err(OrMemory::Fault(NotYet));
    }
    Ok(more.count)
}
