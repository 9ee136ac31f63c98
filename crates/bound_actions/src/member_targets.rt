//! Members of objects with arguments that are assigned to.

ghost use Rattle.std.specs.Prelude.{◌<◌, IfOk, length};
ghost use Rattle.bound_project.specs.DraftView.{draft_view};
ghost use Rattle.statement_terms.specs.Members.{AssignsItem, ReadsOnto};
ghost use Rattle.bound_actions.specs.Refused.{RefusesWritten};
ghost use Rattle.bound_terms.specs.bound_accesses.specs.bound_names.specs.bound_members.specs.bound_calls.specs.declared.term.Term.TheVariants as term;
ghost use Rattle.bound_terms.specs.bound_accesses.specs.bound_names.specs.bound_members.specs.bound_calls.specs.Standing.{MemberNamed, TermNamed};
ghost use Rattle.bound_terms.specs.bound_accesses.specs.bound_names.specs.View.{EnvStands, env_view};

use crate::untaken::read_untaken;
use bound_project::{ActionKind, Draft, LateUse};
use bound_terms::bound_accesses::bound_names::Env;
use bound_terms::bound_accesses::bound_names::bound_members::bound_calls::bound_declarations::NotYet;
use bound_terms::bound_accesses::bound_names::bound_members::bound_calls::{
    HostMember, Item, MemberCall, Shape, Term, has_names, put_item, take_item,
};
use bound_terms::bound_accesses::bound_names::bound_members::{open_member, shapes_ahead};
use bound_terms::bound_accesses::item_member;
use bound_terms::bound_operands::count_shapes;
use bound_terms::run;
use statement_terms::{write_broken, write_call, written_rule};
use std::alloc::Global;
use vba_base::{OrMemory, Place};
use vba_expression::ExpressionNode;

/// Reads arguments behind a member whose object was looked at.
pub fn read_member<'a>(
    alloc: Global,
    draft: &mut Draft,
    env: Env<'a>,
    call: MemberCall,
    nodes: &'a [ExpressionNode],
) -> Result<MemberCall, OrMemory<NotYet>>
    requires env { EnvStands env }
    requires named { MemberNamed (draft_view draft.old).tables call }
    ensures { IfOk result (λ more. ReadsOnto (env_view env.entry) call nodes.now (draft_view draft.old) (draft_view draft.new) more) }
{
    let Some((ExpressionNode::NoArguments, nodes)) = nodes.split_first() else {
        return Err(OrMemory::NoMemory);
    };
    let mut stack = Vec::new(alloc);
    put_item(&mut stack, Item::Member(call))?;
    run(alloc, draft, env, &mut stack, nodes)?;
    let Some(Item::Member(more)) = take_item(&mut stack) else {
        return Err(OrMemory::Fault(NotYet));
    };
    if more.of_property {
        return Err(OrMemory::Fault(NotYet));
    }
    if stack.is_empty() {
        Ok(more)
    } else {
        Err(OrMemory::NoMemory)
    }
}

/// A member of the object that was pushed, which isn't written, behind the value that it is given with these arguments.
fn refuse_item<'a>(
    alloc: Global,
    draft: &mut Draft,
    env: Env<'a>,
    member: HostMember,
    place: Place,
    nodes: &'a [ExpressionNode],
) -> Result<ActionKind, OrMemory<NotYet>>
    requires env { EnvStands env }
    requires named { member.name < length (draft_view draft.old).tables.constants }
    ensures { IfOk result (λ kind. RefusesWritten (env_view env.entry) place member nodes.now (draft_view draft.old) (draft_view draft.new) kind) }
{
    if member.is_late {
        return Err(OrMemory::Fault(NotYet));
    }
    let shapes = read_untaken(alloc, draft, env, nodes)?;
    let Some(rule) = written_rule(draft, member, &shapes)? else {
        return Err(OrMemory::Fault(NotYet));
    };
    let count = count_shapes(&shapes)?;
    write_broken(draft, rule, count, place)
}

/// What is done with a member whose arguments, these, are to come: where some have names its value is read, unless the run
/// finds the member.
fn aim_of<'a>(member: HostMember, shapes: &[Shape<'a>]) -> LateUse {
    if has_names(shapes) && !member.is_late {
        LateUse::Reading
    } else {
        LateUse::Assigning
    }
}

/// What is called, which is a member of an object or has a default one, behind the value that it is given with these
/// arguments, and that may be an object of a class or not.
pub fn assign_item<'a>(
    alloc: Global,
    draft: &mut Draft,
    env: Env<'a>,
    place: Place,
    term: Term<'a>,
    nodes: &'a [ExpressionNode],
    may_be: Option<bool>,
) -> Result<ActionKind, OrMemory<NotYet>>
    requires env { EnvStands env }
    requires named { TermNamed (draft_view draft.old).tables term }
    ensures { IfOk result (λ kind. AssignsItem (env_view env.entry) may_be place term.entry nodes.now (draft_view draft.old) (draft_view draft.new) kind) }
{
    let member = item_member(alloc, draft, env, place, term)?;
    let shapes = shapes_ahead(alloc, nodes)?;
    if written_rule(draft, member, &shapes)?.is_some() {
        return refuse_item(alloc, draft, env, member, place, nodes);
    }
    if shapes.is_empty() {
        return Err(OrMemory::Fault(NotYet));
    }
    let aim = aim_of(member, &shapes);
    let opened = open_member(
        alloc,
        draft,
        place,
        member,
        &shapes,
        aim,
        env.has_class,
        false,
    )?;
    let call = read_member(alloc, draft, env, opened, nodes)?;
    write_call(draft, call, may_be)
}
