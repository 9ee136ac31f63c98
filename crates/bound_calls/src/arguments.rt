ghost use Rattle.std.specs.Prelude.{◌≡◌, ◌+◌, true, false, IfOk, OnOk, Some};
ghost use Rattle.bound_project.specs.DraftView.{draft_view};
ghost use Rattle.bound_project.specs.Drafts.{NodeNamed};
ghost use Rattle.bound_project.specs.Project.{nowhere};
ghost use Rattle.bound_project.specs.View.{declared_view};
ghost use Rattle.bound_declarations.specs.constant_values.specs.declared_names.specs.binder.specs.Constants.{is_variant};
ghost use Rattle.bound_forms.specs.Terms.{is_lent_to, other_rule};
ghost use Rattle.vba_values.specs.Coerce.{is_same_type};
ghost use Rattle.vba_values.specs.Types as type;
ghost use Rattle.bound_calls.specs.Standing.{TermNamed};
ghost use Rattle.bound_calls.specs.Calls.{Copies, Lends, MarksOther, PassesMissing, PassesNone, PassesPlain, PassesRest, PassesTree, PushesArgument, PushesTaken, is_copied, keeps_object, lent_in, may_be_item};

use crate::constants::constant_number;
use crate::given::{is_same_declared, is_user_type, mark_given};
use crate::references::{push_given, push_operand};
use crate::take::push_node;
use crate::term::{Ending, Passed, Term, Tree};
use bound_declarations::NotYet;
use bound_declarations::constant_values::declared_names::is_object;
use bound_project::{DeclaredType, Draft, ElementType, NodeKind, Parameter};
use std::alloc::Global;
use vba_base::{NoMemory, OrMemory, Place, Refusal};
use vba_values::copy_value;

/// Is a type Variant?
pub fn is_variant(of: DeclaredType) -> bool
    ensures { result ≡ is_variant (declared_view of) }
{
    match of {
        DeclaredType::Plain(ElementType::Variant) => true,
        _ => false,
    }
}

/// Is a type Object?
fn is_any_object(of: DeclaredType) -> bool
    ensures { result ≡ is_same_type type.object (declared_view of) }
{
    match of {
        DeclaredType::Plain(ElementType::Object) => true,
        _ => false,
    }
}

/// Is a place of a type lent to a parameter of a type? A Variant takes one of any type but the project's Types, and an
/// Object one of any object type.
fn is_fitting(parameter: DeclaredType, of: DeclaredType) -> bool
    ensures { result ≡ is_lent_to (declared_view of) (declared_view parameter) }
{
    (is_variant(parameter) && !is_user_type(of))
        || (is_same_declared(of, parameter) || (is_object(of) && is_any_object(parameter)))
}

/// Is a place that isn't lent to a parameter of a type copied for it? One of another object type is, and so is an element
/// of a Variant variable, and what the run says arguments lead to.
fn is_copied(kind: NodeKind, of: DeclaredType, parameter: DeclaredType) -> bool
    ensures { result ≡ is_copied kind of parameter }
{
    (is_object(of) && is_object(parameter)) || may_be_item(kind)
}

/// Is a place an element of a Variant variable, or what the run says arguments lead to?
fn may_be_item(kind: NodeKind) -> bool
    ensures { result ≡ may_be_item kind }
{
    match kind {
        NodeKind::Item { variable, .. } => is_variant(variable.of),
        NodeKind::ElementAlong { .. } => true,
        _ => false,
    }
}

/// Does a parameter of a type take an object as it is?
fn keeps_object(of: DeclaredType) -> bool
    ensures { result ≡ keeps_object of }
{
    is_variant(of) || is_object(of)
}

/// Lends a place.
fn lend(draft: &mut Draft, kind: NodeKind, of: DeclaredType, place: Place) -> Result<(), NoMemory>
    requires { NodeNamed (draft_view draft.old).tables kind }
    ensures { OnOk result (Lends kind (draft_view draft.old) (draft_view draft.new)) }
{
    push_node(draft, kind, of, place)?;
    push_node(draft, NodeKind::ByPlace, of, place)
}

/// Pushes an expression as a parameter of a type takes it, as it is or as an operand; answers the type that stands there.
fn push_taken<'a>(
    alloc: Global,
    draft: &mut Draft,
    of: DeclaredType,
    tree: Tree<'a>,
) -> Result<DeclaredType, OrMemory<NotYet>>
    requires { TermNamed (draft_view draft.old).tables tree.term }
    ensures { IfOk result (λ given. PushesTaken of tree.entry (draft_view draft.old) (draft_view draft.new) given) }
{
    if keeps_object(of) {
        return push_given(alloc, draft, tree);
    }
    let Some(given) = push_operand(alloc, draft, tree)? else {
        return Err(OrMemory::Fault(NotYet));
    };
    Ok(given)
}

/// Pushes an expression as an argument for a parameter of a type: as the parameter takes it, and marked where it breaks a
/// rule that it is given to that.
pub fn push_argument<'a>(
    alloc: Global,
    draft: &mut Draft,
    of: DeclaredType,
    tree: Tree<'a>,
) -> Result<(), OrMemory<NotYet>>
    requires { TermNamed (draft_view draft.old).tables tree.term }
    ensures { OnOk result (PushesArgument of tree.entry (draft_view draft.old) (draft_view draft.new)) }
{
    let given = push_taken(alloc, draft, of, tree)?;
    mark_given(draft, of, false, given, tree.place)?;
    Ok(())
}

/// Copies a value for a parameter of a type.
fn copy<'a>(
    alloc: Global,
    draft: &mut Draft,
    of: DeclaredType,
    tree: Tree<'a>,
) -> Result<(), OrMemory<NotYet>>
    requires { TermNamed (draft_view draft.old).tables tree.term }
    ensures { OnOk result (Copies of tree.entry (draft_view draft.old) (draft_view draft.new)) }
{
    push_argument(alloc, draft, of, tree)?;
    push_node(draft, NodeKind::ByCopy(of), of, tree.place)?;
    Ok(())
}

/// The place that a term lends, and its type.
pub fn lent_in<'a>(term: Term<'a>) -> Option<Ending>
    ensures { result ≡ lent_in term.entry }
{
    match term {
        Term::Place {
            kind,
            of,
            lends: true,
            ..
        } => Some(Ending { kind, of }),
        _ => None,
    }
}

/// The rule that a variable of another type breaks where a parameter of a type takes a place: for a Variant it is one of a
/// Type of the project.
fn other_rule(parameter: DeclaredType) -> u8
    ensures { result ≡ other_rule (declared_view parameter) }
{
    match parameter {
        DeclaredType::Plain(ElementType::Variant) => 27,
        _ => 26,
    }
}

/// A place of another type than the one that a parameter takes: its value is marked as what breaks a static rule.
fn mark_other(
    draft: &mut Draft,
    lent: Ending,
    parameter: DeclaredType,
    place: Place,
) -> Result<(), NoMemory>
    requires { NodeNamed (draft_view draft.old).tables lent.kind }
    ensures { OnOk result (MarksOther lent parameter place (draft_view draft.old) (draft_view draft.new)) }
{
    let variant = DeclaredType::Plain(ElementType::Variant);
    let rule = other_rule(parameter);
    let other_type = NodeKind::Marked {
        broken: Refusal { rule, place },
        values: 1,
    };
    push_node(draft, lent.kind, lent.of, place)?;
    push_node(draft, NodeKind::Load, lent.of, place)?;
    push_node(draft, other_type, variant, place)?;
    push_node(draft, NodeKind::ByCopy(parameter), parameter, place)
}

/// Passes an expression that lends a place to a parameter that takes one.
fn pass_lent<'a>(
    alloc: Global,
    draft: &mut Draft,
    parameter: &Parameter,
    lent: Ending,
    tree: Tree<'a>,
) -> Result<(), OrMemory<NotYet>>
    requires named { TermNamed (draft_view draft.old).tables tree.term }
    requires one { parameter.now.is_param_array ≡ false }
    requires reference { parameter.now.is_by_reference ≡ true }
    requires lends { lent_in tree.term ≡ Some lent }
    ensures { OnOk result (PassesTree parameter.now tree.entry (draft_view draft.old) (draft_view draft.new)) }
{
    if is_fitting(parameter.of, lent.of) {
        lend(draft, lent.kind, lent.of, tree.place)?;
        return Ok(());
    }
    if is_copied(lent.kind, lent.of, parameter.of) {
        return copy(alloc, draft, parameter.of, tree);
    }
    mark_other(draft, lent, parameter.of, tree.place)?;
    Ok(())
}

/// Passes an expression to a parameter that takes a place.
fn pass_by_reference<'a>(
    alloc: Global,
    draft: &mut Draft,
    parameter: &Parameter,
    tree: Tree<'a>,
) -> Result<(), OrMemory<NotYet>>
    requires named { TermNamed (draft_view draft.old).tables tree.term }
    requires one { parameter.now.is_param_array ≡ false }
    requires reference { parameter.now.is_by_reference ≡ true }
    ensures { OnOk result (PassesTree parameter.now tree.entry (draft_view draft.old) (draft_view draft.new)) }
{
    match lent_in(tree.term) {
        Some(lent) => pass_lent(alloc, draft, parameter, lent, tree),
        None => copy(alloc, draft, parameter.of, tree),
    }
}

/// Passes an expression to a parameter.
pub fn pass_tree<'a>(
    alloc: Global,
    draft: &mut Draft,
    parameter: &Parameter,
    tree: Tree<'a>,
) -> Result<(), OrMemory<NotYet>>
    requires { TermNamed (draft_view draft.old).tables tree.term }
    ensures { OnOk result (PassesTree parameter.now tree.entry (draft_view draft.old) (draft_view draft.new)) }
{
    if parameter.is_param_array {
        Err(OrMemory::Fault(NotYet))
    } else if parameter.is_by_reference {
        pass_by_reference(alloc, draft, parameter, tree)
    } else {
        copy(alloc, draft, parameter.of, tree)
    }
}

/// Where a node stands that nothing in the source is.
pub fn nowhere() -> Place
    ensures { result ≡ nowhere }
{
    Place {
        module: 0,
        line: 0,
        column: 0,
    }
}

/// What a parameter has to which nothing is given.
pub fn pass_none(
    alloc: Global,
    draft: &mut Draft,
    parameter: &Parameter,
) -> Result<(), OrMemory<NotYet>>
    ensures { OnOk result (PassesNone parameter.now (draft_view draft.old) (draft_view draft.new)) }
{
    if parameter.is_param_array {
        push_node(
            draft,
            NodeKind::ByList { values: 0 },
            parameter.of,
            nowhere(),
        )?;
        return Ok(());
    }
    let Some(value) = &parameter.default else {
        return Err(OrMemory::Fault(NotYet));
    };
    let value = copy_value(alloc, value)?;
    let constant = constant_number(draft, value)?;
    push_node(
        draft,
        NodeKind::ByDefault { constant },
        parameter.of,
        nowhere(),
    )?;
    Ok(())
}

/// What parameters have to which nothing is given.
pub fn pass_rest(
    alloc: Global,
    draft: &mut Draft,
    parameters: &[Parameter],
) -> Result<(), OrMemory<NotYet>>
    ensures { OnOk result (PassesRest parameters.now (draft_view draft.old) (draft_view draft.new)) }
{
    for parameter in parameters {
        pass_none(alloc, draft, parameter)?;
    }
    Ok(())
}

/// The sum of two numbers.
pub fn sum(one: u32, other: u32) -> Result<u32, NoMemory>
    ensures { IfOk result (λ sum. sum ≡ one + other) }
{
    one.checked_add(other).ok_or(NoMemory)
}

/// One more argument: the expression on top.
pub fn pass_plain<'a>(
    alloc: Global,
    draft: &mut Draft,
    passed: Passed<'a>,
    tree: Tree<'a>,
) -> Result<Passed<'a>, OrMemory<NotYet>>
    requires { TermNamed (draft_view draft.old).tables tree.term }
    ensures { IfOk result (λ more. PassesPlain passed.entry tree.entry (draft_view draft.old) (draft_view draft.new) more) }
{
    let Some((parameter, left)) = passed.left.split_first() else {
        return Err(OrMemory::Fault(NotYet));
    };
    let count = sum(passed.count, 1)?;
    pass_tree(alloc, draft, parameter, tree)?;
    Ok(Passed { left, count })
}

/// One more argument, which isn't written.
pub fn pass_missing<'a>(
    alloc: Global,
    draft: &mut Draft,
    passed: Passed<'a>,
) -> Result<Passed<'a>, OrMemory<NotYet>>
    ensures { IfOk result (λ more. PassesMissing passed.entry (draft_view draft.old) (draft_view draft.new) more) }
{
    let Some((parameter, left)) = passed.left.split_first() else {
        return Err(OrMemory::Fault(NotYet));
    };
    if parameter.is_param_array {
        return Err(OrMemory::Fault(NotYet));
    }
    let count = sum(passed.count, 1)?;
    pass_none(alloc, draft, parameter)?;
    Ok(Passed { left, count })
}
