//! Arguments that aren't taken: each is pushed as a Variant takes it, and where they end what is written with them is marked
//! as what breaks a static rule.

ghost use Rattle.std.specs.Prelude.{◌≡◌, ◌∷◌, ◌==◌, ◌&&◌, true, IfOk, None, OnOk, Option, Some, if◌then◌else◌, length, reverse};
ghost use Rattle.vba_lexer.specs.declared.token.Token.{Token};
ghost use Rattle.vba_expression.specs.declared.node.ExpressionNode.TheVariants as node;
ghost use Rattle.vba_expression.specs.Nodes.{behind_node};
ghost use Rattle.bound_project.specs.DraftView.{draft_view};
ghost use Rattle.bound_project.specs.View.{declarations_view, declared_view};
ghost use Rattle.bound_members.specs.bound_calls.specs.bound_forms.specs.Operands as operands;
ghost use Rattle.bound_members.specs.bound_calls.specs.bound_forms.specs.ExpressionsBound as bound;
ghost use Rattle.bound_members.specs.bound_calls.specs.bound_forms.specs.ClassDefaults.{declared_in};
ghost use Rattle.bound_members.specs.bound_calls.specs.bound_forms.specs.Terms as plain;
ghost use Rattle.bound_members.specs.bound_calls.specs.Shapes.{shapes_given};
ghost use Rattle.bound_members.specs.bound_calls.specs.Standing.{AllNamed, refused_rule, refused_type, values_before};
ghost use Rattle.bound_members.specs.bound_calls.specs.Steps.{Goes};
ghost use Rattle.bound_operands.specs.Untaken.{ClosesUntaken, EachArgument, EndsRefused, all_plain, is_plain, is_refused};

use bound_members::bound_calls::bound_declarations::NotYet;
use bound_members::bound_calls::bound_declarations::constant_values::declared_names::is_object;
use bound_members::bound_calls::{
    HostMember, Item, Refuser, Shape, Term, Tree, Untaken, broken_ending, nowhere, push_argument,
    push_node, put_item, sum, take_item, take_shapes, takes,
};
use bound_members::{arguments_rule, member_takes};
use bound_project::{Declarations, DeclaredType, Draft, ElementType, NodeKind};
use std::alloc::Global;
use vba_base::{NoMemory, OrMemory};
use vba_words::Identifier;

/// Is an argument written, without a name?
fn is_plain<'a>(shape: &Shape<'a>) -> bool
    ensures { result ≡ is_plain shape.now }
{
    shape.name.is_none() && shape.is_written
}

/// Are arguments all written, without names?
fn all_plain<'a>(shapes: &[Shape<'a>]) -> bool
    ensures { result ≡ all_plain shapes.now }
{
    for shape in shapes {
        if !is_plain(shape) {
            return false;
        }
    }
    true
}

#[tactic(auto, using(crate::proofs::Untaking::places_are))]
/// Are arguments numbers of an element: some, of which none has a name or isn't written?
pub fn are_places<'a>(shapes: &[Shape<'a>]) -> bool
    ensures { result ≡ operands.are_places (shapes_given shapes.now) }
{
    all_plain(shapes) && !shapes.is_empty()
}

#[tactic(auto, using(crate::proofs::Untaking::fits_shapes))]
/// Are these as many arguments as an array is declared with bounds, where it is declared with some?
fn fits_bounds<'a>(bounds: u32, shapes: &[Shape<'a>]) -> bool
    ensures { result ≡ operands.fits_bounds bounds (shapes_given shapes.now) }
{
    bounds == 0 || shapes.len() == bounds as usize
}

/// May a value of a type, or of an array that is declared with so many bounds, be indexed by these arguments?
fn may_index<'a>(of: DeclaredType, bounds: u32, shapes: &[Shape<'a>]) -> bool
    ensures { result ≡ bound.may_index (declared_view of) bounds (shapes_given shapes.now) }
{
    match of {
        DeclaredType::ArrayOf(_) => are_places(shapes) && fits_bounds(bounds, shapes),
        DeclaredType::Plain(ElementType::Variant) => true,
        DeclaredType::Plain(_) => is_object(of),
    }
}

/// The rule that these arguments of a member break.
fn member_rule<'a>(
    draft: &Draft,
    member: HostMember,
    shapes: &[Shape<'a>],
) -> Result<Option<u8>, NoMemory>
    ensures { IfOk result (λ rule. rule ≡ refused_rule (draft_view draft.now).tables (Refuser.Member member) (shapes_given shapes.now)) }
{
    if member_takes(draft, member, shapes)? {
        return Ok(None);
    }
    Ok(arguments_rule(member))
}

/// The same where there are some.
fn rule_behind<'a>(
    draft: &Draft,
    member: HostMember,
    shapes: &[Shape<'a>],
) -> Result<Option<u8>, NoMemory>
    ensures { IfOk result (λ rule. rule ≡ refused_rule (draft_view draft.now).tables (Refuser.Behind member) (shapes_given shapes.now)) }
{
    if shapes.is_empty() {
        return Ok(None);
    }
    member_rule(draft, member, shapes)
}

/// The rule that these arguments break; none where they are taken, or where that isn't known.
pub fn refused_rule<'a>(
    alloc: Global,
    draft: &Draft,
    refuser: Refuser<'a>,
    shapes: &[Shape<'a>],
) -> Result<Option<u8>, NoMemory>
    ensures { IfOk result (λ rule. rule ≡ refused_rule (draft_view draft.now).tables refuser.entry (shapes_given shapes.now)) }
{
    let takes = match refuser {
        Refuser::Procedure { parameters, .. } => takes(alloc, parameters, shapes)?,
        Refuser::Value { of, bounds } => may_index(of, bounds, shapes),
        Refuser::Called(of) => shapes.is_empty() || may_index(of, 0, shapes),
        Refuser::Bare => shapes.is_empty(),
        Refuser::Member(member) => return member_rule(draft, member, shapes),
        Refuser::Behind(member) => return rule_behind(draft, member, shapes),
        Refuser::Led { rule, count } => return led_rule(rule, count, shapes),
    };
    Ok(if takes { None } else { Some(25) })
}

/// A rule where both hold.
fn rule_if(one: bool, other: bool, rule: u8) -> Option<u8>
    ensures { result ≡ (if one && other then Some rule else None) }
{
    if one && other { Some(rule) } else { None }
}

/// The rule that so many arguments break which are all written, without names; none where these are others.
fn led_rule<'a>(rule: u8, count: u32, shapes: &[Shape<'a>]) -> Result<Option<u8>, NoMemory>
    ensures { IfOk result (λ found. found ≡ (if operands.are_places (shapes_given shapes.now) && (length (shapes_given shapes.now) == count) then Some rule else None)) }
{
    let long = count_shapes(shapes)?;
    let are_numbers = are_places(shapes);
    Ok(rule_if(are_numbers, long == count, rule))
}

/// Is an argument behind this item one of what doesn't take it?
pub fn is_refused<'a>(item: Item<'a>) -> bool
    ensures { result ≡ is_refused item.entry }
{
    match item {
        Item::Untaken(_) => true,
        Item::Unlisted => true,
        Item::Shape(_) => true,
        _ => false,
    }
}

/// One more argument of what doesn't take it, with this name or without one: an expression, behind an item.
pub fn refuse<'a>(
    alloc: Global,
    draft: &mut Draft,
    stack: &mut Vec<Item<'a>>,
    item: Item<'a>,
    tree: Tree<'a>,
    name: Option<&'a Identifier>,
) -> Result<(), OrMemory<NotYet>>
    requires refused { is_refused item ≡ true }
    requires named { AllNamed (draft_view draft.old).tables (Item.Tree tree ∷ item ∷ reverse stack.old.items) }
    ensures { OnOk result ((env : plain.Env) → EachArgument name.entry (λ f. Goes env (draft_view draft.old) (Item.Tree tree.entry ∷ item.entry ∷ reverse stack.old.items) (draft_view draft.new) (reverse stack.new.items) f)) }
{
    let variant = DeclaredType::Plain(ElementType::Variant);
    push_argument(alloc, draft, variant, tree)?;
    put_item(stack, item)?;
    put_item(
        stack,
        Item::Shape(Shape {
            name,
            is_written: true,
        }),
    )?;
    Ok(())
}

/// One more argument of what doesn't take it, which isn't written, behind an item: Missing.
pub fn refuse_missing<'a>(
    draft: &mut Draft,
    stack: &mut Vec<Item<'a>>,
    item: Item<'a>,
) -> Result<(), OrMemory<NotYet>>
    requires refused { is_refused item ≡ true }
    requires named { AllNamed (draft_view draft.old).tables (item ∷ reverse stack.old.items) }
    ensures { OnOk result ((env : plain.Env) (comma : Option Token) → Goes env (draft_view draft.old) (item.entry ∷ reverse stack.old.items) (draft_view draft.new) (reverse stack.new.items) (behind_node (node.MissingArgument comma))) }
{
    let variant = DeclaredType::Plain(ElementType::Variant);
    push_node(draft, NodeKind::NotGiven, variant, nowhere())?;
    put_item(stack, item)?;
    put_item(
        stack,
        Item::Shape(Shape {
            name: None,
            is_written: false,
        }),
    )?;
    Ok(())
}

/// How many arguments there are.
pub fn count_shapes<'a>(shapes: &[Shape<'a>]) -> Result<u32, NoMemory>
    ensures { IfOk result (λ count. count ≡ length shapes.now) }
{
    match u32::try_from(shapes.len()) {
        Ok(count) => Ok(count),
        Err(_) => Err(NoMemory),
    }
}

/// How many values of what doesn't take its arguments were pushed before these.
fn values_before<'a>(refuser: Refuser<'a>) -> u32
    ensures { result ≡ values_before refuser.entry }
{
    match refuser {
        Refuser::Procedure { values, .. } => values,
        Refuser::Value { .. } => 1,
        Refuser::Called(_) => 1,
        Refuser::Member(_) => 1,
        Refuser::Behind(_) => 1,
        Refuser::Led { .. } => 1,
        Refuser::Bare => 0,
    }
}

/// The declared type of what doesn't take its arguments.
fn refused_type<'a>(refuser: Refuser<'a>) -> DeclaredType
    ensures { result ≡ refused_type refuser.entry }
{
    match refuser {
        Refuser::Procedure { of, .. } => of,
        Refuser::Member(member) => member.of,
        Refuser::Behind(member) => member.of,
        _ => DeclaredType::Plain(ElementType::Variant),
    }
}

/// Arguments end that aren't taken, these: a value that breaks a rule.
fn close_untaken<'a>(
    alloc: Global,
    draft: &Draft,
    declared: &'a Declarations,
    untaken: Untaken<'a>,
    shapes: &[Shape<'a>],
) -> Result<Tree<'a>, OrMemory<NotYet>>
    ensures { IfOk result (λ tree. ClosesUntaken (declarations_view declared.now) (draft_view draft.now) untaken.entry shapes.now tree) }
{
    let Some(rule) = refused_rule(alloc, draft, untaken.refuser, shapes)? else {
        return Err(OrMemory::Fault(NotYet));
    };
    let count = count_shapes(shapes)?;
    let values = sum(count, values_before(untaken.refuser))?;
    let of = refused_type(untaken.refuser);
    Ok(Tree {
        place: untaken.place,
        name: None,
        dotted: None,
        term: Term::Value(broken_ending(rule, untaken.place, of, values)),
        declared,
    })
}

/// Arguments end that aren't taken; is it such arguments?
pub fn index_untaken<'a>(
    alloc: Global,
    draft: &Draft,
    declared: &'a Declarations,
    stack: &mut Vec<Item<'a>>,
) -> Result<bool, OrMemory<NotYet>>
    requires { AllNamed (draft_view draft.now).tables (reverse stack.old.items) }
    ensures { IfOk result (λ ended. EndsRefused (declarations_view declared.now) ended (draft_view draft.now) (reverse stack.old.items) (draft_view draft.now) (reverse stack.new.items)) }
{
    let shapes = take_shapes(alloc, stack)?;
    match take_item(stack) {
        Some(Item::Untaken(untaken)) => {
            let tree = close_untaken(alloc, draft, declared, untaken, &shapes)?;
            put_item(stack, Item::Tree(tree))?;
            Ok(true)
        }
        found => {
            if !shapes.is_empty() {
                return Err(OrMemory::Fault(NotYet));
            }
            if let Some(item) = found {
                put_item(stack, item)?;
            }
            Ok(false)
        }
    }
}
