//! What is asked of the names in expressions.

ghost use Rattle.std.specs.Prelude.{◌≡◌, [], ◌∷◌, OnOk, IfOk};
ghost use Rattle.declared_names.specs.binder.specs.Scopes.{plainly, called, before_dot};
ghost use Rattle.declared_names.specs.View.{scope_view, use_view};
ghost use Rattle.use_rules.specs.Asked.{asked_in_args, names_asked, rule_of};
ghost use Rattle.use_rules.specs.Found.{noted};
ghost use Rattle.use_rules.specs.NamesFound as found;
ghost use Rattle.use_rules.specs.NamesFound.{ended, in_arguments, top_given, top_taken, names_behind, names_through};
ghost use Rattle.use_rules.specs.Stacks.{top, below};
ghost use Rattle.use_rules.specs.View.{names_stack};
ghost use Rattle.refusal_order.specs.Least.{least_of_both};
ghost use Rattle.vba_expression.specs.View.{view, arguments_view};

use crate::names_item::{
    NamesItem, given, me_refusal, pop_names, push_names, taken, with_member, with_refusal,
};
use crate::noting::lesser_of;
use crate::question::Question;
use declared_names::{Scope, Use};
use refusal_order::note_both;
use std::alloc::Global;
use vba_base::{NoMemory, Refusal};
use vba_expression::{Arguments, Expression, ExpressionNode};
use vba_words::Identifier;

/// A dot and a name behind the last item.
fn pass_member<'a>(
    scope: Scope<'a>,
    question: Question,
    member: &'a Identifier,
    stack: &mut Vec<NamesItem<'a>>,
) -> Result<(), NoMemory>
    ensures { OnOk result (names_stack stack.new.items
        ≡ found.of_member question (found.qualifier_in (scope_view scope.entry) (top found.no_item (names_stack stack.old.items))) member.now
        (top_taken (scope_view scope.entry) question before_dot (names_stack stack.old.items))
        ∷ below (names_stack stack.old.items)) }
{
    let base = pop_names(stack);
    let item = with_member(scope, question, base, member);
    push_names(stack, item)
}

/// An argument that isn't written.
fn pass_missing(stack: &mut Vec<NamesItem>) -> Result<(), NoMemory>
    ensures { OnOk result (names_stack stack.new.items ≡ in_arguments (top_given (names_stack stack.old.items)) ∷ below (names_stack stack.old.items)) }
{
    let before = pop_names(stack);
    push_names(stack, NamesItem::Arguments(given(before)))
}

/// One more argument.
fn pass_argument<'a>(
    scope: Scope<'a>,
    question: Question,
    stack: &mut Vec<NamesItem<'a>>,
) -> Result<(), NoMemory>
    ensures { OnOk result (names_stack stack.new.items
        ≡ in_arguments (least_of_both (top_given (below (names_stack stack.old.items))) (top_taken (scope_view scope.entry) question plainly (names_stack stack.old.items)))
        ∷ below (below (names_stack stack.old.items))) }
{
    let value = pop_names(stack);
    let value = taken(scope, question, Use::Plainly, value);
    let before = pop_names(stack);
    let least = lesser_of(given(before), value);
    push_names(stack, NamesItem::Arguments(least))
}

/// Arguments behind what is called or indexed.
fn pass_index<'a>(
    scope: Scope<'a>,
    question: Question,
    stack: &mut Vec<NamesItem<'a>>,
) -> Result<(), NoMemory>
    ensures { OnOk result (names_stack stack.new.items
        ≡ ended (least_of_both (top_taken (scope_view scope.entry) question called (below (names_stack stack.old.items))) (top_given (names_stack stack.old.items)))
        ∷ below (below (names_stack stack.old.items))) }
{
    let arguments = pop_names(stack);
    let base = pop_names(stack);
    let base = taken(scope, question, Use::Called, base);
    let least = lesser_of(base, given(arguments));
    push_names(stack, NamesItem::Ended(least))
}

/// An operator or parentheses of one operand.
fn pass_operand<'a>(
    scope: Scope<'a>,
    question: Question,
    stack: &mut Vec<NamesItem<'a>>,
) -> Result<(), NoMemory>
    ensures { OnOk result (names_stack stack.new.items
        ≡ ended (top_taken (scope_view scope.entry) question plainly (names_stack stack.old.items)) ∷ below (names_stack stack.old.items)) }
{
    let operand = pop_names(stack);
    let least = taken(scope, question, Use::Plainly, operand);
    push_names(stack, NamesItem::Ended(least))
}

/// An operator with two operands.
fn pass_operands<'a>(
    scope: Scope<'a>,
    question: Question,
    stack: &mut Vec<NamesItem<'a>>,
) -> Result<(), NoMemory>
    ensures { OnOk result (names_stack stack.new.items
        ≡ ended (least_of_both (top_taken (scope_view scope.entry) question plainly (below (names_stack stack.old.items)))
        (top_taken (scope_view scope.entry) question plainly (names_stack stack.old.items)))
        ∷ below (below (names_stack stack.old.items))) }
{
    let right = pop_names(stack);
    let right = taken(scope, question, Use::Plainly, right);
    let left = pop_names(stack);
    let left = taken(scope, question, Use::Plainly, left);
    push_names(stack, NamesItem::Ended(lesser_of(left, right)))
}

/// One node.
fn pass_node<'a>(
    scope: Scope<'a>,
    question: Question,
    passed: &'a ExpressionNode,
    stack: &mut Vec<NamesItem<'a>>,
) -> Result<(), NoMemory>
    ensures { OnOk result (names_stack stack.new.items ≡ names_behind (scope_view scope.entry) question passed.now (names_stack stack.old.items)) }
{
    match passed {
        ExpressionNode::Literal(_) | ExpressionNode::New { .. } => {
            push_names(stack, NamesItem::Ended(None))
        }
        ExpressionNode::Me(token) => {
            push_names(
                stack,
                NamesItem::Ended(me_refusal(scope, question, token.place)),
            )
        }
        ExpressionNode::Name(name) => push_names(stack, NamesItem::Name(name)),
        ExpressionNode::WithMember { dot, member } => {
            push_names(
                stack,
                NamesItem::Ended(with_refusal(question, dot.place, member)),
            )
        }
        ExpressionNode::Member { member, .. } => pass_member(scope, question, member, stack),
        ExpressionNode::NoArguments => push_names(stack, NamesItem::Arguments(None)),
        ExpressionNode::MissingArgument { .. } => pass_missing(stack),
        ExpressionNode::PlainArgument { .. } | ExpressionNode::NamedArgument { .. } => {
            pass_argument(scope, question, stack)
        }
        ExpressionNode::Index { .. } => pass_index(scope, question, stack),
        ExpressionNode::Parenthesised { .. }
        | ExpressionNode::Unary { .. }
        | ExpressionNode::TypeOf { .. } => pass_operand(scope, question, stack),
        ExpressionNode::Binary { .. } => pass_operands(scope, question, stack),
    }
}

/// The items that nodes leave.
fn pass_nodes<'a>(
    alloc: Global,
    scope: Scope<'a>,
    question: Question,
    nodes: &'a [ExpressionNode],
) -> Result<Vec<NamesItem<'a>>, NoMemory>
    ensures { IfOk result (λ stack. names_stack stack.items ≡ names_through (scope_view scope.entry) question [] nodes.now) }
{
    let mut stack = Vec::new(alloc);
    for passed in nodes {
        pass_node(scope, question, passed, &mut stack)?;
    }
    Ok(stack)
}

/// Notes where the answer is yes in an expression that is used like this.
#[tactic(auto, using(crate::proofs::NamesKept::expression_found))]
pub fn note_names<'a>(
    alloc: Global,
    scope: Scope<'a>,
    question: Question,
    how: Use,
    expression: &'a Expression,
    least: &mut Option<Refusal>,
) -> Result<(), NoMemory>
    ensures { OnOk result (least.new ≡ noted (rule_of question) least.old (names_asked (scope_view scope.entry) question (use_view how) (view expression.now))) }
{
    let mut stack = pass_nodes(alloc, scope, question, expression.nodes())?;
    let whole = pop_names(&mut stack);
    let found = taken(scope, question, how, whole);
    note_both(least, found);
    Ok(())
}

/// Notes where it is in arguments.
#[tactic(auto, using(crate::proofs::NamesKept::arguments_found))]
pub fn note_names_in_arguments<'a>(
    alloc: Global,
    scope: Scope<'a>,
    question: Question,
    arguments: &'a Arguments,
    least: &mut Option<Refusal>,
) -> Result<(), NoMemory>
    ensures { OnOk result (least.new ≡ noted (rule_of question) least.old (asked_in_args (scope_view scope.entry) question (arguments_view arguments.now))) }
{
    let mut stack = pass_nodes(alloc, scope, question, arguments.nodes())?;
    let whole = pop_names(&mut stack);
    note_both(least, given(whole));
    Ok(())
}
