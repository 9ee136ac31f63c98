ghost use Rattle.std.specs.Prelude.{OnOk, reverse};
ghost use Rattle.vba_lexer.specs.declared.token.Token.{Token};
ghost use Rattle.vba_expression.specs.declared.node.ExpressionNode.TheVariants as node;
ghost use Rattle.vba_expression.specs.Nodes.{behind_node};
ghost use Rattle.bound_project.specs.DraftView.{draft_view};
ghost use Rattle.bound_accesses.specs.bound_names.specs.bound_members.specs.bound_calls.specs.Standing.{AllNamed};
ghost use Rattle.bound_accesses.specs.bound_names.specs.bound_members.specs.bound_calls.specs.Steps.{Goes};
ghost use Rattle.bound_accesses.specs.bound_names.specs.View.{EnvStands, env_view};

use bound_accesses::bound_names::bound_members::bound_calls::bound_declarations::{
    NotYet, made_in,
};
use bound_accesses::bound_names::bound_members::bound_calls::{
    Ending, Item, Term, Tree, push_given, put_item, settle, take_item,
};
use bound_accesses::bound_names::{Env, meant_term};
use bound_project::{DeclaredType, Draft, ElementType, NodeKind};
use declared_names::{Use, declares, meant_type, own_class, plain_type};
use std::alloc::Global;
use vba_base::OrMemory;
use vba_lexer::Token;
use vba_words::Identifier;

/// TypeOf: whether the object before it is one of a type.
pub fn step_type_of<'a>(
    alloc: Global,
    draft: &mut Draft,
    env: Env<'a>,
    stack: &mut Vec<Item<'a>>,
    type_of_word: Token,
    class: &Identifier,
) -> Result<(), OrMemory<NotYet>>
    requires { AllNamed (draft_view draft.old).tables (reverse stack.old.items) }
    ensures { OnOk result ((is_word : Token) → Goes (env_view env.entry) (draft_view draft.old) (reverse stack.old.items) (draft_view draft.new) (reverse stack.new.items) (behind_node (node.TypeOf type_of_word is_word class.now))) }
{
    let Some(Item::Tree(tree)) = take_item(stack) else {
        return Err(OrMemory::NoMemory);
    };
    let meant = plain_type(env.constants.scope, class)?;
    push_given(alloc, draft, tree)?;
    put_item(
        stack,
        Item::Tree(Tree {
            place: type_of_word.place,
            name: None,
            dotted: None,
            term: Term::Value(Ending {
                kind: NodeKind::IsType(meant_type(meant)),
                of: DeclaredType::Plain(ElementType::Boolean),
            }),
            declared: tree.declared,
        }),
    )?;
    Ok(())
}

/// Me: the object whose procedure runs. A left operand before it is a reference where its operator is Is.
pub fn step_me<'a>(
    alloc: Global,
    draft: &mut Draft,
    env: Env<'a>,
    stack: &mut Vec<Item<'a>>,
    is_reference: bool,
    token: Token,
) -> Result<(), OrMemory<NotYet>>
    requires env { EnvStands env }
    requires named { AllNamed (draft_view draft.old).tables (reverse stack.old.items) }
    ensures { OnOk result (Goes (env_view env.entry) (draft_view draft.old) (reverse stack.old.items) (draft_view draft.new) (reverse stack.new.items) (behind_node (node.Me token))) }
{
    settle(alloc, draft, stack, is_reference)?;
    let of = own_class(env.constants.scope)?;
    put_item(
        stack,
        Item::Tree(Tree {
            place: token.place,
            name: None,
            dotted: None,
            term: Term::Value(Ending {
                kind: NodeKind::This,
                of,
            }),
            declared: env.declared,
        }),
    )?;
    Ok(())
}

/// New: a new object of a class, or a new Collection. A left operand before it is a reference where its operator is Is.
pub fn step_new<'a>(
    alloc: Global,
    draft: &mut Draft,
    env: Env<'a>,
    stack: &mut Vec<Item<'a>>,
    is_reference: bool,
    new_word: Token,
    class: &Identifier,
) -> Result<(), OrMemory<NotYet>>
    requires env { EnvStands env }
    requires named { AllNamed (draft_view draft.old).tables (reverse stack.old.items) }
    ensures { OnOk result (Goes (env_view env.entry) (draft_view draft.old) (reverse stack.old.items) (draft_view draft.new) (reverse stack.new.items) (behind_node (node.New new_word class.now))) }
{
    settle(alloc, draft, stack, is_reference)?;
    let meant = plain_type(env.constants.scope, class)?;
    let of = meant_type(meant);
    let Some(number) = made_in(of) else {
        return Err(OrMemory::Fault(NotYet));
    };
    put_item(
        stack,
        Item::Tree(Tree {
            place: new_word.place,
            name: None,
            dotted: None,
            term: Term::Value(Ending {
                kind: NodeKind::NewObject { class: number },
                of,
            }),
            declared: env.declared,
        }),
    )?;
    Ok(())
}

/// A name, as it is used plainly. A left operand before it is a reference where its operator is Is.
pub fn step_name<'a>(
    alloc: Global,
    draft: &mut Draft,
    env: Env<'a>,
    stack: &mut Vec<Item<'a>>,
    is_reference: bool,
    name: &'a Identifier,
) -> Result<(), OrMemory<NotYet>>
    requires env { EnvStands env }
    requires named { AllNamed (draft_view draft.old).tables (reverse stack.old.items) }
    ensures { OnOk result (Goes (env_view env.entry) (draft_view draft.old) (reverse stack.old.items) (draft_view draft.new) (reverse stack.new.items) (behind_node (node.Name name.now))) }
{
    settle(alloc, draft, stack, is_reference)?;
    let meant = declares(Use::Plainly, env.constants.scope, name);
    let term = meant_term(alloc, draft, env, name, meant)?;
    put_item(
        stack,
        Item::Tree(Tree {
            place: name.token.place,
            name: Some(name),
            dotted: None,
            term,
            declared: env.declared,
        }),
    )?;
    Ok(())
}
