//! What is kept of an item of an expression for S16.

ghost use Rattle.std.specs.Prelude.{◌≡◌, ◌∷◌, OnOk, IfOk, None};
ghost use Rattle.declared_names.specs.View.{scope_view};
ghost use Rattle.use_rules.specs.Found.{noted};
ghost use Rattle.use_rules.specs.Stacks.{top, below};
ghost use Rattle.use_rules.specs.TypesFound as found;
ghost use Rattle.use_rules.specs.View.{types_item_view, types_stack};
ghost use Rattle.vba_expression.specs.Reader.{short_type};

use crate::noting::note_place;
use declared_names::{Scope, is_asked, is_made, plain_type, type_behind};
use vba_base::{NoMemory, Refusal};
use vba_words::Identifier;

/// What is kept of an item: the least refusal in it. A dot behind New and TypeOf may still belong to a type of one
/// name.
#[derive(Clone, Copy)]
pub enum TypesItem<'a> {
    Ended(Option<Refusal>),
    New(&'a Identifier),
    TypeOf {
        operand: Option<Refusal>,
        class: &'a Identifier,
    },
    Arguments(Option<Refusal>),
}

/// Takes the last item.
pub fn pop_types<'a>(stack: &mut Vec<TypesItem<'a>>) -> TypesItem<'a>
    ensures top { types_item_view result ≡ top found.no_item (types_stack stack.old.items) }
    ensures below { types_stack stack.new.items ≡ below (types_stack stack.old.items) }
{
    match stack.pop() {
        Some(item) => item,
        None => TypesItem::Arguments(None),
    }
}

/// Adds an item.
pub fn push_types<'a>(stack: &mut Vec<TypesItem<'a>>, item: TypesItem<'a>) -> Result<(), NoMemory>
    ensures { OnOk result (types_stack stack.new.items ≡ types_item_view item.entry ∷ types_stack stack.old.items) }
{
    Ok(stack.push(item)?)
}

/// The least refusal, where New may not make a type of one name.
#[tactic(auto, using(crate::proofs::Noted::unless_if))]
fn new_refusal(scope: Scope, class: &Identifier) -> Result<Option<Refusal>, NoMemory>
    ensures { IfOk result (λ least. least ≡ noted 16 None (found.new_faults (scope_view scope.entry) (short_type class.now))) }
{
    let mut least = None;
    let broken = !is_made(plain_type(scope, class)?);
    note_place(&mut least, broken, 16, class.token.place);
    Ok(least)
}

/// The same of a type of two names.
#[tactic(auto, using(crate::proofs::Noted::unless_if))]
fn long_new_refusal(
    scope: Scope,
    first: &Identifier,
    last: &Identifier,
) -> Result<Option<Refusal>, NoMemory>
    ensures { IfOk result (λ least. least ≡ noted 16 None (found.long_new_faults (scope_view scope.entry) first.now last.now)) }
{
    let mut least = None;
    let broken = !is_made(type_behind(scope, first, last)?);
    note_place(&mut least, broken, 16, first.token.place);
    Ok(least)
}

/// The least refusal of an operand and of the type that TypeOf asks for, by one name.
#[tactic(auto, using(crate::proofs::Noted::unless_if))]
fn asked_refusal(
    scope: Scope,
    operand: Option<Refusal>,
    class: &Identifier,
) -> Result<Option<Refusal>, NoMemory>
    ensures { IfOk result (λ least. least ≡ noted 16 operand (found.asked_faults (scope_view scope.entry) (short_type class.now))) }
{
    let mut least = operand;
    let broken = !is_asked(plain_type(scope, class)?);
    note_place(&mut least, broken, 16, class.token.place);
    Ok(least)
}

/// The same of a type of two names.
#[tactic(auto, using(crate::proofs::Noted::unless_if))]
fn long_asked_refusal(
    scope: Scope,
    operand: Option<Refusal>,
    first: &Identifier,
    last: &Identifier,
) -> Result<Option<Refusal>, NoMemory>
    ensures { IfOk result (λ least. least ≡ noted 16 operand (found.long_asked_faults (scope_view scope.entry) first.now last.now)) }
{
    let mut least = operand;
    let broken = !is_asked(type_behind(scope, first, last)?);
    note_place(&mut least, broken, 16, first.token.place);
    Ok(least)
}

/// The least refusal of an item as an expression.
pub fn in_expression(scope: Scope, item: TypesItem) -> Result<Option<Refusal>, NoMemory>
    ensures { IfOk result (λ least. least ≡ found.in_expression (scope_view scope.entry) (types_item_view item.entry)) }
{
    match item {
        TypesItem::Ended(least) => Ok(least),
        TypesItem::New(class) => new_refusal(scope, class),
        TypesItem::TypeOf { operand, class } => asked_refusal(scope, operand, class),
        TypesItem::Arguments(_) => Ok(None),
    }
}

/// The least refusal of an item as arguments.
pub fn in_given(item: TypesItem) -> Option<Refusal>
    ensures { result ≡ found.in_given (types_item_view item.entry) }
{
    match item {
        TypesItem::Arguments(least) => least,
        TypesItem::Ended(_) | TypesItem::New(_) | TypesItem::TypeOf { .. } => None,
    }
}

/// The least refusal of New and a type of one name with a dot and a name behind it.
fn new_with_dot(
    scope: Scope,
    class: &Identifier,
    member: &Identifier,
) -> Result<Option<Refusal>, NoMemory>
    ensures { IfOk result (λ least. least ≡ found.new_with_dot (scope_view scope.entry) class.now member.now member.now.suffix) }
{
    match member.suffix {
        None => long_new_refusal(scope, class, member),
        Some(_) => new_refusal(scope, class),
    }
}

/// The same of TypeOf.
fn asked_with_dot(
    scope: Scope,
    operand: Option<Refusal>,
    class: &Identifier,
    member: &Identifier,
) -> Result<Option<Refusal>, NoMemory>
    ensures { IfOk result (λ least. least ≡ found.asked_with_dot (scope_view scope.entry) operand class.now member.now member.now.suffix) }
{
    match member.suffix {
        None => long_asked_refusal(scope, operand, class, member),
        Some(_) => asked_refusal(scope, operand, class),
    }
}

/// The least refusal of an item with a dot and a name behind it.
pub fn with_dot(
    scope: Scope,
    item: TypesItem,
    member: &Identifier,
) -> Result<Option<Refusal>, NoMemory>
    ensures { IfOk result (λ least. least ≡ found.with_dot (scope_view scope.entry) (types_item_view item.entry) member.now) }
{
    match item {
        TypesItem::Ended(least) => Ok(least),
        TypesItem::New(class) => new_with_dot(scope, class, member),
        TypesItem::TypeOf { operand, class } => asked_with_dot(scope, operand, class, member),
        TypesItem::Arguments(_) => Ok(None),
    }
}
