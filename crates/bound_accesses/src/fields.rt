//! Fields of user types, and what a With block keeps.

ghost use Rattle.std.specs.Prelude.{◌≡◌, true, IfOk, OnOk, is_some, length, map, option_map, reverse, slice_index_or, None, Some};
ghost use Rattle.vba_expression.specs.declared.node.ExpressionNode.TheVariants as node;
ghost use Rattle.vba_expression.specs.Nodes.{behind_node};
ghost use Rattle.bound_project.specs.DraftView.{draft_view};
ghost use Rattle.bound_project.specs.Drafts.{NodeNamed};
ghost use Rattle.bound_project.specs.View.{declaration_view, declared_view, user_type_view};
ghost use Rattle.bound_names.specs.bound_members.specs.bound_calls.specs.bound_forms.specs.Members as members;
ghost use Rattle.binder.specs.Scopes.{first_at};
ghost use Rattle.bound_accesses.specs.Fields.{FieldIs, FieldOrNone, KeepsField, MakesBehind, PlacesField, ValueOrNone, is_field_named, place_found, user_type_in, value_found};
ghost use Rattle.bound_names.specs.bound_members.specs.bound_calls.specs.Standing.{AllNamed};
ghost use Rattle.bound_names.specs.bound_members.specs.bound_calls.specs.Steps.{Goes};
ghost use Rattle.bound_names.specs.View.{EnvStands, env_view, within_view};
ghost use Rattle.binder.specs.Classes as classes;

use crate::items::{behind_object_place, found_term};
use bound_names::bound_members::bound_calls::bound_declarations::{
    NotYet, bounds_declared, class_in,
};
use bound_names::bound_members::bound_calls::{
    Ending, Item, Term, Tree, push_node, put_item, read_kind, settle,
};
use bound_names::{Env, Within, class_member, folded, unknown_term};
use bound_project::{Declaration, DeclaredType, Draft, ElementType, NodeKind, UserType};
use std::alloc::Global;
use vba_base::{NoMemory, OrMemory, Place};
use vba_lexer::Token;
use vba_words::Identifier;

/// A field of a user type: its number, its type, and how many bounds it is declared with as an array.
#[derive(Clone, Copy)]
pub struct Field {
    pub number: u32,
    pub of: DeclaredType,
    pub bounds: u32,
}

/// The number of the user type that a type is.
pub fn user_type(of: DeclaredType) -> Option<u32>
    ensures { result ≡ user_type_in of }
{
    match of {
        DeclaredType::Plain(ElementType::UserType(number)) => Some(number),
        _ => None,
    }
}

/// The fields of the user type with a number.
fn fields_at<'a>(types: &'a Vec<UserType>, number: usize) -> &'a [Declaration]
    ensures { map declaration_view result.now ≡ (slice_index_or (map user_type_view types.now.items) number members.no_type).fields }
{
    if let Some(of) = types.get(number) {
        return of.fields.as_slice();
    }
    &[]
}

/// The first of declarations with a name, and its number.
#[tactic(auto, using(std::proofs::lemmas::List::drop_more))]
fn first_field<'a>(fields: &'a [Declaration], name: &Identifier) -> Option<(usize, &'a Declaration)>
    ensures { option_map (λ found. (found.0, declaration_view found.1.now)) result
        ≡ first_at (is_field_named name.now) 0 (map declaration_view fields.now) }
{
    for (number, field) in fields.iter().enumerate() {
        if field.name.fold == name.name {
            return Some((number, field));
        }
    }
    None
}

/// A field by its number and its declaration.
fn known_field(number: usize, declaration: &Declaration) -> Result<Field, NoMemory>
    ensures number { IfOk result (λ field. field.number ≡ number) }
    ensures of { IfOk result (λ field. declared_view field.of ≡ (declaration_view declaration.now).of) }
    ensures bounds { IfOk result (λ field. field.bounds ≡ length (declaration_view declaration.now).bounds) }
{
    let Ok(number) = u32::try_from(number) else {
        return Err(NoMemory);
    };
    let bounds = bounds_declared(declaration)?;
    Ok(Field {
        number,
        of: declaration.of,
        bounds,
    })
}

/// The first of declarations with a name, if there is one.
fn field_at(fields: &[Declaration], name: &Identifier) -> Result<Option<Field>, NoMemory>
    ensures { IfOk result (λ found. FieldIs (first_at (is_field_named name.now) 0 (map declaration_view fields.now)) found) }
{
    match first_field(fields, name) {
        None => Ok(None),
        Some((number, declaration)) => {
            let field = known_field(number, declaration)?;
            Ok(Some(field))
        }
    }
}

/// A field of a user type, by its name, if there is one.
fn field_named<'a>(env: Env<'a>, number: u32, name: &Identifier) -> Result<Option<Field>, NoMemory>
    requires { EnvStands env }
    ensures { IfOk result (λ found. FieldIs (members.field_named (env_view env.entry) number name.now) found) }
{
    field_at(fields_at(&env.declared.types, number as usize), name)
}

/// The field of a place, if there is one.
fn place_found<'a>(found: Option<Field>, lends: bool) -> Option<Term<'a>>
    ensures { result ≡ place_found found lends }
{
    match found {
        None => None,
        Some(field) => Some(Term::Place {
            kind: NodeKind::Field {
                field: field.number,
                of: field.of,
                is_bounded: field.bounds != 0,
            },
            of: field.of,
            bounds: field.bounds,
            lends,
            makes: false,
        }),
    }
}

/// A field of a place of a type, which was pushed; none where there is none.
fn place_field<'a>(
    env: Env<'a>,
    of: DeclaredType,
    lends: bool,
    name: &Identifier,
) -> Result<Option<Term<'a>>, OrMemory<NotYet>>
    requires { EnvStands env }
    ensures { IfOk result (λ found. FieldOrNone (env_view env.entry) of lends name.now found) }
{
    let Some(number) = user_type(of) else {
        return Err(OrMemory::Fault(NotYet));
    };
    let found = field_named(env, number, name)?;
    Ok(place_found(found, lends))
}

/// The field of a value, if there is one.
fn value_found<'a>(found: Option<Field>) -> Option<Term<'a>>
    ensures { result ≡ value_found found }
{
    match found {
        None => None,
        Some(field) => Some(Term::Value(Ending {
            kind: NodeKind::FieldValue {
                field: field.number,
            },
            of: field.of,
        })),
    }
}

/// A field of a value of a type, which was pushed; none where there is none.
fn value_field<'a>(
    env: Env<'a>,
    of: DeclaredType,
    name: &Identifier,
) -> Result<Option<Term<'a>>, OrMemory<NotYet>>
    requires { EnvStands env }
    ensures { IfOk result (λ found. ValueOrNone (env_view env.entry) of name.now found) }
{
    let Some(number) = user_type(of) else {
        return Err(OrMemory::Fault(NotYet));
    };
    let found = field_named(env, number, name)?;
    Ok(value_found(found))
}

/// A field of a value, which is pushed, or what is told where there is none.
pub fn field_of_value<'a>(
    draft: &mut Draft,
    env: Env<'a>,
    place: Place,
    dot: Place,
    ending: Ending,
    name: &Identifier,
) -> Result<Term<'a>, OrMemory<NotYet>>
    requires env { EnvStands env }
    requires named { NodeNamed (draft_view draft.old).tables ending.kind }
    requires typed { is_some (user_type_in ending.of) ≡ true }
    ensures { IfOk result (λ term. MakesBehind (env_view env.entry) place dot (Term.Value ending) name.now (draft_view draft.old) (draft_view draft.new) term) }
{
    let found = value_field(env, ending.of, name)?;
    push_node(draft, ending.kind, ending.of, place)?;
    match found {
        Some(term) => Ok(term),
        None => Ok(unknown_term(dot)),
    }
}

/// A field of a place, which is pushed, or what is told where there is none: its value is pushed then.
pub fn field_behind<'a>(
    draft: &mut Draft,
    env: Env<'a>,
    place: Place,
    dot: Place,
    at: Ending,
    lends: bool,
    makes: bool,
    name: &Identifier,
) -> Result<Term<'a>, OrMemory<NotYet>>
    requires env { EnvStands env }
    requires named { NodeNamed (draft_view draft.old).tables at.kind }
    ensures { IfOk result (λ term. PlacesField (env_view env.entry) place dot at lends makes name.now (draft_view draft.old) (draft_view draft.new) term) }
{
    let found = place_field(env, at.of, lends, name)?;
    push_node(draft, at.kind, at.of, place)?;
    match found {
        Some(term) => Ok(term),
        None => {
            push_node(draft, read_kind(makes), at.of, place)?;
            Ok(unknown_term(dot))
        }
    }
}

/// A member of an object of a class that the With block round an expression keeps.
fn kept_of_class<'a>(
    draft: &mut Draft,
    env: Env<'a>,
    within: Within,
    place: Place,
    class: u32,
    name: &Identifier,
) -> Result<Term<'a>, OrMemory<NotYet>>
    requires env { EnvStands env }
    requires class { classes.class_in (declared_view within.of) ≡ Some class }
    requires within { (env_view env).within ≡ Some (within_view within) }
    ensures { IfOk result (λ term. KeepsField (env_view env.entry) place name.now (draft_view draft.old) (draft_view draft.new) term) }
{
    let of = within.of;
    let kind = NodeKind::KeptPlace {
        header: within.header,
    };
    push_node(draft, kind, of, place)?;
    push_node(draft, NodeKind::Load, of, place)?;
    class_member(draft, env, place, place, class, name)
}

/// A field, or a member of an object that is of no class, of what the With block round an expression keeps.
fn kept_plain<'a>(
    alloc: Global,
    draft: &mut Draft,
    env: Env<'a>,
    within: Within,
    place: Place,
    name: &Identifier,
) -> Result<Term<'a>, OrMemory<NotYet>>
    requires env { EnvStands env }
    requires class { classes.class_in (declared_view within.of) ≡ None }
    requires within { (env_view env).within ≡ Some (within_view within) }
    ensures { IfOk result (λ term. KeepsField (env_view env.entry) place name.now (draft_view draft.old) (draft_view draft.new) term) }
{
    let of = within.of;
    let kind = NodeKind::KeptPlace {
        header: within.header,
    };
    let at = Ending { kind, of };
    match user_type(of) {
        None => {
            let name = folded(alloc, name)?;
            let found = behind_object_place(draft, env, place, at, false, name)?;
            Ok(found_term(found, place))
        }
        Some(_) => field_behind(draft, env, place, place, at, within.lends, false, name),
    }
}

/// A field, or a member of an object, of what the With block round an expression keeps.
fn kept_field<'a>(
    alloc: Global,
    draft: &mut Draft,
    env: Env<'a>,
    place: Place,
    name: &Identifier,
) -> Result<Term<'a>, OrMemory<NotYet>>
    requires { EnvStands env }
    ensures { IfOk result (λ term. KeepsField (env_view env.entry) place name.now (draft_view draft.old) (draft_view draft.new) term) }
{
    let Some(within) = env.within else {
        return Err(OrMemory::Fault(NotYet));
    };
    match class_in(within.of) {
        Some(class) => kept_of_class(draft, env, within, place, class, name),
        None => kept_plain(alloc, draft, env, within, place, name),
    }
}

/// A dot that begins an expression, and a name. A left operand before it is a reference where its operator is Is.
pub fn step_with_member<'a>(
    alloc: Global,
    draft: &mut Draft,
    env: Env<'a>,
    stack: &mut Vec<Item<'a>>,
    is_reference: bool,
    dot: Token,
    member: &Identifier,
) -> Result<(), OrMemory<NotYet>>
    requires env { EnvStands env }
    requires named { AllNamed (draft_view draft.old).tables (reverse stack.old.items) }
    ensures { OnOk result (Goes (env_view env.entry) (draft_view draft.old) (reverse stack.old.items) (draft_view draft.new) (reverse stack.new.items) (behind_node (node.WithMember dot member.now))) }
{
    settle(alloc, draft, stack, is_reference)?;
    let term = kept_field(alloc, draft, env, dot.place, member)?;
    put_item(
        stack,
        Item::Tree(Tree {
            place: dot.place,
            name: None,
            dotted: None,
            term,
            declared: env.declared,
        }),
    )?;
    Ok(())
}
