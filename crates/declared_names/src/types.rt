// What the names of types mean, and the types that declarations give.
ghost use Rattle.std.specs.Prelude.{◌≡◌, ◌||◌, ◌&&◌, IfOk, map, option_map};
ghost use Rattle.binder.specs.Scopes.{is_named, is_seen, seen_from};
ghost use Rattle.binder.specs.Types.{class_named, is_asked, is_made, is_object, meant_type, plain_type, suffix_type, type_behind, type_in, type_in_modules, type_meant, type_of_entry};
ghost use Rattle.bound_project.specs.View.{declared_view};
ghost use Rattle.declared_names.specs.View.{scope_view, space_view, type_meant_view, what_view};

use crate::entry::What;
use crate::lookup::{Wanted, first_entry, is_same_space};
use crate::numbers::{class_number, type_number};
use crate::profile::in_profile;
use crate::scope::{Scope, TypeMeant};
use crate::space::Space;
use bound_project::{DeclaredType, ElementType};
use vba_base::NoMemory;
use vba_expression::TypeName;
use vba_lexer::TypeSuffix;
use vba_words::Identifier;

/// What an entry of a module means as a type. An Enum is a Long.
fn type_of_entry(
    scope: Scope,
    space: &Space,
    number: usize,
    what: What,
) -> Result<Option<TypeMeant>, NoMemory>
    ensures { IfOk result (λ found. option_map type_meant_view found
        ≡ type_of_entry (scope_view scope.entry) (space_view space.now) number (what_view what.entry)) }
{
    match what {
        What::Enum => Ok(Some(TypeMeant::Known(DeclaredType::Plain(ElementType::Long)))),
        What::Type(_) => {
            let of = ElementType::UserType(type_number(scope, space, number)?);
            Ok(Some(TypeMeant::Known(DeclaredType::Plain(of))))
        }
        _ => Ok(None),
    }
}

/// A Type or an Enum of a module by its name, in its own or where others see it.
fn type_in(
    scope: Scope,
    is_own: bool,
    space: &Space,
    name: &Identifier,
) -> Result<Option<TypeMeant>, NoMemory>
    ensures { IfOk result (λ found. option_map type_meant_view found
        ≡ type_in (scope_view scope.entry) (λ e. is_own || is_seen (space_view space.now) e) (space_view space.now) name.now) }
{
    match first_entry(Wanted::Type, is_own, space, name) {
        None => Ok(None),
        Some((number, entry)) => type_of_entry(scope, space, number, entry.what),
    }
}

/// Is it a class with a name?
fn is_class_named(space: &Space, name: &Identifier) -> bool
    ensures { result ≡ ((space_view space.now).source.is_class && is_named (space_view space.now).name.fold name.now) }
{
    space.source.is_class && name.name == space.name.fold
}

/// The class with a name.
#[tactic(auto, using(std::proofs::lemmas::List::drop_more))]
fn class_named(spaces: &[Space], name: &Identifier) -> Result<Option<TypeMeant>, NoMemory>
    ensures { IfOk result (λ found. option_map type_meant_view found
        ≡ class_named (map space_view spaces.now) (map space_view spaces.now) name.now) }
{
    for space in spaces {
        if is_class_named(space, name) {
            let of = ElementType::Class(class_number(spaces, space)?);
            return Ok(Some(TypeMeant::Known(DeclaredType::Plain(of))));
        }
    }
    Ok(None)
}

/// A Type or an Enum of the first module of which others see one with a name.
#[tactic(auto, using(std::proofs::lemmas::List::drop_more))]
fn type_in_modules(scope: Scope, name: &Identifier) -> Result<Option<TypeMeant>, NoMemory>
    ensures { IfOk result (λ found. option_map type_meant_view found
        ≡ type_in_modules (scope_view scope.entry) (map space_view scope.entry.spaces.now) name.now) }
{
    for space in scope.spaces {
        match type_in(scope, false, space, name)? {
            Some(meant) => return Ok(Some(meant)),
            None => {}
        }
    }
    Ok(None)
}

/// What a name means as a type: own Types and Enums, classes, public Types and Enums, the profile's types.
pub fn plain_type(scope: Scope, name: &Identifier) -> Result<Option<TypeMeant>, NoMemory>
    ensures { IfOk result (λ found. option_map type_meant_view found ≡ plain_type (scope_view scope.entry) name.now) }
{
    if let Some(meant) = type_in(scope, true, scope.here, name)? {
        return Ok(Some(meant));
    }
    if let Some(meant) = class_named(scope.spaces, name)? {
        return Ok(Some(meant));
    }
    if let Some(meant) = type_in_modules(scope, name)? {
        return Ok(Some(meant));
    }
    Ok(in_profile(&name.name))
}

/// A Type or an Enum behind a module's name.
fn type_shown(scope: Scope, space: &Space, name: &Identifier) -> Result<Option<TypeMeant>, NoMemory>
    ensures { IfOk result (λ found. option_map type_meant_view found
        ≡ type_in (scope_view scope.entry) (seen_from (scope_view scope.entry) (space_view space.now)) (space_view space.now) name.now) }
{
    let is_own = is_same_space(scope.here, space);
    type_in(scope, is_own, space, name)
}

/// What a name means as a type behind another, which is a module's.
#[tactic(auto, using(std::proofs::lemmas::List::drop_more))]
pub fn type_behind(
    scope: Scope,
    qualifier: &Identifier,
    name: &Identifier,
) -> Result<Option<TypeMeant>, NoMemory>
    ensures { IfOk result (λ found. option_map type_meant_view found
        ≡ type_behind (scope_view scope.entry) (map space_view scope.entry.spaces.now) qualifier.now name.now) }
{
    for space in scope.spaces {
        if qualifier.name == space.name.fold {
            return type_shown(scope, space, name);
        }
    }
    Ok(None)
}

/// What the name of a type means; none where it is unknown.
pub fn type_meant(scope: Scope, name: &TypeName) -> Result<Option<TypeMeant>, NoMemory>
    ensures { IfOk result (λ found. option_map type_meant_view found ≡ type_meant (scope_view scope.entry) name.now) }
{
    match &name.qualifier {
        None => plain_type(scope, &name.name),
        Some(qualifier) => type_behind(scope, &qualifier.name, &name.name),
    }
}

/// May New make one? It makes a class of the project or a Collection.
pub fn is_made(meant: Option<TypeMeant>) -> bool
    ensures { result ≡ is_made (option_map type_meant_view meant) }
{
    match meant {
        Some(
            TypeMeant::Known(DeclaredType::Plain(ElementType::Class(_) | ElementType::Collection)),
        ) => true,
        _ => false,
    }
}

/// Is it a type of objects?
pub fn is_object(of: DeclaredType) -> bool
    ensures { result ≡ is_object (declared_view of) }
{
    match of {
        DeclaredType::Plain(
            ElementType::Object
            | ElementType::Class(_)
            | ElementType::Collection
            | ElementType::Worksheet
            | ElementType::Range,
        ) => true,
        _ => false,
    }
}

/// May TypeOf ask for it?
pub fn is_asked(meant: Option<TypeMeant>) -> bool
    ensures { result ≡ is_asked (option_map type_meant_view meant) }
{
    match meant {
        Some(TypeMeant::Known(of)) => is_object(of),
        _ => false,
    }
}

/// The type of something that is declared so.
pub fn meant_type(meant: Option<TypeMeant>) -> DeclaredType
    ensures { declared_view result ≡ meant_type (option_map type_meant_view meant) }
{
    match meant {
        Some(TypeMeant::Known(of)) => of,
        Some(TypeMeant::OfHost) => DeclaredType::Plain(ElementType::Object),
        _ => DeclaredType::Plain(ElementType::Variant),
    }
}

/// The type that a suffix gives.
pub fn suffix_type(suffix: Option<TypeSuffix>) -> DeclaredType
    ensures { declared_view result ≡ suffix_type suffix }
{
    DeclaredType::Plain(match suffix {
        Some(TypeSuffix::Integer) => ElementType::Integer,
        Some(TypeSuffix::Long) => ElementType::Long,
        Some(TypeSuffix::LongLong) => ElementType::LongLong,
        Some(TypeSuffix::Currency) => ElementType::Currency,
        Some(TypeSuffix::Text) => ElementType::Text,
        _ => ElementType::Variant,
    })
}

/// The type that the name of a type gives.
pub fn named_type(scope: Scope, name: &TypeName) -> Result<DeclaredType, NoMemory>
    ensures { IfOk result (λ of. declared_view of ≡ meant_type (type_meant (scope_view scope.entry) name.now)) }
{
    Ok(meant_type(type_meant(scope, name)?))
}
