//! S21: Types that hold themselves.

ghost use Rattle.std.specs.Prelude.{◌≡◌, [], ◌∷◌, ◌++◌, List, ℕ, map, OnOk, IfOk, option_map};
ghost use Rattle.constant_values.specs.declared_names.specs.binder.specs.Declarations.{Entry as PlainEntry};
ghost use Rattle.constant_values.specs.declared_names.specs.binder.specs.Names.{scope_of};
ghost use Rattle.constant_values.specs.declared_names.specs.binder.specs.Types.{written_type};
ghost use Rattle.constant_values.specs.declared_names.specs.binder.specs.Violations as violations;
ghost use Rattle.bound_project.specs.View.{declared_view};
ghost use Rattle.constant_values.specs.declared_names.specs.Outside.{the_outside};
ghost use Rattle.constant_values.specs.declared_names.specs.View.{entry_view, scope_view, space_view, what_view};
ghost use Rattle.use_rules.specs.Found.{noted};
ghost use Rattle.name_rules.specs.Held.{held_of_type, number_in_field};
ghost use Rattle.said_parts.specs.View.{field_view};
ghost use Rattle.vba_tree.specs.View.{declared_type_view};

use crate::rows::holds_itself;
use bound_project::{DeclaredType, ElementType};
use constant_values::declared_names::{Entry, Scope, Space, What, named_type};
use said_parts::fields_of;
use std::alloc::Global;
use use_rules::note_place;
use vba_base::{NoMemory, Refusal};
use vba_tree::TypeMember;

/// The number of the Type that a declared type is.
fn number_of(of: DeclaredType) -> Option<u32>
    ensures { result ≡ held_of_type (declared_view of) }
{
    match of {
        DeclaredType::Plain(ElementType::UserType(number)) => Some(number),
        _ => None,
    }
}

/// The number of the Type that a field is of.
fn held_by_field(scope: Scope, field: &TypeMember) -> Result<Option<u32>, NoMemory>
    ensures { IfOk result (λ r. r ≡ held_of_type (written_type (λ e. 0) (scope_view scope.entry) (declared_type_view field.now.type_clause.declared_type))) }
{
    match &field.type_clause.declared_type {
        vba_tree::DeclaredType::Named(name) => Ok(number_of(named_type(scope, name)?)),
        vba_tree::DeclaredType::FixedText { .. } => Ok(None),
    }
}

/// Adds a number.
fn push_number(held: &mut Vec<u32>, number: u32) -> Result<(), NoMemory>
    ensures { OnOk result (held.new.items ≡ held.old.items ++ number ∷ []) }
{
    Ok(held.push(number)?)
}

/// Adds the number of the Type that a field is of, where it is of one.
fn push_held(scope: Scope, field: &TypeMember, held: &mut Vec<u32>) -> Result<(), NoMemory>
    ensures { OnOk result (held.new.items ≡ held.old.items ++ number_in_field (scope_view scope.entry) (field_view field.now)) }
{
    match held_by_field(scope, field)? {
        Some(number) => push_number(held, number),
        None => Ok(()),
    }
}

/// The numbers of the Types that fields are of.
fn held_in(alloc: Global, scope: Scope, fields: &[&TypeMember]) -> Result<Vec<u32>, NoMemory>
    ensures { IfOk result (λ held. held.items ≡ violations.held_in (scope_view scope.entry) (map (λ f. field_view f.now) fields.now)) }
{
    let mut held = Vec::new(alloc);
    for field in fields {
        push_held(scope, *field, &mut held)?;
    }
    Ok(held)
}

/// Adds what a Type holds.
#[tactic(auto, using(crate::proofs::TypesHeld::type_more))]
fn push_type(types: &mut Vec<Vec<u32>>, held: Vec<u32>) -> Result<(), NoMemory>
    ensures { OnOk result (map (λ v. v.items) types.new.items ≡ map (λ v. v.items) types.old.items ++ held.items ∷ []) }
{
    Ok(types.push(held)?)
}

/// Adds what an entry holds, if it is a Type.
fn push_type_of(
    alloc: Global,
    scope: Scope,
    entry: Entry,
    types: &mut Vec<Vec<u32>>,
) -> Result<(), NoMemory>
    ensures { OnOk result (map (λ v. v.items) types.new.items ≡ map (λ v. v.items) types.old.items ++ violations.types_of_entries (scope_view scope.entry) (entry_view entry.entry ∷ [])) }
{
    match entry.what {
        What::Type(parts) => {
            let fields = fields_of(alloc, parts.slice())?;
            push_type(types, held_in(alloc, scope, fields.as_slice())?)
        }
        What::Variable(_)
        | What::Constant(_)
        | What::Enum
        | What::Member { .. }
        | What::Event(_)
        | What::Procedure(_) => Ok(()),
    }
}

/// Adds what the Types of a module hold.
fn push_types_of(
    alloc: Global,
    scope: Scope,
    entries: &[Entry],
    types: &mut Vec<Vec<u32>>,
) -> Result<(), NoMemory>
    ensures { OnOk result (map (λ v. v.items) types.new.items ≡ map (λ v. v.items) types.old.items ++ violations.types_of_entries (scope_view scope.entry) (map entry_view entries.now)) }
{
    for entry in entries {
        push_type_of(alloc, scope, *entry, types)?;
    }
    Ok(())
}

/// Adds what the Types of a module of a project hold.
fn push_types_in<'a>(
    alloc: Global,
    spaces: &'a [Space<'a>],
    here: &'a Space<'a>,
    types: &mut Vec<Vec<u32>>,
) -> Result<(), NoMemory>
    ensures { OnOk result (map (λ v. v.items) types.new.items ≡ map (λ v. v.items) types.old.items
        ++ violations.types_of_entries (scope_of the_outside (map space_view spaces.now) (space_view here.now)) (space_view here.now).entries) }
{
    let scope = Scope {
        spaces: &*spaces,
        here: &*here,
        locals: &[],
    };
    push_types_of(alloc, scope, here.entries.as_slice(), types)
}

/// What each Type of a project holds.
pub fn held_types<'a>(alloc: Global, spaces: &'a [Space<'a>]) -> Result<Vec<Vec<u32>>, NoMemory>
    ensures { IfOk result (λ types. map (λ v. v.items) types.items ≡ violations.held_types the_outside (map space_view spaces.now) (map space_view spaces.now)) }
{
    let mut types = Vec::new(alloc);
    for space in spaces {
        push_types_in(alloc, &*spaces, space, &mut types)?;
    }
    Ok(types)
}

/// Notes an entry that holds itself, if it is a Type, which has this number then. Answers the number of the next Type.
#[tactic(auto, using(use_rules::proofs::Noted::noted_append, use_rules::proofs::Noted::unless_if))]
fn note_type(
    alloc: Global,
    types: &[Vec<u32>],
    number: u32,
    entry: Entry,
    least: &mut Option<Refusal>,
) -> Result<u32, NoMemory>
    ensures { IfOk result (λ next. (others : List PlainEntry) → noted 21 least.new (violations.recursive_in (map (λ v. v.items) types.now) next others)
        ≡ noted 21 least.old (violations.recursive_in (map (λ v. v.items) types.now) number (entry_view entry.entry ∷ others))) }
{
    match entry.what {
        What::Type(_) => {
            let broken = holds_itself(alloc, types, number)?;
            note_place(least, broken, 21, entry.name.token.place);
            number.checked_add(1).ok_or(NoMemory)
        }
        What::Variable(_)
        | What::Constant(_)
        | What::Enum
        | What::Member { .. }
        | What::Event(_)
        | What::Procedure(_) => Ok(number),
    }
}

/// Notes each Type among entries that holds itself; the first of them has this number.
pub fn note_recursive(
    alloc: Global,
    types: &[Vec<u32>],
    first: u32,
    entries: &[Entry],
    least: &mut Option<Refusal>,
) -> Result<(), NoMemory>
    ensures { OnOk result (least.new ≡ noted 21 least.old (violations.recursive_in (map (λ v. v.items) types.now) first (map entry_view entries.now))) }
{
    let mut number = first;
    for entry in entries {
        number = note_type(alloc, types, number, *entry, least)?;
    }
    Ok(())
}
