//! The Types of modules.

ghost use Rattle.std.specs.Prelude.{◌≡◌, [], ◌∷◌, ◌++◌, map, IfOk, OnOk};
ghost use Rattle.constant_values.specs.declared_names.specs.binder.specs.Declarations.{fields_in};
ghost use Rattle.constant_values.specs.declared_names.specs.binder.specs.Storage as storage;
ghost use Rattle.bound_declarations.specs.Forms.{type_as};
ghost use Rattle.bound_project.specs.View.{declaration_view, user_type_view};
ghost use Rattle.constant_values.specs.Tables.{AreConstants};
ghost use Rattle.constant_values.specs.declared_names.specs.Range.{range_items};
ghost use Rattle.constant_values.specs.declared_names.specs.View.{entry_view, scope_view};
ghost use Rattle.constant_values.specs.declared_names.specs.module_parts.specs.View.{parts_view};
ghost use Rattle.said_parts.specs.View.{field_view};

use crate::declared::declared_field;
use crate::lists::push_declaration;
use crate::not_yet::NotYet;
use bound_project::{Declaration, UserType};
use constant_values::Constants;
use constant_values::declared_names::{Entry, PartRange, What, spelled};
use said_parts::fields_of;
use std::alloc::Global;
use vba_base::{NoMemory, OrMemory};
use vba_tree::TypeMember;
use vba_words::Identifier;

/// Adds a field.
fn push_field(
    alloc: Global,
    constants: Constants,
    member: &TypeMember,
    fields: &mut Vec<Declaration>,
) -> Result<(), OrMemory<NotYet>>
    requires { AreConstants constants }
    ensures { OnOk result (map declaration_view fields.new.items
        ≡ map declaration_view fields.old.items ++ storage.declared_field (scope_view constants.entry.scope) (field_view member.now) ∷ []) }
{
    let field = declared_field(alloc, constants, member)?;
    Ok(push_declaration(fields, field)?)
}

/// The fields of a Type, by its members.
#[tactic(auto, using(std::proofs::lemmas::List::drop_more))]
fn declared_fields(
    alloc: Global,
    constants: Constants,
    members: &[&TypeMember],
) -> Result<Vec<Declaration>, OrMemory<NotYet>>
    requires { AreConstants constants }
    ensures { IfOk result (λ fields. map declaration_view fields.items
        ≡ map (storage.declared_field (scope_view constants.entry.scope)) (map (λ m. field_view m.now) members.now)) }
{
    let mut fields = Vec::new(alloc);
    for member in members {
        push_field(alloc, constants, *member, &mut fields)?;
    }
    Ok(fields)
}

/// A Type, by the parts behind its header.
fn user_type(
    alloc: Global,
    constants: Constants,
    name: &Identifier,
    parts: PartRange,
) -> Result<UserType, OrMemory<NotYet>>
    requires { AreConstants constants }
    ensures { IfOk result (λ made. user_type_view made
        ≡ type_as (scope_view constants.entry.scope) name.now (fields_in (parts_view (range_items parts.entry)))) }
{
    let members = fields_of(alloc, parts.slice())?;
    let fields = declared_fields(alloc, constants, members.as_slice())?;
    let here = constants.scope.here;
    let name = spelled(alloc, here.source.text, name)?;
    Ok(UserType { name, fields })
}

/// Adds a Type that was made.
#[tactic(auto, using(crate::proofs::Pushes::types_push))]
fn push_made(types: &mut Vec<UserType>, made: UserType) -> Result<(), NoMemory>
    ensures { OnOk result (map user_type_view types.new.items ≡ map user_type_view types.old.items ++ user_type_view made ∷ []) }
{
    Ok(types.push(made)?)
}

/// Adds the Type that an entry of a module is, where it is one.
fn push_type(
    alloc: Global,
    constants: Constants,
    entry: &Entry,
    types: &mut Vec<UserType>,
) -> Result<(), OrMemory<NotYet>>
    requires { AreConstants constants }
    ensures { OnOk result (map user_type_view types.new.items
        ≡ map user_type_view types.old.items ++ storage.types_of_space (scope_view constants.entry.scope) (entry_view entry.now ∷ [])) }
{
    match entry.what {
        What::Type(parts) => {
            let made = user_type(alloc, constants, entry.name, parts)?;
            Ok(push_made(types, made)?)
        }
        _ => Ok(()),
    }
}

/// Adds the Types among the entries of a module.
#[tactic(auto, using(std::proofs::lemmas::List::drop_more, crate::proofs::Pushes::types_next))]
pub fn module_types(
    alloc: Global,
    constants: Constants,
    entries: &[Entry],
    types: &mut Vec<UserType>,
) -> Result<(), OrMemory<NotYet>>
    requires { AreConstants constants }
    ensures { OnOk result (map user_type_view types.new.items
        ≡ map user_type_view types.old.items ++ storage.types_of_space (scope_view constants.entry.scope) (map entry_view entries.now)) }
{
    for entry in entries {
        push_type(alloc, constants, entry, types)?;
    }
    Ok(())
}
