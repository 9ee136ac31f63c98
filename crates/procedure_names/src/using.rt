//! The names that are declared by their use, where they are declared nowhere else.

ghost use Rattle.std.specs.Prelude.{◌≡◌, [], ◌∷◌, ◌++◌, flat_map, map, option_map, OnOk};
ghost use Rattle.vba_expression.specs.View.{arguments_view, view};
ghost use Rattle.vba_tree.specs.View.{type_clause_view};
ghost use Rattle.declared_names.specs.binder.specs.Names.{names_called, names_used, redim_uses, uses_of, usings as usings_said};
ghost use Rattle.declared_names.specs.binder.specs.Said.{arguments_said};
ghost use Rattle.declared_names.specs.binder.specs.Scopes.{plainly};
ghost use Rattle.procedure_names.specs.Used.{used_view};
ghost use Rattle.procedure_names.specs.Using.{using_view};

use crate::item::Used;
use crate::nodes;
use declared_names::Local;
use std::alloc::Global;
use vba_base::NoMemory;
use vba_expression::{Arguments, Expression};
use vba_tree::TypeClause;
use vba_words::Identifier;

/// A name of a procedure, by what declares it: a declaration, a ReDim, which says what it is, or its use.
#[derive(Clone, Copy)]
pub enum Using<'a> {
    Declaration(Local<'a>),
    ReDim {
        name: &'a Identifier,
        type_clause: &'a Option<TypeClause>,
    },
    Use(Used<'a>),
}

/// Adds a name.
#[tactic(auto, using(crate::proofs::Usings::usings_push))]
pub(crate) fn push_using<'a>(usings: &mut Vec<Using<'a>>, found: Using<'a>) -> Result<(), NoMemory>
    ensures { OnOk result (map using_view usings.new.items ≡ map using_view usings.old.items ++ using_view found.entry ∷ []) }
{
    Ok(usings.push(found)?)
}

/// Adds names that are used.
#[tactic(auto, using(std::proofs::lemmas::List::drop_more))]
fn push_used<'a>(usings: &mut Vec<Using<'a>>, names: &[Used<'a>]) -> Result<(), NoMemory>
    ensures { OnOk result (map using_view usings.new.items ≡ map using_view usings.old.items ++ uses_of (map used_view names.now)) }
{
    for used in names {
        push_using(usings, Using::Use(*used))?;
    }
    Ok(())
}

/// Adds the names that an expression uses.
pub(crate) fn push_expression<'a>(
    alloc: Global,
    usings: &mut Vec<Using<'a>>,
    expression: &'a Expression,
) -> Result<(), NoMemory>
    ensures { OnOk result (map using_view usings.new.items ≡ map using_view usings.old.items ++ uses_of (names_used plainly (view expression.now))) }
{
    let names = nodes::names_used(alloc, expression)?;
    push_used(usings, names.as_slice())
}

/// Adds the names that an expression uses which is called.
pub(crate) fn push_called<'a>(
    alloc: Global,
    usings: &mut Vec<Using<'a>>,
    expression: &'a Expression,
) -> Result<(), NoMemory>
    ensures { OnOk result (map using_view usings.new.items ≡ map using_view usings.old.items ++ uses_of (names_called (view expression.now))) }
{
    let names = nodes::names_called(alloc, expression)?;
    push_used(usings, names.as_slice())
}

/// Adds the names that arguments use.
#[tactic(auto, using(crate::proofs::Usings::arguments_uses))]
pub(crate) fn push_arguments<'a>(
    alloc: Global,
    usings: &mut Vec<Using<'a>>,
    arguments: &'a Arguments,
) -> Result<(), NoMemory>
    ensures { OnOk result (map using_view usings.new.items
        ≡ map using_view usings.old.items ++ flat_map usings_said (arguments_said (arguments_view arguments.now))) }
{
    let names = nodes::names_in_arguments(alloc, arguments)?;
    push_used(usings, names.as_slice())?;
    Ok(())
}

/// Adds the array that a ReDim declares, or the names in its place.
#[tactic(auto, using(crate::proofs::Usings::redim_of_name, crate::proofs::Usings::redim_of_other))]
pub(crate) fn push_redim<'a>(
    alloc: Global,
    usings: &mut Vec<Using<'a>>,
    place: &'a Expression,
    type_clause: &'a Option<TypeClause>,
) -> Result<(), NoMemory>
    ensures { OnOk result (map using_view usings.new.items
        ≡ map using_view usings.old.items ++ redim_uses (view place.now) (option_map type_clause_view type_clause.now)) }
{
    match place.name() {
        Some(name) => push_using(usings, Using::ReDim { name, type_clause }),
        None => push_expression(alloc, usings, place),
    }
}
