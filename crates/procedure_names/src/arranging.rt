//! The names of a body, in text order, each undeclared one at its first use.

ghost use Rattle.std.specs.Prelude.{◌≡◌, [], ◌∷◌, ◌++◌, ◌||◌, map, reverse, is_some, if◌then◌else◌, IfOk, OnOk};
ghost use Rattle.declared_names.specs.binder.specs.Names.{arranged, declared_here, has_name, has_redim};
ghost use Rattle.declared_names.specs.binder.specs.Scopes.{declares};
ghost use Rattle.declared_names.specs.View.{local_view, scope_view, use_view};
ghost use Rattle.procedure_names.specs.Added.{added, known_in};
ghost use Rattle.procedure_names.specs.Using.{using_view};

use crate::item::Used;
use crate::using::Using;
use declared_names::{Local, Own, Scope, Use, declares};
use std::alloc::Global;
use vba_base::NoMemory;
use vba_words::Identifier;

/// Is a name among these?
#[tactic(auto, using(std::proofs::lemmas::List::drop_more))]
fn has_name(locals: &[Local], name: &Identifier) -> bool
    ensures { result ≡ has_name (map local_view locals.now) name.now }
{
    for local in locals {
        if local.name.name == name.name {
            return true;
        }
    }
    false
}

/// Does a ReDim declare a name?
#[tactic(auto, using(std::proofs::lemmas::List::drop_more))]
fn has_redim(usings: &[Using], name: &Identifier) -> bool
    ensures { result ≡ has_redim (map using_view usings.now) name.now }
{
    for found in usings {
        if let Using::ReDim { name: other, .. } = found {
            if other.name == name.name {
                return true;
            }
        }
    }
    false
}

/// Is a name declared?
fn is_known(scope: Scope, how: Use, name: &Identifier) -> bool
    ensures { result ≡ is_some (declares (use_view how) (scope_view scope.entry) name.now) }
{
    declares(how, scope, name).is_some()
}

/// Adds a name of the procedure.
#[tactic(auto, using(crate::proofs::Orders::locals_push))]
fn push_local<'a>(locals: &mut Vec<Local<'a>>, local: Local<'a>) -> Result<(), NoMemory>
    ensures { OnOk result (map local_view locals.new.items ≡ map local_view locals.old.items ++ local_view local.entry ∷ []) }
{
    Ok(locals.push(local)?)
}

/// Is a name declared, or among these?
#[tactic(auto, using(crate::proofs::Orders::has_name_reversed))]
fn is_declared(scope: Scope, locals: &[Local], how: Use, name: &Identifier) -> bool
    ensures { result ≡ (known_in (scope_view scope.entry) (use_view how) name.now || has_name (reverse (map local_view locals.now)) name.now) }
{
    is_known(scope, how, name) || has_name(locals, name)
}

/// Is a name declared, or among these, or does a ReDim declare it?
#[tactic(auto, using(crate::proofs::Orders::has_name_reversed))]
fn is_declared_anywhere(
    scope: Scope,
    all: &[Using],
    locals: &[Local],
    how: Use,
    name: &Identifier,
) -> bool
    ensures { result ≡ (known_in (scope_view scope.entry) (use_view how) name.now
        || (has_name (reverse (map local_view locals.now)) name.now || has_redim (map using_view all.now) name.now)) }
{
    is_known(scope, how, name) || has_name(locals, name) || has_redim(all, name)
}

/// Adds a name, unless it is there.
fn push_unless<'a>(
    locals: &mut Vec<Local<'a>>,
    is_there: bool,
    local: Local<'a>,
) -> Result<(), NoMemory>
    ensures { OnOk result (map local_view locals.new.items ≡ map local_view locals.old.items ++ (if is_there then [] else local_view local.entry ∷ [])) }
{
    if is_there {
        return Ok(());
    }
    push_local(locals, local)
}

/// Adds the name that one use adds to those before it, if any.
fn push_added<'a>(
    scope: Scope,
    is_static: bool,
    all: &[Using<'a>],
    locals: &mut Vec<Local<'a>>,
    found: Using<'a>,
) -> Result<(), NoMemory>
    ensures { OnOk result (map local_view locals.new.items ≡ map local_view locals.old.items
        ++ added is_static (known_in (scope_view scope.entry)) (map using_view all.now) (reverse (map local_view locals.old.items)) (using_view found.entry)) }
{
    match found {
        Using::Declaration(local) => push_local(locals, local),
        Using::ReDim { name, type_clause } => {
            let is_there = is_declared(scope, locals.as_slice(), Use::Plainly, name);
            let own = Own::Array {
                type_clause,
                is_static,
            };
            push_unless(locals, is_there, Local { name, own })
        }
        Using::Use(Used { how, name }) => {
            let is_there = is_declared_anywhere(scope, all, locals.as_slice(), how, name);
            let own = Own::Undeclared { is_static };
            push_unless(locals, is_there, Local { name, own })
        }
    }
}

/// The names of a body in text order: each undeclared one at its first use, or at its first ReDim.
///
/// It fails only for want of memory.
#[tactic(auto, using(std::proofs::lemmas::List::drop_more, crate::proofs::Orders::arranged_more))]
pub(crate) fn arrange<'a>(
    alloc: Global,
    scope: Scope,
    is_static: bool,
    usings: &[Using<'a>],
) -> Result<Vec<Local<'a>>, NoMemory>
    ensures { IfOk result (λ locals. map local_view locals.items
        ≡ arranged is_static (known_in (scope_view scope.entry)) (map using_view usings.now) [] (map using_view usings.now)) }
{
    let mut locals = Vec::new(alloc);
    for found in usings {
        push_added(scope, is_static, usings, &mut locals, *found)?;
    }
    Ok(locals)
}

/// Adds the names that a body declares.
#[tactic(auto, using(std::proofs::lemmas::List::drop_more))]
pub(crate) fn push_declared<'a>(
    locals: &mut Vec<Local<'a>>,
    usings: &[Using<'a>],
) -> Result<(), NoMemory>
    ensures { OnOk result (map local_view locals.new.items ≡ map local_view locals.old.items ++ declared_here (map using_view usings.now)) }
{
    for found in usings {
        if let Using::Declaration(local) = found {
            push_local(locals, *local)?;
        }
    }
    Ok(())
}
