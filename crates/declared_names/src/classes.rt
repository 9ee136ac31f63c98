// Classes: which variables and procedures their objects have, and which of them are seen where.
ghost use Rattle.std.specs.Prelude.{◌≡◌, ◌==◌, ◌&&◌, IfOk, map, option_map};
ghost use Rattle.binder.specs.Classes as classes;
ghost use Rattle.binder.specs.Types.{class_number};
ghost use Rattle.bound_project.specs.View.{declared_view};
ghost use Rattle.declared_names.specs.Lookup.{found_view};
ghost use Rattle.declared_names.specs.View.{entry_view, scope_view, space_view, what_view};

use crate::entry::{Entry, What};
use crate::lookup::{is_same_space, is_seen};
use crate::numbers::{Counted, class_number, count_before};
use crate::scope::Scope;
use crate::space::Space;
use bound_project::{DeclaredType, ElementType};
use vba_base::NoMemory;
use vba_words::Identifier;

/// Is a class among modules?
#[tactic(auto, using(std::proofs::lemmas::List::drop_more))]
pub fn has_class(spaces: &[Space]) -> bool
    ensures { result ≡ classes.has_class (map space_view spaces.now) }
{
    for space in spaces {
        if space.source.is_class {
            return true;
        }
    }
    false
}

/// Is a module the class with a number?
fn is_class_numbered(spaces: &[Space], space: &Space, number: u32) -> Result<bool, NoMemory>
    ensures { IfOk result (λ is. is ≡ ((space_view space.now).source.is_class && (class_number (map space_view spaces.now) (space_view space.now) == number))) }
{
    if !space.source.is_class {
        return Ok(false);
    }
    Ok(class_number(spaces, space)? == number)
}

/// The class with a number, which counts from 1.
#[tactic(auto, using(std::proofs::lemmas::List::drop_more))]
pub fn class_space<'a>(
    spaces: &'a [Space<'a>],
    number: u32,
) -> Result<Option<&'a Space<'a>>, NoMemory>
    ensures { IfOk result (λ found. option_map (λ space. space_view space.now) found ≡ classes.class_space (map space_view spaces.now) number) }
{
    for space in spaces {
        if is_class_numbered(spaces, space, number)? {
            return Ok(Some(space));
        }
    }
    Ok(None)
}

/// The type of the objects whose procedures stand here.
pub fn own_class(scope: Scope) -> Result<DeclaredType, NoMemory>
    ensures { IfOk result (λ of. declared_view of ≡ classes.own_class (scope_view scope.entry)) }
{
    let number = class_number(scope.spaces, scope.here)?;
    Ok(DeclaredType::Plain(ElementType::Class(number)))
}

/// Is it a variable or a procedure?
pub fn is_of_object(what: What) -> bool
    ensures { result ≡ classes.is_of_object (what_view what.entry) }
{
    match what {
        What::Variable(_) | What::Procedure(_) => true,
        _ => false,
    }
}

/// Is an entry of a module seen here? Of a class all but what is Private is seen elsewhere.
pub fn reaches(scope: Scope, space: &Space, entry: &Entry) -> bool
    ensures { result ≡ classes.reaches (scope_view scope.entry) (space_view space.now) (entry_view entry.now) }
{
    if space.source.is_class {
        is_same_space(scope.here, space) || entry.is_public
    } else {
        is_same_space(scope.here, space) || is_seen(space, entry)
    }
}

/// What a name means behind a dot behind an object of a class, with the number of its entry.
#[tactic(auto, using(std::proofs::lemmas::List::drop_more))]
pub fn member_entry<'a>(
    scope: Scope<'a>,
    space: &'a Space<'a>,
    name: &Identifier,
) -> Option<(usize, Entry<'a>)>
    ensures { option_map found_view result ≡ classes.member_entry (scope_view scope.entry) (space_view space.now) name.now }
{
    for (number, entry) in space.entries.iter().enumerate() {
        if entry.name.name == name.name
            && (is_of_object(entry.what) && reaches(scope, space, entry))
        {
            return Some((number, *entry));
        }
    }
    None
}

/// The number of a variable among those of its class, by its entry.
pub fn field_number(space: &Space, number: usize) -> Result<u32, NoMemory>
    ensures { IfOk result (λ field. field ≡ classes.field_number (space_view space.now) number) }
{
    count_before(Counted::Variables, space, number)
}
