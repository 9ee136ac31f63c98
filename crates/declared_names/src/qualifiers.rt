// Names behind a module, an Enum and VBA.
ghost use Rattle.std.specs.Prelude.{◌≡◌, suc, drop, map, option_map};
ghost use Rattle.binder.specs.Scopes.{as_qualifier, behind, enum_behind, is_member, library_behind, member_among, module_qualifier};
ghost use Rattle.declared_names.specs.Lookup.{found_view};
ghost use Rattle.declared_names.specs.Outside.{the_outside};
ghost use Rattle.declared_names.specs.View.{entry_view, meant_view, qualifier_view, scope_view, space_view, use_view, what_view};

use crate::entry::{Entry, What};
use crate::lookup::{entry_of, has_dollar, is_same_space};
use crate::outside::is_library_name;
use crate::scope::{Meant, Qualifier, Scope, Use};
use crate::space::Space;
use vba_words::Identifier;

/// Is it a member of an Enum?
fn is_member(what: What) -> bool
    ensures { result ≡ is_member (what_view what.entry) }
{
    match what {
        What::Member { .. } => true,
        _ => false,
    }
}

/// A member of the Enum whose members begin at a number of the entries.
#[tactic(auto, using(std::proofs::lemmas::List::drop_more))]
fn member_among<'a>(
    start: usize,
    entries: &'a [Entry<'a>],
    name: &Identifier,
) -> Option<(usize, Entry<'a>)>
    ensures { option_map found_view result ≡ member_among start (map entry_view (drop start entries.now)) name.now }
{
    for number in start..entries.len() {
        let entry = entries[number];
        if !is_member(entry.what) {
            return None;
        }
        if entry.name.name == name.name {
            return Some((number, entry));
        }
    }
    None
}

/// A member of the Enum with a number, by its name.
#[tactic(auto, using(crate::proofs::Walks::drop_map))]
fn member_of<'a>(
    space: &'a Space<'a>,
    number: usize,
    name: &Identifier,
) -> Option<(usize, Entry<'a>)>
    ensures { option_map found_view result
        ≡ member_among (suc number) (drop (suc number) (space_view space.now).entries) name.now }
{
    let entries = space.entries.as_slice();
    if number < entries.len() {
        member_among(number + 1, entries, name)
    } else {
        None
    }
}

/// What a name means behind VBA.
fn library_behind<'a>(name: &Identifier) -> Option<Meant<'a>>
    ensures { option_map meant_view result ≡ library_behind the_outside name.now }
{
    if is_library_name(&name.name, has_dollar(name)) {
        Some(Meant::OfLibrary)
    } else {
        None
    }
}

/// What a name means behind a module.
fn behind_module<'a>(
    how: Use,
    scope: Scope<'a>,
    space: &'a Space<'a>,
    name: &Identifier,
) -> Option<Meant<'a>>
    ensures { option_map meant_view result
        ≡ behind (use_view how) (scope_view scope.entry) (module_qualifier (space_view space.now)) name.now }
{
    let is_own = is_same_space(scope.here, space);
    entry_of(how, is_own, space, name)
}

/// What a name means behind a module, an Enum or VBA.
pub fn behind<'a>(
    how: Use,
    scope: Scope<'a>,
    qualifier: Qualifier<'a>,
    name: &Identifier,
) -> Option<Meant<'a>>
    ensures { option_map meant_view result
        ≡ behind (use_view how) (scope_view scope.entry) (qualifier_view qualifier.entry) name.now }
{
    match qualifier {
        Qualifier::Module(space) => behind_module(how, scope, space, name),
        Qualifier::Enum { space, number } => match member_of(space, number, name) {
            None => None,
            Some((number, entry)) => Some(Meant::OfModule {
                space,
                number,
                entry,
            }),
        },
        Qualifier::Library => library_behind(name),
    }
}

/// Where a name behind it is looked for, if it only says that.
pub fn as_qualifier<'a>(meant: Option<Meant<'a>>) -> Option<Qualifier<'a>>
    ensures { option_map qualifier_view result ≡ as_qualifier (option_map meant_view meant.entry) }
{
    match meant {
        Some(Meant::Module(space)) => Some(Qualifier::Module(space)),
        Some(Meant::Library) => Some(Qualifier::Library),
        Some(
            Meant::OfModule {
                space,
                number,
                entry: Entry {
                    what: What::Enum,
                    ..
                },
            },
        ) => Some(Qualifier::Enum { space, number }),
        _ => None,
    }
}

/// The Enum behind a module.
pub fn enum_behind<'a>(
    scope: Scope<'a>,
    qualifier: Option<Qualifier<'a>>,
    name: &Identifier,
) -> Option<Qualifier<'a>>
    ensures { option_map qualifier_view result
        ≡ enum_behind (scope_view scope.entry) (option_map qualifier_view qualifier.entry) name.now }
{
    match qualifier {
        Some(Qualifier::Module(space)) => {
            as_qualifier(behind(Use::BeforeDot, scope, Qualifier::Module(space), name))
        }
        _ => None,
    }
}
