// The declaration that a name means, found first in the order procedure, module, project, host and library.
ghost use Rattle.std.specs.Prelude.{◌≡◌, ◌&&◌, ◌||◌, map, option_map};
ghost use Rattle.binder.specs.Scopes.{counts, counts_here, declares, entry_of, first_at, has_dollar, in_modules, in_outside, in_procedure, in_project, is_library_word, is_named, is_of_enum, is_same, is_seen, module_before_dot, module_named, seen_from};
ghost use Rattle.binder.specs.Types.{is_type};
ghost use Rattle.declared_names.specs.Lookup.{found_view, passes};
ghost use Rattle.declared_names.specs.Outside.{the_outside};
ghost use Rattle.declared_names.specs.View.{entry_view, local_view, meant_view, own_view, scope_view, space_view, use_view, what_view};

use crate::entry::{Entry, What};
use crate::local::{Local, Own};
use crate::outside::{is_host_name, is_library_name};
use crate::scope::{Meant, Scope, Use};
use crate::space::Space;
use crate::words::is_word;
use vba_lexer::TypeSuffix;
use vba_words::Identifier;

/// What is looked for in a module by a name: something with a value, as it is used, or a type.
#[derive(Clone, Copy)]
pub enum Wanted {
    Value(Use),
    Type,
}

/// Is an entry found where a name is used? Types and events are no values, and Enums stand before a dot alone.
pub fn counts(how: Use, what: What) -> bool
    ensures { result ≡ counts (use_view how) (what_view what.entry) }
{
    match what {
        What::Enum => how == Use::BeforeDot,
        What::Type(_) | What::Event(_) => false,
        _ => true,
    }
}

/// Is a name of a procedure found where it is used? A Function that is called by its name isn't its result.
pub fn counts_here(how: Use, own: Own) -> bool
    ensures { result ≡ counts_here (use_view how) (own_view own.entry) }
{
    match own {
        Own::Result(_) => how != Use::Called,
        _ => true,
    }
}

/// Is it an Enum or a member of one?
fn is_of_enum(what: What) -> bool
    ensures { result ≡ is_of_enum (what_view what.entry) }
{
    match what {
        What::Enum | What::Member { .. } => true,
        _ => false,
    }
}

/// Is it a Type or an Enum?
pub fn is_type(what: What) -> bool
    ensures { result ≡ is_type (what_view what.entry) }
{
    match what {
        What::Enum | What::Type(_) => true,
        _ => false,
    }
}

/// Do other modules see an entry of a module? They see what is public, and of a class its Enums alone.
pub fn is_seen(space: &Space, entry: &Entry) -> bool
    ensures { result ≡ is_seen (space_view space.now) (entry_view entry.now) }
{
    entry.is_public && (!space.source.is_class || is_of_enum(entry.what))
}

/// Are two modules the same?
pub fn is_same_space(one: &Space, other: &Space) -> bool
    ensures { result ≡ is_same (space_view one.now) (space_view other.now) }
{
    one.number == other.number
}

/// Is an entry what is looked for, in its own module or where others see it?
fn passes(wanted: Wanted, is_own: bool, space: &Space, entry: &Entry) -> bool
    ensures { result ≡ passes wanted is_own (space_view space.now) (entry_view entry.now) }
{
    match wanted {
        Wanted::Value(how) => (is_own || is_seen(space, entry)) && counts(how, entry.what),
        Wanted::Type => is_type(entry.what) && (is_own || is_seen(space, entry)),
    }
}

/// The first entry of a module with a name that is looked for, with its number.
#[tactic(auto, using(std::proofs::lemmas::List::drop_more))]
pub fn first_entry<'a>(
    wanted: Wanted,
    is_own: bool,
    space: &'a Space<'a>,
    name: &Identifier,
) -> Option<(usize, Entry<'a>)>
    ensures { option_map found_view result
        ≡ first_at (λ e. is_named name.now.name e.name && passes wanted is_own (space_view space.now) e) 0 (space_view space.now).entries }
{
    for (number, entry) in space.entries.iter().enumerate() {
        if entry.name.name == name.name && passes(wanted, is_own, space, entry) {
            return Some((number, *entry));
        }
    }
    None
}

/// What a name means in its procedure.
#[tactic(auto, using(std::proofs::lemmas::List::drop_more))]
fn in_procedure<'a>(how: Use, scope: Scope<'a>, name: &Identifier) -> Option<Meant<'a>>
    ensures { option_map meant_view result ≡ in_procedure (use_view how) (scope_view scope.entry) name.now }
{
    for (number, local) in scope.locals.iter().enumerate() {
        if local.name.name == name.name && counts_here(how, local.own) {
            return Some(Meant::OfProcedure {
                number,
                local: *local,
            });
        }
    }
    None
}

/// What a name means in a module, in its own or where others see it.
pub fn entry_of<'a>(
    how: Use,
    is_own: bool,
    space: &'a Space<'a>,
    name: &Identifier,
) -> Option<Meant<'a>>
    ensures { option_map meant_view result
        ≡ entry_of (λ e. (is_own || is_seen (space_view space.now) e) && counts (use_view how) e.what) (space_view space.now) name.now }
{
    match first_entry(Wanted::Value(how), is_own, space, name) {
        None => None,
        Some((number, entry)) => Some(Meant::OfModule {
            space,
            number,
            entry,
        }),
    }
}

/// The module with a name.
#[tactic(auto, using(std::proofs::lemmas::List::drop_more))]
fn module_named<'a>(spaces: &'a [Space<'a>], name: &Identifier) -> Option<Meant<'a>>
    ensures { option_map meant_view result ≡ module_named (map space_view spaces.now) name.now }
{
    for space in spaces {
        if name.name == space.name.fold {
            return Some(Meant::Module(space));
        }
    }
    None
}

/// What a name means in the first module of which others see that.
#[tactic(auto, using(std::proofs::lemmas::List::drop_more))]
fn in_modules<'a>(how: Use, spaces: &'a [Space<'a>], name: &Identifier) -> Option<Meant<'a>>
    ensures { option_map meant_view result
        ≡ in_modules (λ e. counts (use_view how) e.what) (map space_view spaces.now) name.now }
{
    for space in spaces {
        match entry_of(how, false, space, name) {
            Some(meant) => return Some(meant),
            None => {}
        }
    }
    None
}

/// What a name means in a project: before a dot a module, and else what modules show.
fn in_project<'a>(how: Use, scope: Scope<'a>, name: &Identifier) -> Option<Meant<'a>>
    ensures { option_map meant_view result ≡ in_project (use_view how) (scope_view scope.entry) name.now }
{
    if how == Use::BeforeDot {
        if let Some(meant) = module_named(scope.spaces, name) {
            return Some(meant);
        }
    }
    in_modules(how, scope.spaces, name)
}

/// Is a name written with `$`?
pub fn has_dollar(name: &Identifier) -> bool
    ensures { result ≡ has_dollar name.now }
{
    match name.suffix {
        Some(TypeSuffix::Text) => true,
        _ => false,
    }
}

/// Is it the word VBA before a dot?
fn is_library_word(how: Use, name: &Identifier) -> bool
    ensures { result ≡ is_library_word (use_view how) name.now }
{
    how == Use::BeforeDot && is_word(name.name.units(), b"vba")
}

/// What a name means outside of a project.
fn in_outside<'a>(how: Use, name: &Identifier) -> Option<Meant<'a>>
    ensures { option_map meant_view result ≡ in_outside (use_view how) the_outside name.now }
{
    if is_host_name(&name.name) {
        Some(Meant::OfHost)
    } else if is_library_name(&name.name, has_dollar(name)) {
        Some(Meant::OfLibrary)
    } else if is_library_word(how, name) {
        Some(Meant::Library)
    } else {
        None
    }
}

/// The declaration of a name; none where it is declared nowhere.
pub fn declares<'a>(how: Use, scope: Scope<'a>, name: &Identifier) -> Option<Meant<'a>>
    ensures { option_map meant_view result ≡ declares (use_view how) (scope_view scope.entry) name.now }
{
    if let Some(meant) = in_procedure(how, scope, name) {
        return Some(meant);
    }
    if let Some(meant) = entry_of(how, true, scope.here, name) {
        return Some(meant);
    }
    if let Some(meant) = in_project(how, scope, name) {
        return Some(meant);
    }
    in_outside(how, name)
}
