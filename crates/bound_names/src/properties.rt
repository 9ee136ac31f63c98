//! Properties of a module: their Gets, their Lets and their Sets, by their names.

ghost use Rattle.std.specs.Prelude.{◌≡◌, IfSome, MatchOption, option_map};
ghost use Rattle.bound_members.specs.bound_calls.specs.bound_declarations.specs.constant_values.specs.declared_names.specs.Lookup.{found_view};
ghost use Rattle.bound_members.specs.bound_calls.specs.bound_declarations.specs.constant_values.specs.declared_names.specs.View.{scope_view, space_view, what_view, written_view};
ghost use Rattle.bound_names.specs.Callee.{NoWriter, WriterOf, property_in};
ghost use Rattle.bound_names.specs.Properties.{IsEntry, first_wanted, property_with, wants, test_of};
ghost use Rattle.bound_names.specs.PropertyView.{row_view};

use bound_members::bound_calls::bound_declarations::constant_values::declared_names::{
    Entry, Scope, Space, What, Written, reaches,
};
use bound_members::bound_calls::{Property, Term};
use vba_tree::ProcedureWords;
use vba_words::Identifier;

/// A procedure of a property: its Get, its Let or its Set.
#[derive(Clone, Copy)]
pub enum Part {
    Get,
    Let,
    Set,
}

/// Is it such a procedure?
fn is_wanted(part: Part, words: ProcedureWords) -> bool
    ensures { result ≡ test_of part words }
{
    match part {
        Part::Get => matches!(words, ProcedureWords::PropertyGet { .. }),
        Part::Let => matches!(words, ProcedureWords::PropertyLet { .. }),
        Part::Set => matches!(words, ProcedureWords::PropertySet { .. }),
    }
}

/// The same of what an entry is.
fn wants<'a>(part: Part, what: What<'a>) -> bool
    ensures { result ≡ wants part (what_view what.entry) }
{
    match what {
        What::Procedure(written) => is_wanted(part, written.header.words),
        _ => false,
    }
}

/// The first entry of a module that has a name and is such a procedure.
#[tactic(auto, using(std::proofs::lemmas::List::drop_more))]
fn first_wanted<'a>(
    part: Part,
    scope: Scope<'a>,
    space: &'a Space<'a>,
    name: &Identifier,
) -> Option<(usize, Entry<'a>)>
    ensures { option_map found_view result ≡ first_wanted part (scope_view scope.entry) (space_view space.now) name.now }
{
    for (number, entry) in space.entries.iter().enumerate() {
        if entry.name.name == name.name
            && (reaches(scope, space, entry) && wants(part, entry.what))
        {
            return Some((number, *entry));
        }
    }
    None
}

/// The Get, the Let or the Set of a property.
#[tactic(auto, using(crate::proofs::Lookups::property_found))]
pub fn property_with<'a>(
    part: Part,
    scope: Scope<'a>,
    space: &'a Space<'a>,
    name: &Identifier,
) -> Option<(usize, Written<'a>)>
    ensures is { option_map row_view result ≡ property_with part (scope_view scope.entry) (space_view space.now) name.now }
    ensures entry { IfSome result (λ found. IsEntry (space_view space.now) found.0 (written_view found.1)) }
{
    let Some((number, entry)) = first_wanted(part, scope, space, name) else {
        return None;
    };
    match entry.what {
        What::Procedure(written) => Some((number, written)),
        _ => None,
    }
}

/// A property that is assigned to, and its Let or its Set: the number of its entry, and how it is written.
#[derive(Clone, Copy)]
pub struct Writer<'a> {
    pub property: Property<'a>,
    pub number: usize,
    pub written: Written<'a>,
}

/// The property that a term is.
fn property_in<'a>(term: Term<'a>) -> Option<Property<'a>>
    ensures { result ≡ property_in term.entry }
{
    match term {
        Term::Routine(routine) => Some(Property {
            receiver: routine.receiver,
            space: routine.space,
            written: routine.written,
        }),
        Term::Property(property) => Some(property),
        _ => None,
    }
}

/// The Let or the Set of a property.
fn part_of<'a>(part: Part, scope: Scope<'a>, term: Term<'a>) -> Option<Writer<'a>>
    ensures { MatchOption result (NoWriter part (scope_view scope.entry) term.entry) (λ writer. WriterOf part (scope_view scope.entry) term.entry writer) }
{
    let Some(property) = property_in(term) else {
        return None;
    };
    let Some((number, written)) = property_with(
        part,
        scope,
        property.space,
        &property.written.header.name,
    ) else {
        return None;
    };
    Some(Writer {
        property,
        number,
        written,
    })
}

/// The Let of a property.
pub fn writer_of<'a>(scope: Scope<'a>, term: Term<'a>) -> Option<Writer<'a>>
    ensures { MatchOption result (NoWriter Part.Let (scope_view scope.entry) term.entry) (λ writer. WriterOf Part.Let (scope_view scope.entry) term.entry writer) }
{
    part_of(Part::Let, scope, term)
}

/// The Set of a property.
pub fn setter_of<'a>(scope: Scope<'a>, term: Term<'a>) -> Option<Writer<'a>>
    ensures { MatchOption result (NoWriter Part.Set (scope_view scope.entry) term.entry) (λ writer. WriterOf Part.Set (scope_view scope.entry) term.entry writer) }
{
    part_of(Part::Set, scope, term)
}
