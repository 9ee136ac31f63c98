//! S15: two declarations of one name in one scope, but for the procedures of one property.

ghost use Rattle.std.specs.Prelude.{◌≡◌, [], ◌∷◌, ◌++◌, List, map, reverse, suc, IfOk, OnOk, bytes_eq, flat_map};
ghost use Rattle.std.specs.List.{list_any};
ghost use Rattle.constant_values.specs.declared_names.specs.binder.specs.Violations as violations;
ghost use Rattle.constant_values.specs.declared_names.specs.binder.specs.Violations.{clashes, later, place_of_name, same_name};
ghost use Rattle.constant_values.specs.declared_names.specs.View.{entry_view, what_view, space_view};
ghost use Rattle.use_rules.specs.Found.{noted};

use constant_values::declared_names::{Entry, Space, What, is_same_space};
use use_rules::note_place;
use vba_base::{NoMemory, Place, Refusal};
use vba_tree::ProcedureWords;
use vba_words::Identifier;

/// Is a name one of these?
fn is_among(name: &Identifier, others: &[&Identifier]) -> bool
    ensures { result ≡ list_any (same_name name.now) (map (λ x. x.now) others.now) }
{
    for other in others {
        if name.name == other.name {
            return true;
        }
    }
    false
}

/// Notes each name that stands before.
pub fn note_twice(names: &[&Identifier], least: &mut Option<Refusal>)
    ensures { least.new ≡ noted 15 least.old (later same_name place_of_name [] (map (λ x. x.now) names.now)) }
{
    for (number, name) in names.iter().enumerate() {
        let broken = is_among(name, &names[..number]);
        note_place(least, broken, 15, name.token.place);
    }
}

/// Are they two of Get, Let and Set?
fn are_parts(one: ProcedureWords, other: ProcedureWords) -> bool
    ensures { result ≡ violations.are_parts one other }
{
    match (one, other) {
        (
            ProcedureWords::PropertyGet { .. },
            ProcedureWords::PropertyLet { .. } | ProcedureWords::PropertySet { .. },
        )
        | (
            ProcedureWords::PropertyLet { .. },
            ProcedureWords::PropertyGet { .. } | ProcedureWords::PropertySet { .. },
        )
        | (
            ProcedureWords::PropertySet { .. },
            ProcedureWords::PropertyGet { .. } | ProcedureWords::PropertyLet { .. },
        ) => true,
        _ => false,
    }
}

/// Are they procedures of one property?
fn are_of_one_property(one: What, other: What) -> bool
    ensures { result ≡ violations.of_one_property (what_view one.entry) (what_view other.entry) }
{
    match (one, other) {
        (What::Procedure(one), What::Procedure(other)) => {
            are_parts(one.header.words, other.header.words)
        }
        _ => false,
    }
}

/// May two entries not stand in one module?
fn clash(one: Entry, other: Entry) -> bool
    ensures { result ≡ clashes (entry_view one.entry) (entry_view other.entry) }
{
    one.name.name == other.name.name && !are_of_one_property(one.what, other.what)
}

/// Does an entry clash with one of these?
fn clashes_among(entry: Entry, others: &[Entry]) -> bool
    ensures { result ≡ list_any (clashes (entry_view entry.entry)) (map entry_view others.now) }
{
    for other in others {
        if clash(entry, *other) {
            return true;
        }
    }
    false
}

/// Notes each entry that clashes with one before it.
pub fn note_clashes(entries: &[Entry], least: &mut Option<Refusal>)
    ensures { least.new ≡ noted 15 least.old (later clashes (λ e. place_of_name e.name) [] (map entry_view entries.now)) }
{
    for (number, entry) in entries.iter().enumerate() {
        let broken = clashes_among(*entry, &entries[..number]);
        note_place(least, broken, 15, entry.name.token.place);
    }
}
