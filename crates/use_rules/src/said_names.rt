//! S17 and S23 at what is said: names that are unknown, and what is left out.

ghost use Rattle.std.specs.Prelude.{◌≡◌, List, map, OnOk, flat_map};
ghost use Rattle.std.specs.List.{list_any};
ghost use Rattle.declared_names.specs.binder.specs.Scopes.{plainly};
ghost use Rattle.declared_names.specs.binder.specs.Violations as violations;
ghost use Rattle.declared_names.specs.View.{entry_view, scope_view};
ghost use Rattle.use_rules.specs.Asked.{at_name, at_raised, at_type, rule_of, said_asked, said_faults};
ghost use Rattle.use_rules.specs.Found.{noted};
ghost use Rattle.said_parts.specs.View.{all_said, said_view};

use crate::left_out::note_suffix_asked;
use crate::names_item::name_refusal;
use crate::names_walk::{note_names, note_names_in_arguments};
use crate::noting::note_place;
use crate::question::Question;
use crate::said_types::place_of_type;
use declared_names::{Entry, Scope, TypeMeant, Use, What, type_meant};
use refusal_order::note_both;
use said_parts::Said;
use std::alloc::Global;
use vba_base::{NoMemory, Refusal};
use vba_expression::TypeName;
use vba_words::Identifier;

/// Is an entry the event of a name?
fn is_event(name: &Identifier, entry: Entry) -> bool
    ensures { result ≡ violations.is_event name.now (entry_view entry.entry) }
{
    match entry.what {
        What::Event(_) => entry.name.name == name.name,
        What::Variable(_)
        | What::Constant(_)
        | What::Enum
        | What::Member { .. }
        | What::Type(_)
        | What::Procedure(_) => false,
    }
}

/// Is an event of the name among entries?
fn has_event(name: &Identifier, entries: &[Entry]) -> bool
    ensures { result ≡ list_any (violations.is_event name.now) (map entry_view entries.now) }
{
    for entry in entries {
        if is_event(name, *entry) {
            return true;
        }
    }
    false
}

/// Notes an event that the module hasn't.
#[tactic(auto, using(crate::proofs::Noted::unless_if))]
fn note_raised(scope: Scope, question: Question, name: &Identifier, least: &mut Option<Refusal>)
    ensures { least.new ≡ noted (rule_of question) least.old (at_raised (scope_view scope.entry) question name.now) }
{
    match question {
        Question::IsUnknown { .. } => {
            let broken = !has_event(name, scope.here.entries.as_slice());
            note_place(least, broken, 17, name.token.place);
        }
        Question::IsLeftOut => {}
    }
}

/// Notes a type that the language leaves out.
fn note_type(
    scope: Scope,
    question: Question,
    name: &TypeName,
    least: &mut Option<Refusal>,
) -> Result<(), NoMemory>
    ensures { OnOk result (least.new ≡ noted (rule_of question) least.old (at_type (scope_view scope.entry) question name.now)) }
{
    match question {
        Question::IsUnknown { .. } => Ok(()),
        Question::IsLeftOut => {
            if let Some(TypeMeant::LeftOut) = type_meant(scope, name)? {
                note_place(least, true, 23, place_of_type(name));
            }
            Ok(())
        }
    }
}

/// Notes the variable of a loop.
#[tactic(auto, using(crate::proofs::Noted::noted_alone))]
fn note_counter(scope: Scope, question: Question, name: &Identifier, least: &mut Option<Refusal>)
    ensures { least.new ≡ noted (rule_of question) least.old (at_name (scope_view scope.entry) question plainly name.now) }
{
    note_both(least, name_refusal(scope, question, Use::Plainly, name));
}

/// Notes where the answer is yes in what is said.
#[tactic(auto, using(crate::proofs::SaidFound::arguments_asked))]
fn note_names_said<'a>(
    alloc: Global,
    scope: Scope<'a>,
    question: Question,
    said: Said<'a>,
    least: &mut Option<Refusal>,
) -> Result<(), NoMemory>
    ensures { OnOk result (least.new ≡ noted (rule_of question) least.old (flat_map (said_asked (scope_view scope.entry) question) (said_view said.entry))) }
{
    match said {
        Said::ConstantExpression(expression) | Said::Expression(expression) => {
            note_names(alloc, scope, question, Use::Plainly, expression, least)
        }
        Said::Redimmed { place, .. } => {
            note_names(alloc, scope, question, Use::Plainly, place, least)
        }
        Said::Called(expression) => {
            note_names(alloc, scope, question, Use::Called, expression, least)
        }
        Said::Arguments(arguments) => {
            note_names_in_arguments(alloc, scope, question, arguments, least)
        }
        Said::TypeNamed(name) => note_type(scope, question, name, least),
        Said::Counter(name) => {
            note_counter(scope, question, name, least);
            Ok(())
        }
        Said::Raises(name) => {
            note_raised(scope, question, name, least);
            Ok(())
        }
        Said::Declares { variable, .. } => {
            note_suffix_asked(question, &variable.name, least);
            Ok(())
        }
        Said::DeclaresConstant(constant) => {
            note_suffix_asked(question, &constant.name, least);
            Ok(())
        }
        Said::NewNamed(_) | Said::GoesTo(_) => Ok(()),
    }
}

/// Notes where all that is said breaks the rule that is asked for: S17, inside a With block or not, or S23.
#[tactic(auto, using(crate::proofs::AskedRules::rules_asked))]
pub fn note_all_names<'a>(
    alloc: Global,
    scope: Scope<'a>,
    question: Question,
    said: &[Said<'a>],
    least: &mut Option<Refusal>,
) -> Result<(), NoMemory>
    ensures { OnOk result (least.new ≡ noted (rule_of question) least.old (flat_map (said_faults (scope_view scope.entry) question) (all_said said.now))) }
{
    for one in said {
        note_names_said(alloc, scope, question, *one, least)?;
    }
    Ok(())
}
