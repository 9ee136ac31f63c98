//! S14 at the parts of a module: headers of procedures and events, and bounds.

ghost use Rattle.std.specs.Prelude.{◌≡◌, flat_map, option_map};
ghost use Rattle.module_parts.specs.View.{part_view, parts_view};
ghost use Rattle.module_rules.specs.Found.{noted, has_some};
ghost use Rattle.vba_module.specs.Headers as headers;
ghost use Rattle.vba_tree.specs.View.{parameters_view, view};

use crate::bounds::note_bounds;
use crate::noting::note_place;
use crate::parameters::note_parameters;
use crate::statements::{Check, note_statement};
use crate::types::OwnTypes;
use module_parts::Part;
use vba_base::Refusal;
use vba_lexer::Token;
use vba_tree::{LineTree, Parameters, ProcedureWords};

/// The word Property of a Property Let or Set.
fn value_word(words: ProcedureWords) -> Option<Token>
    ensures { result ≡ headers.value_word words }
{
    match words {
        ProcedureWords::PropertyLet { property_word, .. }
        | ProcedureWords::PropertySet { property_word, .. } => Some(property_word),
        ProcedureWords::Sub(_) | ProcedureWords::Function(_) | ProcedureWords::PropertyGet { .. } =>
            None,
    }
}

/// Has a header parameters?
fn has_parameters(parameters: &Option<Parameters>) -> bool
    ensures { result ≡ has_some (headers.parameters_of (option_map parameters_view parameters.now)) }
{
    match parameters {
        Some(list) => list.parameters.is_some(),
        None => false,
    }
}

/// A Property Let or Set has a parameter for its value.
#[tactic(auto, using(crate::proofs::Faults::value_faults_are))]
fn note_value(word: Option<Token>, parameters: &Option<Parameters>, least: &mut Option<Refusal>)
    ensures { least.new ≡ noted 14 least.old (headers.value_faults word (headers.parameters_of (option_map parameters_view parameters.now))) }
{
    if let Some(word) = word {
        note_place(least, !has_parameters(parameters), 14, word.place);
    }
}

/// Notes S14 at a line that is no statements, where these are the names of the own Types.
#[tactic(auto, using(crate::proofs::Noted::noted_append))]
fn note_line(line: &LineTree, types: &OwnTypes, least: &mut Option<Refusal>)
    ensures { least.new ≡ noted 14 least.old (headers.line_faults (headers.is_named types.now.module_name types.now.names.items) (view line.now)) }
{
    match line {
        LineTree::ProcedureHeader(header) => {
            let word = value_word(header.words);
            note_value(word, &header.parameters, least);
            note_parameters(&header.parameters, word.is_some(), types, least);
        }
        LineTree::Event(event) => note_parameters(&event.parameters, false, types, least),
        LineTree::TypeMember(member) => note_bounds(&member.dims, least),
        _ => {}
    }
}

/// Notes S14 at a part.
fn note_part(part: &Part, types: &OwnTypes, least: &mut Option<Refusal>)
    ensures { least.new ≡ noted 14 least.old (headers.header_faults (headers.is_named types.now.module_name types.now.names.items) (part_view part.now)) }
{
    match part {
        Part::Label(_) => {}
        Part::Statement(statement) => note_statement(Check::Bounds, statement, least),
        Part::WholeLine(line) => note_line(line, types, least),
    }
}

/// Notes S14 at parts, where these are the names of the own Types.
pub fn note_headers(parts: &[Part], types: &OwnTypes, least: &mut Option<Refusal>)
    ensures { least.new ≡ noted 14 least.old (flat_map (headers.header_faults (headers.is_named types.now.module_name types.now.names.items)) (parts_view parts.now)) }
{
    for part in parts {
        note_part(part, types, least);
    }
}
