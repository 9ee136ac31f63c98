//! Variables, steps and names of For, For Each and Next.

ghost use Rattle.std.specs.Prelude.{◌≡◌, ◌||◌, OnOk, option_and_then, option_map};
ghost use Rattle.bound_calls.specs.bound_declarations.specs.constant_values.specs.declared_names.specs.binder.specs.Constants.{is_variant};
ghost use Rattle.bound_calls.specs.bound_forms.specs.StatementsBound as plain;
ghost use Rattle.bound_calls.specs.bound_declarations.specs.constant_values.specs.declared_names.specs.binder.specs.Types.{is_object};
ghost use Rattle.bound_project.specs.DraftView.{draft_view};
ghost use Rattle.bound_project.specs.View.{declared_view, element_view};
ghost use Rattle.statement_nodes.specs.Actions.{Walks, holds_types, is_enumerated};
ghost use Rattle.bound_calls.specs.bound_declarations.specs.constant_values.specs.declared_names.specs.module_parts.specs.View.{part_view};
ghost use Rattle.statement_numbers.specs.View.{part_at, standing_view};
ghost use Rattle.vba_tree.specs.View.{block_line_view, step_view};

use crate::innermost::{innermost_block, line_of};
use bound_calls::bound_declarations::constant_values::declared_names::is_object;
use bound_calls::bound_declarations::constant_values::declared_names::module_parts::{
    Part, expression_place,
};
use bound_calls::{is_variant, nowhere, push_node};
use bound_project::{DeclaredType, Draft, ElementType, NodeKind};
use statement_numbers::{Opened, Standing};
use vba_base::{NoMemory, Place, Refusal};
use vba_tree::{BlockLine, StepClause};
use vba_words::Identifier;

/// The place where the step of a For is told, where one is written.
pub fn step_place(step: &Option<StepClause>) -> Option<Place>
    ensures { result ≡ plain.step_place (option_map step_view step.now) }
{
    match step {
        Some(step) => Some(expression_place(&step.value)),
        None => None,
    }
}

/// Does a For count with a variable of a type? It does with numbers and with what a Variant has.
pub fn is_counting(of: DeclaredType) -> bool
    ensures { result ≡ plain.is_counting (declared_view of) }
{
    match of {
        DeclaredType::Plain(of) => is_counting_element(of),
        _ => false,
    }
}

fn is_counting_element(of: ElementType) -> bool
    ensures { result ≡ plain.is_counting (element_view of) }
{
    match of {
        ElementType::Byte
        | ElementType::Integer
        | ElementType::Long
        | ElementType::LongLong
        | ElementType::Currency
        | ElementType::Variant => true,
        _ => false,
    }
}

/// Has a variable of a type a value of any type or an object?
fn may_hold(of: DeclaredType) -> bool
    ensures { result ≡ (is_variant (declared_view of) || is_object (declared_view of)) }
{
    is_variant(of) || is_object(of)
}

/// Does a For Each go over what has one type with a variable of another? Over an array it goes with a Variant, and over
/// other things also with an object.
#[tactic(auto, using(crate::proofs::Broken::over_array, crate::proofs::Broken::over_plain))]
pub fn goes_over(control: DeclaredType, group: DeclaredType) -> bool
    ensures { result ≡ plain.goes_over (declared_view control) (declared_view group) }
{
    match group {
        DeclaredType::ArrayOf(_) => is_variant(control),
        DeclaredType::Plain(_) => may_hold(control),
    }
}

/// Is a type one of arrays of a Type's values?
fn holds_types(of: DeclaredType) -> bool
    ensures { result ≡ holds_types (declared_view of) }
{
    match of {
        DeclaredType::ArrayOf(ElementType::UserType(_)) => true,
        _ => false,
    }
}

/// Is a value of a type walked by what its enumerator gives, where it may be an object of a class?
#[tactic(auto, using(crate::proofs::Walking::array_stays, crate::proofs::Walking::plain_gives))]
fn is_enumerated(of: DeclaredType, may_be: bool) -> bool
    ensures { result ≡ is_enumerated (declared_view of) may_be }
{
    match of {
        DeclaredType::ArrayOf(_) => false,
        DeclaredType::Plain(_) => may_be,
    }
}

/// Pushes behind what a For Each goes over, which was pushed, what it is walked by: an array of a Type's values is marked, as
/// a Variant takes none, and what may be an object of a class gives way to the Collection of its enumerator.
#[tactic(auto, using(crate::proofs::Walking::walks_types, crate::proofs::Walking::walks_objects, crate::proofs::Walking::walks_others))]
pub fn push_walked(
    draft: &mut Draft,
    of: DeclaredType,
    place: Place,
    may_be: bool,
) -> Result<(), NoMemory>
    ensures { OnOk result (Walks may_be of place (draft_view draft.old) (draft_view draft.new)) }
{
    let variant = DeclaredType::Plain(ElementType::Variant);
    if holds_types(of) {
        let broken = NodeKind::Marked {
            broken: Refusal { rule: 27, place },
            values: 1,
        };
        return push_node(draft, broken, variant, place);
    }
    if is_enumerated(of, may_be) {
        return push_node(draft, NodeKind::Enumerated, variant, place);
    }
    Ok(())
}

/// The name of the loop that a line opens.
fn name_of(line: &BlockLine) -> Option<&Identifier>
    ensures { option_map (λ name. name.now) result ≡ plain.counter_of (block_line_view line.now) }
{
    match line {
        BlockLine::For { counter, .. } => Some(counter),
        BlockLine::ForEach { element, .. } => Some(element),
        _ => None,
    }
}

/// The name of the loop that a part opens.
fn name_at(part: &Part) -> Option<&Identifier>
    ensures { option_map (λ name. name.now) result ≡ option_and_then plain.counter_of (plain.line_of (part_view part.now)) }
{
    match line_of(part) {
        Some(line) => name_of(line),
        None => None,
    }
}

/// The name of the loop that a block is.
#[tactic(auto, using(crate::proofs::Parts::part_there, crate::proofs::Parts::no_part_there))]
fn opened_name(body: &[Part], opened: Opened) -> Option<&Identifier>
    ensures { option_map (λ name. name.now) result ≡ option_and_then plain.counter_of (plain.line_of (part_at body.now opened.line)) }
{
    match body.get(opened.line) {
        Some(part) => name_at(part),
        None => None,
    }
}

/// The name of the innermost loop.
pub fn loop_name<'a>(standing: Standing<'a>) -> Option<&'a Identifier>
    ensures { option_map (λ name. name.now) result ≡ plain.loop_name (standing_view standing.entry).around }
{
    match innermost_block(standing) {
        Some(opened) => opened_name(standing.body, opened),
        None => None,
    }
}

/// Is a name behind Next another one than that of the loop?
pub fn is_other_name(name: &Option<Identifier>, own: Option<&Identifier>) -> bool
    ensures { result ≡ plain.is_other_name name.now (option_map (λ x. x.now) own.entry) }
{
    match name {
        None => false,
        Some(name) => match own {
            None => false,
            Some(own) => !(name.name == own.name),
        },
    }
}

/// The place of the name behind Next, where one is written.
pub fn name_place(name: &Option<Identifier>) -> Place
    ensures { result ≡ plain.name_place name.now }
{
    match name {
        None => nowhere(),
        Some(name) => name.token.place,
    }
}
