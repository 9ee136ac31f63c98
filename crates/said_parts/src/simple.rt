//! What statements say that are no single-line Ifs.

ghost use Rattle.std.specs.Prelude.{◌≡◌, [], ◌∷◌, ◌++◌, OnOk, map, flat_map, option_map, Bool, true, false};
ghost use Rattle.binder.specs.Declarations as declarations;
ghost use Rattle.binder.specs.Said as plain;
ghost use Rattle.said_parts.specs.View.{all_said};
ghost use Rattle.vba_expression.specs.View as expressions;
ghost use Rattle.vba_module.specs.Headers.{all_of};
ghost use Rattle.vba_tree.specs.View as views;

use crate::blocks::push_block;
use crate::declarations::{push_dim, push_local, push_local_constant};
use crate::said::{Said, push_said};
use vba_base::NoMemory;
use vba_expression::Expression;
use vba_tree::{
    Constant, DeclaredType, Dim, ErrorHandling, EventArguments, Listed, PrintItem, ReDimArray,
    ResumeTarget, SimpleStatement, TypeClause, Variable, VariableWord,
};

/// Is it the word Static?
fn is_static_word(word: VariableWord) -> bool
    ensures { result ≡ declarations.is_static_word word }
{
    match word {
        VariableWord::Static => true,
        VariableWord::Dim | VariableWord::Public | VariableWord::Private | VariableWord::Global =>
            false,
    }
}

/// Variables.
fn push_locals<'a>(
    said: &mut Vec<Said<'a>>,
    variables: &'a Listed<Variable>,
    is_static: bool,
) -> Result<(), NoMemory>
    ensures { OnOk result (all_said said.new.items ≡ all_said said.old.items
        ++ flat_map (plain.variable_declared is_static) (all_of (views.listed_view views.variable_view variables.now))) }
{
    push_local(said, &variables.first, is_static)?;
    for next in &variables.others {
        push_local(said, &next.item, is_static)?;
    }
    Ok(())
}

/// Constants.
fn push_local_constants<'a>(
    said: &mut Vec<Said<'a>>,
    constants: &'a Listed<Constant>,
) -> Result<(), NoMemory>
    ensures { OnOk result (all_said said.new.items ≡ all_said said.old.items
        ++ flat_map plain.constant_declared (all_of (views.listed_view views.constant_view constants.now))) }
{
    push_local_constant(said, &constants.first)?;
    for next in &constants.others {
        push_local_constant(said, &next.item)?;
    }
    Ok(())
}

/// The type behind a ReDim, whose length is evaluated.
fn push_redim_type<'a>(
    said: &mut Vec<Said<'a>>,
    clause: &'a Option<TypeClause>,
) -> Result<(), NoMemory>
    ensures { OnOk result (all_said said.new.items ≡ all_said said.old.items
        ++ plain.redim_type_said (option_map views.type_clause_view clause.now)) }
{
    match clause {
        Some(
            TypeClause {
                declared_type: DeclaredType::Named(name),
                ..
            },
        ) => push_said(said, Said::TypeNamed(name)),
        Some(
            TypeClause {
                declared_type: DeclaredType::FixedText { length, .. },
                ..
            },
        ) => push_said(said, Said::Expression(length)),
        None => Ok(()),
    }
}

/// Bounds that are evaluated.
fn push_dims<'a>(said: &mut Vec<Said<'a>>, dims: &'a Listed<Dim>) -> Result<(), NoMemory>
    ensures { OnOk result (all_said said.new.items ≡ all_said said.old.items
        ++ flat_map (plain.dim_said plain.expression) (all_of (views.listed_view views.dim_view dims.now))) }
{
    push_dim(said, &dims.first)?;
    for next in &dims.others {
        push_dim(said, &next.item)?;
    }
    Ok(())
}

/// An array of a ReDim.
fn push_array<'a>(said: &mut Vec<Said<'a>>, array: &'a ReDimArray) -> Result<(), NoMemory>
    ensures { OnOk result (all_said said.new.items ≡ all_said said.old.items ++ plain.array_said (views.array_view array.now)) }
{
    let redimmed = Said::Redimmed {
        place: &array.place,
        type_clause: &array.type_clause,
    };
    push_said(said, redimmed)?;
    push_dims(said, &array.dims)?;
    push_redim_type(said, &array.type_clause)
}

/// The arrays of a ReDim.
fn push_arrays<'a>(said: &mut Vec<Said<'a>>, arrays: &'a Listed<ReDimArray>) -> Result<(), NoMemory>
    ensures { OnOk result (all_said said.new.items ≡ all_said said.old.items
        ++ flat_map plain.array_said (all_of (views.listed_view views.array_view arrays.now))) }
{
    push_array(said, &arrays.first)?;
    for next in &arrays.others {
        push_array(said, &next.item)?;
    }
    Ok(())
}

/// The places that are erased.
fn push_places<'a>(said: &mut Vec<Said<'a>>, places: &'a Listed<Expression>) -> Result<(), NoMemory>
    ensures { OnOk result (all_said said.new.items ≡ all_said said.old.items
        ++ map plain.expression (all_of (views.listed_view expressions.view places.now))) }
{
    push_said(said, Said::Expression(&places.first))?;
    for next in &places.others {
        push_said(said, Said::Expression(&next.item))?;
    }
    Ok(())
}

/// The label of an On Error.
fn push_handling<'a>(said: &mut Vec<Said<'a>>, handling: &'a ErrorHandling) -> Result<(), NoMemory>
    ensures { OnOk result (all_said said.new.items ≡ all_said said.old.items ++ plain.handling_said handling.now) }
{
    match handling {
        ErrorHandling::GoTo { label, .. } => push_said(said, Said::GoesTo(label)),
        _ => Ok(()),
    }
}

/// The label of a Resume.
fn push_target<'a>(
    said: &mut Vec<Said<'a>>,
    target: &'a Option<ResumeTarget>,
) -> Result<(), NoMemory>
    ensures { OnOk result (all_said said.new.items ≡ all_said said.old.items ++ plain.target_said target.now) }
{
    match target {
        Some(ResumeTarget::Label(label)) => push_said(said, Said::GoesTo(label)),
        _ => Ok(()),
    }
}

/// The arguments of a RaiseEvent.
fn push_event<'a>(
    said: &mut Vec<Said<'a>>,
    arguments: &'a Option<EventArguments>,
) -> Result<(), NoMemory>
    ensures { OnOk result (all_said said.new.items ≡ all_said said.old.items
        ++ plain.event_said (option_map views.event_arguments_view arguments.now)) }
{
    match arguments {
        Some(written) => push_said(said, Said::Arguments(&written.arguments)),
        None => Ok(()),
    }
}

/// What is printed, where it is written.
fn push_shown<'a>(said: &mut Vec<Said<'a>>, value: &'a Option<Expression>) -> Result<(), NoMemory>
    ensures { OnOk result (all_said said.new.items ≡ all_said said.old.items ++ plain.shown_said (option_map expressions.view value.now)) }
{
    match value {
        Some(value) => push_said(said, Said::Expression(value)),
        None => Ok(()),
    }
}

/// What is printed behind marks.
fn push_items<'a>(said: &mut Vec<Said<'a>>, items: &'a [PrintItem]) -> Result<(), NoMemory>
    ensures { OnOk result (all_said said.new.items ≡ all_said said.old.items
        ++ flat_map (λ i. plain.shown_said i.value) (map views.print_item_view items.now)) }
{
    for item in items {
        push_shown(said, &item.value)?;
    }
    Ok(())
}

/// A place and a value.
fn push_both<'a>(
    said: &mut Vec<Said<'a>>,
    place: &'a Expression,
    value: &'a Expression,
) -> Result<(), NoMemory>
    ensures { OnOk result (all_said said.new.items ≡ all_said said.old.items
        ++ (plain.expression (expressions.view place.now) ∷ plain.expression (expressions.view value.now) ∷ [])) }
{
    push_said(said, Said::Expression(place))?;
    push_said(said, Said::Expression(value))
}

/// A statement that is no single-line If, in a Static procedure or not.
pub fn push_simple<'a>(
    said: &mut Vec<Said<'a>>,
    statement: &'a SimpleStatement,
    is_static: bool,
) -> Result<(), NoMemory>
    ensures { OnOk result (all_said said.new.items ≡ all_said said.old.items ++ plain.simple_said is_static (views.simple_view statement.now)) }
{
    match statement {
        SimpleStatement::Variables(variables) => push_locals(
            said,
            &variables.variables,
            is_static || is_static_word(variables.word),
        ),
        SimpleStatement::Constants(constants) => push_local_constants(said, &constants.constants),
        SimpleStatement::Assignment { place, value, .. }
        | SimpleStatement::SetAssignment { place, value, .. } => push_both(said, place, value),
        SimpleStatement::CallPlace { place, .. } => push_said(said, Said::Called(place)),
        SimpleStatement::Call { target, arguments } => {
            push_said(said, Said::Called(target))?;
            push_said(said, Said::Arguments(arguments))
        }
        SimpleStatement::ReDim { arrays, .. } => push_arrays(said, arrays),
        SimpleStatement::Erase { places, .. } => push_places(said, places),
        SimpleStatement::GoTo { label, .. } | SimpleStatement::GoSub { label, .. } => {
            push_said(said, Said::GoesTo(label))
        }
        SimpleStatement::OnError { handling, .. } => push_handling(said, handling),
        SimpleStatement::Resume { target, .. } => push_target(said, target),
        SimpleStatement::RaiseEvent {
            event,
            arguments,
            ..
        } => {
            push_said(said, Said::Raises(event))?;
            push_event(said, arguments)
        }
        SimpleStatement::DebugPrint { first, others, .. } => {
            push_shown(said, first)?;
            push_items(said, others.as_slice())
        }
        SimpleStatement::BlockLine(line) => push_block(said, line),
        SimpleStatement::Return(_)
        | SimpleStatement::Exit { .. }
        | SimpleStatement::End(_)
        | SimpleStatement::Stop(_) => Ok(()),
    }
}
