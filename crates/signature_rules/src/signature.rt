//! The signatures of procedures and events.

ghost use Rattle.std.specs.Prelude.{◌≡◌, ◌==◌, ◌&&◌, [], ◌∷◌, ◌++◌, length, option_map, IfOk, OnOk};
ghost use Rattle.bound_declarations.specs.constant_values.specs.declared_names.specs.binder.specs.Storage as storage;
ghost use Rattle.bound_declarations.specs.Parameters.{next_items};
ghost use Rattle.bound_declarations.specs.constant_values.specs.Tables.{AreConstants};
ghost use Rattle.bound_declarations.specs.constant_values.specs.declared_names.specs.View.{scope_view, written_view};
ghost use Rattle.signature_rules.specs.Signatures as plain;
ghost use Rattle.signature_rules.specs.View.{passed_view, signature_view};
ghost use Rattle.vba_module.specs.Headers.{all_of, parameters_of};
ghost use Rattle.vba_tree.specs.View.{listed_view, parameter_view, parameters_view};

use crate::passed::{Passed, value_passed};
use bound_declarations::constant_values::declared_names::{Written, suffix_type};
use bound_declarations::constant_values::{Constants, clause_type, written_type};
use bound_declarations::{gives_value, is_by_val, takes_value};
use std::alloc::Global;
use vba_base::NoMemory;
use vba_tree::{Listed, Next, Parameter, Parameters};

/// How the argument of a parameter is passed. Of the value that a property is given the type alone counts.
fn passed(
    alloc: Global,
    constants: Constants,
    is_value: bool,
    parameter: &Parameter,
) -> Result<Passed, NoMemory>
    requires { AreConstants constants }
    ensures { IfOk result (λ made. passed_view made ≡ plain.passed (scope_view constants.entry.scope) is_value (parameter_view parameter.now)) }
{
    let of = clause_type(
        alloc,
        constants,
        parameter.name.suffix,
        &parameter.type_clause,
    )?;
    Ok(Passed {
        of,
        is_array: parameter.brackets.is_some(),
        is_by_value: !is_value && is_by_val(parameter.passing),
        is_optional: !is_value && parameter.optional_word.is_some(),
        is_param_array: !is_value && parameter.param_array_word.is_some(),
    })
}

/// Adds what was found.
#[tactic(auto, using(crate::proofs::Pushes::passed_push))]
fn push_passed(all: &mut Vec<Passed>, passed: Passed) -> Result<(), NoMemory>
    ensures { OnOk result (signature_view all.new.items ≡ signature_view all.old.items ++ passed_view passed ∷ []) }
{
    Ok(all.push(passed)?)
}

/// Adds a parameter.
fn push_parameter(
    alloc: Global,
    constants: Constants,
    is_value: bool,
    parameter: &Parameter,
    all: &mut Vec<Passed>,
) -> Result<(), NoMemory>
    requires { AreConstants constants }
    ensures { OnOk result (signature_view all.new.items
        ≡ signature_view all.old.items ++ plain.passed (scope_view constants.entry.scope) is_value (parameter_view parameter.now) ∷ []) }
{
    let passed = passed(alloc, constants, is_value, parameter)?;
    push_passed(all, passed)
}

/// Does a parameter take the value that a property is given? The last one may.
fn takes_it(takes_value: bool, behind: &[Next<Parameter>]) -> bool
    ensures { result ≡ (takes_value && (length behind.now == 0)) }
{
    takes_value && behind.is_empty()
}

/// Adds a parameter before others.
#[tactic(auto, using(crate::proofs::Pushes::passed_step))]
fn push_next(
    alloc: Global,
    constants: Constants,
    takes_value: bool,
    parameter: &Parameter,
    behind: &[Next<Parameter>],
    all: &mut Vec<Passed>,
) -> Result<(), NoMemory>
    requires { AreConstants constants }
    ensures { OnOk result (signature_view all.new.items
        ++ plain.all_passed (scope_view constants.entry.scope) takes_value (next_items behind.now)
        ≡ signature_view all.old.items
        ++ plain.all_passed (scope_view constants.entry.scope) takes_value (parameter_view parameter.now ∷ next_items behind.now)) }
{
    let is_value = takes_it(takes_value, behind);
    push_parameter(alloc, constants, is_value, parameter, all)?;
    Ok(())
}

/// Adds parameters, of which the last may take the value that a property is given.
fn push_listed(
    alloc: Global,
    constants: Constants,
    takes_value: bool,
    list: &Listed<Parameter>,
    all: &mut Vec<Passed>,
) -> Result<(), NoMemory>
    requires { AreConstants constants }
    ensures { OnOk result (signature_view all.new.items
        ≡ signature_view all.old.items
        ++ plain.all_passed (scope_view constants.entry.scope) takes_value (all_of (listed_view parameter_view list.now))) }
{
    let mut left = list.others.as_slice();
    push_next(alloc, constants, takes_value, &list.first, left, all)?;
    'parameters: while let [next, behind @ ..] = left {
        push_next(alloc, constants, takes_value, &next.item, behind, all)?;
        left = behind;
    }
    Ok(())
}

/// How the arguments of parameters are passed, of which the last may take the value that a property is given.
pub fn all_passed(
    alloc: Global,
    constants: Constants,
    takes_value: bool,
    parameters: &Option<Parameters>,
) -> Result<Vec<Passed>, NoMemory>
    requires { AreConstants constants }
    ensures { IfOk result (λ all. signature_view all.items
        ≡ plain.all_passed (scope_view constants.entry.scope) takes_value (parameters_of (option_map parameters_view parameters.now))) }
{
    let mut all = Vec::new(alloc);
    match parameters {
        Some(
            Parameters {
                parameters: Some(list),
                ..
            },
        ) => push_listed(alloc, constants, takes_value, list, &mut all)?,
        _ => {}
    }
    Ok(all)
}

/// What a Function or a Property Get gives.
fn result_passed(alloc: Global, constants: Constants, written: Written) -> Result<Passed, NoMemory>
    requires { AreConstants constants }
    ensures { IfOk result (λ made. passed_view made ≡ plain.result_passed (scope_view constants.entry.scope) (written_view written.entry)) }
{
    match &written.header.result_type {
        None => {
            let of = suffix_type(written.header.name.suffix);
            Ok(value_passed(of, false))
        }
        Some(result) => {
            let of = written_type(alloc, constants, &result.declared_type)?;
            Ok(value_passed(of, result.brackets.is_some()))
        }
    }
}

/// Adds what a procedure gives, where it gives something.
#[tactic(auto, using(crate::proofs::Pushes::append_nothing))]
fn push_result(
    alloc: Global,
    constants: Constants,
    written: Written,
    all: &mut Vec<Passed>,
) -> Result<(), NoMemory>
    requires { AreConstants constants }
    ensures { OnOk result (signature_view all.new.items
        ≡ signature_view all.old.items ++ plain.result_if (storage.gives_value (written_view written.entry).kind) (scope_view constants.entry.scope) (written_view written.entry)) }
{
    if !gives_value(written.header.words) {
        return Ok(());
    }
    let passed = result_passed(alloc, constants, written)?;
    push_passed(all, passed)
}

/// The signature of a procedure, by its own names.
pub fn signature(
    alloc: Global,
    constants: Constants,
    written: Written,
) -> Result<Vec<Passed>, NoMemory>
    requires { AreConstants constants }
    ensures { IfOk result (λ all. signature_view all.items ≡ plain.signature (scope_view constants.entry.scope) (written_view written.entry)) }
{
    let takes_value = takes_value(written.header.words);
    let mut all = all_passed(alloc, constants, takes_value, &written.header.parameters)?;
    push_result(alloc, constants, written, &mut all)?;
    Ok(all)
}
