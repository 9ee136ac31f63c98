//! S20: what must be constant and isn't, entry by entry and procedure by procedure.

ghost use Rattle.std.specs.Prelude.{◌≡◌, OnOk, map, flat_map, option_map};
ghost use Rattle.constant_values.specs.declared_names.specs.binder.specs.Constants as plain;
ghost use Rattle.constant_values.specs.declared_names.specs.binder.specs.Violations as violations;
ghost use Rattle.constant_values.specs.Rounds.{IsPlaced};
ghost use Rattle.constant_values.specs.Tables.{AreConstants, AreProjectValues};
ghost use Rattle.constant_values.specs.declared_names.specs.View.{entry_view, local_view, own_view, scope_view, written_view};
ghost use Rattle.said_parts.specs.View.{field_view};
ghost use Rattle.use_rules.specs.Found.{noted};
ghost use Rattle.vba_module.specs.Headers.{all_of, parameters_of};
ghost use Rattle.vba_expression.specs.View.{view};
ghost use Rattle.vba_tree.specs.View.{constant_view, declared_type_view, dims_view, listed_view, new_type_clause_view, parameter_view, parameters_view, variable_view};

use constant_values::declared_names::{Entry, Local, Own, Scope, What, Written};
use constant_values::{
    Constants, ProjectValues, constants_in, note_clause_faults, note_constant_faults,
    note_default_faults, note_dims_faults, note_member_faults, note_type_faults, own_values,
};
use said_parts::fields_of;
use std::alloc::Global;
use vba_base::{NoMemory, Place, Refusal};
use vba_expression::Expression;
use vba_tree::{
    Constant, DeclaredType, Dims, Listed, NewTypeClause, Parameter, Parameters, TypeMember,
    Variable,
};

/// Notes bounds of an array.
#[tactic(auto, using(use_rules::proofs::Noted::noted_broken))]
fn note_dims(
    alloc: Global,
    constants: Constants,
    dims: &Option<Dims>,
    least: &mut Option<Refusal>,
) -> Result<(), NoMemory>
    requires { AreConstants constants }
    ensures { OnOk result (least.new ≡ noted 20 least.old (plain.dims_faults (scope_view constants.entry.scope) (option_map dims_view dims.now))) }
{
    note_dims_faults(alloc, constants, dims, least)
}

/// Notes the length of a text.
#[tactic(auto, using(use_rules::proofs::Noted::noted_broken))]
fn note_type(
    alloc: Global,
    constants: Constants,
    of: &DeclaredType,
    least: &mut Option<Refusal>,
) -> Result<(), NoMemory>
    requires { AreConstants constants }
    ensures { OnOk result (least.new ≡ noted 20 least.old (plain.type_faults (scope_view constants.entry.scope) (declared_type_view of.now))) }
{
    note_type_faults(alloc, constants, of, least)
}

/// Notes the value of a constant.
#[tactic(auto, using(use_rules::proofs::Noted::noted_broken))]
fn note_constant(
    alloc: Global,
    constants: Constants,
    constant: &Constant,
    least: &mut Option<Refusal>,
) -> Result<(), NoMemory>
    requires { AreConstants constants }
    ensures { OnOk result (least.new ≡ noted 20 least.old (plain.constant_faults (scope_view constants.entry.scope) (constant_view constant.now))) }
{
    note_constant_faults(alloc, constants, constant, least)
}

/// Notes the value of a member of an Enum.
#[tactic(auto, using(use_rules::proofs::Noted::noted_broken))]
fn note_member(
    alloc: Global,
    constants: Constants,
    place: Place,
    value: Option<&Expression>,
    steps: usize,
    least: &mut Option<Refusal>,
) -> Result<(), NoMemory>
    requires { AreConstants constants }
    ensures { OnOk result (least.new ≡ noted 20 least.old (plain.member_faults (scope_view constants.entry.scope) place (option_map (λ e. view e.now) value.entry) steps)) }
{
    note_member_faults(alloc, constants, place, value, steps, least)
}

/// Notes the type and the default of a parameter.
#[tactic(auto, using(use_rules::proofs::Noted::noted_broken, use_rules::proofs::Noted::noted_append))]
fn note_parameter(
    alloc: Global,
    constants: Constants,
    parameter: &Parameter,
    least: &mut Option<Refusal>,
) -> Result<(), NoMemory>
    requires { AreConstants constants }
    ensures { OnOk result (least.new ≡ noted 20 least.old (violations.parameter_faults (scope_view constants.entry.scope) (parameter_view parameter.now))) }
{
    note_clause_faults(alloc, constants, &parameter.type_clause, least)?;
    note_default_faults(alloc, constants, parameter, least)
}

/// Notes the length of a variable's text.
fn note_variable_type(
    alloc: Global,
    constants: Constants,
    clause: &Option<NewTypeClause>,
    least: &mut Option<Refusal>,
) -> Result<(), NoMemory>
    requires { AreConstants constants }
    ensures { OnOk result (least.new ≡ noted 20 least.old (violations.variable_type_faults (scope_view constants.entry.scope) (option_map new_type_clause_view clause.now))) }
{
    match clause {
        Some(clause) => note_type(alloc, constants, &clause.declared_type, least),
        None => Ok(()),
    }
}

/// Notes the bounds and the length of a variable.
#[tactic(auto, using(use_rules::proofs::Noted::noted_append))]
fn note_variable(
    alloc: Global,
    constants: Constants,
    variable: &Variable,
    least: &mut Option<Refusal>,
) -> Result<(), NoMemory>
    requires { AreConstants constants }
    ensures { OnOk result (least.new ≡ noted 20 least.old (violations.variable_faults (scope_view constants.entry.scope) (variable_view variable.now))) }
{
    note_dims(alloc, constants, &variable.dims, least)?;
    note_variable_type(alloc, constants, &variable.type_clause, least)
}

/// Notes the bounds and the length of a field.
#[tactic(auto, using(use_rules::proofs::Noted::noted_append))]
fn note_field(
    alloc: Global,
    constants: Constants,
    field: &TypeMember,
    least: &mut Option<Refusal>,
) -> Result<(), NoMemory>
    requires { AreConstants constants }
    ensures { OnOk result (least.new ≡ noted 20 least.old (violations.field_faults (scope_view constants.entry.scope) (field_view field.now))) }
{
    note_dims(alloc, constants, &field.dims, least)?;
    note_type(alloc, constants, &field.type_clause.declared_type, least)
}

/// Notes the fields of a Type.
#[tactic(auto, using(use_rules::proofs::Noted::noted_append))]
fn note_fields(
    alloc: Global,
    constants: Constants,
    fields: &[&TypeMember],
    least: &mut Option<Refusal>,
) -> Result<(), NoMemory>
    requires { AreConstants constants }
    ensures { OnOk result (least.new ≡ noted 20 least.old (flat_map (violations.field_faults (scope_view constants.entry.scope)) (map (λ f. field_view f.now) fields.now))) }
{
    for field in fields {
        note_field(alloc, constants, *field, least)?;
    }
    Ok(())
}

/// Notes parameters.
#[tactic(auto, using(use_rules::proofs::Noted::noted_append))]
fn note_listed(
    alloc: Global,
    constants: Constants,
    list: &Listed<Parameter>,
    least: &mut Option<Refusal>,
) -> Result<(), NoMemory>
    requires { AreConstants constants }
    ensures { OnOk result (least.new ≡ noted 20 least.old (flat_map (violations.parameter_faults (scope_view constants.entry.scope)) (all_of (listed_view parameter_view list.now)))) }
{
    note_parameter(alloc, constants, &list.first, least)?;
    for next in &list.others {
        note_parameter(alloc, constants, &next.item, least)?;
    }
    Ok(())
}

/// Notes parameters, where they are written.
fn note_parameters(
    alloc: Global,
    constants: Constants,
    parameters: &Option<Parameters>,
    least: &mut Option<Refusal>,
) -> Result<(), NoMemory>
    requires { AreConstants constants }
    ensures { OnOk result (least.new ≡ noted 20 least.old (flat_map (violations.parameter_faults (scope_view constants.entry.scope)) (parameters_of (option_map parameters_view parameters.now)))) }
{
    match parameters {
        Some(
            Parameters {
                parameters: Some(list),
                ..
            },
        ) => note_listed(alloc, constants, list, least),
        _ => Ok(()),
    }
}

/// Notes an entry of a module.
fn note_entry(
    alloc: Global,
    constants: Constants,
    entry: Entry,
    least: &mut Option<Refusal>,
) -> Result<(), NoMemory>
    requires { AreConstants constants }
    ensures { OnOk result (least.new ≡ noted 20 least.old (violations.entry_faults (scope_view constants.entry.scope) (entry_view entry.entry))) }
{
    match entry.what {
        What::Variable(variable) => note_variable(alloc, constants, variable, least),
        What::Constant(constant) => note_constant(alloc, constants, constant, least),
        What::Member { value, steps } => {
            note_member(
                alloc,
                constants,
                entry.name.token.place,
                value,
                steps,
                least,
            )
        }
        What::Type(parts) => {
            let fields = fields_of(alloc, parts.slice())?;
            note_fields(alloc, constants, fields.as_slice(), least)
        }
        What::Event(event) => note_parameters(alloc, constants, &event.parameters, least),
        What::Enum | What::Procedure(_) => Ok(()),
    }
}

/// Notes entries of a module.
fn note_entries(
    alloc: Global,
    constants: Constants,
    entries: &[Entry],
    least: &mut Option<Refusal>,
) -> Result<(), NoMemory>
    requires { AreConstants constants }
    ensures { OnOk result (least.new ≡ noted 20 least.old (flat_map (violations.entry_faults (scope_view constants.entry.scope)) (map entry_view entries.now))) }
{
    for entry in entries {
        note_entry(alloc, constants, *entry, least)?;
    }
    Ok(())
}

/// Notes where entries of a module break S20.
pub fn note_constants(
    alloc: Global,
    scope: Scope,
    project: &ProjectValues,
    entries: &[Entry],
    least: &mut Option<Refusal>,
) -> Result<(), NoMemory>
    requires placed { IsPlaced (scope_view scope) }
    requires values { AreProjectValues project.now (scope_view scope).spaces }
    ensures { OnOk result (least.new ≡ noted 20 least.old (flat_map (violations.entry_faults (scope_view scope.entry)) (map entry_view entries.now))) }
{
    let own = own_values(alloc, project, scope)?;
    let constants = constants_in(scope, project, &own);
    note_entries(alloc, constants, entries, least)
}

/// Notes the length of a result's text.
fn note_result(
    alloc: Global,
    constants: Constants,
    written: Written,
    least: &mut Option<Refusal>,
) -> Result<(), NoMemory>
    requires { AreConstants constants }
    ensures { OnOk result (least.new ≡ noted 20 least.old (violations.result_faults (scope_view constants.entry.scope) (written_view written.entry))) }
{
    match &written.header.result_type {
        Some(clause) => note_type(alloc, constants, &clause.declared_type, least),
        None => Ok(()),
    }
}

/// Notes a name of a procedure.
fn note_own(
    alloc: Global,
    constants: Constants,
    own: Own,
    least: &mut Option<Refusal>,
) -> Result<(), NoMemory>
    requires { AreConstants constants }
    ensures { OnOk result (least.new ≡ noted 20 least.old (violations.own_faults (scope_view constants.entry.scope) (own_view own.entry))) }
{
    match own {
        Own::Variable { variable, .. } => note_variable(alloc, constants, variable, least),
        Own::Constant(constant) => note_constant(alloc, constants, constant, least),
        Own::Result(_) | Own::Parameter(_) | Own::Array { .. } | Own::Undeclared { .. } => Ok(()),
    }
}

/// Notes names of a procedure.
fn note_locals(
    alloc: Global,
    constants: Constants,
    locals: &[Local],
    least: &mut Option<Refusal>,
) -> Result<(), NoMemory>
    requires { AreConstants constants }
    ensures { OnOk result (least.new ≡ noted 20 least.old (flat_map (λ l. violations.own_faults (scope_view constants.entry.scope) l.own) (map local_view locals.now))) }
{
    for local in locals {
        note_own(alloc, constants, local.own, least)?;
    }
    Ok(())
}

/// Notes the header and the names of a procedure, of which these are the constants.
#[tactic(auto, using(use_rules::proofs::Noted::noted_append))]
fn note_procedure(
    alloc: Global,
    constants: Constants,
    written: Written,
    least: &mut Option<Refusal>,
) -> Result<(), NoMemory>
    requires { AreConstants constants }
    ensures { OnOk result (least.new ≡ noted 20 least.old (violations.procedure_faults (scope_view constants.entry.scope) (written_view written.entry))) }
{
    note_parameters(alloc, constants, &written.header.parameters, least)?;
    note_result(alloc, constants, written, least)?;
    note_locals(alloc, constants, constants.scope.locals, least)
}

/// Notes where a procedure breaks S20, in its own scope.
pub fn note_constants_inside(
    alloc: Global,
    scope: Scope,
    project: &ProjectValues,
    written: Written,
    least: &mut Option<Refusal>,
) -> Result<(), NoMemory>
    requires placed { IsPlaced (scope_view scope) }
    requires values { AreProjectValues project.now (scope_view scope).spaces }
    ensures { OnOk result (least.new ≡ noted 20 least.old (violations.procedure_faults (scope_view scope.entry) (written_view written.entry))) }
{
    let own = own_values(alloc, project, scope)?;
    let constants = constants_in(scope, project, &own);
    note_procedure(alloc, constants, written, least)
}
